//! With which status `lint` ends.
ghost use Rattle.std.specs.Prelude.{◌≡◌};
ghost use Rattle.dconf_options.specs.Statuses.{lint_status};

/// 1 if something was found, or what was found couldn't be written; else 0.
pub fn lint_status(found: usize, is_written: bool) -> u32
    ensures { result ≡ lint_status found is_written }
{
    if found > 0 || !is_written {
        return 1;
    }
    0
}
