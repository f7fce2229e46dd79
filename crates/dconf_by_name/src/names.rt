//! The name by which the program was run.
ghost use Rattle.std.specs.Prelude.{◌≡◌, map, string_bytes};
ghost use Rattle.dconf_by_name.specs.Names.{is_dconf, is_run_as_dconf};

/// Whether the first word, the name of the program, is `dconf` or a path that ends in it.
pub fn is_run_as_dconf(words: &[String]) -> bool
    ensures { result ≡ is_run_as_dconf (map string_bytes words.now) }
{
    match words.first() {
        Some(name) => is_dconf(name.as_str()),
        None => false,
    }
}

fn is_dconf(name: &str) -> bool
    ensures { result ≡ is_dconf name.now }
{
    name == "dconf" || name.as_bytes().ends_with(b"/dconf")
}
