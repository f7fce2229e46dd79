//! Where GIO is told that the module's backend stands.
ghost use Rattle.std.specs.Prelude.{◌≡◌};
ghost use Rattle.dconf_rounds.specs.Backends.{priority};

/// GIO takes the backend of the highest priority, where the environment names none: dconf's has 100.
const ABOVE_DCONF: u32 = 110;

const BELOW_ALL_OTHERS: u32 = 0;

/// GIO's priority of the module's backend: it stands in front of dconf's if an administrator's file is there that makes it the default, and else
/// behind all others.
pub fn priority(is_default: bool) -> u32
    ensures { result ≡ priority is_default }
{
    if is_default {
        ABOVE_DCONF
    } else {
        BELOW_ALL_OTHERS
    }
}
