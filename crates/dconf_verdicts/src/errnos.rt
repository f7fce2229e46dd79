//! Which kind an errno is of, by the numbers of Linux.
ghost use Rattle.std.specs.Prelude.{◌≡◌};
ghost use Rattle.dconf_verdicts.specs.Errnos.{kind_of};

use crate::faults::FaultKind;

/// The kind of a fault of that errno. Each number has one.
pub fn kind_of(errno: u32) -> FaultKind
    ensures { result ≡ kind_of errno }
{
    match errno {
        1 | 13 => FaultKind::Rights,
        30 => FaultKind::ReadOnly,
        20 | 22 | 36 | 40 => FaultKind::Name,
        6 | 19 | 21 | 75 => FaultKind::Kind,
        74 | 117 => FaultKind::Damage,
        12 | 23 | 24 | 37 => FaultKind::Scarce,
        4 | 116 => FaultKind::Moment,
        27 | 28 | 122 => FaultKind::Full,
        5 => FaultKind::Disk,
        2 => FaultKind::Missing,
        31 | 38 | 95 => FaultKind::Unsupported,
        11 => FaultKind::Wait,
        _ => FaultKind::Other,
    }
}
