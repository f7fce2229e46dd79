//! Why a change is refused.
ghost use Rattle.std.specs.Prelude.{◌≡◌};

use gv_view::TooLarge;
use refused::Refused;
use std::error::Error;
use std::fmt;

/// Why a change is refused.
pub type ChangeFault = Refused<ChangeFlaw>;

/// Why a change may not be made: the first of these that is so, in this order. It is printed as its name.
#[derive(Clone, Copy, Debug, PartialEq, Eq)]
pub enum ChangeFlaw {
    /// The profile has no user's database.
    NotWritable,
    /// A path is locked: that of the row of this number, the first such. Where there are no rows it is 0.
    Locked(usize),
    /// A value is 128 deep, or has over 4,294,967,295 bytes as it is stored.
    TooLarge,
}

impl fmt::Display for ChangeFlaw {
    ghost use Rattle.std.specs.Prelude.{Some};
    ghost use Rattle.dconf_engine.specs.ChangeFaults.{change_fault_text};

    ghost output = { λ fault. Some (change_fault_text fault) };

    fn fmt<W: fmt::Write>(&self, f: &mut fmt::Formatter<W>) -> fmt::Result {
        f.write_str(match self {
            ChangeFlaw::NotWritable => "NotWritable",
            ChangeFlaw::Locked(_) => "Locked",
            ChangeFlaw::TooLarge => "TooLarge",
        })
    }
}

impl Error for ChangeFlaw {}

impl From<ChangeFlaw> for ChangeFault {
    ghost use Rattle.refused.specs.declared.Refused.TheVariants.{Fault};

    ghost from_gives = { λ flaw e. e ≡ Fault flaw };

    fn from(flaw: ChangeFlaw) -> ChangeFault {
        Refused::Fault(flaw)
    }
}

impl From<TooLarge> for ChangeFlaw {
    ghost use Rattle.dconf_engine.specs.declared.change_fault.ChangeFlaw.TheVariants as flaws;

    ghost from_gives = { λ _ flaw. flaw ≡ flaws.TooLarge };

    fn from(_fault: TooLarge) -> ChangeFlaw {
        ChangeFlaw::TooLarge
    }
}
