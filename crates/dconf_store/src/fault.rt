//! Why a store has no answer.
ghost use Rattle.std.specs.Prelude.{◌≡◌};
ghost use Rattle.dconf_store.specs.declared.fault.StoreFlaw.TheVariants as flaws;

use dconf_engine::{BadDatabase, ChangeFlaw};
use dconf_layers::DatabaseFault;
use gv_view::TooLarge;
use gvdb_write::TooBig;
use refused::Refused;
use std::error::Error;
use std::fmt;

/// Why a store has no answer.
pub type StoreFault = Refused<StoreFlaw>;

/// What is at fault in a store: the first of these that is so, in this order. It is printed as its name, with the index
/// of what is at fault and why.
#[derive(Clone, Copy, Debug, PartialEq, Eq)]
pub enum StoreFlaw {
    /// The database of this index, counted from 0, is no sound one.
    BadDatabase(usize, DatabaseFault),
    /// The change of this index, counted from 0, is refused.
    Refused(usize, ChangeFlaw),
    /// The user's database would have over 4,294,967,295 bytes.
    TooBig,
    /// The value is more than 128 levels deep.
    TooLarge,
}

impl fmt::Display for StoreFlaw {
    ghost use Rattle.std.specs.Prelude.{Some};
    ghost use Rattle.dconf_store.specs.Faults.{store_fault_text};

    ghost output = { λ fault. Some (store_fault_text fault) };

    fn fmt<W: fmt::Write>(&self, f: &mut fmt::Formatter<W>) -> fmt::Result {
        match self {
            StoreFlaw::BadDatabase(i, fault) => write!(f, "BadDatabase {i}: {fault}"),
            StoreFlaw::Refused(i, fault) => write!(f, "Refused {i}: {fault}"),
            StoreFlaw::TooBig => f.write_str("TooBig"),
            StoreFlaw::TooLarge => f.write_str("TooLarge"),
        }
    }
}

impl Error for StoreFlaw {}

impl From<BadDatabase> for StoreFlaw {
    ghost from_gives = { λ bad flaw. flaw ≡ flaws.BadDatabase bad.0 bad.1 };

    fn from(bad: BadDatabase) -> StoreFlaw {
        StoreFlaw::BadDatabase(bad.0, bad.1)
    }
}

impl From<TooBig> for StoreFlaw {
    ghost from_gives = { λ _ flaw. flaw ≡ flaws.TooBig };

    fn from(_fault: TooBig) -> StoreFlaw {
        StoreFlaw::TooBig
    }
}

impl From<TooLarge> for StoreFlaw {
    ghost from_gives = { λ _ flaw. flaw ≡ flaws.TooLarge };

    fn from(_fault: TooLarge) -> StoreFlaw {
        StoreFlaw::TooLarge
    }
}
