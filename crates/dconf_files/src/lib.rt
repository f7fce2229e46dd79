//! What files are, by what the host says of them: whether a file is the one that was read, by [`same_file`], whose a file is that
//! takes another's place, by [`owner_and_bits`]; who may take a folder's lock, by [`lock_bits`]; and how what was made becomes whose it is to be,
//! by [`handed_after`].
//!
//! Nothing is kept here, and nothing is asked of the host. Each call is over plain numbers.
#![tactic(auto)]

ghost use Rattle.dconf_files.specs.Courses.{SameHoldsTheSame};
ghost use Rattle.dconf_files.specs.Handings.{NobodyGainsFirst};
ghost use Rattle.dconf_files.specs.Locks.{WhoWritesLocks};
ghost use Rattle.dconf_files.specs.Owners.{NobodyGains};

mod handing;
mod lock;
mod owner;
mod stamp;

pub use handing::{Handing, MadeFile, MadeWhat, handed_after, handing_numbers};
pub use lock::lock_bits;
pub use owner::{FileOwner, NewFile, NewOwner, OldFile, bits_for, owner_and_bits};
pub use stamp::{FileStamp, FileTime, Sameness, same_file, sameness_number};

/// A file that is said to be the one that was read holds what was read of it, on a host that notes when a file changes.
pub fn same_holds_the_same()
    ensures { SameHoldsTheSame }
{}

/// A new file gives nobody a right that the old one did not, but its owner; and root gives it only to whom it was read from.
pub fn nobody_gains()
    ensures { NobodyGains }
{}

/// Whoever may write in a folder may take its lock, and nobody else.
pub fn who_writes_locks()
    ensures { WhoWritesLocks }
{}

/// A file that is made in another group than its own gives nobody a right that it will not, not for a moment.
pub fn nobody_gains_first()
    ensures { NobodyGainsFirst }
{}
