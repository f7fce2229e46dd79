//! Files as those who noted what they set left them, in bytes that programs share: record after record, the newest
//! first. Whoever finds a file as it was left so knows that each change of it is noted, and maybe that it is on the disk. When another one was
//! changed says [`changed_at`], and a time as one number [`nanoseconds`].
//!
//! The bytes are anybody's. No call takes memory, and none keeps anything.
#![tactic(auto)]

ghost use Rattle.dconf_left.specs.Laws.{LeftIsFound, OthersStay};

mod changes;
mod files;
mod numbers;
mod putting;
mod states;

/// So many files that were left are kept in a folder's lock.
pub const MOST_LEFT: usize = 64;

pub use changes::{changed_at, nanoseconds};
pub use numbers::{name_number, number_of_bytes, value_number};
pub use putting::with_left;
pub use states::{LeftState, left_state, state_number};

/// A file that was put in front is found, with whether it is on the disk.
pub fn what_is_left_is_found()
    ensures { LeftIsFound }
{}

/// All other files are found as before, but for those that went as there were too many.
pub fn others_stay()
    ensures { OthersStay }
{}
