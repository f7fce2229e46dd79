//! How a lock is taken that others may have: how long it is waited for, by a [`LockWait`], and what a try does, by a [`TakingRecord`].
//!
//! Nothing is opened or locked here. Each says its next step; its caller carries that out and gives the answer, until it is over. They are a
//! few numbers, take no memory, and can be copied.
#![tactic(auto)]

ghost use Rattle.dconf_waits.specs.TakingLaws.{EachTryEnds, ForksArePausedFor, NothingIsMadeUnasked};
ghost use Rattle.dconf_waits.specs.WaitLaws.{HoweverLongItWaits};

mod taking;
mod wait;
mod wait_record;

pub use taking::TakingRecord;
pub use wait::{LockWait, WaitAnswer, WaitEnd, WaitStep};
pub use wait_record::WaitRecord;

/// Whatever is answered, a wait begins with a try, pauses between two tries at a lock that others have, says that it is had only
/// where a try had it, and gives up only where the time or the tries have run out.
pub fn however_long_it_waits()
    ensures { HoweverLongItWaits }
{}

/// Whatever is answered, a try to take a lock is over after at most 32,000 answers: the lock is had, others have it, or it isn't had, for an
/// errno.
pub fn each_try_ends()
    ensures { EachTryEnds }
{}

/// Who may make nothing takes the lock that is there, or none: no folder and no file is made, and nothing is brought to the disk.
pub fn nothing_is_made_unasked()
    ensures { NothingIsMadeUnasked }
{}

/// While another thread forks, or is about to have forks heeded, a thread pauses before it opens all anew.
pub fn forks_are_paused_for()
    ensures { ForksArePausedFor }
{}
