//! What becomes of a change: when it is asked for, beside what waits and what is stored, by [`entry_of`]; and when the host fails, by
//! [`class_of`] of its kind, and to some calls by [`answer_of`]. Which kind an errno is of says [`kind_of`].
//!
//! Nothing is kept here. Whoever asks says what it knows, and does as it is told.
#![tactic(auto)]

ghost use Rattle.dconf_verdicts.specs.Answers.{EachHasOneAnswer};
ghost use Rattle.dconf_verdicts.specs.Brought.{NamesFollowBytes};
ghost use Rattle.dconf_verdicts.specs.Entries.{NewestIsKept};
ghost use Rattle.dconf_verdicts.specs.Faults.{EachIsOne, OnlyFinalDrops};
ghost use Rattle.dconf_verdicts.specs.Standings.{EachIsSafe};

mod answers;
mod brought;
mod entry;
mod errnos;
mod faults;
mod names;
mod standing;
mod told;
mod ways;

pub use answers::{FaultAnswer, FileCall, answer_number, answer_of};
pub use brought::{Bring, bring_after, bring_number};
pub use entry::{Entry, NewEdit, entry_number, entry_of, is_news, is_there};
pub use errnos::kind_of;
pub use faults::{
    ChangeFault, FaultClass, FaultKind, Verdict, class_of, is_files_own, verdict_number, verdict_of,
};
pub use standing::{Purpose, Seen, Standing, standing_numbers, standing_of};
pub use told::{Told, is_list_refused, told_code, told_of};
pub use ways::name_synced;

/// A change is refused only where it sets what may not be written. Else it waits, if anything of it may be written: also where it says
/// what waits, or is there, already.
pub fn the_newest_is_kept()
    ensures { NewestIsKept }
{}

/// A fault is the file's own, or passes; and none is both.
pub fn each_fault_is_one()
    ensures { EachIsOne }
{}

/// What waits is refused for a fault exactly if that is final: a key that may not be written, a value that can't be, no right to the file.
/// Never is anything dropped because a disk is full or fails, or because descriptors or memory are short.
pub fn only_a_final_fault_drops()
    ensures { OnlyFinalDrops }
{}

/// Each fault of a call has one answer. Whoever gives the new file its name is unsure after each fault by which the host may have done it,
/// and after no other; only who locks finds a lock taken, and only who opens finds a lease.
pub fn each_call_has_one_answer()
    ensures { EachHasOneAnswer }
{}

/// Only a regular file is read, or is a lock; a lock that is had has its name, and no other; root follows no link that another could have
/// put there; and a folder's name is on the disk only where the host says so.
pub fn each_file_is_safe()
    ensures { EachIsSafe }
{}

/// Nothing is made in a folder before its own name is on the disk; the bytes of a file are there before its name, and that before anybody
/// is told so.
pub fn names_follow_bytes()
    ensures { NamesFollowBytes }
{}
