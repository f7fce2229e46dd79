//! What is watched of the names on the way to a file, and what is heard of them.
//!
//! A path is gone through name by name. What stands at each says what is watched there, by [`NameWatch`], and where the path goes on,
//! by [`Way`]. What happens to a watched name then is [`Heard`] as a change of the file, or as a sign that other files may be the
//! store's, or not at all. Nothing is watched here: whoever watches says what it found, and does as it is told.
//!
//! Programs that are dconf's watch a flag in place of the file: what is done about it is [`flag_after`].
#![tactic(auto)]

ghost use Rattle.dconf_watches.specs.Flags.{NoReaderIsLost};
ghost use Rattle.dconf_watches.specs.Rounds.{RoundsEnd};
ghost use Rattle.dconf_watches.specs.WatchLaws.{AllThatCountsIsAskedFor, AllThatCountsIsHeard, AllThatIsHeardIsAskedFor, EachBitIsRead, EachFileIsFollowed, NobodyElseIsHeard, TheEndIsWatched, WritersBesideWakeNobody};

mod event;
mod flag;
mod inotify;
mod name;
mod numbers;
mod rounds;

pub use event::{Event, Heard, Of, asked_anew, heard_if, louder, meaning};
pub use flag::{Flagging, flag_after, flag_number};
pub use inotify::{asked_of, asked_of_file, event_in, found_by, is_file_missed, seen_by};
pub use name::{
    Found, NameWatch, Way, heard_as, is_busy, is_busy_in, is_lenient, is_missed, is_needed,
    keeps_profile, minds_much, watch_at, watch_of, watches_store, way_at, way_of,
};
pub use numbers::{WatchedName, asked_anew_number, heard_number, watched_name};
pub use rounds::{AfterRound, Sight, WatchRounds};

/// Where a path ends, what comes to that name is watched, and so is each link. Only in a folder in which much happens, /etc or that of the flags of dconf's
/// readers, and which is not minded, is a missing name not waited for.
pub fn the_end_is_watched()
    ensures { TheEndIsWatched }
{}

/// Whatever happens to a file's own name is heard, but for what is made there and not yet written; and whatever makes another path of
/// it is heard as such.
pub fn all_that_counts_is_heard()
    ensures { AllThatCountsIsHeard }
{}

/// What happens to other names is not heard.
pub fn nobody_else_is_heard()
    ensures { NobodyElseIsHeard }
{}

/// Each bit of inotify is read as what its header says of it.
pub fn each_bit_is_read()
    ensures { EachBitIsRead }
{}

/// Whatever would be heard is asked for, of the folder or of the file that has the name.
pub fn all_that_is_heard_is_asked_for()
    ensures { AllThatIsHeardIsAskedFor }
{}

/// Whatever counts at a file's own name is asked for.
pub fn all_that_counts_is_asked_for()
    ensures { AllThatCountsIsAskedFor }
{}

/// Who makes, writes and closes a file beside one that is there wakes nobody: of its folder none of that is asked for.
pub fn writers_beside_wake_nobody()
    ensures { WritersBesideWakeNobody }
{}

/// The file that has the name is watched, whichever that is by now: another that comes there, and one that may be read at last.
pub fn each_file_is_followed()
    ensures { EachFileIsFollowed }
{}

/// All is watched only if the last round found nothing more and missed nothing that is needed; and after 64 rounds there is no other one.
pub fn rounds_end()
    ensures { RoundsEnd }
{}

/// The name of the flag goes only once it is set, and by who has the turn; and who hasn't, and can't have the lock, sets it all the same. That is said of
/// the order of the tasks: what a reader of dconf's does meanwhile is no part of it.
pub fn no_reader_is_lost()
    ensures { NoReaderIsLost }
{}
