//! A change around a turn: what is asked before there are bytes to write, by [`Making`]; what its program has when it is over,
//! by [`ending_of`], and is told, by [`sentence_of`]; how its file is looked at before, and gets its names, by [`new_look`] and [`renamed_of`]; whether
//! it is on the disk, by [`settling_after`]; and what is known of it, and of others' changes, from one to the next, by
//! [`StoreKnown`].
//!
//! Nothing is kept here. Whoever asks says what it knows, and does as it is told.
#![tactic(auto)]

ghost use Rattle.dconf_making.specs.Endings.{EndingsAreSo};
ghost use Rattle.dconf_making.specs.Knowing.{NothingKnownIsLost};
ghost use Rattle.dconf_making.specs.Making.{NothingHalfNoted, NothingUnexpected};
ghost use Rattle.dconf_making.specs.Settling.{SettledMeansOnDisk};

mod ending;
mod knowing;
mod making;
mod renamed;
mod sentence;
mod settling;

pub use ending::{DconfdbEnding, Ending, Newest, Told, ending_by, ending_of};
pub use knowing::{Happening, StoreKnown};
pub use making::{Ask, Found, Making};
pub use renamed::{NewLook, Renamed, new_look, renamed_of};
pub use sentence::{FaultMet, Says, Sentence, says_number, says_of, sentence_of};
pub use settling::{Settling, SettlingKnown, number_of_settling, settling_after};

/// The newest settings are those that the file holds, and no fault is told only where that is on the disk.
pub fn endings_are_so()
    ensures { EndingsAreSo }
{}

/// Nothing is written that is not as expected, or that is all left out; and what is there already only after a change that failed.
pub fn nothing_unexpected_is_written()
    ensures { NothingUnexpected }
{}

/// What was set counts as noted exactly where notes are written that have all of it; else its program knows what it knew.
pub fn nothing_is_half_noted()
    ensures { NothingHalfNoted }
{}

/// It is known to be on the disk exactly if it was known or noted before, or was brought there now, and is the same file. Nobody is told that it
/// isn't, unless it couldn't be brought there.
pub fn settled_means_on_disk()
    ensures { SettledMeansOnDisk }
{}

/// What a store knows is lost by nothing but what ends it: news by being told, what others changed by a note, a change that is perhaps made by a
/// look that finds another file or by a later one that is made, and that one may not be on the disk by one that is.
pub fn nothing_known_is_lost()
    ensures { NothingKnownIsLost }
{}
