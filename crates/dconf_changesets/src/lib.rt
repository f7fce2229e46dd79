//! What dconf's client does with changes, beside the store: what a set says of each key, by [`effect_of`] and [`shared_within`]; what of a
//! set makes a difference to a database, by [`differs`]; where the newest word of a key is found, by [`asked_after`]; who looks at the files,
//! by [`look_due`]; what becomes of a change whose caller waits for it, by [`change_after`], or doesn't, by [`fast_after`]; and what is told, by
//! [`is_said`] and [`is_unmade`].
//!
//! Nothing is kept here: who asks keeps the sets, and does as it is told.
#![tactic(auto)]

ghost use Rattle.dconf_changesets.specs.Above.{NoDirectoryIsPassedOver};
ghost use Rattle.dconf_changesets.specs.Asking.{NoLookIsMissed, TheNewestIsAsked, ToldCountsForWhoReads};
ghost use Rattle.dconf_changesets.specs.Differences.{KeptIsEnough};
ghost use Rattle.dconf_changesets.specs.Fast.{WhatIsToldWaits};
ghost use Rattle.dconf_changesets.specs.Making.{MadeMeansOnTheDisk, OthersAreToldFirst, WhatIsLostIsToldAgain, WhatIsNotAskedDoesNotCount};
ghost use Rattle.dconf_changesets.specs.Rows.{AKeyStandsForItself, FoundIsSaid, LaterCounts};
ghost use Rattle.dconf_changesets.specs.Saying.{StoredCountsInSilence, TheSameIsSaid};

mod above;
mod asking;
mod differences;
mod fast;
mod making;
mod rows;
mod saying;

pub use above::shared_within;
pub use asking::{LookDue, LookKnown, asked_after, look_due, look_number};
pub use differences::{Base, differs};
pub use fast::{FastKnown, FastTask, fast_after, fast_number};
pub use making::{
    ChangeKnown, ChangeTask, Tried, TriedAsk, change_after, change_number, is_unmade, tried_asks,
    tried_number, waits_again,
};
pub use rows::{Effect, effect_number, effect_of};
pub use saying::{Said, is_said, is_same_word};

/// After a set of changes was changed by another one, each key's word is the other one's if it has one, and else as before.
pub fn later_counts()
    ensures { LaterCounts }
{}

/// What is found of a key, by its own row or else by that of a directory above it, is what was said of it last.
pub fn found_is_said()
    ensures { FoundIsSaid }
{}

/// With what is kept of changes each key of a database has the value that it has with all of them.
pub fn kept_is_enough()
    ensures { KeptIsEnough }
{}

/// Of what covers a path none is passed over: it is the path, or one of the directories in which that is.
pub fn no_directory_is_passed_over()
    ensures { NoDirectoryIsPassedOver }
{}

/// The first set that says something of a key says its newest word.
pub fn the_newest_is_asked()
    ensures { TheNewestIsAsked }
{}

/// A change whose caller waits for it is made exactly if all of it is on the disk, after what was asked for before it.
pub fn made_means_on_the_disk()
    ensures { MadeMeansOnTheDisk }
{}

/// What others changed is told before what is new by a change, and before that is over; of what the change says nothing is told then if it
/// is put.
pub fn others_are_told_first()
    ensures { OthersAreToldFirst }
{}

/// A change whose caller doesn't wait for it is refused as a whole, or waits before anybody is told of it; and of what is new by it everybody is.
pub fn what_is_told_waits()
    ensures { WhatIsToldWaits }
{}

/// Who reads goes without a look at the files only where what was seen is what they are; and no look is left out for good.
pub fn no_look_is_missed()
    ensures { NoLookIsMissed }
{}

/// Of an edit that was tried to write, and isn't told again, all is so, or it goes on waiting.
pub fn what_is_lost_is_told_again()
    ensures { WhatIsLostIsToldAgain }
{}

/// Of an edit that was tried, what isn't asked doesn't count: whatever the answer were, it is made or not as without it. And what counts is asked.
pub fn what_is_not_asked_does_not_count()
    ensures { WhatIsNotAskedDoesNotCount }
{}

/// What may have been told of the files counts for who reads alone, where it is told of all that happens to them.
pub fn told_counts_for_who_reads()
    ensures { ToldCountsForWhoReads }
{}

/// What the store has of a change doesn't count where a set that waits says something of it.
pub fn stored_counts_in_silence()
    ensures { StoredCountsInSilence }
{}

/// The reset of a key stands for no other row.
pub fn a_key_stands_for_itself()
    ensures { AKeyStandsForItself }
{}

/// Each key of a change that says nothing new has its value already, by what is stored and by what waits.
pub fn the_same_is_said()
    ensures { TheSameIsSaid }
{}
