//! What a store shows while edits wait to be written: where the value of a key is found, by [`found_by`], which edits
//! may be made, by [`may_be_made`], and which paths stand for which, by [`covers`].
//!
//! Nothing is kept here. Whoever asks says what it knows of the key, and finds the value where it is told.
#![tactic(auto)]

ghost use Rattle.dconf_seen.specs.Allowed.{EditsAreAllowed};
ghost use Rattle.dconf_seen.specs.Covering.{LockedIsCovered};
ghost use Rattle.dconf_seen.specs.Reading.{ReadIsFound};
ghost use Rattle.dconf_seen.specs.Waiting.{ChangedKeysAreAsked, LocksHideWhatWaits, OwnIsFound, SeenIsFound, WaitingIsSeenAsMade};

mod allowing;
mod covering;
mod reading;
mod seen;

pub use allowing::may_be_made;
pub use covering::{covers, meets};
pub use reading::{Found, Known, found_by, found_number};
pub use seen::{Own, Shown, Word, own_by, shown_as};

/// What is seen of a key beside an edit that waits is found where [`shown_as`] says.
pub fn seen_is_found()
    ensures { SeenIsFound }
{}

/// The user's own value is found where [`own_by`] says.
pub fn own_is_found()
    ensures { OwnIsFound }
{}

/// What waits is seen as it will be: as the store shows each path once the change is made.
pub fn waiting_is_seen_as_made()
    ensures { WaitingIsSeenAsMade }
{}

/// A lock that comes while an edit waits hides the edit.
pub fn locks_hide_what_waits()
    ensures { LocksHideWhatWaits }
{}

/// A key that is seen otherwise than before had an edit that waited, or has one, or its databases show something else: so those are
/// all that have to be asked.
pub fn changed_keys_are_asked()
    ensures { ChangedKeysAreAsked }
{}

/// A path is locked exactly if a lock covers it that a database from the second on has.
pub fn locked_is_covered()
    ensures { LockedIsCovered }
{}

/// What is read is found where [`found_by`] says, by whoever reads: who asks for the setting, for the user's own value, for the default, or
/// for both of these, of which there is nothing.
pub fn read_is_found()
    ensures { ReadIsFound }
{}

/// An edit may be made, as [`may_be_made`] says, exactly if a store takes it.
pub fn edits_are_allowed()
    ensures { EditsAreAllowed }
{}
