//! What comes of turns: no older set overwrites a newer one, and what is made together is made whole. Nothing is computed here.
ghost use Rattle.dconf_times.specs.Leaving.{NoOlderWins};
ghost use Rattle.dconf_times.specs.Moments.{MomentsAreTimed};
ghost use Rattle.dconf_times.specs.Noted.{NoneIsLater};
ghost use Rattle.dconf_times.specs.Resets.{MomentsAreKept};
ghost use Rattle.dconf_times.specs.Room.{NoneIsForgotten};
ghost use Rattle.dconf_times.specs.Seeing.{TheLatestNoteCounts};
ghost use Rattle.dconf_times.specs.Turns.{IsWhole, LatestStands, OneCounts};

/// What stands at a key after any turns is the latest of all that was to be written there, by
/// whichever program and in whichever turn; but for edits that were left out with an overtaken one of
/// their change.
pub fn the_latest_stands()
    ensures { LatestStands }
{}

/// No edit of a change by itself, of one edit, is left out for another one's sake.
pub fn one_edit_counts()
    ensures { OneCounts }
{}

/// All edits of a change are written, or none is.
pub fn a_change_is_whole()
    ensures { IsWhole }
{}

/// No edit is written over a newer one that is noted: what is left out by [`leave_out`](crate::leave_out)
/// and what isn't. A guess alone leaves out nothing of a program that knows better, and a change is
/// left out as a whole.
pub fn no_older_edit_wins()
    ensures { NoOlderWins }
{}

/// The times of a program's moments, which are in order and never to come, and no earlier than what it noted; and the same by
/// whichever program, as long as nobody sets the clock.
pub fn moments_are_timed()
    ensures { MomentsAreTimed }
{}

/// Of what goes where notes are too many it is noted that it was set by then: nothing older wins.
pub fn none_is_forgotten()
    ensures { NoneIsForgotten }
{}

/// A note says what was left at a path only while no later one is of the path, or of a directory above it.
pub fn the_latest_note_counts()
    ensures { TheLatestNoteCounts }
{}

/// A change that waits keeps the moment in which it was asked for, but if it has to do with a directory that is reset with it. That is reset
/// in the turn, and what is set in it is no earlier.
pub fn moments_are_kept()
    ensures { MomentsAreKept }
{}

/// What a turn sets is no later than [`latest_of`](crate::latest_of) says, in whatever order it stands: so what the program sets next, which counts
/// as no earlier than that, is no earlier than any of it.
pub fn none_is_later()
    ensures { NoneIsLater }
{}
