//! What these calls give together. Nothing is computed here.
ghost use Rattle.dconfdb_calls.specs.MixedTurns.{MixedTurnsGiveAll, UnlockedTurnsCount};
ghost use Rattle.dconfdb_calls.specs.Turns.{TurnsGiveValues};

/// Programs take turns to change the user's file, each by what [`crate::user_file`] makes of it; a kill or
/// a crash may cut one off at any step, and a crash may come between two. Then each value that is
/// seen is the one that the rows and locks of the databases, the changes of the turns that are kept,
/// and the order of the databases give.
pub fn turns_give_values()
    ensures { TurnsGiveValues }
{}

/// The same of programs of any kind: of those that change the user's file by these calls, GSettings'
/// module among them, and of runs of the command, one after another. Then all that is seen is what
/// rows, locks, the changes of the turns that are kept, and the order of the databases give: each
/// value, also without the user's own; which paths are locked; and what a directory has.
pub fn mixed_turns_give_all()
    ensures { MixedTurnsGiveAll }
{}

/// A turn that does nothing to the lock's file, as one of the command, is one of those that may.
pub fn unlocked_turns_count()
    ensures { UnlockedTurnsCount }
{}
