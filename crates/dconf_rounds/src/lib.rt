//! What is done in turn by who writes what waits, by who has it written, or ends, or wants to know that it is on the disk, by who looks at the
//! files of a store that is open, and by who tells what is seen otherwise; and where GIO is told that the module's backend stands.
//!
//! Nothing is kept here: each call is told what is known, and what was done last, and says what comes next.
#![tactic(auto)]

ghost use Rattle.dconf_rounds.specs.Backends.{OnlyAFileMakesItTheDefault};
ghost use Rattle.dconf_rounds.specs.Rounds.{NothingDueIsPassedOver};
ghost use Rattle.dconf_rounds.specs.Glances.{NothingNewIsMissed};
ghost use Rattle.dconf_rounds.specs.Reading.{WhatIsNotAskedIsNotRead};
ghost use Rattle.dconf_rounds.specs.Syncs.{YesMeansAllIsThere};
ghost use Rattle.dconf_rounds.specs.Telling.{WhatIsHeardIsTold, WhatIsNotAskedIsNotTold, WhatIsNotHandedOutIsKept};
ghost use Rattle.dconf_rounds.specs.Writers.{WhatWaitsIsWrittenOrTold};

mod backends;
mod glances;
mod rounds;
mod syncs;
mod telling;
mod writers;

pub use backends::priority;
pub use glances::{Glance, GlanceKnown, glance_after, glance_number};
pub use rounds::{
    Known, Task, WritingKnown, has_work, is_at_work, is_open, task_after, task_number,
};
pub use syncs::{SyncKnown, SyncTask, has_looked_since, sync_after, sync_number};
pub use telling::{
    PathsHanded, TellKnown, Telling, asks_context, handed, handed_number, passes_over, tell_next,
    telling_number,
};
pub use writers::{
    EndTask, LineTask, NeedTask, WriterKnown, end_after, line_after, need_after, writer_number,
};

/// The thread does all that is due before it rests, in one order, and each once. It writes once its turn has come. It gives up what waits only at
/// the program's end, which waits while it has work, after one more try has failed by a fault that lasts; and else it ends with nothing that
/// waits. It watches the files once there is somebody to be told.
pub fn nothing_due_is_passed_over()
    ensures { NothingDueIsPassedOver }
{}

/// Whoever asks is told yes exactly if all that waited then is settled, its turn to look came, and what was there already is on the
/// disk. The files were looked at since. What failed, and is to be tried again, is tried now.
pub fn yes_means_all_is_there()
    ensures { YesMeansAllIsThere }
{}

/// A look at the files keeps a store open only while both profiles are the ones that were read, for sure, or count as they were read. It does all that is due before it
/// is over: what is new is handed out, what others changed while changes waited is heeded, the files of a store that was opened
/// are watched, and what waits is settled only by files that were read. Who can't look while another thread changes the files hands out what that
/// one has seen; and who can't look for another reason asks again until its time is over, unless it reads: then it waits for nobody.
pub fn nothing_new_is_missed()
    ensures { NothingNewIsMissed }
{}

/// Each path that is seen otherwise, and that somebody listens to, is told, in notices of 255 at most; all is, where nobody knows what is
/// seen otherwise. What may be written or no longer is told before that, and whoever else tells of the files has looked at them by then. Nobody is
/// told of what is seen first, or when the program ends. But faults always are, at last.
pub fn what_is_heard_is_told()
    ensures { WhatIsHeardIsTold }
{}

/// What is new is done by the thread that writes, which is woken for it, or else where it came up. That thread waits in line for its turn where
/// others have theirs, and who isn't that thread waits itself. At the end all that waits is written, or it is told; but for what is left to the
/// thread, which goes on, and for what waits in a child of fork(), which is its parent's: there a sync does nothing.
pub fn what_waits_is_written_or_told()
    ensures { WhatWaitsIsWrittenOrTold }
{}

/// Of a key that is read, what isn't asked doesn't count: whatever the answer were, what is read is found where it is found without.
pub fn what_is_not_asked_is_not_read()
    ensures { WhatIsNotAskedIsNotRead }
{}

/// What isn't asked when something is told doesn't count: whether somebody listens to what all begin with, where nothing was taken; and whether the program
/// ends, where nothing is told if it doesn't.
pub fn what_is_not_asked_is_not_told()
    ensures { WhatIsNotAskedIsNotTold }
{}

/// The module stands in front of dconf's backend only where an administrator's file makes it the default, and else behind all others.
pub fn only_a_file_makes_it_the_default()
    ensures { OnlyAFileMakesItTheDefault }
{}

/// What wasn't handed out doesn't count as told, and what was isn't told again; and the files count as looked at only if they were.
pub fn what_is_not_handed_out_is_kept()
    ensures { WhatIsNotHandedOutIsKept }
{}
