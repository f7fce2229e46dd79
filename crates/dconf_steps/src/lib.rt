//! What comes next where a file may have changed, and changes wait: three machines that do nothing themselves.
//!
//! Each says its next step; its caller carries that out and gives the answer, until the step is `Done`. They are a few numbers: they
//! hold no bytes, no name and no file, take no memory, and can be copied. A [`Refresh`] looks at the files of a store, a [`Queue`] writes
//! the changes that wait, and a [`Notice`] says when whoever is told of changes looks.
#![tactic(auto)]

ghost use Rattle.dconf_steps.specs.RefreshLaws.{WhateverIsSeen};
ghost use Rattle.dconf_steps.specs.QueueLaws.{WhateverIsWritten};
ghost use Rattle.dconf_steps.specs.NoticeLaws.{WhatComesIsDue, WhatIsToldIsNoticed, WhateverIsNoticed};

mod next_step;
mod notice;
mod notice_record;
mod queue;
mod queue_record;
mod refresh;
mod refresh_record;

pub use next_step::NextStep;
pub use notice::{Notice, NoticeEvent, NoticeStep};
pub use notice_record::NoticeRecord;
pub use queue::{Queue, QueueAnswer, QueueEnd, QueueStep, QueuedEdit};
pub use queue_record::QueueRecord;
pub use refresh::{LookEnd, LookStep, Refresh};
pub use refresh_record::RefreshRecord;

/// Whatever is answered, a look keeps a part only where the file was said to be as it was, has all parts of the newer snapshot or
/// none, and says that the snapshot is newer exactly where a part is another one.
pub fn whatever_is_seen()
    ensures { WhateverIsSeen }
{}

/// Whatever is answered, a change that waits is refused only for a fault of its own, only a reset of what is locked is left out, all
/// others are written by one call, in their order, or none, and there is an end.
pub fn whatever_is_written()
    ensures { WhateverIsWritten }
{}

/// Whatever is answered, each event, and the begin, is followed by a look that began later and succeeded, or that comes at once,
/// or at a moment that is said: 20 milliseconds to a second after the last answer. No other look is made.
pub fn whatever_is_noticed()
    ensures { WhateverIsNoticed }
{}

/// What is told at once is told event by event: so the law above holds of it.
pub fn what_is_told_is_noticed()
    ensures { WhatIsToldIsNoticed }
{}

/// The next step is due at some moment just if a look is to come: whoever waits until then misses none.
pub fn what_comes_is_due()
    ensures { WhatComesIsDue }
{}
