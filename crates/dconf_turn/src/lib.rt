//! A change of a file, decided step by step, by a machine that does nothing itself.
//!
//! A [`Turn`] says the next [`Step`]. Its caller carries that out in a folder and gives the [`Answer`], until the step is `Done` and
//! says the [`Outcome`]. The turn is a few numbers: it holds no bytes, no name and no file, takes no memory, and can be copied. The
//! program goes by it, and C by its plain numbers, a [`TurnRecord`].
//!
//! Whatever is answered, and wherever it is cut off: a crash at any moment leaves the old bytes or the new ones under the name, whole; no
//! other name is touched but `NAME.new`, the lock's, and one for what is set aside; and what is said at the end is so. A file that is to
//! stay as it is gets to the disk too, whoever wrote it: [`Outcome::Same`] says that no crash takes it away any more.
//!
//! ```
//! let mut turn = Turn::begin();
//! turn.answered(Answer::No(5));
//! turn.next() == Step::Done(Outcome::Kept(5))
//! ```
#![tactic(auto)]

ghost use Rattle.dconf_turn.specs.Histories.{WhateverIsAnswered};
ghost use Rattle.dconf_turn.specs.Survivals.{NoChangeIsLost};

mod record;
mod step;
mod turn;

pub use record::{StepRecord, TurnRecord};
pub use step::{Answer, Outcome, Step};
pub use turn::{NOTHING, Turn};

/// Whatever a host answers, step after step, and wherever it stops: a crash leaves the old bytes or the new ones, nothing else is touched,
/// what is said at the end is so, the lock comes first and goes last, and there are at most as many steps as eleven and the bytes.
pub fn whatever_is_answered()
    ensures { WhateverIsAnswered }
{}

/// Turns of any programs, one after another, some cut off by a kill or a crash at any step, and crashes between them: what a crash may leave in the
/// end is what those make that said made or same, and some of those that did not say kept, in their order.
pub fn no_change_is_lost()
    ensures { NoChangeIsLost }
{}
