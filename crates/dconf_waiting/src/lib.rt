//! Changes that wait to be written: which edit of a key is the newest, what becomes of each change when a write was tried, how long
//! somebody waits for that, what is said of a fault meanwhile, and how new what is read is.
//!
//! Nothing is kept here: what is known is lent by the caller, who does as it is told. The module of GSettings and libdconf go by the same
//! calls, and write by the `Queue` of dconf_steps.
#![tactic(auto)]

ghost use Rattle.dconf_waiting.specs.Faults.{EachFaultIsSaidOnce};
ghost use Rattle.dconf_waiting.specs.Fresh.{NoReadIsTooOld};
ghost use Rattle.dconf_waiting.specs.WaitingLaws.{EachIsCountedOnce, EveryWaitEnds, NothingIsLost, TheNewestIsFound, WhatWaitsIsInOrder};

mod batch;
mod due;
mod failing;
mod fate;
mod fresh;
mod line;
mod newest;
mod patience;

pub use batch::{BatchRecord, BatchStep};
pub use due::{pause_after, sleep_until};
pub use failing::{Failing, FaultSeen, Word, is_same_fault};
pub use fate::{Fate, Waiter, WaitingEdit, fate_number, fate_of};
pub use fresh::{Looker, next_look};
pub use line::{Tally, settle};
pub use newest::{found, put};
pub use patience::{Patience, Progress, patience_for};

/// Of each key the newest edit that waits is found; and if it goes, the one before it.
pub fn the_newest_is_found()
    ensures { TheNewestIsFound }
{}

/// A change that waits is written or refused, each once, or it is there already, or a later one overtakes it that sets the same key and goes on
/// waiting. Else it goes on waiting itself.
pub fn nothing_is_lost()
    ensures { NothingIsLost }
{}

/// What waits is written in the order in which it was set, whatever becomes of others; and what is set once more is behind all of them.
pub fn what_waits_is_in_order()
    ensures { WhatWaitsIsInOrder }
{}

/// Each change that ever waited is settled, or overtaken by one that waits, or waits itself: so who waits until as many are settled as there
/// were waits for all of them.
pub fn each_is_counted_once()
    ensures { EachIsCountedOnce }
{}

/// Whoever waits until all is written waits for a minute at most, whatever other programs do meanwhile.
pub fn every_wait_ends()
    ensures { EveryWaitEnds }
{}

/// A fault is said once as long as it is there, as soon as it lasts; and once it is over it is forgotten.
pub fn each_fault_is_said_once()
    ensures { EachFaultIsSaidOnce }
{}

/// Where nobody watches the files, what is read was looked at less than ten milliseconds ago; and after a look that failed, a second.
pub fn no_read_is_too_old()
    ensures { NoReadIsTooOld }
{}
