//! What a program has of a change that is over.
ghost use Rattle.std.specs.Prelude.{◌≡◌};
ghost use Rattle.dconf_turn.specs.Records.{outcome_of};
ghost use Rattle.dconf_making.specs.Endings.{IsEndingTold, ending_of, newest_number, outcome_number, told_by, told_number, told_of_kept};

use dconf_turn::Outcome;

/// The fault of a step of which the caller has told what is wrong.
pub const IS_TOLD: u32 = u32::MAX - 1;

/// Which settings are the newest.
#[derive(Clone, Copy, Debug, PartialEq, Eq)]
pub enum Newest {
    /// Those from before the change.
    Old,
    /// Those with the change.
    Newer,
    /// Those from before, as far as is known. A later look may find those with the change.
    Tried,
}

/// What is told.
#[derive(Clone, Copy, Debug, PartialEq, Eq)]
pub enum Told {
    /// It is made.
    Nothing,
    /// The first fault, as it was: the file is not changed.
    First,
    /// A write that wrote nothing, or more than there was.
    BadWrite,
    /// That the file is perhaps changed.
    Either,
    /// That it is changed, but perhaps not on the disk.
    Unsettled,
    /// That it was to stay, but is perhaps not on the disk.
    Unsynced,
    /// The first fault was told when it was met.
    Already,
}

/// What a program has of a change.
#[derive(Clone, Copy)]
pub struct Ending {
    pub newest: Newest,
    pub told: Told,
    /// The file may not be on the disk.
    pub is_unsettled: bool,
    /// What was asked for is in the file.
    pub is_there: bool,
    /// What was wrong with the old file still is: another one has its name, and it has another name.
    pub keeps_fault: bool,
}

/// The same in numbers: 0 old, 1 newer, 2 tried; 0 nothing, 1 the first fault, 2 a bad write, 3 either, 4 unsettled, 5 unsynced, 6 it was told;
/// and what has become of the file, as a program is told: 0 made, 1 kept, 2 either, 3 unsettled.
#[repr(C)]
#[derive(Clone, Copy)]
pub struct DconfdbEnding {
    pub newest: u32,
    pub told: u32,
    pub outcome: u32,
    pub is_unsettled: bool,
    pub is_there: bool,
    pub keeps_fault: bool,
}

/// What comes of an outcome. `before`: a change before this one may not be on the disk. `is_aside`: the old file has another name.
pub fn ending_of(outcome: Outcome, before: bool, is_aside: bool) -> Ending
    ensures { result ≡ ending_of outcome before is_aside }
{
    match outcome {
        Outcome::Made => Ending {
            newest: Newest::Newer,
            told: Told::Nothing,
            is_unsettled: false,
            is_there: true,
            keeps_fault: is_aside,
        },
        Outcome::Kept(fault) => Ending {
            newest: Newest::Old,
            told: told_of_kept(fault),
            is_unsettled: before,
            is_there: false,
            keeps_fault: false,
        },
        Outcome::Either(_) => Ending {
            newest: Newest::Tried,
            told: Told::Either,
            is_unsettled: true,
            is_there: false,
            keeps_fault: false,
        },
        Outcome::Unsettled(_) => Ending {
            newest: Newest::Newer,
            told: Told::Unsettled,
            is_unsettled: true,
            is_there: true,
            keeps_fault: is_aside,
        },
        Outcome::Same => Ending {
            newest: Newest::Old,
            told: Told::Nothing,
            is_unsettled: false,
            is_there: true,
            keeps_fault: false,
        },
        Outcome::Unsynced(_) => Ending {
            newest: Newest::Old,
            told: Told::Unsynced,
            is_unsettled: true,
            is_there: true,
            keeps_fault: false,
        },
    }
}

/// The same in numbers, of the numbers of a turn's outcome.
pub fn ending_by(outcome: u32, fault: u32, before: bool, is_aside: bool) -> DconfdbEnding
    ensures { IsEndingTold (ending_of (outcome_of outcome fault) before is_aside) (outcome_of outcome fault) result }
{
    let outcome = outcome_by(outcome, fault);
    let ending = ending_of(outcome, before, is_aside);
    DconfdbEnding {
        newest: newest_number(ending.newest),
        told: told_number(ending.told),
        outcome: outcome_number(outcome),
        is_unsettled: ending.is_unsettled,
        is_there: ending.is_there,
        keeps_fault: ending.keeps_fault,
    }
}

fn told_of_kept(fault: u32) -> Told
    ensures { result ≡ told_of_kept fault }
{
    if fault == 0 {
        Told::BadWrite
    } else if fault == IS_TOLD {
        Told::Already
    } else {
        Told::First
    }
}

fn outcome_by(number: u32, fault: u32) -> Outcome
    ensures { result ≡ outcome_of number fault }
{
    match number {
        0 => Outcome::Made,
        1 => Outcome::Kept(fault),
        2 => Outcome::Either(fault),
        3 => Outcome::Unsettled(fault),
        4 => Outcome::Same,
        _ => Outcome::Unsynced(fault),
    }
}

fn newest_number(newest: Newest) -> u32
    ensures { result ≡ newest_number newest }
{
    match newest {
        Newest::Old => 0,
        Newest::Newer => 1,
        Newest::Tried => 2,
    }
}

fn told_number(told: Told) -> u32
    ensures { result ≡ told_number told }
{
    match told {
        Told::Nothing => 0,
        Told::First => 1,
        Told::BadWrite => 2,
        Told::Either => 3,
        Told::Unsettled => 4,
        Told::Unsynced => 5,
        Told::Already => 6,
    }
}

/// What is told, of its number.
pub(crate) fn told_by(number: u32) -> Told
    ensures { result ≡ told_by number }
{
    match number {
        0 => Told::Nothing,
        1 => Told::First,
        2 => Told::BadWrite,
        3 => Told::Either,
        4 => Told::Unsettled,
        5 => Told::Unsynced,
        _ => Told::Already,
    }
}

fn outcome_number(outcome: Outcome) -> u32
    ensures { result ≡ outcome_number outcome }
{
    match outcome {
        Outcome::Made | Outcome::Same => 0,
        Outcome::Kept(_) => 1,
        Outcome::Either(_) => 2,
        Outcome::Unsettled(_) | Outcome::Unsynced(_) => 3,
    }
}
