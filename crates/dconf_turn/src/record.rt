//! A turn and its step as plain numbers, for a caller that is not Rust.
ghost use Rattle.std.specs.Prelude.{◌≡◌, false};
ghost use Rattle.dconf_turn.specs.Steps.{step_of};
ghost use Rattle.dconf_turn.specs.Records.{IsOutcomeTold, IsStepTold, answer_of, outcome_of, state_of, turn_of};
ghost use Rattle.dconf_turn.specs.Progress.{IsAnswered, IsBegun};

use crate::turn::State;
use crate::{Answer, Outcome, Step, Turn};

/// A turn, as its caller owns it. Nobody but these calls writes its fields; a number that is none of theirs is a turn that is over.
#[repr(C)]
#[derive(Clone, Copy)]
pub struct TurnRecord {
    state: u32,
    outcome: u32,
    fault: u32,
    bits: u32,
    len: usize,
    at: usize,
    has_bits: bool,
    keeps: bool,
    leaves_new: bool,
}

/// What comes next: the step's place in the order, 0 to 14, and its number.
#[repr(C)]
#[derive(Clone, Copy)]
pub struct StepRecord {
    /// 0 lock, 1 read, 2 make, 3 create, 4 append, 5 sync, 6 set aside, 7 exchange, 8 rename, 9 sync the folder, 10 remove, 11 settle, 12 note,
    /// 13 unlock, 14 done.
    pub kind: u32,
    /// Of `Done`, the fault.
    pub fault: u32,
    /// Of `Create` and `Sync` permission bits, of `Append` the byte, of `Done` the outcome: 0 made, 1 kept, 2 either, 3 unsettled, 4 same, 5 unsynced.
    pub number: usize,
    /// Of `Sync`, that there are bits to be given.
    pub has_number: bool,
}

impl TurnRecord {
    /// A turn of which nothing is done yet.
    pub fn begin() -> TurnRecord
        ensures { IsBegun (turn_of result) }
    {
        TurnRecord::of(Turn::begin())
    }

    /// What comes next.
    pub fn next(&self) -> StepRecord
        ensures { IsStepTold (step_of (turn_of self.now)) result }
    {
        StepRecord::of(self.turn().next())
    }

    /// Takes the answer to the step: a fault, or 0 and the number that the step asks for.
    pub fn answered(&mut self, fault: u32, n: usize)
        ensures { IsAnswered (turn_of self.old) (answer_of fault n) (turn_of self.new) }
    {
        let mut turn = self.turn();
        turn.answered(answer_of(fault, n));
        *self = TurnRecord::of(turn);
    }

    fn of(turn: Turn) -> TurnRecord
        ensures { turn_of result ≡ turn }
    {
        let (outcome, fault) = numbers_of(turn.outcome);
        TurnRecord {
            state: number_of(turn.state),
            outcome,
            fault,
            bits: turn.bits.unwrap_or(0),
            len: turn.len,
            at: turn.at,
            has_bits: turn.bits.is_some(),
            keeps: turn.keeps,
            leaves_new: turn.leaves_new,
        }
    }

    fn turn(&self) -> Turn
        ensures { result ≡ turn_of self.now }
    {
        Turn {
            state: state_of(self.state),
            outcome: outcome_of(self.outcome, self.fault),
            bits: if self.has_bits { Some(self.bits) } else { None },
            keeps: self.keeps,
            len: self.len,
            at: self.at,
            leaves_new: self.leaves_new,
        }
    }
}

impl StepRecord {
    fn of(step: Step) -> StepRecord
        ensures { IsStepTold step result }
    {
        match step {
            Step::Lock => StepRecord::plain(0, 0),
            Step::Read => StepRecord::plain(1, 0),
            Step::Make => StepRecord::plain(2, 0),
            Step::Create(mode) => StepRecord::plain(3, mode as usize),
            Step::Append(at) => StepRecord::plain(4, at),
            Step::Sync(None) => StepRecord::plain(5, 0),
            Step::Sync(Some(bits)) => StepRecord {
                kind: 5,
                fault: 0,
                number: bits as usize,
                has_number: true,
            },
            Step::SetAside => StepRecord::plain(6, 0),
            Step::Exchange => StepRecord::plain(7, 0),
            Step::Rename => StepRecord::plain(8, 0),
            Step::SyncFolder => StepRecord::plain(9, 0),
            Step::Remove => StepRecord::plain(10, 0),
            Step::Settle => StepRecord::plain(11, 0),
            Step::Note => StepRecord::plain(12, 0),
            Step::Unlock => StepRecord::plain(13, 0),
            Step::Done(outcome) => {
                let (number, fault) = numbers_of(outcome);
                StepRecord {
                    kind: 14,
                    fault,
                    number: number as usize,
                    has_number: false,
                }
            }
        }
    }

    fn plain(kind: u32, number: usize) -> StepRecord
        ensures { (result.kind ≡ kind) × (result.number ≡ number) × (result.has_number ≡ false) }
    {
        StepRecord {
            kind,
            fault: 0,
            number,
            has_number: false,
        }
    }
}

fn answer_of(fault: u32, n: usize) -> Answer
    ensures { result ≡ answer_of fault n }
{
    if fault == 0 {
        Answer::Yes(n)
    } else {
        Answer::No(fault)
    }
}

fn number_of(state: State) -> u32
    ensures { state_of result ≡ state }
{
    match state {
        State::Locking => 0,
        State::Reading => 1,
        State::Making => 2,
        State::Creating => 3,
        State::Writing => 4,
        State::Syncing => 5,
        State::SettingAside => 6,
        State::Exchanging => 7,
        State::Renaming => 8,
        State::SyncingFolder => 9,
        State::Removing => 10,
        State::Settling => 11,
        State::Noting => 12,
        State::Unlocking => 13,
        State::Over => 14,
    }
}

fn state_of(number: u32) -> State
    ensures { result ≡ state_of number }
{
    match number {
        0 => State::Locking,
        1 => State::Reading,
        2 => State::Making,
        3 => State::Creating,
        4 => State::Writing,
        5 => State::Syncing,
        6 => State::SettingAside,
        7 => State::Exchanging,
        8 => State::Renaming,
        9 => State::SyncingFolder,
        10 => State::Removing,
        11 => State::Settling,
        12 => State::Noting,
        13 => State::Unlocking,
        _ => State::Over,
    }
}

/// The number of an outcome, and its fault.
fn numbers_of(outcome: Outcome) -> (u32, u32)
    ensures told { IsOutcomeTold outcome result.0 result.1 }
    ensures back { outcome_of result.0 result.1 ≡ outcome }
{
    match outcome {
        Outcome::Made => (0, 0),
        Outcome::Kept(fault) => (1, fault),
        Outcome::Either(fault) => (2, fault),
        Outcome::Unsettled(fault) => (3, fault),
        Outcome::Same => (4, 0),
        Outcome::Unsynced(fault) => (5, fault),
    }
}

fn outcome_of(number: u32, fault: u32) -> Outcome
    ensures { result ≡ outcome_of number fault }
{
    match number {
        0 => Outcome::Made,
        1 => Outcome::Kept(fault),
        2 => Outcome::Either(fault),
        3 => Outcome::Unsettled(fault),
        4 => Outcome::Same,
        _ => Outcome::Unsynced(fault),
    }
}
