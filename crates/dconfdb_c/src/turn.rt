//! A turn to change a file: what comes next, and what came of it. C carries out each step, and answers.
ghost use Rattle.dconf_turn.specs.Steps.{step_of};
ghost use Rattle.dconf_turn.specs.Records.{IsStepTold, answer_of, turn_of};
ghost use Rattle.dconf_turn.specs.Progress.{IsAnswered, IsBegun};

use dconf_turn::{StepRecord, TurnRecord};

/// A turn of which nothing is done yet, and what comes first.
#[unsafe(no_mangle)]
pub extern "C" fn dconfdb_turn_begin(turn: &mut TurnRecord, step: &mut StepRecord)
    ensures begun { IsBegun (turn_of turn.new) }
    ensures step { IsStepTold (step_of (turn_of turn.new)) step.new }
{
    *turn = TurnRecord::begin();
    *step = turn.next();
}

/// Takes the answer to the step: a fault, or 0 and the number that the step asks for. And what comes next.
#[unsafe(no_mangle)]
pub extern "C" fn dconfdb_turn_answered(
    turn: &mut TurnRecord,
    fault: u32,
    n: usize,
    step: &mut StepRecord,
)
    ensures taken { IsAnswered (turn_of turn.old) (answer_of fault n) (turn_of turn.new) }
    ensures step { IsStepTold (step_of (turn_of turn.new)) step.new }
{
    turn.answered(fault, n);
    *step = turn.next();
}
