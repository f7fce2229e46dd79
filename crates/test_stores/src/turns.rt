//! Turns to change a file: the steps that come of some answers, as plain numbers.
use dconf_turn::TurnRecord;
use std::alloc::AllocError;
use std::fmt::Write;
use test_rows::number;

/// Adds the step that a turn is at: its kind, its number, and the fault of one that is done.
fn show_step(turn: &TurnRecord, found: &mut String) -> Result<(), AllocError> {
    let step = turn.next();
    write!(found, " {}", step.kind)?;
    if step.number != 0 || step.has_number {
        write!(found, ":{}", step.number)?;
    }
    match step.fault {
        0 => Ok(()),
        fault => write!(found, "!{fault}"),
    }
}

/// The steps of a turn that is answered so: a number is that of a step that was done, and `!` and a number a fault.
pub(crate) fn steps_shown(asked: &str, found: &mut String) -> Result<(), AllocError> {
    let mut turn = TurnRecord::begin();
    for answer in asked.split_whitespace() {
        match answer.strip_prefix("!") {
            Some(fault) => turn.answered(number(fault), 0),
            None => turn.answered(0, number(answer) as usize),
        }
    }
    show_step(&turn, found)
}

// Of a step that is done the number is the outcome: 0 made, 1 kept, 2 either, 3 unsettled, 4 same, 5 unsynced.
pub(crate) const TURNS: &str = "
 | 0
0 | 1
0 384 | 2
0 384 5 | 3:384
0 384 5 0 | 4
0 384 5 0 3 | 4:3
0 384 5 0 3 2 | 5:384
0 384 5 0 5 0 | 8
0 384 5 0 5 0 0 | 9
0 384 5 0 5 0 0 0 | 12
0 384 5 0 5 0 0 0 0 | 13
0 384 5 0 5 0 0 0 0 0 | 14
0 384 5 0 5 0 0 0 0 0 7 !7 | 14
-- the host chooses the permission bits; and an empty file
0 1024 5 | 3:438
0 1024 5 0 5 | 5
0 288 0 | 3:416
0 288 0 0 | 4
0 288 0 0 0 | 5:288
-- the old file is set aside, and has another name, or can't have one
0 896 5 0 5 0 | 6
0 896 5 0 5 0 0 | 8
0 896 5 0 5 0 1 | 7
0 896 5 0 5 0 1 0 | 9
-- the file is to stay as it is: it gets to the disk
0 384 !4294967295 | 11
0 384 !4294967295 0 | 12
0 384 !4294967295 0 0 0 | 14:4
0 384 !4294967295 !5 | 12
0 384 !4294967295 !5 0 0 | 14:5!5
-- each step fails
!11 | 14:1!11
0 !5 | 13
0 !5 0 | 14:1!5
0 384 !5 | 12
0 384 !5 0 0 | 14:1!5
0 384 5 !13 | 10
0 384 5 !13 0 0 | 14:1!13
0 384 5 0 !28 | 10
0 384 5 0 0 | 10
0 384 5 0 6 | 10
0 384 5 0 5 !5 | 10
0 384 5 0 5 !5 !30 0 | 14:1!5
0 384 5 0 5 0 !2 | 10
0 384 5 0 5 0 !2 0 0 | 14:2!2
0 896 5 0 5 0 !2 0 0 | 14:1!2
0 896 5 0 5 0 1 !2 0 0 | 14:2!2
0 384 5 0 5 0 0 !5 | 12
0 384 5 0 5 0 0 !5 !9 !9 | 14:3!5
";
