//! The machines that C drives, as it drives them: which steps come after which answers.
use crate::questions::TableOf;
use crate::times::{COUNTED, GUESSED, KEPT, NOTED, OVERTAKEN};
use crate::turns::TURNS;
use dconf_steps::{NextStep, NoticeRecord, QueueRecord, QueuedEdit, RefreshRecord};
use dconf_waiting::{next_look, pause_after, sleep_until};
use dconf_waits::WaitRecord;
use std::alloc::AllocError;
use std::fmt::Write;
use std::test::Fail;
use test_rows::{number, table};

/// A step: its kind and its number.
fn show(step: NextStep, found: &mut String) -> Result<(), AllocError> {
    write!(found, " {}.{}", step.kind, step.number)
}

/// A look at so many files, without an old snapshot, with one, in a turn, or a lenient one with an old snapshot, by answers yes and no, and faults: their
/// errnos, 1 to 9.
pub(crate) fn looked(asked: &str, found: &mut String) -> Result<(), AllocError> {
    let (count, rest) = asked.split_once(' ').unwrap_or((asked, ""));
    let (how, answers) = rest.split_once(' ').unwrap_or((rest, ""));
    let mut refresh = RefreshRecord::begin(
        number(count) as usize,
        how != "new",
        how == "turn",
        how == "lenient",
    );
    for answer in answers.bytes() {
        show(refresh.next(), found)?;
        if answer.is_ascii_digit() {
            refresh.answered(refresh.is_had(u32::from(answer - b'0')));
        } else {
            refresh.answered(answer == b'y');
        }
    }
    show(refresh.next(), found)
}

/// Of an answer its kind and its number.
fn cut(answer: &str) -> (u32, u32) {
    let (kind, n) = answer.split_once(':').unwrap_or((answer, "0"));
    (number(kind), number(n))
}

/// A wait for that, of so many milliseconds, by answers, each in a millisecond.
pub(crate) fn waited(asked: &str, found: &mut String) -> Result<(), AllocError> {
    let (what, rest) = asked.split_once(' ').unwrap_or((asked, ""));
    let (longest, answers) = rest.split_once(' ').unwrap_or((rest, ""));
    let mut wait = WaitRecord::begin(number(what), number(longest), 0);
    for word in answers.split_terminator(' ') {
        let (answer, moment) = word.split_once('@').unwrap_or((word, "0"));
        let (tried, errno) = cut(answer);
        show(wait.next(), found)?;
        wait.answered(tried, errno, u64::from(number(moment)) * 1_000_000);
    }
    show(wait.next(), found)
}

/// Takes what is heard; after an `a`, as somebody asks for a look.
fn heard(notice: &mut NoticeRecord, what: &str, now: u64) {
    match what.strip_prefix("a") {
        Some(event) => {
            notice.asked(number(event), now);
        }
        None => notice.heard(number(what), now),
    }
}

/// A notice, by answers and what is heard or asked for at moments; and until when it rests at last.
pub(crate) fn noticed(asked: &str, found: &mut String) -> Result<(), AllocError> {
    let mut notice = NoticeRecord::begin();
    for word in asked.split_terminator(' ') {
        let (what, moment) = word.split_once(':').unwrap_or((word, "0"));
        let now = u64::from(number(moment));
        write!(found, " {}", notice.next().0)?;
        match what {
            "y" | "n" => {
                notice.answered(what == "y", now);
            }
            "p" | "l" => notice.passed(what == "l", now),
            "o" => notice.opened_anew(now),
            event => heard(&mut notice, event, now),
        }
    }
    write!(found, " {}.{}", notice.next().0, notice.due(true))
}

/// Three edits: the first two are one change, of which the second is a reset.
fn three() -> [QueuedEdit; 3] {
    let set = QueuedEdit {
        change: 0,
        sets: true,
        is_left_out: false,
        is_refused: false,
    };
    let reset = QueuedEdit { sets: false, ..set };
    let other = QueuedEdit { change: 2, ..set };
    [set, reset, other]
}

fn show_flags(edits: &[QueuedEdit], found: &mut String) -> Result<(), AllocError> {
    for edit in edits {
        write!(
            found,
            " {}{}",
            edit.is_left_out as u8, edit.is_refused as u8
        )?;
    }
    Ok(())
}

/// Three edits that wait, by answers; and the flags of each.
pub(crate) fn queued(asked: &str, found: &mut String) -> Result<(), AllocError> {
    let (mut edits, mut queue) = (three(), QueueRecord::begin());
    for answer in asked.split_terminator(' ') {
        let (kind, n) = cut(answer);
        show(queue.next(&edits), found)?;
        queue.answered(&mut edits, kind, n as usize);
    }
    show(queue.next(&edits), found)?;
    show_flags(&edits, found)
}

/// 0 stat, 1 read, 2 compare, 3 keep, 4 open; 5 failed, 6 same, 7 newer.
const LOOKS: &str = "
0 new | 7.0
0 old | 6.0
1 new yy | 1.0 4.0 7.0
1 new n | 1.0 5.0
1 new yn | 1.0 4.0 5.0
1 old yyyy | 0.0 3.0 6.0 6.0 6.0
1 old ynn | 0.0 3.0 6.0 6.0
1 old nyyy | 0.0 1.0 2.0 3.0 6.0
1 turn yyy | 1.0 2.0 3.0 6.0
1 turn n | 1.0 5.0
2 old yynyny | 0.0 3.0 0.1 1.1 2.1 4.1 7.0
2 turn ynyyy | 1.0 2.0 4.0 0.1 3.1 7.0
2 turn ynyyyn | 1.0 2.0 4.0 0.1 3.1 7.0 7.0
-- a file's own fault, and one that passes; what can't be asked about is read
1 lenient n1ny | 0.0 1.0 2.0 4.0 7.0
1 lenient n5 | 0.0 1.0 5.0
1 lenient 1 | 0.0 1.0
1 old n1 | 0.0 1.0 5.0
";

/// 0 try, 1 pause; 2 had, 3 busy, 4 stopped. What is waited for: 0 a lock, 1 a lock, without end, 2 a file. An answer: 0 opened, 1 locked, 2
/// named, 3 opened the lock's file; its errno, and the millisecond.
const WAITS: &str = "
0 0 1 | 0.0 2.0
0 0 1:11 | 0.0 3.11
0 0 3:11 | 0.0 3.16
0 0 1:4 | 0.0 4.4
0 10 1:11@3 0@4 2@4 1:11@10 | 0.0 1.200000 0.0 0.0 3.11
0 10 1:11@3 0@4 1:28 | 0.0 1.200000 0.0 4.28
0 10 2:30 | 0.0 4.30
-- a clock that stands still
0 1 1:11 0 1:11 0 1:11 0 1:11 0 1:11 0 1:11 | 0.0 1.200000 0.0 1.200000 0.0 1.200000 0.0 1.200000 0.0 1.200000 0.0 3.11
-- a pause in which the machine stood still counts as 50 milliseconds
0 60 1:11@1 0@1 1:11@110 0@110 1:11@119 | 0.0 1.200000 0.0 1.200000 0.0 3.11
0 51 1:11@1 0@1 1:11@109 | 0.0 1.200000 0.0 3.11
-- a lease is waited for a second, and a lock without end
2 0 0:11@999 0@999 0:11@1000 | 0.0 1.200000 0.0 3.11
1 0 1:11@99999 0 3:11@999999 | 0.0 1.200000 0.0 1.200000
";

/// 0 take, 1 pass, 2 write, 3 ask; 4 written, 5 waiting. An answer: 0 yes, 1 locked, 2 fault, 3 later, 4 closed, 5 too large, 6 soon.
const QUEUES: &str = "
0 0 0 0 | 0.0 0.1 0.2 2.0 4.0 00 00 00
0 0 0 3 | 0.0 0.1 0.2 2.0 5.0 00 00 00
-- the fault of the reset refuses its change alone
0 0 0 2:1 0 0 0 0 | 0.0 0.1 0.2 2.0 1.0 1.1 0.2 2.0 4.0 01 00 00
-- a reset of what is locked is left out
0 0 0 1 0 1 0 0 0 0 0 | 0.0 0.1 0.2 2.0 3.0 3.1 3.2 0.0 1.1 0.2 2.0 4.0 00 10 00
-- a set of what is locked is refused with its change
0 0 0 1 1 0 0 0 0 0 0 | 0.0 0.1 0.2 2.0 3.0 1.1 3.2 1.0 1.1 0.2 2.0 4.0 01 00 00
-- a refusal that took nothing away
0 0 0 1 0 0 0 | 0.0 0.1 0.2 2.0 3.0 3.1 3.2 5.0 00 00 00
0 0 0 2:9 | 0.0 0.1 0.2 2.0 5.0 00 00 00
0 0 0 6 | 0.0 0.1 0.2 2.0 5.0 00 00 00
-- where nobody may write, and where the file would be too large: then the newest set is refused
0 0 0 4 0 1 0 0 0 0 0 | 0.0 0.1 0.2 2.0 3.0 3.1 3.2 0.0 1.1 0.2 2.0 4.0 00 10 00
0 0 0 5 0 0 0 5 | 0.0 0.1 0.2 2.0 0.0 0.1 1.2 2.0 1.0 01 00 01
0 0 0 1 1 0 1 0 0 0 5 | 0.0 0.1 0.2 2.0 3.0 1.1 3.2 1.0 1.1 1.2 2.0 5.0 01 00 01
";

/// 0 watch, 1 look, 2 rest. An answer y or n, or an event: 0 a file, 1 a folder, 2 time.
const NOTICES: &str = "
y y:5 | 0 1 2.0
-- not all is watched: in a second it is tried again
n y:5 2:1000004 2:1000005 y y:1000006 | 0 1 2 2 0 1 2.0
-- looks that fail are repeated, later each time
y n:5 2:20005 n:20006 2:60006 n:60007 2:140007 y | 0 1 2 1 2 1 2 1 2.0
y n:5 2:20004 0:20004 n:20005 | 0 1 2 2 1 2.60005
-- an event amid a look
y 0:1 y:2 y:3 | 0 1 1 1 2.0
y 1:1 y:2 y:3 y:4 | 0 1 1 0 1 2.0
-- a folder changes before it is watched, and after
1:1 y:2 y:3 y:4 y:5 1:6 y:7 y:8 | 0 0 1 0 1 2 0 1 2.0
-- a look that is asked for, and one that comes anyway
y y:3 a2:4 y:5 | 0 1 2 1 2.0
y y:3 a1:4 y:5 y:6 | 0 1 2 0 1 2.0
y a0:1 y:2 | 0 1 1 1.1
-- where nobody listens, time wakes nobody before all is watched
n y:5 p:1000005 l:1000005 y y:1000006 | 0 1 2 2 0 1 2.0
y n:5 p:20005 y:20006 | 0 1 2 1 2.0
-- other files, which were opened anew
o y y:2 o:3 y:4 y:5 | 0 0 1 2 0 1 2.0
";

/// Whether what failed is tried again, who rests wakes, and who reads looks when it is due: 0 reads, 1 has failed, 2 tells.
fn are_due() -> bool {
    pause_after(0) == 50_000
        && pause_after(50_000) == 100_000
        && pause_after(u64::MAX) == 2_000_000
        && sleep_until(0, 0, 5).is_none()
        && sleep_until(0, 1_006, 5) == Some(2)
        && sleep_until(1_005, 9_000, 5) == Some(1)
        && sleep_until(1, 9_000, 5) == Some(0)
        && next_look(0, 5, 5, true, true, false) == 10_005
        && next_look(0, 5, 5, true, true, true) == 0
        && next_look(0, 6, 5, true, true, false) == 0
        && next_look(1, 6, 5, true, true, true) == 1_000_005
        && next_look(2, 6, 5, true, true, true) == 200_005
        && next_look(2, 6, 5, false, true, false) == 0
        && next_look(0, 5, 5, true, false, false) == 0
}

#[test]
fn machines_go_by_their_answers(rt: HostRuntime) -> Result<(), Fail> {
    for (mut of, rows) in [
        (TableOf::Looked, LOOKS),
        (TableOf::Waited, WAITS),
        (TableOf::Noticed, NOTICES),
        (TableOf::Queued, QUEUES),
        (TableOf::Steps, TURNS),
        (TableOf::Overtaken, OVERTAKEN),
        (TableOf::Counted, COUNTED),
        (TableOf::Noted, NOTED),
        (TableOf::Guessed, GUESSED),
        (TableOf::Kept, KEPT),
    ] {
        table(rt.alloc(), &mut of, rows)?;
    }
    assert!(rt; are_due());
    Ok(())
}
