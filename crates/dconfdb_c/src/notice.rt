//! When whoever is told of changes looks at the files: what comes next, and what happened. C carries out each step, and answers.
ghost use Rattle.std.specs.Prelude.{◌≡◌, ◌<◌, ◌||◌};
ghost use Rattle.dconf_steps.specs.NoticeRecords.{notice_event_of, notice_of, notice_step_number, rest_until};
ghost use Rattle.dconf_steps.specs.Notices.{AreTold, IsNoticeAnswered, IsNoticeAsked, IsNoticeBegun, anew_events, due_at, due_if, heard_events, notice_step, time_events};

use dconf_steps::NoticeRecord;

/// What comes next: 0 watch the files, 1 look at them, 2 rest; and until when, of a rest, or 0. `due` is when that is due, or 0: as that time passed
/// is minded.
#[unsafe(no_mangle)]
pub extern "C" fn dconfdb_notice_next(
    notice: &NoticeRecord,
    listens: bool,
    until: &mut u64,
    due: &mut u64,
) -> u32
    ensures step { result ≡ notice_step_number (notice_step (notice_of notice.now)) }
    ensures until { until.new ≡ rest_until (notice_step (notice_of notice.now)) }
    ensures due { due.new ≡ due_if ((notice_of notice.now).is_whole || listens) (notice_step (notice_of notice.now)) }
{
    let (step, moment) = notice.next();
    *until = moment;
    *due = notice.due(listens);
    step
}

/// Takes what happened, at any time, and that time passed; and what comes next, as `dconfdb_notice_next` has it. 0: that event was heard, 0 a
/// file may have changed, 1 other files may be the store's, else nothing. 1: the same, as somebody asks for a look: so what comes is no rest. 2:
/// time passed; where not all is watched, and nobody listens, no look is made for that. 3: other files are the store's. Else it begins: its files
/// are to be watched, and then looked at.
#[unsafe(no_mangle)]
pub extern "C" fn dconfdb_notice_told(
    notice: &mut NoticeRecord,
    what: u32,
    event: u32,
    listens: bool,
    now: u64,
) -> u32
    ensures heard { what ≡ 0 → AreTold (heard_events (notice_event_of event)) now (notice_of notice.old) (notice_of notice.new) }
    ensures asked { what ≡ 1 → IsNoticeAsked (notice_of notice.old) (notice_event_of event) now (notice_of notice.new) }
    ensures passed { what ≡ 2 → AreTold (time_events ((notice_of notice.old).is_whole || listens)) now (notice_of notice.old) (notice_of notice.new) }
    ensures anew { what ≡ 3 → AreTold (anew_events (notice_step (notice_of notice.old))) now (notice_of notice.old) (notice_of notice.new) }
    ensures begun { 3 < what → IsNoticeBegun (notice_of notice.new) }
    ensures step { result ≡ notice_step_number (notice_step (notice_of notice.new)) }
{
    match what {
        0 => notice.heard(event, now),
        1 => {
            notice.asked(event, now);
        }
        2 => notice.passed(listens, now),
        3 => notice.opened_anew(now),
        _ => *notice = NoticeRecord::begin(),
    }
    let (step, _) = notice.next();
    step
}

/// Takes the answer to the step: whether all files are watched, or whether the look succeeded. It gives when the next step is due,
/// or 0.
#[unsafe(no_mangle)]
pub extern "C" fn dconfdb_notice_answered(notice: &mut NoticeRecord, yes: bool, now: u64) -> u64
    ensures taken { IsNoticeAnswered (notice_of notice.old) yes now (notice_of notice.new) }
    ensures due { result ≡ due_at (notice_step (notice_of notice.new)) }
{
    notice.answered(yes, now)
}
