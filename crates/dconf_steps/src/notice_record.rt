//! A notice of changes as plain numbers, for a caller that is not Rust.
ghost use Rattle.std.specs.Prelude.{◌≡◌, ◌||◌};
ghost use Rattle.dconf_steps.specs.NoticeRecords.{notice_event_of, notice_of, notice_stage_of, notice_step_number, owed_of, rest_until};
ghost use Rattle.dconf_steps.specs.Notices.{AreTold, IsNoticeAnswered, IsNoticeAsked, IsNoticeBegun, anew_events, due_at, due_if, heard_events, notice_step, time_events};

use crate::notice::{Notice, NoticeEvent, NoticeStage, NoticeStep, Owed};

/// A notice, as its caller owns it. Nobody but these calls writes its fields; a stage that is none of theirs is to watch.
#[repr(C)]
#[derive(Clone, Copy)]
pub struct NoticeRecord {
    stage: u32,
    owed: u32,
    pause: u64,
    until: u64,
    is_whole: bool,
}

impl NoticeRecord {
    /// As [`Notice::begin`].
    pub fn begin() -> NoticeRecord
        ensures { IsNoticeBegun (notice_of result) }
    {
        NoticeRecord::of(Notice::begin())
    }

    /// What comes next: 0 watch, 1 look, 2 rest; and until when, of a rest.
    pub fn next(&self) -> (u32, u64)
        ensures step { result.0 ≡ notice_step_number (notice_step (notice_of self.now)) }
        ensures until { result.1 ≡ rest_until (notice_step (notice_of self.now)) }
    {
        match self.notice().next() {
            NoticeStep::Watch => (0, 0),
            NoticeStep::Look => (1, 0),
            NoticeStep::Rest(until) => (2, until),
        }
    }

    /// As [`Notice::heard`]: 0 a file, 1 a folder, else nothing.
    pub fn heard(&mut self, event: u32, now: u64)
        ensures { AreTold (heard_events (notice_event_of event)) now (notice_of self.old) (notice_of self.new) }
    {
        let mut notice = self.notice();
        notice.heard(event_of(event), now);
        *self = NoticeRecord::of(notice);
    }

    /// As [`Notice::asked`]: what comes next is 0 watch, 1 look.
    pub fn asked(&mut self, event: u32, now: u64) -> u32
        ensures taken { IsNoticeAsked (notice_of self.old) (notice_event_of event) now (notice_of self.new) }
        ensures step { result ≡ notice_step_number (notice_step (notice_of self.new)) }
    {
        let mut notice = self.notice();
        let step = notice.asked(event_of(event), now);
        *self = NoticeRecord::of(notice);
        step_number_of(step)
    }

    /// As [`Notice::passed`].
    pub fn passed(&mut self, listens: bool, now: u64)
        ensures { AreTold (time_events ((notice_of self.old).is_whole || listens)) now (notice_of self.old) (notice_of self.new) }
    {
        let mut notice = self.notice();
        notice.passed(listens, now);
        *self = NoticeRecord::of(notice);
    }

    /// As [`Notice::opened_anew`].
    pub fn opened_anew(&mut self, now: u64)
        ensures { AreTold (anew_events (notice_step (notice_of self.old))) now (notice_of self.old) (notice_of self.new) }
    {
        let mut notice = self.notice();
        notice.opened_anew(now);
        *self = NoticeRecord::of(notice);
    }

    /// As [`Notice::due`].
    pub fn due(&self, listens: bool) -> u64
        ensures { result ≡ due_if ((notice_of self.now).is_whole || listens) (notice_step (notice_of self.now)) }
    {
        self.notice().due(listens)
    }

    /// As [`Notice::answered`]; and when the next step is due, for who minds the time.
    pub fn answered(&mut self, yes: bool, now: u64) -> u64
        ensures taken { IsNoticeAnswered (notice_of self.old) yes now (notice_of self.new) }
        ensures due { result ≡ due_at (notice_step (notice_of self.new)) }
    {
        let mut notice = self.notice();
        notice.answered(yes, now);
        *self = NoticeRecord::of(notice);
        notice.due(true)
    }

    fn of(notice: Notice) -> NoticeRecord
        ensures { notice_of result ≡ notice }
    {
        NoticeRecord {
            stage: number_of(notice.stage),
            owed: owed_number_of(notice.owed),
            pause: notice.pause,
            until: notice.until,
            is_whole: notice.is_whole,
        }
    }

    fn notice(&self) -> Notice
        ensures { result ≡ notice_of self.now }
    {
        Notice {
            stage: stage_of(self.stage),
            owed: owed_of(self.owed),
            is_whole: self.is_whole,
            pause: self.pause,
            until: self.until,
        }
    }
}

fn event_of(number: u32) -> Option<NoticeEvent>
    ensures { result ≡ notice_event_of number }
{
    match number {
        0 => Some(NoticeEvent::File),
        1 => Some(NoticeEvent::Folder),
        _ => None,
    }
}

fn step_number_of(step: NoticeStep) -> u32
    ensures { result ≡ notice_step_number step }
{
    match step {
        NoticeStep::Watch => 0,
        NoticeStep::Look => 1,
        NoticeStep::Rest(_) => 2,
    }
}

fn number_of(stage: NoticeStage) -> u32
    ensures { notice_stage_of result ≡ stage }
{
    match stage {
        NoticeStage::Watching => 0,
        NoticeStage::Looking => 1,
        NoticeStage::Resting => 2,
    }
}

fn stage_of(number: u32) -> NoticeStage
    ensures { result ≡ notice_stage_of number }
{
    match number {
        1 => NoticeStage::Looking,
        2 => NoticeStage::Resting,
        _ => NoticeStage::Watching,
    }
}

fn owed_number_of(owed: Owed) -> u32
    ensures { owed_of result ≡ owed }
{
    match owed {
        Owed::Nothing => 0,
        Owed::Another => 1,
        Owed::Anew => 2,
    }
}

fn owed_of(number: u32) -> Owed
    ensures { result ≡ owed_of number }
{
    match number {
        0 => Owed::Nothing,
        1 => Owed::Another,
        _ => Owed::Anew,
    }
}
