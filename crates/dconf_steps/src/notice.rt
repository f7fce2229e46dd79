//! When whoever is told of changes looks at the files: at each event, and again after a look that failed.
ghost use Rattle.std.specs.Prelude.{ℕ, ◌≡◌, ◌||◌};
ghost use Rattle.dconf_steps.specs.declared.notice.NoticeStage.TheVariants as NoticeStage;
ghost use Rattle.dconf_steps.specs.Notices.{AreTold, IsNoticeAnswered, IsNoticeAsked, IsNoticeBegun, IsNoticeTold, after_look, anew_events, at_its_time, due_if, heard_events, is_come, look_again, next_look_pause, notice_step, notice_step_at, owed_after, owed_by, pause_by, time_events, woken_by};

/// The pause before a look that failed is repeated: the first one, and the longest, in microseconds.
const SHORTEST_LOOK_PAUSE: u64 = 20_000;

const LONGEST_LOOK_PAUSE: u64 = 1_000_000;

/// Until the next look, if not all can be watched.
const BETWEEN_LOOKS: u64 = 1_000_000;

/// A moment that is over.
const AT_ONCE: u64 = 1;

/// What whoever is told of changes does next.
#[derive(Clone, Copy)]
pub enum NoticeStep {
    /// Watches the files that are the store's now.
    Watch,
    /// Looks at the files.
    Look,
    /// Waits for an event, or for that moment; 0 is none.
    Rest(u64),
}

/// What happened.
#[derive(Clone, Copy)]
pub enum NoticeEvent {
    /// A file may have changed, or somebody asks.
    File,
    /// Other files may be the store's.
    Folder,
    /// Time passed.
    Time,
}

#[derive(Clone, Copy)]
pub(crate) enum NoticeStage {
    Watching,
    Looking,
    Resting,
}

/// What is owed after the look that comes next or is under way.
#[derive(Clone, Copy)]
pub(crate) enum Owed {
    Nothing,
    Another,
    Anew,
}

/// A notice of changes: what comes next, and a few numbers. All moments are of one clock, in microseconds.
#[derive(Clone, Copy)]
pub struct Notice {
    pub(crate) stage: NoticeStage,
    pub(crate) owed: Owed,
    /// All files are watched.
    pub(crate) is_whole: bool,
    /// The pause after the last look; 0 if that succeeded.
    pub(crate) pause: u64,
    /// The moment of the next look; 0 is none.
    pub(crate) until: u64,
}

impl Notice {
    /// A notice of which nothing is done yet: its files are to be watched, and then looked at.
    pub fn begin() -> Notice
        ensures { IsNoticeBegun result }
    {
        Notice {
            stage: NoticeStage::Watching,
            owed: Owed::Nothing,
            is_whole: false,
            pause: 0,
            until: 0,
        }
    }

    /// What comes next.
    pub fn next(&self) -> NoticeStep
        ensures { result ≡ notice_step self.now }
    {
        match self.stage {
            NoticeStage::Watching => NoticeStep::Watch,
            NoticeStage::Looking => NoticeStep::Look,
            NoticeStage::Resting => NoticeStep::Rest(self.until),
        }
    }

    /// Takes what happened, at any time, also amid a step.
    pub fn told(&mut self, event: NoticeEvent, now: u64)
        ensures { IsNoticeTold self.old event now self.new }
    {
        *self = Notice {
            stage: self.woken(event, now),
            owed: self.owed_after(event),
            ..*self
        };
    }

    /// Takes what was heard since the last time, if anything, and that time passed.
    pub fn heard(&mut self, event: Option<NoticeEvent>, now: u64)
        ensures { AreTold (heard_events event) now self.old self.new }
    {
        if let Some(event) = event {
            self.told(event, now);
        }
        self.told(NoticeEvent::Time, now);
    }

    /// The same, as somebody asks for a look: and what comes next, which is no rest.
    pub fn asked(&mut self, event: Option<NoticeEvent>, now: u64) -> NoticeStep
        ensures taken { IsNoticeAsked self.old event now self.new }
        ensures step { result ≡ notice_step self.new }
    {
        self.heard(event, now);
        if let NoticeStage::Resting = self.stage {
            self.told(NoticeEvent::File, now);
        }
        self.next()
    }

    /// Takes that time passed. Where not all is watched, and nobody listens, no look is made for that.
    pub fn passed(&mut self, listens: bool, now: u64)
        ensures { AreTold (time_events (self.old.is_whole || listens)) now self.old self.new }
    {
        if self.is_whole || listens {
            self.told(NoticeEvent::Time, now);
        }
    }

    /// Takes that other files are the store's, unless those are to be watched next.
    pub fn opened_anew(&mut self, now: u64)
        ensures { AreTold (anew_events (notice_step self.old)) now self.old self.new }
    {
        match self.stage {
            NoticeStage::Watching => {}
            _ => self.told(NoticeEvent::Folder, now),
        }
    }

    /// When the next step is due; 0 is never, unless something happens. Where not all is watched, and nobody listens, no rest ends by
    /// time.
    pub fn due(&self, listens: bool) -> u64
        ensures { result ≡ due_if (self.now.is_whole || listens) (notice_step self.now) }
    {
        match (self.stage, self.is_whole || listens) {
            (NoticeStage::Resting, true) => self.until,
            (NoticeStage::Resting, false) => 0,
            _ => AT_ONCE,
        }
    }

    /// Takes the answer to the step that `next` says, and when that was: whether all files are watched, or whether the look
    /// succeeded. While it rests there is none.
    pub fn answered(&mut self, yes: bool, now: u64)
        ensures { IsNoticeAnswered self.old yes now self.new }
    {
        *self = match self.stage {
            NoticeStage::Watching => Notice {
                stage: NoticeStage::Looking,
                is_whole: yes,
                ..*self
            },
            NoticeStage::Looking => self.looked(yes, now),
            NoticeStage::Resting => *self,
        };
    }

    /// Whoever rests is woken.
    fn woken(&self, event: NoticeEvent, now: u64) -> NoticeStage
        ensures { notice_step_at result self.now.until ≡ woken_by (notice_step self.now) event now self.now.is_whole }
    {
        match (self.stage, event) {
            (NoticeStage::Resting, NoticeEvent::File) => NoticeStage::Looking,
            (NoticeStage::Resting, NoticeEvent::Folder) => NoticeStage::Watching,
            (NoticeStage::Resting, NoticeEvent::Time) => self.at_its_time(now),
            (stage, _) => stage,
        }
    }

    /// What comes once time has passed.
    fn at_its_time(&self, now: u64) -> NoticeStage
        ensures { notice_step_at result self.now.until ≡ at_its_time (is_come self.now.until now) self.now.is_whole self.now.until }
    {
        match (has_come(self.until, now), self.is_whole) {
            (true, true) => NoticeStage::Looking,
            (true, false) => NoticeStage::Watching,
            (false, _) => NoticeStage::Resting,
        }
    }

    /// What is owed once this has happened.
    fn owed_after(&self, event: NoticeEvent) -> Owed
        ensures { result ≡ owed_after (notice_step self.now) event self.now.owed }
    {
        match (self.stage, event) {
            (NoticeStage::Looking, event) => owed_by(event, self.owed),
            (NoticeStage::Watching, NoticeEvent::Folder) => Owed::Anew,
            _ => self.owed,
        }
    }

    /// What comes of a look: what is owed, or a rest.
    fn looked(self, yes: bool, now: u64) -> Notice
        requires { self.stage ≡ NoticeStage.Looking }
        ensures { IsNoticeAnswered self yes now result }
    {
        let pause = pause_by(yes, self.pause);
        Notice {
            stage: stage_by(self.owed),
            owed: Owed::Nothing,
            is_whole: self.is_whole,
            pause,
            until: look_again(yes, self.is_whole, pause, now),
        }
    }
}

fn owed_by(event: NoticeEvent, owed: Owed) -> Owed
    ensures { result ≡ owed_by event owed }
{
    match (event, owed) {
        (NoticeEvent::File, Owed::Nothing) => Owed::Another,
        (NoticeEvent::Folder, _) => Owed::Anew,
        _ => owed,
    }
}

fn stage_by(owed: Owed) -> NoticeStage
    ensures { (until : ℕ) → notice_step_at result until ≡ after_look owed until }
{
    match owed {
        Owed::Nothing => NoticeStage::Resting,
        Owed::Another => NoticeStage::Looking,
        Owed::Anew => NoticeStage::Watching,
    }
}

/// The moment of the next look; 0 is none.
fn look_again(yes: bool, is_whole: bool, pause: u64, now: u64) -> u64
    ensures { (before : ℕ) → pause ≡ pause_by yes before → result ≡ look_again yes is_whole before now }
{
    match (yes, is_whole) {
        (true, true) => 0,
        (true, false) => now.saturating_add(BETWEEN_LOOKS),
        (false, _) => now.saturating_add(pause),
    }
}

fn pause_by(yes: bool, pause: u64) -> u64
    ensures { result ≡ pause_by yes pause }
{
    if yes { 0 } else { look_pause_after(pause) }
}

/// The pause before a look that failed is repeated, by the one before it: twice that, from 20 milliseconds to a second.
fn look_pause_after(pause: u64) -> u64
    ensures { result ≡ next_look_pause pause }
{
    pause
        .saturating_mul(2)
        .clamp(SHORTEST_LOOK_PAUSE, LONGEST_LOOK_PAUSE)
}

fn has_come(until: u64, now: u64) -> bool
    ensures { result ≡ is_come until now }
{
    until != 0 && until <= now
}
