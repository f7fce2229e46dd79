//! How long somebody waits until what waits is written. All moments are of one clock, in microseconds.
ghost use Rattle.std.specs.Prelude.{◌≡◌, ◌≤◌, ◌<◌, ◌+◌, ◌↔◌, IsTrue};
ghost use Rattle.dconf_files.specs.Stamps.{is_same_time};
ghost use Rattle.dconf_waiting.specs.Patiences.{patience_for, renewed_by};

use dconf_files::FileTime;

/// How often whoever waits asks whether another program had a turn.
const BETWEEN_TURNS: u64 = 500_000;

/// How long is waited at most while other programs have their turns.
const LONGEST_CROWD: u64 = 60_000_000;

/// How long the program's end waits for a thread that neither writes nor is to try again.
const LONGEST_REST: u64 = 2_000_000;

/// How long whoever sets or syncs waits for the turn; and how long the program's end does.
const LONGEST_ASKED: u64 = 10_000_000;

const LONGEST_END: u64 = 5_000_000;

/// How often the program's end asks whether what it waits for is over.
const BETWEEN_LOOKS: u64 = 5_000;

/// How long it is waited for what waits, or for the turn, unless others have turns meanwhile: by who sets or syncs (0), at the end (1), and (else)
/// for a lock that is wanted for moments, at the end; (3) until it is asked again whether others had one; and (4) until the end asks again whether what it
/// waits for is over.
pub fn patience_for(who: u32) -> u64
    ensures { result ≡ patience_for who }
{
    match who {
        0 => LONGEST_ASKED,
        1 => LONGEST_END,
        3 => BETWEEN_TURNS,
        4 => BETWEEN_LOOKS,
        _ => LONGEST_REST,
    }
}

/// How long it is waited: so long, and as long again after each turn that another program has, but not for ever.
#[repr(C)]
#[derive(Clone, Copy)]
pub struct Patience {
    /// When it is over, if no other program has a turn until then.
    pub end: u64,
    /// So long after a turn.
    pub each: u64,
    /// When it is over, whoever has turns; 0: it has not begun.
    pub latest: u64,
    /// When the folder changed last: a turn makes a file in it, and renames it.
    pub changed: FileTime,
}

/// What was written, and what was tried.
#[repr(C)]
#[derive(Clone, Copy)]
pub struct Progress {
    /// How many changes are settled: written, refused or overtaken.
    pub settled: u64,
    /// How many there were when somebody began to wait.
    pub added: u64,
    /// Which try was the last that failed by a fault that lasts; 0 if none did.
    pub failed: u64,
    /// How many tries there were when somebody began to wait.
    pub tries: u64,
    /// When the thread that writes was seen to write last, or was to try again; the last moment of all if nobody minds that.
    pub moved: u64,
}

impl Progress {
    /// Whether a later try than those has failed by a fault that lasts.
    pub fn has_failed(&self) -> bool
        ensures { IsTrue result ↔ (self.now.tries < self.now.failed) }
    {
        self.failed > self.tries
    }

    /// Whether all is settled that waited then.
    pub fn is_settled(&self) -> bool
        ensures { IsTrue result ↔ (self.now.added ≤ self.now.settled) }
    {
        self.settled >= self.added
    }
}

impl Patience {
    /// It begins now, or goes on; `changed`: when the folder changed last. In another moment than before: another program had a turn, and it is
    /// waited as long again.
    fn renew(&mut self, changed: FileTime, now: u64)
        ensures { self.new ≡ renewed_by self.old changed now }
    {
        if self.latest != 0 && is_same(self.changed, changed) {
            return;
        }
        if self.latest == 0 {
            self.latest = now.saturating_add(LONGEST_CROWD);
        }
        self.end = now.saturating_add(self.each).min(self.latest);
        self.changed = changed;
    }

    /// Whether it is waited on, by when the folder changed last: something that waited then isn't settled, no later try has failed by a fault
    /// that lasts, the time isn't over, and the thread that writes wrote, or was to try again, within two seconds.
    pub fn goes_on(&mut self, progress: &Progress, changed: FileTime, now: u64) -> bool
        ensures renewed { self.new ≡ renewed_by self.old changed now }
        ensures on { IsTrue result ↔ ((progress.now.settled < progress.now.added) × (progress.now.failed ≤ progress.now.tries) × (now < self.new.end) × (now < progress.now.moved + 2000000)) }
    {
        self.renew(changed, now);
        !progress.is_settled()
            && !progress.has_failed()
            && now < self.end
            && now.saturating_sub(progress.moved) < LONGEST_REST
    }
}

fn is_same(one: FileTime, other: FileTime) -> bool
    ensures { result ≡ is_same_time one other }
{
    one.seconds == other.seconds && one.nanoseconds == other.nanoseconds
}
