//! A wait for a lock as plain numbers, for a caller that is not Rust.
ghost use Rattle.std.specs.Prelude.{◌≡◌, ◌==◌, not};
ghost use Rattle.dconf_waits.specs.Waits.{IsWaitAnswered, IsWaitBegun, wait_step};
ghost use Rattle.dconf_waits.specs.WaitRecords.{IsTimed, IsWaitTold, began_by, busy_errno, longest_of, passed_by, paused_by, wait_answer_of, wait_of, wait_stage_of};

use crate::wait::{LockWait, WaitAnswer, WaitEnd, WaitStage, WaitStep};
use dconf_steps::NextStep;
use dconf_verdicts::{FaultAnswer, FileCall, kind_of};

/// How long a file is waited for that another program has a lease on, which it is asked to give back: so many milliseconds.
const LONGEST_LEASE: u32 = 1000;

/// Others may wait in the kernel, which hands a lock on to them within some tens of microseconds: who tries seldom hardly ever meets such
/// a moment. So a pause takes so many nanoseconds.
const PAUSE: usize = 200_000;

/// And counts no more than these, however long it took: the machine stood still, or had others to serve, and whoever is waited for had no
/// more time than this program.
const LONGEST_PAUSE: u64 = 50_000_000;

const MILLISECOND: u64 = 1_000_000;

/// A wait, as its caller owns it. Nobody but these calls writes its fields; a stage that is none of theirs is a wait that was stopped.
#[repr(C)]
#[derive(Clone, Copy)]
pub struct WaitRecord {
    stage: u32,
    fault: u32,
    longest: u64,
    tries: u64,
    /// When it began, by a clock of nanoseconds that nobody sets.
    began: u64,
    /// When the pause began that is the last step; else 0.
    paused: u64,
    /// Which call was the last of the last try.
    tried: u32,
    /// Its time has an end.
    is_timed: bool,
}

impl WaitRecord {
    /// As [`LockWait::begin`]: 0 of so many milliseconds, 1 without end, both for a lock, or else for a file that others have a lease on.
    pub fn begin(what: u32, longest: u32, now: u64) -> WaitRecord
        ensures begun { IsWaitBegun (longest_of what longest) (wait_of result) }
        ensures began { result.began ≡ now }
        ensures paused { result.paused ≡ 0 }
        ensures timed { result.is_timed ≡ not (what == 1) }
    {
        let longest = match what {
            0 => longest,
            1 => u32::MAX,
            _ => LONGEST_LEASE,
        };
        let clock = Clock {
            began: now,
            paused: 0,
            tried: 0,
            is_timed: what != 1,
        };
        WaitRecord::of(LockWait::begin(longest), clock)
    }

    /// What comes next: 0 try, 1 pause for so many nanoseconds; or that it is over: 2 had, 3 busy, 4 stopped, both with the errno that is told.
    pub fn next(&self) -> NextStep
        ensures { IsWaitTold self.now.tried (wait_step (wait_of self.now)) result }
    {
        match self.wait().next() {
            WaitStep::Try => NextStep::plain(0),
            WaitStep::Pause => NextStep::of(1, PAUSE),
            WaitStep::Done(WaitEnd::Had) => NextStep::plain(2),
            WaitStep::Done(WaitEnd::Busy) => NextStep::of(3, busy_errno(self.tried)),
            WaitStep::Done(WaitEnd::Stopped(fault)) => NextStep::of(4, fault as usize),
        }
    }

    /// As [`LockWait::answered`], by the call that was the last of a try, its errno or 0, and when the step began: 0 the file was opened, 1 it
    /// was locked, 2 its name was seen to be another file's, 3 the lock's file was opened. Of a pause, any call.
    pub fn answered(&mut self, tried: u32, errno: u32, at: u64)
        ensures taken { IsWaitAnswered (wait_of self.old) (wait_answer_of tried errno (passed_by self.old at)) (wait_of self.new) }
        ensures timed { IsTimed self.old at self.new }
        ensures tried { self.new.tried ≡ tried }
    {
        let mut wait = self.wait();
        let passed = self.passed(at);
        let clock = Clock {
            began: self.began_by(at),
            paused: paused_by(wait.stage, at),
            tried,
            is_timed: self.is_timed,
        };
        wait.answered(answer_of(tried, errno, passed));
        *self = WaitRecord::of(wait, clock);
    }

    /// How many milliseconds count.
    fn passed(&self, at: u64) -> u64
        ensures { result ≡ passed_by self.now at }
    {
        if self.is_timed {
            at.saturating_sub(self.began_by(at)) / MILLISECOND
        } else {
            0
        }
    }

    fn began_by(&self, at: u64) -> u64
        ensures { result ≡ began_by self.now at }
    {
        if self.paused == 0 {
            return self.began;
        }
        let late = at.saturating_sub(self.paused).saturating_sub(LONGEST_PAUSE);
        self.began.saturating_add(late)
    }

    fn of(wait: LockWait, clock: Clock) -> WaitRecord
        ensures wait { wait_of result ≡ wait }
        ensures began { result.began ≡ clock.began }
        ensures paused { result.paused ≡ clock.paused }
        ensures tried { result.tried ≡ clock.tried }
        ensures timed { result.is_timed ≡ clock.is_timed }
    {
        let (stage, fault) = numbers_of(wait.stage);
        WaitRecord {
            stage,
            fault,
            longest: wait.longest,
            tries: wait.tries,
            began: clock.began,
            paused: clock.paused,
            tried: clock.tried,
            is_timed: clock.is_timed,
        }
    }

    fn wait(&self) -> LockWait
        ensures { result ≡ wait_of self.now }
    {
        LockWait {
            stage: stage_of(self.stage, self.fault),
            longest: self.longest,
            tries: self.tries,
        }
    }
}

/// What of a wait is none of its steps.
#[derive(Clone, Copy)]
struct Clock {
    began: u64,
    paused: u64,
    tried: u32,
    is_timed: bool,
}

fn paused_by(stage: WaitStage, at: u64) -> u64
    ensures { result ≡ paused_by stage at }
{
    match stage {
        WaitStage::Pausing => at,
        WaitStage::Trying | WaitStage::Over(_) => 0,
    }
}

/// EBUSY and EAGAIN.
fn busy_errno(tried: u32) -> usize
    ensures { result ≡ busy_errno tried }
{
    if tried == 3 { 16 } else { 11 }
}

fn answer_of(tried: u32, errno: u32, passed: u64) -> WaitAnswer
    ensures { result ≡ wait_answer_of tried errno passed }
{
    if errno == 0 {
        return if tried == 2 {
            WaitAnswer::Moved(passed)
        } else {
            WaitAnswer::Got
        };
    }
    if tried == 2 {
        return WaitAnswer::Failed(errno);
    }
    let call = if tried == 1 {
        FileCall::Lock
    } else {
        FileCall::Open
    };
    match dconf_verdicts::answer_of(call, kind_of(errno)) {
        FaultAnswer::Leased | FaultAnswer::Taken => WaitAnswer::Taken(passed),
        _ => WaitAnswer::Failed(errno),
    }
}

fn numbers_of(stage: WaitStage) -> (u32, u32)
    ensures { wait_stage_of result.0 result.1 ≡ stage }
{
    match stage {
        WaitStage::Trying => (0, 0),
        WaitStage::Pausing => (1, 0),
        WaitStage::Over(WaitEnd::Had) => (2, 0),
        WaitStage::Over(WaitEnd::Busy) => (3, 0),
        WaitStage::Over(WaitEnd::Stopped(fault)) => (4, fault),
    }
}

fn stage_of(number: u32, fault: u32) -> WaitStage
    ensures { result ≡ wait_stage_of number fault }
{
    match number {
        0 => WaitStage::Trying,
        1 => WaitStage::Pausing,
        2 => WaitStage::Over(WaitEnd::Had),
        3 => WaitStage::Over(WaitEnd::Busy),
        _ => WaitStage::Over(WaitEnd::Stopped(fault)),
    }
}
