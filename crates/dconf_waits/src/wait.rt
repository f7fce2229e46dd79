//! The wait for a lock that others may have.
ghost use Rattle.std.specs.Prelude.{◌≡◌};
ghost use Rattle.dconf_waits.specs.declared.wait.WaitStage.TheVariants as WaitStage;
ghost use Rattle.dconf_waits.specs.Waits.{IsWaitAnswered, IsWaitBegun, IsWaitedOn, wait_step};

/// How often the lock is tried in a millisecond, at most.
const TRIES_IN_A_MILLISECOND: u64 = 5;

/// What who waits for a lock does next.
#[derive(Clone, Copy)]
pub enum WaitStep {
    /// Tries to take the lock.
    Try,
    /// Waits for a moment, at least a fifth of a millisecond.
    Pause,
    /// Nothing: it is over.
    Done(WaitEnd),
}

/// What became of a step.
#[derive(Clone, Copy)]
pub enum WaitAnswer {
    /// The lock is had.
    Got,
    /// Others have it, so many milliseconds after the wait began.
    Taken(u64),
    /// It was had, but its name is another file's by now; the time as before.
    Moved(u64),
    /// It failed, with a fault of the caller's numbering.
    Failed(u32),
}

/// What became of the wait.
#[derive(Clone, Copy)]
pub enum WaitEnd {
    /// The lock is had.
    Had,
    /// Others had it for as long as it was waited for.
    Busy,
    /// A try failed.
    Stopped(u32),
}

#[derive(Clone, Copy)]
pub(crate) enum WaitStage {
    Trying,
    Pausing,
    Over(WaitEnd),
}

/// A wait for a lock: what comes next, and two numbers.
#[derive(Clone, Copy)]
pub struct LockWait {
    pub(crate) stage: WaitStage,
    /// How many milliseconds it may take.
    pub(crate) longest: u64,
    /// How often it may still be tried after the next time: the clock may stand still.
    pub(crate) tries: u64,
}

impl LockWait {
    /// A wait of so many milliseconds at most, of which nothing is done yet.
    pub fn begin(longest: u32) -> LockWait
        ensures { IsWaitBegun longest result }
    {
        LockWait {
            stage: WaitStage::Trying,
            longest: longest as u64,
            tries: longest as u64 * TRIES_IN_A_MILLISECOND,
        }
    }

    /// What comes next.
    pub fn next(&self) -> WaitStep
        ensures { result ≡ wait_step self.now }
    {
        match self.stage {
            WaitStage::Trying => WaitStep::Try,
            WaitStage::Pausing => WaitStep::Pause,
            WaitStage::Over(end) => WaitStep::Done(end),
        }
    }

    /// Takes the answer to the step that `next` says; of a pause, any. After `Done` it changes nothing.
    pub fn answered(&mut self, answer: WaitAnswer)
        ensures { IsWaitAnswered self.old answer self.new }
    {
        *self = match self.stage {
            WaitStage::Trying => self.tried(answer),
            WaitStage::Pausing => self.to(WaitStage::Trying),
            WaitStage::Over(_) => *self,
        };
    }

    /// What comes of a try.
    fn tried(self, answer: WaitAnswer) -> LockWait
        requires { self.stage ≡ WaitStage.Trying }
        ensures { IsWaitAnswered self answer result }
    {
        match answer {
            WaitAnswer::Got => self.to(WaitStage::Over(WaitEnd::Had)),
            WaitAnswer::Taken(passed) => self.again(passed, WaitStage::Pausing),
            WaitAnswer::Moved(passed) => self.again(passed, WaitStage::Trying),
            WaitAnswer::Failed(fault) => self.to(WaitStage::Over(WaitEnd::Stopped(fault))),
        }
    }

    /// Goes on in that way, or gives up.
    fn again(self, passed: u64, stage: WaitStage) -> LockWait
        ensures { IsWaitedOn self passed stage result }
    {
        if passed >= self.longest || self.tries == 0 {
            return self.to(WaitStage::Over(WaitEnd::Busy));
        }
        LockWait {
            stage,
            tries: self.tries - 1,
            ..self
        }
    }

    fn to(self, stage: WaitStage) -> LockWait
        ensures { result ≡ record self { stage = stage } }
    {
        LockWait { stage, ..self }
    }
}
