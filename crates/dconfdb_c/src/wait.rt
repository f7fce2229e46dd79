//! The wait for a lock, or for a file that others have a lease on, and a try to take a lock: what comes next. C carries out each step, and answers.
ghost use Rattle.std.specs.Prelude.{◌≡◌, ◌==◌, not};
ghost use Rattle.dconf_waits.specs.Takings.{taken};
ghost use Rattle.dconf_waits.specs.WaitRecords.{IsTimed, IsWaitTold, longest_of, passed_by, wait_answer_of, wait_of};
ghost use Rattle.dconf_waits.specs.Waits.{IsWaitAnswered, IsWaitBegun, wait_step};

use dconf_steps::NextStep;
use dconf_verdicts::Seen;
use dconf_waits::{TakingRecord, WaitRecord};

/// A wait of which nothing is done yet, and what comes first: 0 for a lock, so many milliseconds at most, 1 for a lock, without end, or else for
/// a file that others have a lease on. `now` is a moment of a clock of nanoseconds that nobody sets.
#[unsafe(no_mangle)]
pub extern "C" fn dconfdb_wait_begin(
    wait: &mut WaitRecord,
    what: u32,
    longest: u32,
    now: u64,
    step: &mut NextStep,
)
    ensures begun { IsWaitBegun (longest_of what longest) (wait_of wait.new) }
    ensures began { wait.new.began ≡ now }
    ensures paused { wait.new.paused ≡ 0 }
    ensures timed { wait.new.is_timed ≡ not (what == 1) }
    ensures step { IsWaitTold wait.new.tried (wait_step (wait_of wait.new)) step.new }
{
    *wait = WaitRecord::begin(what, longest, now);
    *step = wait.next();
}

/// Takes the answer to a try: which call was the last, and its errno, or 0: 0 the file was opened, 1 it was locked, 2 its name was seen to be
/// another file's by now, 3 the lock's file was opened. `at` is when the step began. Of a pause, any call. And what comes next.
#[unsafe(no_mangle)]
pub extern "C" fn dconfdb_wait_answered(
    wait: &mut WaitRecord,
    tried: u32,
    errno: u32,
    at: u64,
    step: &mut NextStep,
)
    ensures taken { IsWaitAnswered (wait_of wait.old) (wait_answer_of tried errno (passed_by wait.old at)) (wait_of wait.new) }
    ensures timed { IsTimed wait.old at wait.new }
    ensures step { IsWaitTold tried (wait_step (wait_of wait.new)) step.new }
{
    wait.answered(tried, errno, at);
    *step = wait.next();
}

/// Takes what the host says of what was done in a try to take a lock, and says what comes next in it: the tasks are those of
/// [`TakingRecord`](dconf_waits::TakingRecord).
#[unsafe(no_mangle)]
pub extern "C" fn dconfdb_taking_answered(taking: &mut TakingRecord, seen: &Seen)
    ensures { taking.new ≡ taken taking.old seen.now }
{
    taking.answered(seen);
}
