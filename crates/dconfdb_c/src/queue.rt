//! The changes that wait to be written: what comes next, and what came of it. C carries out each step, and answers.
ghost use Rattle.std.specs.Prelude.{◌≡◌, ◌≢◌, ◌&&◌, ◌||◌, ◌==◌, false, nat_lt, not};
ghost use Rattle.dconf_steps.specs.QueueRecords.{IsQueueTold, queue_of};
ghost use Rattle.dconf_steps.specs.Queues.{marked, queue_step, taking};
ghost use Rattle.dconf_waiting.specs.Batches.{answer_to, batch_after, has_refused, keeps_fault, step_kind, taken_after, unless_nothing};

use dconf_steps::QueuedEdit;
use dconf_waiting::{BatchRecord, BatchStep};

/// The answer of whoever begins.
const BEGINS: u32 = 7;

/// Takes the answer to the step: 7 nothing is done yet of these edits, 0 yes, 2 a fault of an edit, `at` of those that were taken, or what
/// `dconfdb_verdict` says. It marks edits that are left out, and changes that are refused. And what comes next; whether the fault is kept that was just
/// met; and, in the end, whether what is kept is told.
#[unsafe(no_mangle)]
pub extern "C" fn dconfdb_queue_answered(
    queue: &mut BatchRecord,
    edits: &mut [QueuedEdit],
    answer: u32,
    at: usize,
    step: &mut BatchStep,
)
    ensures begun { answer ≡ 7 → (queue_of queue.new.queue ≡ unless_nothing taking edits.old false) × (queue.new.is_closed ≡ false) × (edits.new ≡ edits.old) }
    ensures taken { answer ≢ 7 → queue_of queue.new.queue ≡ batch_after (queue_of queue.old.queue) queue.old.has_taken edits.old answer at }
    ensures marked { answer ≢ 7 → edits.new ≡ marked edits.old (queue_step (queue_of queue.old.queue) edits.old) (answer_to edits.old answer at) }
    ensures closed { answer ≢ 7 → queue.new.is_closed ≡ (queue.old.is_closed || (answer == 4)) }
    ensures keeps { answer ≢ 7 → step.new.keeps_fault ≡ keeps_fault (step_kind (queue_step (queue_of queue.old.queue) edits.old)) edits.old answer }
    ensures step { IsQueueTold (queue_step (queue_of queue.new.queue) edits.new) step.new.next }
    ensures tells { step.new.tells ≡ not (nat_lt step.new.next.kind 4) && (queue.new.is_closed || has_refused edits.new) }
{
    let mut keeps = false;
    if answer == BEGINS {
        *queue = BatchRecord::begin(edits);
    } else {
        keeps = queue.answered(edits, answer, at);
    }
    *step = queue.next(edits, keeps);
}
