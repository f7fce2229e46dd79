//! The changes that wait, written together: what comes next, by the queue; which fault is kept of those that are met, and whether it is told.
ghost use Rattle.std.specs.Prelude.{◌≡◌, ◌&&◌, ◌||◌, ◌==◌, false, length, nat_lt, not};
ghost use Rattle.dconf_steps.specs.Queues.{goes, is_open, marked, queue_step, taking};
ghost use Rattle.dconf_steps.specs.QueueRecords.{IsQueueTold, queue_answer_of, queue_of};
ghost use Rattle.dconf_waiting.specs.Batches.{answer_to, batch_after, has_refused, keeps_fault, nth_going, step_kind, taken_after, unless_nothing};

use dconf_steps::{NextStep, QueueRecord, QueuedEdit};

/// The step by which an edit is taken, and that by which those that were taken are written.
const TAKE: u32 = 0;

const WRITE: u32 = 2;

/// The first step that is none: it is over.
const WRITTEN: u32 = 4;

/// The changes that are written together, as their caller owns them. Nobody but these calls writes its fields.
#[repr(C)]
#[derive(Clone, Copy)]
pub struct BatchRecord {
    pub queue: QueueRecord,
    /// An edit was taken for the next write.
    pub has_taken: bool,
    /// Nobody who has this program's rights may write there.
    pub is_closed: bool,
}

/// What comes next.
#[repr(C)]
#[derive(Clone, Copy)]
pub struct BatchStep {
    pub next: NextStep,
    /// The fault that was just met is kept: no change was refused before.
    pub keeps_fault: bool,
    /// It is over, and what is kept is told: a change is refused, or nobody may write there.
    pub tells: bool,
}

impl BatchRecord {
    /// Nothing is done yet of these edits.
    pub fn begin(edits: &mut [QueuedEdit]) -> BatchRecord
        ensures queue { queue_of result.queue ≡ unless_nothing taking edits.old false }
        ensures taken { result.has_taken ≡ false }
        ensures closed { result.is_closed ≡ false }
        ensures edits { edits.new ≡ edits.old }
    {
        let mut queue = QueueRecord::begin();
        pass_nothing(&mut queue, edits, false);
        BatchRecord {
            queue,
            has_taken: false,
            is_closed: false,
        }
    }

    /// What comes next, as [`QueueRecord::next`] has it, and whether what is kept is told.
    pub fn next(&self, edits: &[QueuedEdit], keeps_fault: bool) -> BatchStep
        ensures next { IsQueueTold (queue_step (queue_of self.now.queue) edits.now) result.next }
        ensures keeps { result.keeps_fault ≡ keeps_fault }
        ensures tells { result.tells ≡ not (nat_lt result.next.kind 4) && (self.now.is_closed || has_refused edits.now) }
    {
        let next = self.queue.next(edits);
        let is_over = next.kind >= WRITTEN;
        BatchStep {
            next,
            keeps_fault,
            tells: is_over && (self.is_closed || has_refused(edits)),
        }
    }

    /// Takes the answer, as [`QueueRecord::answered`] does, but that `at` is the place of the edit at fault among those that were taken. What nothing
    /// was taken for isn't written. Gives whether the fault is kept.
    pub fn answered(&mut self, edits: &mut [QueuedEdit], kind: u32, at: usize) -> bool
        ensures queue { queue_of self.new.queue ≡ batch_after (queue_of self.old.queue) self.old.has_taken edits.old kind at }
        ensures edits { edits.new ≡ marked edits.old (queue_step (queue_of self.old.queue) edits.old) (answer_to edits.old kind at) }
        ensures taken { self.new.has_taken ≡ taken_after (step_kind (queue_step (queue_of self.old.queue) edits.old)) self.old.has_taken }
        ensures closed { self.new.is_closed ≡ (self.old.is_closed || (kind == 4)) }
        ensures keeps { result ≡ keeps_fault (step_kind (queue_step (queue_of self.old.queue) edits.old)) edits.old kind }
    {
        let step = step_kind(&self.queue, edits);
        let keeps = keeps_fault(step, edits, kind);
        let has_taken = taken_after(step, self.has_taken);
        let number = number_at(edits, kind, at);
        let mut queue = self.queue;
        queue.answered(edits, kind, number);
        pass_nothing(&mut queue, edits, has_taken);
        *self = BatchRecord {
            queue,
            has_taken,
            is_closed: self.is_closed || kind == 4,
        };
        keeps
    }
}

/// The number of what comes next.
#[tactic(auto, using(crate::proofs::BatchLaws::told_kind))]
fn step_kind(queue: &QueueRecord, edits: &[QueuedEdit]) -> u32
    ensures { result ≡ step_kind (queue_step (queue_of queue.now) edits.now) }
{
    queue.next(edits).kind
}

/// Where nothing was taken all is written.
#[tactic(auto, using(crate::proofs::BatchLaws::unmarked))]
fn pass_nothing(queue: &mut QueueRecord, edits: &mut [QueuedEdit], has_taken: bool)
    ensures queue { queue_of queue.new ≡ unless_nothing (queue_of queue.old) edits.old has_taken }
    ensures edits { edits.new ≡ edits.old }
{
    if !has_taken && step_kind(queue, edits) == WRITE {
        queue.answered(edits, 0, 0);
    }
}

/// What a write failed by is kept as long as no change is refused.
fn keeps_fault(step: u32, edits: &[QueuedEdit], answer: u32) -> bool
    ensures { result ≡ keeps_fault step edits.now answer }
{
    step == WRITE && answer != 0 && !has_refused(edits)
}

fn taken_after(step: u32, has_taken: bool) -> bool
    ensures { result ≡ taken_after step has_taken }
{
    match step {
        TAKE => true,
        WRITE => false,
        _ => has_taken,
    }
}

fn has_refused(edits: &[QueuedEdit]) -> bool
    ensures { result ≡ has_refused edits.now }
{
    edits.iter().any(|edit| edit.is_refused)
}

/// The edit that an answer names, if it is one of a fault.
fn number_at(edits: &[QueuedEdit], kind: u32, at: usize) -> usize
    ensures { queue_answer_of edits.now kind result ≡ answer_to edits.now kind at }
{
    if kind == 2 { nth_going(edits, at) } else { at }
}

/// The edit before which so many go, and which goes itself; or else no edit.
fn nth_going(edits: &[QueuedEdit], nth: usize) -> usize
    ensures { result ≡ nth_going edits.now nth (length edits.now) }
{
    let mut found = edits.len();
    let mut count = 0;
    for at in 0..edits.len() {
        let is = goes(edits, at);
        if is && count == nth {
            found = at;
        }
        if is {
            count += 1;
        }
    }
    found
}

/// Whether an edit is to be made: it is not left out, and its change is not refused.
fn goes(edits: &[QueuedEdit], at: usize) -> bool
    ensures { result ≡ goes edits.now at }
{
    match edits.get(at) {
        Some(edit) => !edit.is_left_out && is_open(edits, edit.change),
        None => false,
    }
}

fn is_open(edits: &[QueuedEdit], change: usize) -> bool
    ensures { result ≡ is_open edits.now change }
{
    match edits.get(change) {
        Some(first) => !first.is_refused,
        None => false,
    }
}
