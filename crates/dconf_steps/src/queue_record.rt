//! What waits to be written as plain numbers, for a caller that is not Rust.
ghost use Rattle.std.specs.Prelude.{◌≡◌, length};
ghost use Rattle.dconf_steps.specs.Queues.{IsQueueAnswered, queue_step, taking};
ghost use Rattle.dconf_steps.specs.QueueRecords.{IsQueueTold, last_set, queue_answer_of, queue_of, queue_stage_of};

use crate::next_step::NextStep;
use crate::queue::{Queue, QueueAnswer, QueueEnd, QueueStage, QueueStep, QueuedEdit, goes};

/// What waits, as its caller owns it. Nobody but these calls writes its fields; a stage that is none of theirs is one that goes on
/// waiting.
#[repr(C)]
#[derive(Clone, Copy)]
pub struct QueueRecord {
    stage: u32,
    at: usize,
    has_marked: bool,
}

impl QueueRecord {
    /// As [`Queue::begin`].
    pub fn begin() -> QueueRecord
        ensures { queue_of result ≡ taking }
    {
        QueueRecord::of(Queue::begin())
    }

    /// What comes next, and the edit: 0 take, 1 pass, 2 write, 3 ask; or that it is over: 4 written, 5 waiting.
    pub fn next(&self, edits: &[QueuedEdit]) -> NextStep
        ensures { IsQueueTold (queue_step (queue_of self.now) edits.now) result }
    {
        match self.queue().next(edits) {
            QueueStep::Take(at) => NextStep::of(0, at),
            QueueStep::Pass(at) => NextStep::of(1, at),
            QueueStep::Write => NextStep::plain(2),
            QueueStep::Ask(at) => NextStep::of(3, at),
            QueueStep::Done(QueueEnd::Written) => NextStep::plain(4),
            QueueStep::Done(QueueEnd::Waiting) => NextStep::plain(5),
        }
    }

    /// As [`Queue::answered`]: 0 yes, 1 locked, 2 a fault of that edit, 4 locked, since nobody may write there, 5 a fault of the newest edit that
    /// sets something, since the file would be too large, and else later.
    pub fn answered(&mut self, edits: &mut [QueuedEdit], kind: u32, at: usize)
        ensures { IsQueueAnswered (queue_of self.old) edits.old (queue_answer_of edits.old kind at) (queue_of self.new) edits.new }
    {
        let mut queue = self.queue();
        let answer = answer_of(edits, kind, at);
        queue.answered(edits, answer);
        *self = QueueRecord::of(queue);
    }

    fn of(queue: Queue) -> QueueRecord
        ensures { queue_of result ≡ queue }
    {
        QueueRecord {
            stage: number_of(queue.stage),
            at: queue.at,
            has_marked: queue.has_marked,
        }
    }

    fn queue(&self) -> Queue
        ensures { result ≡ queue_of self.now }
    {
        Queue {
            stage: stage_of(self.stage),
            at: self.at,
            has_marked: self.has_marked,
        }
    }
}

fn answer_of(edits: &[QueuedEdit], kind: u32, at: usize) -> QueueAnswer
    ensures { result ≡ queue_answer_of edits.now kind at }
{
    match kind {
        0 => QueueAnswer::Yes,
        1 | 4 => QueueAnswer::Locked,
        2 => QueueAnswer::Fault(at),
        5 => QueueAnswer::Fault(newest_set(edits)),
        _ => QueueAnswer::Later,
    }
}

/// The newest edit that sets something and is to be made; or else no edit.
fn newest_set(edits: &[QueuedEdit]) -> usize
    ensures { result ≡ last_set edits.now (length edits.now) }
{
    let mut found = edits.len();
    for at in 0..edits.len() {
        if edits[at].sets && goes(edits, at) {
            found = at;
        }
    }
    found
}

fn number_of(stage: QueueStage) -> u32
    ensures { queue_stage_of result ≡ stage }
{
    match stage {
        QueueStage::Taking => 0,
        QueueStage::Asking => 1,
        QueueStage::Over(QueueEnd::Written) => 2,
        QueueStage::Over(QueueEnd::Waiting) => 3,
    }
}

fn stage_of(number: u32) -> QueueStage
    ensures { result ≡ queue_stage_of number }
{
    match number {
        0 => QueueStage::Taking,
        1 => QueueStage::Asking,
        2 => QueueStage::Over(QueueEnd::Written),
        _ => QueueStage::Over(QueueEnd::Waiting),
    }
}
