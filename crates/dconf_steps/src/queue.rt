//! The changes that wait to be written: which go, which are refused, and which edits are left out.
ghost use Rattle.std.specs.Prelude.{◌≡◌};
ghost use Rattle.dconf_steps.specs.declared.queue.QueueStage.TheVariants as QueueStage;
ghost use Rattle.dconf_steps.specs.Queues.{IsQueueAnswered, after_fault, after_key, asking_step, at_first, goes, is_locked, is_open, queue_step, refused, refused_for, taking, taking_step, unmade};

/// An edit that waits, and what became of it so far. Of each change the first edit says whether it is refused.
#[repr(C)]
#[derive(Clone, Copy)]
pub struct QueuedEdit {
    /// The number of its change's first edit.
    pub change: usize,
    /// It sets a key; else it takes a value away.
    pub sets: bool,
    /// It is not made, and the others of its change are.
    pub is_left_out: bool,
    /// The change that begins here is not made.
    pub is_refused: bool,
}

/// What who writes the changes that wait does next. The number is an edit's.
#[derive(Clone, Copy)]
pub enum QueueStep {
    /// Takes the edit for the change that is to be written next.
    Take(usize),
    /// Passes the edit over.
    Pass(usize),
    /// Writes the edits that were taken since the last time, as one change.
    Write,
    /// Asks whether the edit's key may be written.
    Ask(usize),
    /// Nothing: it is over.
    Done(QueueEnd),
}

/// What became of a step.
#[derive(Clone, Copy)]
pub enum QueueAnswer {
    /// The change was written. The key may be written.
    Yes,
    /// A key was locked, so nothing was written. The key may not be written.
    Locked,
    /// This edit has a fault of its own, so nothing was written.
    Fault(usize),
    /// Nothing was written, by no fault of an edit: others write, the disk is full or fails, or no memory is left.
    Later,
}

/// What became of what waits.
#[derive(Clone, Copy)]
pub enum QueueEnd {
    /// All changes but those that are refused are written.
    Written,
    /// None is written: those that are not refused go on waiting.
    Waiting,
}

#[derive(Clone, Copy)]
pub(crate) enum QueueStage {
    Taking,
    Asking,
    Over(QueueEnd),
}

/// The changes that wait: what comes next. The edits are the caller's, who lends them.
#[derive(Clone, Copy)]
pub struct Queue {
    pub(crate) stage: QueueStage,
    /// The edit that is next.
    pub(crate) at: usize,
    /// An edit was left out, or a change refused, since the last time that it was tried to write.
    pub(crate) has_marked: bool,
}

impl Queue {
    /// Nothing is done yet.
    pub fn begin() -> Queue
        ensures { result ≡ taking }
    {
        Queue::at_first(QueueStage::Taking)
    }

    /// What comes next.
    pub fn next(&self, edits: &[QueuedEdit]) -> QueueStep
        ensures { result ≡ queue_step self.now edits.now }
    {
        match self.stage {
            QueueStage::Taking => taking_step(self.at, edits),
            QueueStage::Asking => asking_step(self.at, edits),
            QueueStage::Over(end) => QueueStep::Done(end),
        }
    }

    /// Takes the answer to the step that `next` says of these edits; of one that is taken or passed over, any. It marks an edit that is
    /// left out, and a change that is refused. After `Done` it changes nothing.
    pub fn answered(&mut self, edits: &mut [QueuedEdit], answer: QueueAnswer)
        ensures { IsQueueAnswered self.old edits.old answer self.new edits.new }
    {
        *self = match self.stage {
            QueueStage::Taking => self.taken(edits, answer),
            QueueStage::Asking => self.asked(edits, answer),
            QueueStage::Over(_) => *self,
        };
    }

    /// What comes of an edit that was taken or passed over; and after the last one, of what was written.
    fn taken(self, edits: &mut [QueuedEdit], answer: QueueAnswer) -> Queue
        requires { self.stage ≡ QueueStage.Taking }
        ensures { IsQueueAnswered self edits.old answer result edits.new }
    {
        if self.at < edits.len() {
            return Queue {
                at: self.at + 1,
                ..self
            };
        }
        match answer {
            QueueAnswer::Yes => Queue::at_first(QueueStage::Over(QueueEnd::Written)),
            QueueAnswer::Locked => Queue::at_first(QueueStage::Asking),
            QueueAnswer::Fault(at) => refuse_for(edits, at),
            QueueAnswer::Later => Queue::at_first(QueueStage::Over(QueueEnd::Waiting)),
        }
    }

    /// What comes of a key that was asked about, or passed over.
    fn asked(self, edits: &mut [QueuedEdit], answer: QueueAnswer) -> Queue
        requires { self.stage ≡ QueueStage.Asking }
        ensures { IsQueueAnswered self edits.old answer result edits.new }
    {
        let marks = goes(edits, self.at) && is_locked(answer);
        if marks {
            unmake(edits, self.at);
        }
        self.after_key(edits.len(), self.has_marked || marks)
    }

    /// Goes on with the next key. After the last one it is tried again, unless that would be in vain.
    fn after_key(self, count: usize, has_marked: bool) -> Queue
        ensures { result ≡ after_key self count has_marked }
    {
        if self.at < count && self.at + 1 < count {
            return Queue {
                at: self.at + 1,
                has_marked,
                ..self
            };
        }
        if has_marked {
            Queue::at_first(QueueStage::Taking)
        } else {
            Queue::at_first(QueueStage::Over(QueueEnd::Waiting))
        }
    }

    fn at_first(stage: QueueStage) -> Queue
        ensures { result ≡ at_first stage }
    {
        Queue {
            stage,
            at: 0,
            has_marked: false,
        }
    }
}

fn taking_step(at: usize, edits: &[QueuedEdit]) -> QueueStep
    ensures { result ≡ taking_step at edits.now }
{
    if at >= edits.len() {
        return QueueStep::Write;
    }
    if goes(edits, at) {
        QueueStep::Take(at)
    } else {
        QueueStep::Pass(at)
    }
}

fn asking_step(at: usize, edits: &[QueuedEdit]) -> QueueStep
    ensures { result ≡ asking_step at edits.now }
{
    if goes(edits, at) {
        QueueStep::Ask(at)
    } else {
        QueueStep::Pass(at)
    }
}

fn is_locked(answer: QueueAnswer) -> bool
    ensures { result ≡ is_locked answer }
{
    matches!(answer, QueueAnswer::Locked)
}

/// Refuses the change of an edit that has a fault of its own. That of no edit which goes would be refused in vain.
fn refuse_for(edits: &mut [QueuedEdit], at: usize) -> Queue
    ensures edits { edits.new ≡ refused_for edits.old at }
    ensures then { result ≡ after_fault edits.old at }
{
    if !goes(edits, at) {
        return Queue::at_first(QueueStage::Over(QueueEnd::Waiting));
    }
    let change = edits[at].change;
    refuse(edits, change);
    Queue::at_first(QueueStage::Taking)
}

/// Whether an edit is to be made: it is not left out, and its change is not refused.
pub(crate) fn goes(edits: &[QueuedEdit], at: usize) -> bool
    ensures { result ≡ goes edits.now at }
{
    match edits.get(at) {
        Some(edit) => !edit.is_left_out && is_open(edits, edit.change),
        None => false,
    }
}

/// Whether a change begins there that is not refused.
fn is_open(edits: &[QueuedEdit], change: usize) -> bool
    ensures { result ≡ is_open edits.now change }
{
    match edits.get(change) {
        Some(first) => !first.is_refused,
        None => false,
    }
}

/// What becomes of an edit whose key may not be written: a reset is left out, and a change that sets it is refused.
fn unmake(edits: &mut [QueuedEdit], at: usize)
    ensures { edits.new ≡ unmade edits.old at }
{
    let Some(edit) = edits.get(at) else {
        return;
    };
    let edit = *edit;
    if edit.sets {
        refuse(edits, edit.change);
    } else {
        edits[at] = QueuedEdit {
            is_left_out: true,
            ..edit
        };
    }
}

fn refuse(edits: &mut [QueuedEdit], change: usize)
    ensures { edits.new ≡ refused edits.old change }
{
    let Some(first) = edits.get(change) else {
        return;
    };
    let first = *first;
    edits[change] = QueuedEdit {
        is_refused: true,
        ..first
    };
}
