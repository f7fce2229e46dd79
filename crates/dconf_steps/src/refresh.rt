//! A look at the files of a store: which are read again, and whether the newer snapshot is handed out.
ghost use Rattle.std.specs.Prelude.{◌≡◌, true, false};
ghost use Rattle.dconf_steps.specs.declared.refresh.LookStage.TheVariants.{Over};
ghost use Rattle.dconf_steps.specs.Looks.{IsLookAnswered, IsNextFile, IsRefreshBegun, after_reading, end_of, first_look, is_had, is_read_leniently, look_step};

use dconf_verdicts::{FaultKind, is_files_own};

/// What a look at the files of a store does next. The number is a file's, of those of the store.
#[derive(Clone, Copy)]
pub enum LookStep {
    /// Asks whether the file is the one of which the old part was made, as far as the host says that without reading it.
    Stat(usize),
    /// Reads the file. Yes: what it holds is had, be it nothing, since it is missing, or can't be read and counts as empty.
    Read(usize),
    /// Asks whether what was read is what the old part was made of.
    Compare(usize),
    /// Takes the old part.
    Keep(usize),
    /// Makes a part of what was read.
    Open(usize),
    /// Nothing: it is over.
    Done(LookEnd),
}

/// What became of the look.
#[derive(Clone, Copy)]
pub enum LookEnd {
    /// A file could not be read or opened: the old snapshot stays.
    Failed,
    /// Each part is the old one: so the old snapshot stays.
    Same,
    /// All parts are had, and one is another: they are the newer snapshot.
    Newer,
}

#[derive(Clone, Copy)]
pub(crate) enum LookStage {
    Asking,
    Reading,
    Comparing,
    Keeping,
    Opening,
    Over(LookEnd),
}

/// A look at the files of a store: what comes next, and what is known so far.
#[derive(Clone, Copy)]
pub struct Refresh {
    pub(crate) stage: LookStage,
    /// The file that is looked at, and how many there are.
    pub(crate) at: usize,
    pub(crate) count: usize,
    /// There is an old snapshot.
    pub(crate) has_old: bool,
    /// The first file is to be read whatever the host says of it: it is this program's turn to change it.
    pub(crate) in_turn: bool,
    /// A file that can't be read by a fault of its own counts as nothing.
    pub(crate) is_lenient: bool,
    /// A part is another one, or there was no snapshot.
    pub(crate) is_newer: bool,
}

impl Refresh {
    /// A look at so many files, of which nothing is done yet.
    pub fn begin(count: usize, has_old: bool, in_turn: bool, is_lenient: bool) -> Refresh
        ensures { IsRefreshBegun count has_old in_turn is_lenient result }
    {
        let begun = Refresh {
            stage: LookStage::Over(LookEnd::Same),
            at: 0,
            count,
            has_old,
            in_turn,
            is_lenient,
            is_newer: !has_old,
        };
        if count == 0 {
            return begun.over();
        }
        begun.to(begun.first_of(0))
    }

    /// What comes next.
    pub fn next(&self) -> LookStep
        ensures { result ≡ look_step self.now }
    {
        match self.stage {
            LookStage::Asking => LookStep::Stat(self.at),
            LookStage::Reading => LookStep::Read(self.at),
            LookStage::Comparing => LookStep::Compare(self.at),
            LookStage::Keeping => LookStep::Keep(self.at),
            LookStage::Opening => LookStep::Open(self.at),
            LookStage::Over(end) => LookStep::Done(end),
        }
    }

    /// Takes the answer to the step that `next` says, yes or no; of a part that is kept, either. After `Done` it changes nothing.
    pub fn answered(&mut self, yes: bool)
        ensures { IsLookAnswered self.old yes self.new }
    {
        *self = if yes { self.done() } else { self.failed() };
    }

    /// What a fault of the host answers to the step: no, but to a lenient look a file's own fault is a yes to its reading. What can't be
    /// read counts as nothing.
    pub fn is_had(&self, kind: FaultKind) -> bool
        ensures { result ≡ is_had (look_step self.now) self.now.is_lenient kind }
    {
        self.is_read_leniently() && is_files_own(kind)
    }

    /// What comes of a step that was answered by yes.
    fn done(self) -> Refresh
        ensures { IsLookAnswered self true result }
    {
        match self.stage {
            LookStage::Asking | LookStage::Comparing => self.to(LookStage::Keeping),
            LookStage::Reading => self.to(after_reading(self.has_old)),
            LookStage::Keeping => self.next_file(),
            LookStage::Opening => Refresh {
                is_newer: true,
                ..self
            }
            .next_file(),
            LookStage::Over(_) => self,
        }
    }

    /// What comes of a step that was answered by no.
    fn failed(self) -> Refresh
        ensures { IsLookAnswered self false result }
    {
        match self.stage {
            LookStage::Asking => self.to(LookStage::Reading),
            LookStage::Reading | LookStage::Opening => self.to(LookStage::Over(LookEnd::Failed)),
            LookStage::Comparing => self.to(LookStage::Opening),
            LookStage::Keeping => self.next_file(),
            LookStage::Over(_) => self,
        }
    }

    fn is_read_leniently(&self) -> bool
        ensures { result ≡ is_read_leniently (look_step self.now) self.now.is_lenient }
    {
        self.is_lenient && matches!(self.stage, LookStage::Reading)
    }

    /// Goes on with the file after this one, if there is one.
    fn next_file(self) -> Refresh
        ensures { IsNextFile self result }
    {
        if self.count.saturating_sub(self.at) > 1 {
            let next = Refresh {
                at: self.at + 1,
                ..self
            };
            return next.to(next.first_of(next.at));
        }
        self.over()
    }

    /// What a file begins with.
    fn first_of(&self, at: usize) -> LookStage
        ensures { result ≡ first_look self.now.has_old self.now.in_turn at }
    {
        if self.has_old && !(self.in_turn && at == 0) {
            LookStage::Asking
        } else {
            LookStage::Reading
        }
    }

    fn over(self) -> Refresh
        ensures { result ≡ record self { stage = Over (end_of self.is_newer) } }
    {
        let end = if self.is_newer {
            LookEnd::Newer
        } else {
            LookEnd::Same
        };
        self.to(LookStage::Over(end))
    }

    fn to(self, stage: LookStage) -> Refresh
        ensures { result ≡ record self { stage = stage } }
    {
        Refresh { stage, ..self }
    }
}

/// What was read is compared with what the old part was made of, if there is one.
fn after_reading(has_old: bool) -> LookStage
    ensures { result ≡ after_reading has_old }
{
    if has_old {
        LookStage::Comparing
    } else {
        LookStage::Opening
    }
}
