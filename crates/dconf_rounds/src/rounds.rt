//! What the thread does next that writes what waits, tells, and watches the files. All moments are of one clock; 0 is none.
ghost use Rattle.std.specs.Prelude.{◌≡◌};
ghost use Rattle.dconf_rounds.specs.Rounds.{ending, has_failed, has_work, is_at_work, is_left, is_open, is_waiting, leaves, looks_first, takes, task_after, task_number, watches, writes};

/// A task of a round, in the order in which they come.
#[derive(Clone, Copy)]
pub enum Task {
    /// Tells what others left it to tell.
    Tell,
    /// Watches the files, or looks at them, if it is time.
    Watch,
    /// Looks at the files before it writes: what is there already needs no turn.
    Look,
    /// Takes its turn to write, or goes on waiting for it.
    Take,
    /// Writes what waits.
    Write,
    /// Nothing waits any longer: leaves the line for the turn, and forgets when it was to try again.
    Leave,
    /// The round is over: it rests until something happens.
    Rest,
    /// It is over for good: nothing waits.
    End,
    /// The same, but what waits is given up.
    GiveUp,
}

/// What the thread knows.
#[repr(C)]
#[derive(Clone, Copy)]
pub struct Known {
    /// When a write is tried again that failed, or was not its turn.
    pub again: u64,
    pub moment: u64,
    /// Which try was the last that failed by a fault that lasts; 0: none did.
    pub failed: u64,
    /// How many tries there were when the program began to end; the greatest number: it goes on.
    pub last_try: u64,
    /// The program ends, or nobody holds what the thread works for; or the thread is there for what waits alone.
    pub ends: bool,
    /// Nobody does, and the program goes on.
    pub is_let_go: bool,
    /// Something waits to be written.
    pub waits: bool,
    /// It is in line for its turn to write.
    pub is_in_line: bool,
    /// It has asked for it in this round,
    pub has_asked: bool,
    pub has_untold: bool,
    /// A main context of somebody who listens has turned: from then on what others change can be told.
    pub has_turned: bool,
    /// Somebody wants a write to be tried now.
    pub is_asked: bool,
    /// Of something that waits nobody knows whether it changes anything.
    pub asks: bool,
    /// What others change is told without a look at the files, or is seen in the turn to write.
    pub is_watched: bool,
    /// and others have theirs.
    pub is_others: bool,
}

/// Whether what was begun in one process is at work in this one: it has not ended, and this is no child of that process by fork(), which has
/// none of its threads.
pub fn is_at_work(has_ended: bool, begun_in: u32, process: u32) -> bool
    ensures { result ≡ is_at_work has_ended begun_in process }
{
    !has_ended && begun_in == process
}

/// What is known of who writes in the user's database.
#[repr(C)]
#[derive(Clone, Copy)]
pub struct WritingKnown {
    /// Of who sets: in which process it was begun, and in which one it is asked;
    pub begun_in: u32,
    pub process: u32,
    /// and that it has ended.
    pub has_ended: bool,
    /// There is a user's database.
    pub has_user: bool,
    /// Of who writes: the write found that nobody who has this program's rights may write there.
    pub is_closed: bool,
    /// What waits is written, or settled, by who asks; else something is set.
    pub writes: bool,
}

/// Whether somebody may write in the user's database: who sets something, or who writes what was set.
pub fn is_open(known: &WritingKnown) -> bool
    ensures { result ≡ is_open known.now }
{
    if !known.has_user {
        return false;
    }
    if known.writes {
        return !known.is_closed;
    }
    is_at_work(known.has_ended, known.begun_in, known.process)
}

/// Whether the thread writes, or is to try again, or waits for its turn: as long as it does, the program's end waits for it.
pub fn has_work(known: &Known) -> bool
    ensures { result ≡ has_work known.now }
{
    known.waits || (known.is_in_line || known.again != 0)
}

/// What comes next, once the first `done` tasks of the round were done, or were not due.
pub fn task_after(done: u32, known: &Known) -> Task
    ensures { result ≡ task_after done known.now }
{
    if done < 1 && known.has_untold {
        return Task::Tell;
    }
    if done < 2 && watches(known) {
        return Task::Watch;
    }
    if done < 3 && looks_first(known) {
        return Task::Look;
    }
    if done < 4 && takes(known) {
        return Task::Take;
    }
    if done < 5 && writes(known) {
        return Task::Write;
    }
    if done < 6 && leaves(known) {
        return Task::Leave;
    }
    ending(known)
}

/// The same as a number: 1 tell, 2 watch, 3 look, 4 take, 5 write, 6 leave, 7 rest, 8 end, 9 give up.
pub fn task_number(done: u32, known: &Known) -> u32
    ensures { result ≡ task_number (task_after done known.now) }
{
    match task_after(done, known) {
        Task::Tell => 1,
        Task::Watch => 2,
        Task::Look => 3,
        Task::Take => 4,
        Task::Write => 5,
        Task::Leave => 6,
        Task::Rest => 7,
        Task::End => 8,
        Task::GiveUp => 9,
    }
}

fn watches(known: &Known) -> bool
    ensures { result ≡ watches known.now }
{
    known.has_turned && !known.ends
}

/// Before a write, unless the newest files are known: what others set before is older than what waits, and is seen first.
fn looks_first(known: &Known) -> bool
    ensures { result ≡ looks_first known.now }
{
    takes(known) && (known.asks || !known.is_watched)
}

/// Something waits; and it is in line already, or asked for, or its moment has come.
fn takes(known: &Known) -> bool
    ensures { result ≡ takes known.now }
{
    known.waits && (known.is_in_line || (known.is_asked || known.again <= known.moment))
}

fn writes(known: &Known) -> bool
    ensures { result ≡ writes known.now }
{
    known.waits && (known.has_asked && !is_waiting(known))
}

/// Others have the turn, and it goes on waiting for its own. Who isn't in line has waited in vain, and is told by the write that fails.
fn is_waiting(known: &Known) -> bool
    ensures { result ≡ is_waiting known.now }
{
    known.is_others && known.is_in_line
}

fn leaves(known: &Known) -> bool
    ensures { result ≡ leaves known.now }
{
    !known.waits && (known.is_in_line || known.again != 0)
}

/// How the round ends. A thread that is in line for its turn has what it works for, where nobody else has that: it is kept until then.
fn ending(known: &Known) -> Task
    ensures { result ≡ ending known.now }
{
    if !known.ends {
        return Task::Rest;
    }
    if !known.waits && !is_left(known) {
        return Task::End;
    }
    if !has_failed(known) {
        return Task::Rest;
    }
    if known.waits {
        return Task::GiveUp;
    }
    Task::End
}

fn is_left(known: &Known) -> bool
    ensures { result ≡ is_left known.now }
{
    known.is_in_line && known.is_let_go
}

/// Whether a later try than those of then has failed by a fault that lasts.
fn has_failed(known: &Known) -> bool
    ensures { result ≡ has_failed known.now }
{
    known.last_try < known.failed
}
