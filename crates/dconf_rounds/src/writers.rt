//! Who writes what waits: whether a thread is begun for that, or woken; how it comes to its turn; and what becomes of both at the end.
ghost use Rattle.std.specs.Prelude.{◌≡◌, true};
ghost use Rattle.dconf_rounds.specs.Syncs.{sync_after, sync_number};
ghost use Rattle.dconf_rounds.specs.Writers.{answered, begins, does, end_after, end_number, facts, first_wait, is_new, is_own, is_settled, line_after, line_number, need_after, need_number, own_sync, wants, works, writer_number};

use crate::rounds::is_at_work;
use crate::syncs::{SyncKnown, sync_number};

/// What is done about something new, in this order.
#[derive(Clone, Copy)]
pub enum NeedTask {
    /// Makes that by which a thread is woken.
    MakeWake,
    /// Begins the thread.
    Begin,
    /// Has the thread do it: wakes it.
    Wake,
    /// Does it in this thread: no other one does.
    Here,
    /// It is over.
    Over,
}

/// How the thread that writes comes to its turn, in this order.
#[derive(Clone, Copy)]
pub enum LineTask {
    /// Asks for it, without a wait. It answers whether that is over: others don't have it.
    Try,
    /// Begins a thread of its own that waits in line. It answers whether there is one.
    Begin,
    /// Asks that one. It answers whether its wait is over.
    Await,
    /// Asks for the turn, and waits for it, as this isn't the thread that writes, and has no place in line. It answers as `Try`.
    Wait,
    /// It is over: it has its turn, or knows why not.
    Had,
    /// It is over for now: the other thread wakes it.
    InLine,
    /// It is over for now: it is to ask again.
    Again,
}

/// What is done at the end, in this order.
#[derive(Clone, Copy)]
pub enum EndTask {
    /// Says that it ends, and asks for one more try. It answers whether it could.
    Mark,
    /// Does what is due itself, as it is the thread that writes.
    Rounds,
    /// Waits until the thread is over.
    Join,
    /// Waits until all is settled, or given up: the thread is another's to wait for.
    Watch,
    /// Waits until the thread is over, as long as the program goes on. It answers whether it is.
    Over,
    /// Leaves all to the thread, which goes on.
    Leave,
    /// Takes the thread away, which is over.
    Reap,
    /// Counts how many changes are settled. It answers whether it could.
    Count,
    /// Says that what was set last isn't on the disk.
    Tell,
    /// Says that nobody knows whether it is.
    Doubt,
    /// It is over: nothing is left to be done.
    Done,
    /// It is over: the thread has it all.
    Left,
}

/// What is known.
#[repr(C)]
#[derive(Clone, Copy)]
pub struct WriterKnown {
    /// How many changes are settled, and how many there ever were.
    pub settled: u64,
    pub added: u64,
    /// The process that began it, and this one: in a child of fork() they differ.
    pub begun_in: u32,
    pub process: u32,
    /// What else a sync knows.
    pub sync: SyncKnown,
    /// The program ends, or nobody holds what the thread works for.
    pub has_ended: bool,
    pub has_thread: bool,
    /// There is something by which one is woken.
    pub has_wake: bool,
    /// A thread of its own waits in line for the turn.
    pub has_line: bool,
    /// A thread is to be there.
    pub is_wanted: bool,
    /// Something is new for it.
    pub is_news: bool,
    /// Something begins to wait to be written;
    pub adds: bool,
    /// and something else did before: for that the thread is awake, or is to try again.
    pub waits: bool,
    /// Somebody has to do it.
    pub is_owed: bool,
    /// Somebody listens who didn't before, or whose main context didn't turn before;
    pub listens: bool,
    /// and one has turned, so that the thread watches the files.
    pub has_turned: bool,
    /// The program ends.
    pub exits: bool,
    /// This thread is the one that writes.
    pub is_thread: bool,
    /// Nobody held it any longer, some time before.
    pub is_let_go: bool,
}

/// What is done about something new, once the first `done` tasks were done, or were not due.
pub fn need_after(done: u32, known: &WriterKnown) -> NeedTask
    ensures { result ≡ need_after done known.now }
{
    if done < 1 && (begins(known) && !known.has_wake) {
        return NeedTask::MakeWake;
    }
    if done < 2 && (begins(known) && known.has_wake) {
        return NeedTask::Begin;
    }
    if done < 3 && (does(known) && is_new(known)) {
        return NeedTask::Wake;
    }
    if done < 4 && (known.is_owed && !does(known)) {
        return NeedTask::Here;
    }
    NeedTask::Over
}

/// How the thread that writes comes to its turn, in the same way; `is_so` is the answer to the last task.
pub fn line_after(done: u32, is_so: bool, known: &WriterKnown) -> LineTask
    ensures { result ≡ line_after done is_so known.now }
{
    if done < 1 {
        return first_ask(known);
    }
    if done == 2 {
        return if is_so {
            LineTask::Await
        } else {
            LineTask::Again
        };
    }
    if is_so {
        return LineTask::Had;
    }
    match done {
        1 => LineTask::Begin,
        4 => LineTask::Again,
        _ => LineTask::InLine,
    }
}

/// How it is asked for the turn first.
fn first_ask(known: &WriterKnown) -> LineTask
    ensures { result ≡ line_after 0 true known.now }
{
    if !known.is_thread {
        return LineTask::Wait;
    }
    if known.has_line {
        LineTask::Await
    } else {
        LineTask::Try
    }
}

/// What is done at the end, in the same way.
pub fn end_after(done: u32, is_so: bool, known: &WriterKnown) -> EndTask
    ensures { result ≡ end_after done is_so (facts known.now) }
{
    if done < 1 && !(known.exits && !is_own(known)) {
        return EndTask::Mark;
    }
    if done < 2 && is_own(known) {
        return first_wait(is_so, known);
    }
    if done == 5 {
        return if is_so { EndTask::Reap } else { EndTask::Leave };
    }
    if done == 6 {
        return EndTask::Left;
    }
    if done < 2 || done > 8 {
        return EndTask::Done;
    }
    if done < 8 {
        return EndTask::Count;
    }
    if !is_so {
        return EndTask::Doubt;
    }
    if is_settled(known) {
        EndTask::Done
    } else {
        EndTask::Tell
    }
}

/// What is waited for, once it was said that it ends, or could not be.
fn first_wait(is_so: bool, known: &WriterKnown) -> EndTask
    ensures { result ≡ first_wait is_so (facts known.now) }
{
    if !is_so || !known.has_thread {
        return EndTask::Count;
    }
    if known.exits {
        if known.is_thread {
            return EndTask::Rounds;
        }
        return if known.is_let_go {
            EndTask::Watch
        } else {
            EndTask::Join
        };
    }
    if known.is_thread {
        EndTask::Leave
    } else {
        EndTask::Over
    }
}

/// The same as numbers. What is asked, by `what`: 0 what is done about something new: 1 make wake, 2 begin, 3 wake, 4 here, 5 over; 1 how
/// the thread comes to its turn: 1 try, 2 begin, 3 await, 4 wait, 5 had, 6 in line, 7 again; 2 what is done at the end: 1 mark, 2 rounds, 3 join,
/// 4 watch, 5 over, 6 leave, 7 reap, 8 count, 9 tell, 10 doubt, 11 done, 12 left; and else a sync's next task, whose answer to its wait is that
/// all is settled.
pub fn writer_number(what: u32, done: u32, is_so: bool, known: &WriterKnown) -> u32
    ensures { result ≡ writer_number what done is_so known.now }
{
    match what {
        0 => need_number(done, known),
        1 => line_number(done, is_so, known),
        2 => end_number(done, is_so, known),
        _ => own_sync(done, is_so, known),
    }
}

fn need_number(done: u32, known: &WriterKnown) -> u32
    ensures { result ≡ need_number (need_after done known.now) }
{
    match need_after(done, known) {
        NeedTask::MakeWake => 1,
        NeedTask::Begin => 2,
        NeedTask::Wake => 3,
        NeedTask::Here => 4,
        NeedTask::Over => 5,
    }
}

fn line_number(done: u32, is_so: bool, known: &WriterKnown) -> u32
    ensures { result ≡ line_number (line_after done is_so known.now) }
{
    match line_after(done, is_so, known) {
        LineTask::Try => 1,
        LineTask::Begin => 2,
        LineTask::Await => 3,
        LineTask::Wait => 4,
        LineTask::Had => 5,
        LineTask::InLine => 6,
        LineTask::Again => 7,
    }
}

fn end_number(done: u32, is_so: bool, known: &WriterKnown) -> u32
    ensures { result ≡ end_number (end_after done is_so (facts known.now)) }
{
    match end_after(done, is_so, known) {
        EndTask::Mark => 1,
        EndTask::Rounds => 2,
        EndTask::Join => 3,
        EndTask::Watch => 4,
        EndTask::Over => 5,
        EndTask::Leave => 6,
        EndTask::Reap => 7,
        EndTask::Count => 8,
        EndTask::Tell => 9,
        EndTask::Doubt => 10,
        EndTask::Done => 11,
        EndTask::Left => 12,
    }
}

/// Whether something is new for the thread: of one that doesn't watch the files who listens is none, and what begins to wait is no more where
/// something does already.
fn is_new(known: &WriterKnown) -> bool
    ensures { result ≡ is_new known.now }
{
    known.is_news || ((known.adds && !known.waits) || (known.listens && known.has_turned))
}

/// Whether one is to be there: also for who listens, and never reads.
fn wants(known: &WriterKnown) -> bool
    ensures { result ≡ wants known.now }
{
    known.is_wanted || known.listens
}

/// Whether one is to be begun, and may be.
fn begins(known: &WriterKnown) -> bool
    ensures { result ≡ begins known.now }
{
    wants(known) && (!known.has_thread && works(known))
}

/// Whether a thread does what is new: in a child there is none, whatever was known before fork().
fn does(known: &WriterKnown) -> bool
    ensures { result ≡ does known.now }
{
    known.has_thread && works(known)
}

fn works(known: &WriterKnown) -> bool
    ensures { result ≡ works known.now }
{
    is_at_work(known.has_ended, known.begun_in, known.process)
}

/// Whether this is the process that began it: it is no child of that by fork(), in which what waits is its parent's.
fn is_own(known: &WriterKnown) -> bool
    ensures { result ≡ is_own known.now }
{
    known.begun_in == known.process
}

fn is_settled(known: &WriterKnown) -> bool
    ensures { result ≡ is_settled known.now }
{
    known.added <= known.settled
}

/// What a sync does next, as a number. In a child nothing of its own waits.
fn own_sync(done: u32, is_so: bool, known: &WriterKnown) -> u32
    ensures { result ≡ sync_number (own_sync done is_so known.now) }
{
    if is_own(known) {
        sync_number(done, answered(done, is_so, known), &known.sync)
    } else {
        7
    }
}

/// The answer to a sync's task.
fn answered(done: u32, is_so: bool, known: &WriterKnown) -> bool
    ensures { result ≡ answered done is_so known.now }
{
    if done == 3 { is_settled(known) } else { is_so }
}
