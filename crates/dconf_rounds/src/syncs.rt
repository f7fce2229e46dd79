//! What whoever wants to know that all is on the disk does next.
ghost use Rattle.std.specs.Prelude.{◌≡◌};
ghost use Rattle.dconf_rounds.specs.Syncs.{asks, has_looked_since, looks, sync_after, sync_number};

/// What comes next, in this order.
#[derive(Clone, Copy)]
pub enum SyncTask {
    /// Asks the thread that writes for a try now. Any answer will do.
    Ask,
    /// Writes what waits, since no other thread does.
    Write,
    /// Waits until all that waits now is settled. It answers whether it is.
    Await,
    /// Takes its turn to look at the files. It answers whether it has it.
    Take,
    /// Looks at the files.
    Look,
    /// Brings to the disk what was there already when it was set. It answers whether it is there.
    Settle,
    /// It is over: all is there.
    Yes,
    /// It is over: not yet.
    No,
}

/// What is known.
#[repr(C)]
#[derive(Clone, Copy)]
pub struct SyncKnown {
    /// Another thread writes what waits.
    pub has_writer: bool,
    /// A try has failed by a fault that lasts, and is to be made again later.
    pub has_failed: bool,
    /// There is a store.
    pub has_store: bool,
    /// The files were looked at since it was asked for.
    pub has_looked: bool,
    /// What was set was there already: nobody knows yet that it is on the disk.
    pub is_to_settle: bool,
}

/// What comes next, once the first `done` tasks were done, or were not due; `is_so` is the answer to the last one.
pub fn sync_after(done: u32, is_so: bool, known: &SyncKnown) -> SyncTask
    ensures { result ≡ sync_after done is_so known.now }
{
    if done < 1 && asks(known) {
        return SyncTask::Ask;
    }
    if done < 2 && !known.has_writer {
        return SyncTask::Write;
    }
    if done < 3 {
        return SyncTask::Await;
    }
    if done != 5 && !is_so {
        return SyncTask::No;
    }
    if done < 4 {
        return SyncTask::Take;
    }
    if done < 5 && looks(known) {
        return SyncTask::Look;
    }
    if done < 6 && known.is_to_settle {
        return SyncTask::Settle;
    }
    SyncTask::Yes
}

/// The same as a number: 1 ask, 2 write, 3 await, 4 take, 5 look, 6 settle, 7 yes, 8 no.
pub fn sync_number(done: u32, is_so: bool, known: &SyncKnown) -> u32
    ensures { result ≡ sync_number (sync_after done is_so known.now) }
{
    match sync_after(done, is_so, known) {
        SyncTask::Ask => 1,
        SyncTask::Write => 2,
        SyncTask::Await => 3,
        SyncTask::Take => 4,
        SyncTask::Look => 5,
        SyncTask::Settle => 6,
        SyncTask::Yes => 7,
        SyncTask::No => 8,
    }
}

/// Whether somebody else writes, and is to try again what failed.
fn asks(known: &SyncKnown) -> bool
    ensures { result ≡ asks known.now }
{
    known.has_writer && known.has_failed
}

fn looks(known: &SyncKnown) -> bool
    ensures { result ≡ looks known.now }
{
    known.has_store && !known.has_looked
}

/// Whether the files were looked at since a sync was asked for: by a look that began after that. Looks are numbered as they begin; `begun` is the
/// number of the last one that had begun by then, and `last` that of the last one that succeeded.
pub fn has_looked_since(begun: u64, last: u64) -> bool
    ensures { result ≡ has_looked_since begun last }
{
    begun < last
}
