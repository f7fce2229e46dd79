//! What becomes of a change whose caller doesn't wait for it.
ghost use Rattle.std.specs.Prelude.{◌≡◌};
ghost use Rattle.dconf_changesets.specs.Fast.{fast_after, fast_number};

/// What comes next, in this order.
#[derive(Clone, Copy)]
pub enum FastTask {
    /// Lets it wait, beside what waits already.
    Add,
    /// Has somebody write what waits.
    Write,
    /// Tells what is new by it.
    Tell,
    /// It is over: it waits, or nothing of it was to be made.
    Made,
    /// It is over: a key may not be written, and nothing of it waits.
    Refused,
}

/// What is known of it, beside what waits.
#[repr(C)]
#[derive(Clone, Copy)]
pub struct FastKnown {
    /// It sets a key that may not be written.
    pub is_refused: bool,
    /// Nothing of it is left.
    pub is_empty: bool,
    /// Something is seen otherwise by it.
    pub is_news: bool,
}

/// What comes next, once the first `done` tasks were done, or were not due.
pub fn fast_after(done: u32, known: &FastKnown) -> FastTask
    ensures { result ≡ fast_after done known.now }
{
    if known.is_refused {
        return FastTask::Refused;
    }
    if known.is_empty {
        return FastTask::Made;
    }
    if done < 1 {
        return FastTask::Add;
    }
    if done < 2 {
        return FastTask::Write;
    }
    if done < 3 && known.is_news {
        return FastTask::Tell;
    }
    FastTask::Made
}

/// The same as a number: 1 add, 2 write, 3 tell, 4 made, 5 refused.
pub fn fast_number(done: u32, known: &FastKnown) -> u32
    ensures { result ≡ fast_number (fast_after done known.now) }
{
    match fast_after(done, known) {
        FastTask::Add => 1,
        FastTask::Write => 2,
        FastTask::Tell => 3,
        FastTask::Made => 4,
        FastTask::Refused => 5,
    }
}
