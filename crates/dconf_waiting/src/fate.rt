//! What becomes of a change that waits.
ghost use Rattle.std.specs.Prelude.{◌≡◌};
ghost use Rattle.dconf_waiting.specs.Fates.{fate_number, fate_of, is_made, is_overtaken};

/// What became of a change when it was tried to write what waits, or the files were looked at.
#[derive(Clone, Copy)]
pub enum Fate {
    /// It goes on waiting.
    Waits,
    /// It is written; or it was there already.
    Written,
    /// It is refused, for a fault of its own. That is told.
    Refused,
    /// A later one sets its key, and goes on waiting: nobody sees that it goes.
    Overtaken,
}

/// An edit that waits.
#[repr(C)]
#[derive(Clone, Copy)]
pub struct WaitingEdit {
    /// Its number: that of an edit which was set later is greater.
    pub number: usize,
    /// No other edit is of its change.
    pub is_alone: bool,
}

/// A change in its place in the line, and what is known of it.
#[repr(C)]
#[derive(Clone, Copy)]
pub struct Waiter {
    /// Which one it is, as its owner has it.
    pub change: usize,
    /// Which of all sets it was: the number of one that was set later, or once more, is greater.
    pub set: u64,
    /// Its first edit, and the newest of the same key.
    pub edit: WaitingEdit,
    pub newest: WaitingEdit,
    /// What became of it, as a number; it is written here.
    pub fate: u32,
    /// It was tried to write it.
    pub is_tried: bool,
    /// That was refused, for a fault of its own.
    pub is_refused: bool,
    /// When it was set nobody knew whether it changes anything.
    pub asks: bool,
    /// All of it is there already by the newest files, and nothing else waits for its keys.
    pub is_there: bool,
}

/// What becomes of a change; `is_written`: what was tried is written, but for what is refused.
pub fn fate_of(is_written: bool, waiter: &Waiter) -> Fate
    ensures { result ≡ fate_of is_written waiter.now }
{
    if waiter.is_refused {
        return Fate::Refused;
    }
    if is_made(is_written, waiter) {
        return Fate::Written;
    }
    if waiter.is_tried && is_overtaken(waiter.edit, waiter.newest) {
        return Fate::Overtaken;
    }
    Fate::Waits
}

/// The same as a number: 0 it waits, 1 it is written, 2 refused, 3 overtaken.
pub fn fate_number(is_written: bool, waiter: &Waiter) -> u32
    ensures { result ≡ fate_number (fate_of is_written waiter.now) }
{
    match fate_of(is_written, waiter) {
        Fate::Waits => 0,
        Fate::Written => 1,
        Fate::Refused => 2,
        Fate::Overtaken => 3,
    }
}

/// Whether all of it is there now.
fn is_made(is_written: bool, waiter: &Waiter) -> bool
    ensures { result ≡ is_made is_written waiter.now }
{
    (waiter.is_tried && is_written) || (waiter.asks && waiter.is_there)
}

/// Whether an edit's change needs no write, beside the newest edit of its key: both are alone in their changes. So no more of them wait
/// than there are keys, however long that takes.
fn is_overtaken(edit: WaitingEdit, newest: WaitingEdit) -> bool
    ensures { result ≡ is_overtaken edit newest }
{
    edit.is_alone && (newest.is_alone && edit.number < newest.number)
}
