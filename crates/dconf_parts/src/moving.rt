//! Bytes that are moved into a file or out of it, by calls that may move fewer than were asked for.
ghost use Rattle.std.specs.Prelude.{◌≡◌};
ghost use Rattle.dconf_parts.specs.Moving.{by_count, is_cut, moved, moved_number, moved_to};

/// EINTR: a signal came before anything was moved.
const INTERRUPTED: u32 = 4;

/// What comes after a call.
#[derive(Clone, Copy, Debug, PartialEq, Eq)]
pub enum NextMove {
    /// Another one.
    On,
    /// Nothing: all were moved.
    All,
    /// Nothing: there are no more, or there is no room.
    End,
    /// Nothing: it failed.
    Failed,
}

/// What comes after a call that moved so many, or failed by that errno, where `at` of those that are wanted were moved before.
pub fn moved(wanted: usize, at: usize, errno: u32, count: usize) -> NextMove
    ensures { result ≡ moved wanted at errno count }
{
    match errno {
        0 => by_count(wanted, moved_to(wanted, at, errno, count), count),
        INTERRUPTED => NextMove::On,
        _ => NextMove::Failed,
    }
}

/// How many were moved then.
pub fn moved_to(wanted: usize, at: usize, errno: u32, count: usize) -> usize
    ensures { result ≡ moved_to wanted at errno count }
{
    if errno == 0 {
        at + count.min(wanted.saturating_sub(at))
    } else {
        at
    }
}

fn by_count(wanted: usize, to: usize, count: usize) -> NextMove
    ensures { result ≡ by_count wanted to count }
{
    if wanted <= to {
        NextMove::All
    } else if count == 0 {
        NextMove::End
    } else {
        NextMove::On
    }
}

/// The same in numbers: 0 another call, 1 all were moved, 2 there are no more, 3 it failed.
pub fn moved_number(wanted: usize, at: usize, errno: u32, count: usize) -> u32
    ensures { result ≡ moved_number (moved wanted at errno count) }
{
    match moved(wanted, at, errno, count) {
        NextMove::On => 0,
        NextMove::All => 1,
        NextMove::End => 2,
        NextMove::Failed => 3,
    }
}

/// Whether a file is cut off behind so many bytes, which were written from its start on: `stood` were in it before, or more than any file has where nobody
/// knows.
pub fn is_cut(stood: usize, written: usize) -> bool
    ensures { result ≡ is_cut stood written }
{
    stood > written
}
