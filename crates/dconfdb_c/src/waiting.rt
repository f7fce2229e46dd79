//! Changes that wait to be written: which edit of a key is the newest, what becomes of each change, and how
//! long it is waited for.
ghost use Rattle.std.specs.Prelude.{◌≡◌, ◌≤◌, ◌<◌, ◌+◌, ◌↔◌, IsTrue, false, length, map, take, true};
ghost use Rattle.std.specs.List.Sorted.{IsPermutation};
ghost use Rattle.dconf_waiting.specs.Newest.{IsPut, found};
ghost use Rattle.dconf_waiting.specs.Fates.{IsStillWaiting, marked, tallied};
ghost use Rattle.dconf_waiting.specs.Patiences.{patience_for, renewed_by};

use dconf_files::FileTime;
use dconf_waiting::{Patience, Progress, Tally, Waiter, found, patience_for, put, settle};

/// The number of the newest edit of a key that waits; 0 if none does. If `puts`, the edit of that number is the newest from then on.
#[unsafe(no_mangle)]
pub extern "C" fn dconfdb_newest(
    newest: &mut [usize],
    key: usize,
    puts: bool,
    number: usize,
) -> usize
    ensures found { puts ≡ false → (newest.new ≡ newest.old) × (result ≡ found newest.old key) }
    ensures put { puts ≡ true → IsPut newest.old key number newest.new result }
{
    if puts {
        return put(newest, key, number);
    }
    found(newest, key)
}

/// What becomes of each change that waits: its `fate` is 0 it waits, 1 it is written, or was there already, 2 refused, 3 overtaken by the
/// newest edit of its key. `is_written`: what was tried is written. Those of 0 are the first from then on, in the order in which they were set,
/// which is that in which they are written. Gives how many they are; and how many are settled is added to the tally.
#[unsafe(no_mangle)]
pub extern "C" fn dconfdb_waiting_line(
    line: &mut [Waiter],
    is_written: bool,
    tally: &mut Tally,
) -> usize
    ensures waiting { IsStillWaiting is_written line.old (take result line.new) }
    ensures all { IsPermutation (map (marked is_written) line.old) line.new }
    ensures within { result ≤ length line.new }
    ensures tallied { tally.new ≡ tallied is_written line.new tally.old }
{
    settle(line, is_written, tally)
}

/// How many microseconds it is waited, unless others have turns meanwhile: by who sets or syncs (0), at the program's end (1), and (else) for a lock
/// that is wanted there for moments; (3) until it is asked again whether others had turns; and (4) until the program's end asks again whether what it
/// waits for is over.
#[unsafe(no_mangle)]
pub extern "C" fn dconfdb_patience_for(who: u32) -> u64
    ensures { result ≡ patience_for who }
{
    patience_for(who)
}

/// Whether it is waited on: fewer changes are settled than there were when the wait began, no later try than those of then has failed
/// by a fault that lasts, the time isn't over, and the thread that writes moved within two seconds. The wait begins now, so long; or, if
/// another program had a turn since the last call, as the folder changed in another moment than it had then, it is as long again, up to a minute.
#[unsafe(no_mangle)]
pub extern "C" fn dconfdb_patience_goes_on(
    patience: &mut Patience,
    progress: &Progress,
    changed: &FileTime,
    now: u64,
) -> bool
    ensures renewed { patience.new ≡ renewed_by patience.old changed.now now }
    ensures on { IsTrue result ↔ ((progress.now.settled < progress.now.added) × (progress.now.failed ≤ progress.now.tries) × (now < patience.new.end) × (now < progress.now.moved + 2000000)) }
{
    patience.goes_on(progress, *changed, now)
}
