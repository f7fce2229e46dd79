//! When who rests is to wake, when who reads is to look at the files, and what is said of a fault.
ghost use Rattle.std.specs.Prelude.{ℕ, ◌≡◌, ◌↔◌, ◌≤◌, ◌<◌, ◌+◌, ◌*◌, ◌⊎◌, IsTrue, false};
ghost use Rattle.dconf_waiting.specs.Dues.{IsFirstOf};
ghost use Rattle.dconf_waiting.specs.Faults.{failing_after, is_awaited, is_still_there, wakes, word_number, word_of};
ghost use Rattle.dconf_waiting.specs.Fresh.{may_look, next_look, numbered};

use dconf_waiting::{Failing, FaultSeen, is_same_fault, next_look, sleep_until};

/// How many milliseconds there are until the first of two moments, rounded up. False, and `wait` as
/// it was, where neither is one.
#[unsafe(no_mangle)]
pub extern "C" fn dconfdb_sleep_until(again: u64, look: u64, now: u64, wait: &mut u64) -> bool
    ensures some { IsTrue result → (moment : ℕ) × IsFirstOf again look moment × (moment ≤ now + 1000 * wait.new) × ((wait.new ≡ 0) ⊎ (now + 1000 * wait.new < moment + 1000)) }
    ensures none { result ≡ false → (again ≡ 0) × (look ≡ 0) × (wait.new ≡ wait.old) }
{
    match sleep_until(again, look, now) {
        Some(found) => {
            *wait = found;
            true
        }
        None => false,
    }
}

/// Something was tried that fails for a fault, which is there or not. Gives what is said of it: 0 nothing, 1 say it, 2 it is said and lasts,
/// 3 it is over; `failing.pause` is the pause before the next try, `again` when that is, `due` when it will be said, and `failed` which of the
/// `tries` was the last that failed by it once it lasted.
#[unsafe(no_mangle)]
pub extern "C" fn dconfdb_failing_met(
    failing: &mut Failing,
    is_there: bool,
    is_momentary: bool,
    tries_again: bool,
    now: u64,
) -> u32
    ensures said { result ≡ word_number (word_of failing.old is_there is_momentary tries_again now) }
    ensures after { failing.new ≡ failing_after failing.old is_there is_momentary tries_again now }
{
    failing.met(is_there, is_momentary, tries_again, now)
}

/// The same of a look at the files, that is repeated of itself or not: what mostly passes in a moment is awaited then, and all else is said at once. And of
/// files that were written, and read for that: a look that failed isn't over by it.
#[unsafe(no_mangle)]
pub extern "C" fn dconfdb_failing_look(failing: &mut Failing, seen: &FaultSeen, now: u64) -> u32
    ensures said { result ≡ word_number (word_of failing.old (is_still_there seen.now) seen.now.is_momentary (is_awaited seen.now.is_momentary seen.now.is_repeated) now) }
    ensures after { failing.new ≡ failing_after failing.old (is_still_there seen.now) seen.now.is_momentary (is_awaited seen.now.is_momentary seen.now.is_repeated) now }
{
    failing.met_looking(seen, now)
}

/// When who tries again is to wake: for the next try; or, if it is woken for that, when the fault is to be said, if it is there then. 0: at no time.
#[unsafe(no_mangle)]
pub extern "C" fn dconfdb_wakes(failing: &Failing, is_woken: bool) -> u64
    ensures { result ≡ wakes failing.now is_woken }
{
    failing.wakes(is_woken)
}

/// When the next look is due, if this one is made; or 0. Of 0 who reads, of 1 who did and whose look failed; and of who is about to tell
/// of a change, how long it waits for the newest. `has_opened`: the store was opened first, or could not be. `is_watched`: somebody watches the files.
#[unsafe(no_mangle)]
pub extern "C" fn dconfdb_next_look(
    looker: u32,
    due: u64,
    now: u64,
    has_opened: bool,
    is_at_work: bool,
    is_watched: bool,
) -> u64
    ensures { result ≡ next_look (numbered looker) is_watched due now (may_look has_opened is_at_work) }
{
    next_look(looker, due, now, has_opened, is_at_work, is_watched)
}

/// Whether a fault is the one that was said by that text.
#[unsafe(no_mangle)]
pub extern "C" fn dconfdb_is_same_fault(said: &[u8], text: &[u8]) -> bool
    ensures { IsTrue result ↔ (said.now ≡ text.now) }
{
    is_same_fault(said, text)
}
