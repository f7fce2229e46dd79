//! Notes of what was set, with more of them.
ghost use Rattle.std.specs.Prelude.{◌≡◌, ◌≤◌, ◌<◌, ◌++◌, ℕ, [], map, length, false, IfOk, IfSome, IsTrue, OnOk, None};
ghost use Rattle.std.specs.List.{filter};
ghost use Rattle.dconf_times.specs.Noted.{AreAdded, AreNoted, IsAdded, IsOldest, IsPut};
ghost use Rattle.dconf_times.specs.Times.{is_known, note_of};

use crate::times::DconfdbTime;
use std::alloc::{AllocError, Global};

/// The notes after more sets, at most so many: of each path the latest.
///
/// What finds no room is no later than anything that is kept. A note that is later than `now` goes.
/// The only error is a failed allocation. It compares each of `more` with each note that is kept.
pub fn note_times<'a>(
    alloc: Global,
    times: &[DconfdbTime<'a>],
    more: &[DconfdbTime<'a>],
    now: u64,
    most: usize,
) -> Result<Vec<DconfdbTime<'a>>, AllocError>
    ensures { IfOk result (λ kept. AreNoted now most (map note_of times.now ++ map note_of more.now) (map note_of kept.items)) }
{
    let (first, rest) = times.split_at(times.len().min(most));
    let mut kept = Vec::new(alloc);
    keep_known(&mut kept, first, now)?;
    note_each(&mut kept, rest, now, most)?;
    note_each(&mut kept, more, now, most)?;
    Ok(kept)
}

/// Appends the notes that are not of the future.
fn keep_known<'a>(
    kept: &mut Vec<DconfdbTime<'a>>,
    times: &[DconfdbTime<'a>],
    now: u64,
) -> Result<(), AllocError>
    ensures { OnOk result (map note_of kept.new.items ≡ map note_of kept.old.items ++ filter (is_known now) (map note_of times.now)) }
{
    for time in times {
        if time.when <= now {
            kept.push(*time)?;
        }
    }
    Ok(())
}

/// Adds notes that are not of the future, one after another.
fn note_each<'a>(
    kept: &mut Vec<DconfdbTime<'a>>,
    times: &[DconfdbTime<'a>],
    now: u64,
    most: usize,
) -> Result<(), AllocError>
    ensures { OnOk result (AreAdded now most (map note_of times.now) (map note_of kept.old.items) (map note_of kept.new.items)) }
{
    for time in times {
        if time.when <= now {
            note(kept, *time, most)?;
        }
    }
    Ok(())
}

/// Adds a note: in the place of one of its path, or, if there are so many, of the oldest; else at the
/// end. A later one stays.
fn note<'a>(
    kept: &mut Vec<DconfdbTime<'a>>,
    time: DconfdbTime<'a>,
    most: usize,
) -> Result<(), AllocError>
    ensures { OnOk result (IsAdded most (note_of time.entry) (map note_of kept.old.items) (map note_of kept.new.items)) }
{
    if !replaces(kept.as_mut_slice(), time, most) {
        kept.push(time)?;
    }
    Ok(())
}

/// Adds a note in the place of another, if it has one.
fn replaces<'a>(kept: &mut [DconfdbTime<'a>], time: DconfdbTime<'a>, most: usize) -> bool
    ensures added { IsTrue result → IsAdded most (note_of time.entry) (map note_of kept.old) (map note_of kept.new) }
    ensures none { result ≡ false → (kept.new ≡ kept.old) × (length kept.old < most) }
    ensures length { length kept.new ≡ length kept.old }
{
    if raise(kept, time) {
        return true;
    }
    if kept.len() < most {
        return false;
    }
    replace_oldest(kept, time);
    true
}

/// Makes a note of the same path as late, and says whether there is one.
fn raise<'a>(kept: &mut [DconfdbTime<'a>], time: DconfdbTime<'a>) -> bool
    ensures raised { IsTrue result → (most : ℕ) → IsAdded most (note_of time.entry) (map note_of kept.old) (map note_of kept.new) }
    ensures none { result ≡ false → kept.new ≡ kept.old }
    ensures length { length kept.new ≡ length kept.old }
{
    for at in 0..kept.len() {
        if kept[at].path == time.path {
            put_later(kept, at, time);
            return true;
        }
    }
    false
}

/// Puts a note in the place of the oldest, if that is older.
fn replace_oldest<'a>(kept: &mut [DconfdbTime<'a>], time: DconfdbTime<'a>)
    ensures added { (most : ℕ) → most ≤ length kept.old → IsAdded most (note_of time.entry) (map note_of kept.old) (map note_of kept.new) }
    ensures length { length kept.new ≡ length kept.old }
{
    if let Some(at) = oldest(kept) {
        put_later(kept, at, time);
    }
}

/// Puts a note in the place of an older one.
fn put_later<'a>(kept: &mut [DconfdbTime<'a>], at: usize, time: DconfdbTime<'a>)
    requires { at < length kept.old }
    ensures put { IsPut (note_of time.entry) at (map note_of kept.old) (map note_of kept.new) }
    ensures length { length kept.new ≡ length kept.old }
{
    if kept[at].when < time.when {
        kept[at] = time;
    }
}

/// The index of the oldest, if there is any.
fn oldest(times: &[DconfdbTime<'_>]) -> Option<usize>
    ensures some { IfSome result (λ at. IsOldest at (map note_of times.now)) }
    ensures none { result ≡ None → times.now ≡ [] }
{
    if times.is_empty() {
        return None;
    }
    let mut oldest = 0;
    for at in 0..times.len() {
        if times[at].when < times[oldest].when {
            oldest = at;
        }
    }
    Some(oldest)
}
