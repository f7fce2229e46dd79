//! The line in which changes wait to be written: what was set first is written first.
ghost use Rattle.std.specs.Prelude.{◌≡◌, ◌≤◌, ◌<◌, filter, length, map, take};
ghost use Rattle.std.specs.List.{SwappedAt};
ghost use Rattle.std.specs.List.Sorted.{IsPermutation};
ghost use Rattle.dconf_waiting.specs.Fates.{IsInTurn, IsStillWaiting, marked, more, so_many, tallied, waits};

use crate::fate::{Waiter, fate_number};

/// How many changes no longer wait.
#[repr(C)]
#[derive(Clone, Copy)]
pub struct Tally {
    /// They are written, refused, or were there already; or one that overtook them is.
    pub settled: u64,
    /// They were overtaken, and what overtook them is not settled.
    pub overtaken: u64,
}

/// What becomes of each change that waits, which is written to its `fate`; `is_written`: what was tried is written, but for what is refused.
/// Those that go on waiting are the first from then on, in the order in which they were set, wherever they stood, and the others stand
/// behind them. Gives how many wait; and how many no longer do is added to the tally.
///
/// It takes no memory; and of a line that is in order already, time in proportion to it.
pub fn settle(line: &mut [Waiter], is_written: bool, tally: &mut Tally) -> usize
    ensures waiting { IsStillWaiting is_written line.old (take result line.new) }
    ensures all { IsPermutation (map (marked is_written) line.old) line.new }
    ensures within { result ≤ length line.new }
    ensures tallied { tally.new ≡ tallied is_written line.new tally.old }
{
    order(line);
    mark(line, is_written);
    let count = gather(line);
    *tally = tallied(*tally, line, is_written);
    count
}

/// Puts them in the order in which they were set.
fn order(line: &mut [Waiter])
    ensures all { IsPermutation line.old line.new }
    ensures in_turn { IsInTurn line.new }
{
    line.sort_unstable_by_key(|waiter| waiter.set);
}

/// Writes to each change what becomes of it.
fn mark(line: &mut [Waiter], is_written: bool)
    ensures { line.new ≡ map (marked is_written) line.old }
{
    for waiter in line.iter_mut() {
        waiter.fate = fate_number(is_written, waiter);
    }
}

/// Puts those that go on waiting before the others, and gives how many they are.
fn gather(line: &mut [Waiter]) -> usize
    ensures waiting { take result line.new ≡ filter waits line.old }
    ensures all { IsPermutation line.old line.new }
    ensures within { result ≤ length line.new }
{
    let mut count = 0;
    for at in 0..line.len() {
        if line[at].fate == 0 {
            exchange(line, count, at);
            count += 1;
        }
    }
    count
}

/// Swaps two of a line, which mostly are one and the same.
fn exchange(line: &mut [Waiter], one: usize, other: usize)
    requires one { one < length line.now }
    requires other { other < length line.now }
    ensures by_index { SwappedAt line.old line.new one other }
    ensures all { IsPermutation line.old line.new }
{
    if one != other {
        line.swap(one, other);
    }
}

/// The tally after those fates.
fn tallied(tally: Tally, line: &[Waiter], is_written: bool) -> Tally
    ensures { result ≡ tallied is_written line.now tally }
{
    let overtaken = so_many(line, 3);
    let settled = more(more(tally.settled, so_many(line, 1)), so_many(line, 2));
    if is_written {
        return Tally {
            settled: more(more(settled, tally.overtaken), overtaken),
            overtaken: 0,
        };
    }
    Tally {
        settled,
        overtaken: more(tally.overtaken, overtaken),
    }
}

/// How many have that fate.
fn so_many(line: &[Waiter], fate: u32) -> u64
    ensures { result ≡ so_many fate line.now }
{
    line.iter().filter(|waiter| waiter.fate == fate).count() as u64
}

fn more(count: u64, by: u64) -> u64
    ensures { result ≡ more count by }
{
    count.saturating_add(by)
}
