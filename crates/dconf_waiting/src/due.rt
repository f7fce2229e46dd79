//! When what failed is tried again, and when who rests is to wake. All moments are of one clock, in microseconds; 0 is none.
ghost use Rattle.std.specs.Prelude.{ℕ, ◌≡◌, ◌≤◌, ◌<◌, ◌+◌, ◌*◌, ◌⊎◌, IsSome, IfSome, IfNone, Some};
ghost use Rattle.dconf_waiting.specs.Dues.{IsFirstOf, next_pause};

/// The first pause before what failed is tried again, and the longest.
const SHORTEST_PAUSE: u64 = 50_000;

const LONGEST_PAUSE: u64 = 2_000_000;

const MILLISECOND: u64 = 1_000;

/// The pause before it is tried again, by the one before it: twice that, from 50 milliseconds to two seconds.
pub fn pause_after(pause: u64) -> u64
    ensures { result ≡ next_pause pause }
{
    pause.saturating_mul(2).clamp(SHORTEST_PAUSE, LONGEST_PAUSE)
}

/// How many milliseconds there are until the first of two moments, rounded up; none where neither is one.
pub fn sleep_until(again: u64, look: u64, now: u64) -> Option<u64>
    ensures some { IfSome result (λ wait. (moment : ℕ) × IsFirstOf again look moment × (moment ≤ now + 1000 * wait) × ((wait ≡ 0) ⊎ (now + 1000 * wait < moment + 1000))) }
    ensures none { IfNone result ((again ≡ 0) × (look ≡ 0)) }
{
    let moment = first_of(again, look)?;
    let wait = moment.saturating_sub(now);
    Some(wait / MILLISECOND + (wait % MILLISECOND != 0) as u64)
}

fn first_of(one: u64, other: u64) -> Option<u64>
    ensures some { IfSome result (IsFirstOf one other) }
    ensures none { IfNone result ((one ≡ 0) × (other ≡ 0)) }
{
    if one == 0 && other == 0 {
        return None;
    }
    if one == 0 || (other != 0 && other < one) {
        return Some(other);
    }
    Some(one)
}
