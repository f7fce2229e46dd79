//! Suffixes of names. Keys are short: they are compared by their two ends, which may overlap, and not byte by byte.
ghost use Rattle.std.specs.Prelude.{◌≡◌, ◌≢◌, ◌+◌, ◌-◌, ◌≤◌, ◌<◌, ◌++◌, ◌↔◌, ℕ, List, IsTrue, MatchOption, length, take, drop};

/// The bytes before a suffix. None where they don't end in it.
#[inline(always)]
pub(crate) fn before_suffix<'n>(bytes: &'n [u8], suffix: &[u8]) -> Option<&'n [u8]>
    ensures { MatchOption result ((prefix : List ℕ) → bytes.entry.now ≢ prefix ++ suffix.now) (λ prefix. bytes.entry.now ≡ prefix.now ++ suffix.now) }
{
    if bytes.len() < suffix.len() {
        return None;
    }
    let (prefix, end) = bytes.split_at(bytes.len() - suffix.len());
    if are_same(end, suffix) {
        Some(prefix)
    } else {
        None
    }
}

/// Whether bytes are the same as so many others.
#[inline(always)]
fn are_same(one: &[u8], other: &[u8]) -> bool
    requires { length one.now ≡ length other.now }
    ensures { IsTrue result ↔ (one.now ≡ other.now) }
{
    if one.len() < 4 {
        return are_few_same(one, other);
    }
    if one.len() < 8 {
        return have_same_ends::<4>(one, other);
    }
    if one.len() <= 16 {
        return have_same_ends::<8>(one, other);
    }
    are_many_same(one, other)
}

/// The same, of less than four bytes.
#[inline(always)]
fn are_few_same(one: &[u8], other: &[u8]) -> bool
    requires same_len { length one.now ≡ length other.now }
    requires few { length one.now < 4 }
    ensures { IsTrue result ↔ (one.now ≡ other.now) }
{
    if one.len() < 2 {
        return one.first() == other.first();
    }
    have_same_ends::<2>(one, other)
}

/// The same, of any bytes. It is kept apart, since few keys are so long.
#[inline(never)]
fn are_many_same(one: &[u8], other: &[u8]) -> bool
    ensures { IsTrue result ↔ (one.now ≡ other.now) }
{
    one == other
}

/// The same, where the first `N` and the last `N` are all of them.
#[tactic(auto, using(crate::proofs::SameEnds::same_ends))]
#[inline(always)]
fn have_same_ends<const N: usize>(one: &[u8], other: &[u8]) -> bool
    requires same_len { length one.now ≡ length other.now }
    requires enough { N ≤ length one.now }
    requires few { length one.now ≤ N + N }
    ensures { IsTrue result ↔ (one.now ≡ other.now) }
{
    has_same_start::<N>(one, other) && has_same_end::<N>(one, other)
}

/// Whether the first `N` bytes are the same.
#[inline(always)]
fn has_same_start<const N: usize>(one: &[u8], other: &[u8]) -> bool
    requires one_len { N ≤ length one.now }
    requires other_len { N ≤ length other.now }
    ensures { IsTrue result ↔ (take N one.now ≡ take N other.now) }
{
    let Some((one, _)) = one.split_first_chunk::<N>() else {
        return false;
    };
    let Some((other, _)) = other.split_first_chunk::<N>() else {
        return false;
    };
    *one == *other
}

/// Whether the last `N` bytes are the same.
#[inline(always)]
fn has_same_end<const N: usize>(one: &[u8], other: &[u8]) -> bool
    requires one_len { N ≤ length one.now }
    requires other_len { N ≤ length other.now }
    ensures { IsTrue result ↔ (drop (length one.now - N) one.now ≡ drop (length other.now - N) other.now) }
{
    let Some((_, one)) = one.split_last_chunk::<N>() else {
        return false;
    };
    let Some((_, other)) = other.split_last_chunk::<N>() else {
        return false;
    };
    *one == *other
}
