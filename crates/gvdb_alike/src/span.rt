//! Where two files differ.
ghost use Rattle.std.specs.Prelude.{◌≡◌, ◌≢◌, ◌+◌, ◌-◌, ◌^◌, ◌<◌, ◌≤◌, IfNone, IfSome, IsTrue, IsFalse, drop, length, slice_index, slice_range, take};
ghost use Rattle.gvdb_alike.specs.Spans.{IsDifferingSpan};

/// How many bytes are compared at once, as long as they are the same.
const STEP: usize = 4096;

/// The first and the last position at which two files differ.
#[derive(Clone, Copy)]
pub struct DifferingSpan {
    pub first: usize,
    pub last: usize,
}

/// The first and the last position at which two files differ, or None where they are the same. Where one is longer they
/// differ up to its end.
///
/// Of files of one length it looks at each byte once, but for those between; of others at those before.
pub fn differing_span(one: &[u8], other: &[u8]) -> Option<DifferingSpan>
    ensures some { IfSome result (λ span. IsDifferingSpan one.now other.now span.first span.last) }
    ensures none { IfNone result (one.now ≡ other.now) }
{
    let first = same_before(one, other);
    if one.len() != other.len() {
        let last = one.len().max(other.len()) - 1;
        return Some(DifferingSpan { first, last });
    }
    if first == one.len() {
        return None;
    }
    let last = same_from(one, other) - 1;
    Some(DifferingSpan { first, last })
}

/// Up to where both have the same bytes.
fn same_before(one: &[u8], other: &[u8]) -> usize
    ensures same { take result one.now ≡ take result other.now }
    ensures within { result ≤ length one.now }
    ensures within_other { result ≤ length other.now }
    ensures differs { result < length one.now → result < length other.now → slice_index one.now result ≢ slice_index other.now result }
{
    let mut at = 0;
    let mut step = STEP;
    while step > 0 {
        if have_same(one, other, at, step) {
            at += step;
        } else {
            step /= 2;
        }
    }
    at
}

/// From where on both, which have one length, have the same bytes.
fn same_from(one: &[u8], other: &[u8]) -> usize
    requires { length one.now ≡ length other.now }
    ensures same { drop result one.now ≡ drop result other.now }
    ensures within { result ≤ length one.now }
    ensures differs { 0 < result → slice_index one.now (result - 1) ≢ slice_index other.now (result - 1) }
{
    let mut end = one.len();
    let mut step = STEP;
    while step > 0 {
        if have_same_up_to(one, other, end, step) {
            end -= step;
        } else {
            step /= 2;
        }
    }
    end
}

/// Whether both have so many bytes up to there, and the same.
#[inline(always)]
fn have_same_up_to(one: &[u8], other: &[u8], end: usize, len: usize) -> bool
    requires one { end ≤ length one.now }
    requires other { end ≤ length other.now }
    ensures within { IsTrue result → len ≤ end }
    ensures same { IsTrue result → slice_range one.now (end - len) end ≡ slice_range other.now (end - len) end }
    ensures differs { IsFalse result → len ≤ end → slice_range one.now (end - len) end ≢ slice_range other.now (end - len) end }
{
    if len > end {
        return false;
    }
    one[end - len..end] == other[end - len..end]
}

/// Whether both have so many bytes from there on, and the same.
#[inline(always)]
fn have_same(one: &[u8], other: &[u8], at: usize, len: usize) -> bool
    requires { at + len < 2 ^ 64 }
    ensures within { IsTrue result → (at + len ≤ length one.now) × (at + len ≤ length other.now) }
    ensures same { IsTrue result → slice_range one.now at (at + len) ≡ slice_range other.now at (at + len) }
    ensures differs { IsFalse result → at + len ≤ length one.now → at + len ≤ length other.now → slice_range one.now at (at + len) ≢ slice_range other.now at (at + len) }
{
    match (one.get(at..at + len), other.get(at..at + len)) {
        (Some(bytes), Some(same)) => bytes == same,
        _ => false,
    }
}
