//! Whether a name is nearer to one that is missing than others are.
ghost use Rattle.std.specs.Prelude.{◌≡◌, ◌+◌, ◌<◌, ◌≤◌, ◌^◌, IfOk, IsErr, true, length};
ghost use Rattle.dconf_roles.specs.Nearness.{bound, compares, cost, has_left, is_comparable, is_near, is_nearer, is_within, letters_apart, most_apart, nearing_after, nearing_with};

use std::alloc::{AllocError, Global};
use strsim::osa_distance;

/// A run compares so many pairs of letters: a second's worth.
const MOST_COMPARED: u64 = 100_000_000;

/// Names of more bytes aren't compared.
const LONGEST: usize = 65_536;

/// What was compared so far; all is 0 and false at first but `used`, which goes on, and `is_directory`.
#[repr(C)]
#[derive(Clone, Copy)]
pub struct Nearing {
    /// So many pairs of letters, in this run.
    pub used: u64,
    /// One more than the letters that are otherwise in the nearest name; 0: none is near.
    pub found: u64,
    /// Where it is looked for: the number of a [`Place`](crate::Place).
    pub place: u32,
    /// Half of the letters may be otherwise, and not a fifth alone.
    pub is_half: bool,
    /// What is missing is a directory; else it is a key.
    pub is_directory: bool,
}

/// Whether another name is near to one that is missing, and nearer than those before.
///
/// It takes time and memory with the product of their lengths, and none for what is too long or too short, or after too many of them.
pub fn is_nearer(
    alloc: Global,
    nearing: &mut Nearing,
    name: &[u8],
    other: &[u8],
) -> Result<bool, AllocError>
    ensures nearer { IfOk result (λ is. is ≡ is_nearer nearing.old name.now other.now) }
    ensures after { IfOk result (λ _. nearing.new ≡ nearing_after nearing.old name.now other.now) }
    ensures kept { IsErr result → nearing.new ≡ nearing.old }
{
    if !compares(nearing, name.len(), other.len()) {
        return Ok(false);
    }
    let apart = letters_apart(alloc, name, other)?;
    let is = apart < bound(nearing, name.len());
    *nearing = nearing_with(nearing, cost(name.len(), other.len()), apart, is);
    Ok(is)
}

fn letters_apart(alloc: Global, one: &[u8], other: &[u8]) -> Result<u64, AllocError>
    ensures { IfOk result (λ d. d ≡ letters_apart one.now other.now) }
{
    let one = String::from_utf8_lossy(alloc, one)?;
    let other = String::from_utf8_lossy(alloc, other)?;
    let apart = osa_distance(alloc, one.as_str(), other.as_str())?;
    Ok(apart as u64)
}

fn compares(nearing: &Nearing, len: usize, other_len: usize) -> bool
    ensures { result ≡ compares nearing.now len other_len }
{
    if !is_comparable(nearing.is_half, len, other_len) {
        return false;
    }
    has_left(nearing.used, cost(len, other_len))
}

/// Neither is too long, and their lengths alone don't make them too different.
fn is_comparable(is_half: bool, len: usize, other_len: usize) -> bool
    ensures { result ≡ is_comparable is_half len other_len }
{
    len <= LONGEST && (other_len <= LONGEST && is_within(most_apart(is_half, len), len, other_len))
}

/// A name has one letter otherwise, and one more for each five; or half of them.
fn most_apart(is_half: bool, len: usize) -> usize
    requires { len ≤ 65536 }
    ensures { result ≡ most_apart is_half len }
{
    if is_half {
        len / 2
    } else {
        (1 + len / 5).min(64)
    }
}

fn is_within(most: usize, len: usize, other_len: usize) -> bool
    requires short { len ≤ 65536 }
    requires other { other_len ≤ 65536 }
    requires most { most ≤ 65536 }
    ensures { result ≡ is_within most len other_len }
{
    len <= other_len + most && other_len <= len + most
}

fn cost(len: usize, other_len: usize) -> u64
    requires short { len ≤ 65536 }
    requires other { other_len ≤ 65536 }
    ensures { result ≡ cost len other_len }
{
    (len as u64 + 1) * (other_len as u64 + 1)
}

fn has_left(used: u64, cost: u64) -> bool
    ensures { result ≡ has_left used cost }
{
    used <= MOST_COMPARED && cost <= MOST_COMPARED - used
}

fn bound(nearing: &Nearing, len: usize) -> u64
    requires { len ≤ 65536 }
    ensures { result ≡ bound nearing.now len }
{
    if nearing.found == 0 {
        return most_apart(nearing.is_half, len) as u64 + 1;
    }
    nearing.found - 1
}

fn nearing_with(nearing: &Nearing, cost: u64, apart: u64, is: bool) -> Nearing
    requires cost { nearing.now.used + cost < 2 ^ 64 }
    requires apart { is ≡ true → apart + 1 < 2 ^ 64 }
    ensures { result ≡ nearing_with nearing.now cost apart is }
{
    Nearing {
        used: nearing.used + cost,
        found: if is { apart + 1 } else { nearing.found },
        ..*nearing
    }
}
