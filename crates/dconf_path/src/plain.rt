//! Plain paths, as nearly all are: of ASCII, without a zero byte and without `//`, so that they are known to be texts
//! and paths by one walk, sixteen bytes at a time.
ghost use Rattle.std.specs.Prelude.{◌≡◌, ◌≢◌, ◌+◌, ◌<◌, ◌≤◌, ℕ, IsTrue, length, slice_index};
ghost use Rattle.std.specs.Str.{IsAscii};
ghost use Rattle.dconf_model.specs.Paths.{is_key_path};
ghost use Rattle.dconf_path.specs.PlainBytes.{IsPlainAt, ArePlain};

use crate::path::MAX_PATH_LEN;
use std::simd::prelude::*;

/// How many bytes are looked at at once: a block, of which the next byte is looked at too.
const BLOCK_LEN: usize = 16;

/// Whether bytes are the path of a key, and plain. Where it says no they may still be the path of a key.
#[inline(always)]
pub(crate) fn is_plain_key(bytes: &[u8]) -> bool
    ensures ascii { IsTrue result → IsAscii bytes.now }
    ensures key { IsTrue result → IsTrue (is_key_path bytes.now) }
{
    if !bytes.starts_with(b"/") {
        return false;
    }
    if bytes.ends_with(b"/") {
        return false;
    }
    if bytes.len() > MAX_PATH_LEN {
        return false;
    }
    is_plain(bytes)
}

/// Whether all bytes are plain.
#[inline(always)]
fn is_plain(bytes: &[u8]) -> bool
    ensures { IsTrue result → ArePlain bytes.now (length bytes.now) }
{
    if bytes.len() > BLOCK_LEN {
        has_plain_blocks(bytes)
    } else {
        has_plain_bytes(bytes)
    }
}

/// The same, block by block. The last one ends before the last byte, wherever it begins.
#[inline(always)]
fn has_plain_blocks(bytes: &[u8]) -> bool
    requires { 16 < length bytes.now }
    ensures { IsTrue result → ArePlain bytes.now (length bytes.now) }
{
    let last = bytes.len() - 1;
    let mut i = 0;
    while i + BLOCK_LEN <= last {
        if !is_plain_block(bytes, i) {
            return false;
        }
        i += BLOCK_LEN;
    }
    is_plain_block(bytes, last - BLOCK_LEN) && is_plain_byte(bytes, last)
}

/// The same of bytes that are no more than a block: others follow them there, which are plain.
#[inline(always)]
fn has_plain_bytes(bytes: &[u8]) -> bool
    requires { length bytes.now ≤ 16 }
    ensures { IsTrue result → ArePlain bytes.now (length bytes.now) }
{
    let mut block = [b'a'; BLOCK_LEN + 1];
    block[..bytes.len()].copy_from_slice(bytes);
    is_plain_block(&block, 0)
}

/// Whether the byte at a place is of ASCII, not zero, and no `/` before another.
#[inline(always)]
fn is_plain_byte(bytes: &[u8], i: usize) -> bool
    requires { i < length bytes.now }
    ensures { IsTrue result → IsPlainAt bytes.now i }
{
    let byte = bytes[i];
    byte != 0 && byte < 0x80 && (byte != b'/' || bytes.get(i + 1) != Some(&b'/'))
}

/// Whether each byte of a block is.
#[inline(always)]
fn is_plain_block(bytes: &[u8], i: usize) -> bool
    requires { i + 16 < length bytes.now }
    ensures { IsTrue result → (k : ℕ) → i ≤ k → k < i + 16 → IsPlainAt bytes.now k }
{
    is_ascii_block(bytes, i) && is_without_zero(bytes, i) && is_without_two_slashes(bytes, i)
}

#[inline(always)]
fn is_ascii_block(bytes: &[u8], i: usize) -> bool
    requires { i + 16 ≤ length bytes.now }
    ensures { IsTrue result → (k : ℕ) → i ≤ k → k < i + 16 → slice_index bytes.now k < 128 }
{
    let block = u8x16::from_slice(&bytes[i..]);
    block.simd_ge(u8x16::splat(0x80)).to_bitmask() == 0
}

#[inline(always)]
fn is_without_zero(bytes: &[u8], i: usize) -> bool
    requires { i + 16 ≤ length bytes.now }
    ensures { IsTrue result → (k : ℕ) → i ≤ k → k < i + 16 → slice_index bytes.now k ≢ 0 }
{
    let block = u8x16::from_slice(&bytes[i..]);
    block.simd_eq(u8x16::splat(0)).to_bitmask() == 0
}

/// Whether no `/` of a block is before another. The byte after each `/` is kept, and zero in place of the others.
#[inline(always)]
fn is_without_two_slashes(bytes: &[u8], i: usize) -> bool
    requires { i + 16 < length bytes.now }
    ensures { IsTrue result → (k : ℕ) → i ≤ k → k < i + 16 → slice_index bytes.now k ≡ 47 → slice_index bytes.now (k + 1) ≢ 47 }
{
    let slash = u8x16::splat(b'/');
    let block = u8x16::from_slice(&bytes[i..]);
    let next = u8x16::from_slice(&bytes[i + 1..]);
    let after_slash = block.simd_eq(slash).select(next, u8x16::splat(0));
    after_slash.simd_eq(slash).to_bitmask() == 0
}
