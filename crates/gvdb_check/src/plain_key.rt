//! The usual last part of a path: plain bytes, whose hash goes on from the directory's. Each byte is looked at once, for S2, S4
//! and S9.
ghost use Rattle.std.specs.Prelude.{◌≡◌, ◌<◌, IfSome, IsTrue, fold};
ghost use Rattle.std.specs.List.{list_all};
ghost use Rattle.dconf_model.specs.Bytes.{hash_step};
ghost use Rattle.dconf_model.specs.Table.{item, item_count};
ghost use Rattle.gvdb_check.specs.PlainKey.{IsPlainDirectory, IsPlainPart, KeyKeeps, is_plain};
ghost use Rattle.gvdb_format.specs.Tables.{item_of, region};

use crate::hash_by_parent::hash_goes_on;
use crate::keys::has_good_key;
use crate::place::has_parent;
use gvdb_format::{ItemRecord, Kind, RawTable, hash_with, hash_with_four};

/// Whether item `i`'s key is good, its hash goes on from its parent's, and it is where such an item may occur.
#[inline(always)]
pub(crate) fn key_keeps(table: RawTable<'_>, i: u32, stored: ItemRecord) -> bool
    requires counted { i < item_count (region table) }
    requires read { item_of stored ≡ item (region table) i }
    ensures { IsTrue result → KeyKeeps (region table.entry) i }
{
    has_plain_part(table, i, stored) || other_key_keeps(table, i)
}

/// The same, of any key. It is kept apart, since few keys aren't plain.
#[inline(never)]
fn other_key_keeps(table: RawTable<'_>, i: u32) -> bool
    requires { i < item_count (region table) }
    ensures { IsTrue result → KeyKeeps (region table.entry) i }
{
    has_good_key(table, i) && hash_goes_on(table, i) && has_parent(table, i)
}

/// Whether item `i` lies in a list, and its key is a plain part by which its hash goes on from the list's.
#[inline(always)]
fn has_plain_part(table: RawTable<'_>, i: u32, stored: ItemRecord) -> bool
    requires { item_of stored ≡ item (region table) i }
    ensures { IsTrue result → KeyKeeps (region table.entry) i }
{
    let Some(parent) = stored.parent else {
        return false;
    };
    let Some(key) = table.key_of(stored) else {
        return false;
    };
    if parent >= table.n_items() || !table.has_kind(parent, Kind::List) {
        return false;
    }
    let Some(hash) = hash_of_part(stored.kind, table.hash_at(parent), key) else {
        return false;
    };
    hash == stored.hash
}

/// The hash of a name that goes on with this part, by the hash before it. None where the part isn't plain, or of another kind.
#[inline(always)]
fn hash_of_part(kind: u8, hash: u32, part: &[u8]) -> Option<u32>
    ensures part { IfSome result (λ _. IsPlainPart kind part.now) }
    ensures hash { IfSome result (λ h. h ≡ fold hash_step hash part.now) }
{
    match Kind::of(kind)? {
        Kind::Value => hash_of_plain(hash, part),
        Kind::List => hash_of_directory(hash, part),
        Kind::Table => None,
    }
}

/// The same, of a directory: a slash comes after plain bytes.
#[inline(always)]
fn hash_of_directory(hash: u32, part: &[u8]) -> Option<u32>
    ensures part { IfSome result (λ _. IsPlainDirectory part.now) }
    ensures hash { IfSome result (λ h. h ≡ fold hash_step hash part.now) }
{
    let name = part.strip_suffix(b"/")?;
    if name.is_empty() {
        return None;
    }
    let above = hash_of_plain(hash, name)?;
    Some(hash_with(above, b'/'))
}

/// The same, of plain bytes.
#[tactic(auto, using(gvdb_hash::proofs::HashFours::joined_fours, crate::proofs::PlainKey::plain_by_fours))]
#[inline(always)]
fn hash_of_plain(hash: u32, bytes: &[u8]) -> Option<u32>
    ensures plain { IfSome result (λ _. IsTrue (list_all is_plain bytes.now)) }
    ensures hash { IfSome result (λ h. h ≡ fold hash_step hash bytes.now) }
{
    let (fours, rest) = bytes.as_chunks();
    let above = hash_of_plain_fours(hash, fours)?;
    hash_of_few_plain(above, rest)
}

/// The same, of groups of four bytes.
#[inline(always)]
fn hash_of_plain_fours(hash: u32, fours: &[[u8; 4]]) -> Option<u32>
    ensures plain { IfSome result (λ _. IsTrue (list_all (list_all is_plain) fours.now)) }
    ensures hash { IfSome result (λ h. h ≡ fold (fold hash_step) hash fours.now) }
{
    let mut hash = hash;
    for four in fours {
        if !are_four_plain(four) {
            return None;
        }
        hash = hash_with_four(hash, four);
    }
    Some(hash)
}

/// The same, byte by byte.
#[inline(always)]
fn hash_of_few_plain(hash: u32, bytes: &[u8]) -> Option<u32>
    ensures plain { IfSome result (λ _. IsTrue (list_all is_plain bytes.now)) }
    ensures hash { IfSome result (λ h. h ≡ fold hash_step hash bytes.now) }
{
    let mut hash = hash;
    for byte in bytes {
        if !is_plain(*byte) {
            return None;
        }
        hash = hash_with(hash, *byte);
    }
    Some(hash)
}

/// Whether each of four bytes is plain.
#[inline(always)]
fn are_four_plain(four: &[u8; 4]) -> bool
    ensures { result ≡ list_all is_plain four.now }
{
    is_plain(four[0]) && is_plain(four[1]) && is_plain(four[2]) && is_plain(four[3])
}

/// Whether the byte is ASCII, and neither zero nor a slash.
#[inline(always)]
fn is_plain(byte: u8) -> bool
    ensures { result ≡ is_plain byte }
{
    byte > 0 && byte < 128 && byte != b'/'
}
