//! All rules in one pass, which says 'the table is sound', or nothing.
//!
//! Each record is read once. Only the lists' parents are walked: what is no list lies in a list, so that its parents end, and
//! its name is as short as the list's and its key.
ghost use Rattle.std.specs.Prelude.{◌≡◌, ◌≤◌, ◌<◌, IfSome, IsTrue, length};
ghost use Rattle.dconf_model.specs.Table.{item_count, item, key, list_kind};
ghost use Rattle.dconf_model.specs.Searchable.{HasBuckets, HasGoodKey, IsInSpan};
ghost use Rattle.dconf_model.specs.Sound.{IsSound};
ghost use Rattle.gvdb_check.specs.Counted.{HasListOnceIfAny, found_count};
ghost use Rattle.gvdb_check.specs.OnePass.{HasNameWithin, HasOwnHash, ItemKeeps};
ghost use Rattle.gvdb_format.specs.Tables.{item_of, region};

use crate::buckets::has_buckets;
use crate::content::has_content;
use crate::length::MAX_NAME_LEN;
use crate::lists_counted::found_at;
use crate::locks::has_locks_if_table;
use crate::plain_key::key_keeps;
use gvdb_format::{ItemRecord, Kind, RawTable};

/// How many bytes the name of a directory has here at most: more than in practice.
const MOST_OF_DIRECTORY: usize = 1023;

/// How many bytes a key has here at most: with a directory's, no full name is too long.
const MOST_OF_KEY: usize = MAX_NAME_LEN - MOST_OF_DIRECTORY;

/// So many items of a bucket are quickly looked at one by one, as there are in files of our writer and of dconf's.
pub(crate) const SHORT_BUCKET: u32 = 16;

/// Whether the table is seen to be sound. It looks at each byte of a key and at each number of a list once, and
/// from a list at its parents, as far as its name has 1,023 bytes. Long buckets and names it leaves to the other passes.
pub(crate) fn all_keep(table: RawTable<'_>) -> bool
    ensures { IsTrue result → IsSound (region table.entry) }
{
    has_buckets(table) && items_keep(table)
}

/// The same, where the buckets keep S1. In line with what opens a file the loop would lack registers.
#[inline(never)]
fn items_keep(table: RawTable<'_>) -> bool
    requires { HasBuckets (region table) }
    ensures { IsTrue result → IsSound (region table.entry) }
{
    let mut left = table.n_items() as usize;
    for i in 0..table.n_items() {
        let Some(found) = found_where_kept(table, i) else {
            return false;
        };
        let Some(fewer) = left.checked_sub(found) else {
            return false;
        };
        left = fewer;
    }
    left == 0
}

/// How many items are found by item `i`, as `found_at` says, where it is seen to keep the other rules.
#[inline(always)]
fn found_where_kept(table: RawTable<'_>, i: u32) -> Option<usize>
    requires { i < item_count (region table) }
    ensures kept { IfSome result (λ _. ItemKeeps (region table.entry) i) }
    ensures listed { IfSome result (λ n. HasListOnceIfAny (region table.entry) i × (n ≡ found_count (region table.entry) i)) }
{
    let stored = table.stored(i);
    if !item_keeps(table, i, stored) {
        return None;
    }
    found_at(table, i, stored)
}

/// Whether item `i` is seen to keep the rules but S10, where the items above it do.
#[inline(always)]
fn item_keeps(table: RawTable<'_>, i: u32, stored: ItemRecord) -> bool
    requires counted { i < item_count (region table) }
    requires read { item_of stored ≡ item (region table) i }
    ensures { IsTrue result → ItemKeeps (region table.entry) i }
{
    key_keeps(table, i, stored)
        && is_first_of_hash(table, i, stored.hash)
        && table.passes_bloom(stored.hash)
        && has_content(table, i, stored)
        && has_locks_if_table(table, i, stored)
        && has_usual_key(table, i, stored)
        && is_near_top(table, i, stored)
}

/// Whether item `i`'s key has bytes, and not too many of them.
#[tactic(auto, using(crate::proofs::NameLengths::key_long))]
#[inline(always)]
fn has_usual_key(table: RawTable<'_>, i: u32, stored: ItemRecord) -> bool
    requires good { HasGoodKey (region table) i }
    requires read { item_of stored ≡ item (region table) i }
    ensures some { IsTrue result → 0 < length (key (region table.entry) i) }
    ensures short { IsTrue result → length (key (region table.entry) i) ≤ 64512 }
{
    (1..=MOST_OF_KEY).contains(&usize::from(stored.key_size))
}

/// Whether item `i` is the first of its hash's bucket that has the hash. Where the bucket is long it doesn't look.
#[inline(always)]
fn is_first_of_hash(table: RawTable<'_>, i: u32, hash: u32) -> bool
    requires counted { i < item_count (region table) }
    requires of_item { (item (region table) i).hash ≡ hash }
    ensures in_span { IsTrue result → IsInSpan (region table.entry) i }
    ensures own { IsTrue result → HasOwnHash (region table.entry) i }
{
    let (first, end) = table.span(hash);
    if i < first || i >= end || i - first > SHORT_BUCKET {
        return false;
    }
    for j in first..i {
        if table.hash_at(j) == hash {
            return false;
        }
    }
    true
}

/// Whether item `i`, if it is a list, has a full name, and not too long a one.
#[tactic(auto, using(crate::proofs::OnePass::within_where_some))]
#[inline(always)]
fn is_near_top(table: RawTable<'_>, i: u32, stored: ItemRecord) -> bool
    requires { item_of stored ≡ item (region table) i }
    ensures { IsTrue result → (item (region table.entry) i).kind ≡ list_kind → HasNameWithin 1023 (region table.entry) i }
{
    stored.kind != Kind::List.letter() || table.name_len(i, MOST_OF_DIRECTORY).is_some()
}
