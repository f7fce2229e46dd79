//! Whether a table is sound, by another one that is.
ghost use Rattle.std.specs.Prelude.{◌≡◌, ◌<◌, IsTrue};
ghost use Rattle.dconf_model.specs.Searchable.{EachItem};
ghost use Rattle.dconf_model.specs.Sound.{IsSound};
ghost use Rattle.dconf_model.specs.Table.{item_count};
ghost use Rattle.gvdb_read.specs.Tables.{region};
ghost use Rattle.gvdb_alike.specs.ItemsAlike.{HasLikeBytes, HasLikeContent, IsItemAlike};
ghost use Rattle.gvdb_alike.specs.SameBytes.{IsShapeKept};

use crate::items::is_step_alike;
use crate::patch::Patch;
use gvdb_check::{is_in_bloom, is_in_span};
use gvdb_format::Kind;
use gvdb_read::Table;

/// Whether a table is seen to be sound if the other one is: both have as many items, and at each place one of the same
/// name, kind and hash, in good buckets; and lists have the same numbers. False says nothing, and is the answer to each
/// table that points to tables.
///
/// Where both files have one length it compares them, and of what has the same bytes it looks at the records alone. Else, and of
/// the rest, it looks at each bucket of the table, and at each record, each key and each list of both. The bytes of
/// values it passes over, as soundness does.
pub fn is_shaped_as(table: Table<'_>, sound: Table<'_>) -> bool
    ensures { IsTrue result → ∥ IsSound (region sound.entry) ∥₁ → IsSound (region table.entry) }
{
    if table.n_items() != sound.n_items() {
        return false;
    }
    let patch = Patch::of(table, sound);
    patch.has_buckets() && are_items_alike(patch)
}

/// Whether each item of a table is like that of the other one at its place.
fn are_items_alike(patch: Patch<'_>) -> bool
    requires { item_count (region patch.table) ≡ item_count (region patch.other) }
    ensures { IsTrue result → EachItem (region patch.entry.table) (IsShapeKept (region patch.entry.table) (region patch.entry.other)) }
{
    for i in 0..patch.table.n_items() {
        if !keeps_shape(patch, i) {
            return false;
        }
    }
    true
}

/// Whether item `i` is like that of the other table, by its bytes or by its parts.
#[inline(always)]
fn keeps_shape(patch: Patch<'_>, i: u32) -> bool
    requires { i < item_count (region patch.table) }
    ensures { IsTrue result → IsShapeKept (region patch.entry.table) (region patch.entry.other) i }
{
    patch.has_same_shape(i) || is_item_alike(patch.table, patch.other, i)
}

/// Whether item `i` is found by its hash, and is like that of the other table.
fn is_item_alike(table: Table<'_>, sound: Table<'_>, i: u32) -> bool
    requires { i < item_count (region table) }
    ensures { IsTrue result → IsItemAlike (region table.entry) (region sound.entry) i }
{
    is_step_alike(table, sound, i)
        && has_like_content(table, sound, i)
        && is_in_span(table.raw, i)
        && is_in_bloom(table.raw, i)
}

/// Whether item `i` of both has the same hash and kind and a valid pointer, and is a value, or a list of the same bytes.
#[inline(always)]
fn has_like_content(table: Table<'_>, sound: Table<'_>, i: u32) -> bool
    ensures { IsTrue result → HasLikeContent (region table.entry) (region sound.entry) i }
{
    let (Some(one), Some(two)) = (table.item(i), sound.item(i)) else {
        return false;
    };
    if one.hash != two.hash || one.kind != two.kind {
        return false;
    }
    match (one.bytes, two.bytes) {
        (Some(bytes), Some(same)) => has_like_bytes(one.kind, bytes, same),
        _ => false,
    }
}

/// Whether what an item of this kind points to is a value, or a list of the same bytes.
#[inline(always)]
fn has_like_bytes(kind: u8, bytes: &[u8], same: &[u8]) -> bool
    ensures { IsTrue result → HasLikeBytes kind bytes.now same.now }
{
    kind == Kind::Value.letter() || kind == Kind::List.letter() && bytes == same
}
