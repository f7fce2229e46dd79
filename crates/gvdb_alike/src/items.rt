//! Which items of two tables of the same names have other values.
ghost use Rattle.std.specs.Prelude.{◌≡◌, ◌<◌, IfSome, IsSome, IsTrue};
ghost use Rattle.dconf_model.specs.Searchable.{EachItem};
ghost use Rattle.dconf_model.specs.Table.{item_count};
ghost use Rattle.gvdb_read.specs.Tables.{region};
ghost use Rattle.gvdb_alike.specs.NamesAlike.{AreNamedAlike, AreStepsAlike};
ghost use Rattle.gvdb_alike.specs.ValuesAlike.{AreAlikeOutside, value_at};

use crate::patch::Patch;
use crate::valued::has_like_value;
use gvdb_read::Table;

/// The items from `first` up to `end`.
#[derive(Clone, Copy)]
pub struct ItemSpan {
    pub first: u32,
    pub end: u32,
}

/// The items outside of which two tables, whose items have the same names, each at its place, have values of the same bytes,
/// or no values both times. None says nothing: the same names may be there by other keys and parents.
///
/// Where both files have one length it compares them, and of what has the same bytes it looks at the records alone. Else, and of
/// the rest, it looks at the key, the parent and the value of each item.
pub fn differing_items(table: Table<'_>, other: Table<'_>) -> Option<ItemSpan>
    ensures named { IsSome result → AreNamedAlike (region table.entry) (region other.entry) }
    ensures alike { IfSome result (λ span. AreAlikeOutside (region table.entry) (region other.entry) span.first span.end) }
{
    if table.n_items() != other.n_items() {
        return None;
    }
    items_of(Patch::of(table, other))
}

/// The same, of tables with as many items.
fn items_of(patch: Patch<'_>) -> Option<ItemSpan>
    ensures steps { IsSome result → EachItem (region patch.entry.table) (AreStepsAlike (region patch.entry.table) (region patch.entry.other)) }
    ensures alike { IfSome result (λ span. AreAlikeOutside (region patch.entry.table) (region patch.entry.other) span.first span.end) }
{
    let mut first = patch.table.n_items();
    let mut end = 0;
    for i in 0..patch.table.n_items() {
        if !has_like_step(patch, i) {
            return None;
        }
        if has_like_value_at(patch, i) {
            continue;
        }
        first = first.min(i);
        end = i + 1;
    }
    Some(ItemSpan {
        first: first.min(end),
        end,
    })
}

/// Whether item `i` of both has the same key and the same parent.
#[inline(always)]
fn has_like_step(patch: Patch<'_>, i: u32) -> bool
    requires { i < item_count (region patch.table) }
    ensures { IsTrue result → AreStepsAlike (region patch.entry.table) (region patch.entry.other) i }
{
    patch.has_same_key(i) || is_step_alike(patch.table, patch.other, i)
}

/// Whether item `i` of both is a value of the same bytes, or none both times.
#[inline(always)]
fn has_like_value_at(patch: Patch<'_>, i: u32) -> bool
    requires { i < item_count (region patch.table) }
    ensures { IsTrue result → value_at (region patch.entry.table) i ≡ value_at (region patch.entry.other) i }
{
    patch.has_same_value(i) || is_value_alike(patch, i)
}

/// The same by the values alone. Few items are asked so, and in the loop over all of them it would cost registers.
#[inline(never)]
fn is_value_alike(patch: Patch<'_>, i: u32) -> bool
    ensures { IsTrue result → value_at (region patch.entry.table) i ≡ value_at (region patch.entry.other) i }
{
    has_like_value(patch.table, i, patch.other, i)
}

/// Whether item `i` of both has the same key and the same parent. One whose key doesn't lie in the file has not.
pub(crate) fn is_step_alike(table: Table<'_>, other: Table<'_>, i: u32) -> bool
    ensures { IsTrue result → AreStepsAlike (region table.entry) (region other.entry) i }
{
    let (Some(one), Some(two)) = (table.item(i), other.item(i)) else {
        return false;
    };
    match (one.key, two.key) {
        (Some(key), Some(same)) => one.parent == two.parent && key == same,
        _ => false,
    }
}
