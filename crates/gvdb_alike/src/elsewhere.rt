//! Whether another table has an item's value under the same name, wherever that stands.
ghost use Rattle.std.specs.Prelude.{◌≡◌, IsTrue};
ghost use Rattle.gvdb_read.specs.Tables.{region};
ghost use Rattle.gvdb_alike.specs.NamesAlike.{GoesByName, HasSameKey};
ghost use Rattle.gvdb_alike.specs.ValuesAlike.{HasElsewhere, value_at};

use crate::valued::has_like_value;
use gvdb_read::Table;

/// How many items of a name are looked at, from the last part up: more than in practice.
const MOST_PARTS: u32 = 64;

/// Whether another table is seen to have an item of the name of item `i`, with the same bytes if that is a value. False
/// says nothing, and is the answer where the name has more than 64 parts.
///
/// It looks at the items of the hash's bucket, and up the parents of those of the same hash.
pub fn has_elsewhere(table: Table<'_>, i: u32, other: Table<'_>) -> bool
    ensures { IsTrue result → HasElsewhere (region table.entry) i (region other.entry) }
{
    let Some(item) = table.item(i) else {
        return false;
    };
    let (first, end) = other.raw.span(item.hash);
    for j in first..end {
        if other.item(j).is_some_and(|it| it.hash == item.hash) && is_same(table, i, other, j) {
            return true;
        }
    }
    false
}

/// Whether item `j` of the other table has the name and the value of item `i`.
#[inline(always)]
fn is_same(table: Table<'_>, i: u32, other: Table<'_>, j: u32) -> bool
    ensures named { IsTrue result → GoesByName (region table.entry) i (region other.entry) j }
    ensures value { IsTrue result → value_at (region table.entry) i ≡ value_at (region other.entry) j }
{
    has_like_value(table, i, other, j) && has_same_name(table, i, other, j)
}

/// Whether both names have the same parts.
fn has_same_name(table: Table<'_>, i: u32, other: Table<'_>, j: u32) -> bool
    ensures { IsTrue result → GoesByName (region table.entry) i (region other.entry) j }
{
    let (mut at, mut there) = (i, j);
    for _ in 0..MOST_PARTS {
        let (Some(one), Some(two)) = (table.item(at), other.item(there)) else {
            return false;
        };
        if !has_same_key(table, at, other, there) {
            return false;
        }
        match (one.parent, two.parent) {
            (Some(up), Some(above)) => {
                at = up;
                there = above;
            }
            (None, None) => return true,
            _ => return false,
        }
    }
    false
}

/// Whether both items have the same key, which isn't empty.
#[inline(always)]
fn has_same_key(table: Table<'_>, i: u32, other: Table<'_>, j: u32) -> bool
    ensures { IsTrue result → HasSameKey (region table.entry) i (region other.entry) j }
{
    let (Some(one), Some(two)) = (table.item(i), other.item(j)) else {
        return false;
    };
    match (one.key, two.key) {
        (Some(key), Some(same)) => !same.is_empty() && key == same,
        _ => false,
    }
}
