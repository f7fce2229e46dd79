//! Whether two items are values of the same bytes.
ghost use Rattle.std.specs.Prelude.{◌≡◌, IsTrue};
ghost use Rattle.gvdb_read.specs.Tables.{region};
ghost use Rattle.gvdb_alike.specs.ValuesAlike.{value_at};

use gvdb_format::Kind;
use gvdb_read::Table;

/// Whether item `i` of a table and item `j` of the other one are values of the same bytes, or both are none.
#[inline(always)]
pub(crate) fn has_like_value(table: Table<'_>, i: u32, other: Table<'_>, j: u32) -> bool
    ensures { IsTrue result → value_at (region table.entry) i ≡ value_at (region other.entry) j }
{
    let (Some(one), Some(two)) = (table.item(i), other.item(j)) else {
        return false;
    };
    let value = Kind::Value.letter();
    if one.kind != value || two.kind != value {
        return one.kind != value && two.kind != value;
    }
    match (one.bytes, two.bytes) {
        (Some(bytes), Some(same)) => bytes == same,
        _ => false,
    }
}
