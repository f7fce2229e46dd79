//! S5: the item lies among those of its hash's bucket.
ghost use Rattle.std.specs.Prelude.{◌<◌, ◌↔◌, IsTrue};
ghost use Rattle.dconf_model.specs.Table.{item_count};
ghost use Rattle.dconf_model.specs.Searchable.{IsInSpan};
ghost use Rattle.gvdb_format.specs.Tables.{region};

use gvdb_format::RawTable;

/// Whether item `i` keeps the rule. It looks at the item and at its bucket.
#[inline(always)]
pub fn is_in_span(table: RawTable<'_>, i: u32) -> bool
    requires { i < item_count (region table) }
    ensures { IsTrue result ↔ IsInSpan (region table.entry) i }
{
    let (first, end) = table.span(table.hash_at(i));
    (first..end).contains(&i)
}
