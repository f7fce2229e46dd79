//! S6: the bloom words let the item's hash pass.
ghost use Rattle.std.specs.Prelude.{◌<◌, ◌↔◌, IsTrue};
ghost use Rattle.dconf_model.specs.Table.{item_count};
ghost use Rattle.dconf_model.specs.Searchable.{IsInBloom};
ghost use Rattle.gvdb_format.specs.Tables.{region};

use gvdb_format::RawTable;

/// Whether item `i` keeps the rule. It looks at the item and at a bloom word.
#[inline(always)]
pub fn is_in_bloom(table: RawTable<'_>, i: u32) -> bool
    requires { i < item_count (region table) }
    ensures { IsTrue result ↔ IsInBloom (region table.entry) i }
{
    table.passes_bloom(table.hash_at(i))
}
