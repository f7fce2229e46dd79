//! S7: no lower item has the same full name. It is asked item by item where the fast pass (once_by_hash.rt) doesn't say that
//! no two have the same.
ghost use Rattle.std.specs.Prelude.{◌≡◌, ◌<◌, ◌↔◌, IsTrue};
ghost use Rattle.dconf_model.specs.Table.{item_count};
ghost use Rattle.dconf_model.specs.Names.{full_name};
ghost use Rattle.dconf_model.specs.Searchable.{IsOnlyNamed};
ghost use Rattle.dconf_model.specs.Sound.{KeepsAll};
ghost use Rattle.dconf_model.specs.Sound.Rule.{keys, chain, hash, span};
ghost use Rattle.gvdb_format.specs.Tables.{region};

use crate::backwards::Backwards;
use gvdb_format::RawTable;

/// Whether no lower item has the full name of item `i`. One that has it has the same hash, and so it is in the
/// same bucket.
#[inline(always)]
pub(crate) fn is_only_named(table: RawTable<'_>, i: u32) -> bool
    requires keys { KeepsAll (region table) keys }
    requires chain { KeepsAll (region table) chain }
    requires hash { KeepsAll (region table) hash }
    requires span { KeepsAll (region table) span }
    requires counted { i < item_count (region table) }
    ensures { IsTrue result ↔ IsOnlyNamed (region table.entry) i }
{
    let (first, _) = table.span(table.hash_at(i));
    for j in first..i {
        if has_name_of(table, i, j) {
            return false;
        }
    }
    true
}

/// Whether items `i` and `j` have the same full name. Where their hashes differ, the names do.
#[inline(always)]
fn has_name_of(table: RawTable<'_>, i: u32, j: u32) -> bool
    requires keys { KeepsAll (region table) keys }
    requires chain { KeepsAll (region table) chain }
    requires hash { KeepsAll (region table) hash }
    requires first { i < item_count (region table) }
    requires second { j < item_count (region table) }
    ensures { IsTrue result ↔ (full_name (region table.entry) i ≡ full_name (region table.entry) j) }
{
    table.hash_at(i) == table.hash_at(j) && has_bytes_of_name(table, i, j)
}

/// The same, without a look at the hashes.
fn has_bytes_of_name(table: RawTable<'_>, i: u32, j: u32) -> bool
    requires keys { KeepsAll (region table) keys }
    requires chain { KeepsAll (region table) chain }
    requires first { i < item_count (region table) }
    requires second { j < item_count (region table) }
    ensures { IsTrue result ↔ (full_name (region table.entry) i ≡ full_name (region table.entry) j) }
{
    Backwards::name_of(table, i).eq(Backwards::name_of(table, j))
}
