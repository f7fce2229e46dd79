//! S8: the kind is `v`, `L` or `H`, the pointer is valid for it, and a list's size is a multiple of 4.
ghost use Rattle.std.specs.Prelude.{◌≡◌, ◌↔◌, IsTrue};
ghost use Rattle.dconf_model.specs.Table.{item};
ghost use Rattle.dconf_model.specs.Searchable.{HasContent};
ghost use Rattle.gvdb_format.specs.Tables.{item_of, region};

use gvdb_format::{ItemRecord, Kind, NUMBER_LEN, RawTable};

/// Whether item `i` keeps the rule. It doesn't look at what the item points to.
#[inline(always)]
pub(crate) fn has_content(table: RawTable<'_>, i: u32, stored: ItemRecord) -> bool
    requires { item_of stored ≡ item (region table) i }
    ensures { IsTrue result ↔ HasContent (region table.entry) i }
{
    let Some(bytes) = table.pointed(stored) else {
        return false;
    };
    match Kind::of(stored.kind) {
        Some(Kind::Value | Kind::Table) => true,
        Some(Kind::List) => bytes.len() % NUMBER_LEN == 0,
        None => false,
    }
}
