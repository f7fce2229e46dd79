//! S4, by the parents: a name's hash goes on from its parent's.
//!
//! So a fast pass looks whether each stored hash is the parent's stored one, gone on with over the item's own key. Where
//! each is, each is that of its full name.
ghost use Rattle.std.specs.Prelude.{◌≡◌, ◌<◌, ◌↔◌, IsTrue};
ghost use Rattle.dconf_model.specs.Table.{item, item_count};
ghost use Rattle.dconf_model.specs.Searchable.{EachItem, HasGoodKey};
ghost use Rattle.dconf_model.specs.Sound.{KeepsAll};
ghost use Rattle.dconf_model.specs.Sound.Rule.{keys};
ghost use Rattle.gvdb_check.specs.HashAbove.{GoesOn, hash_above};
ghost use Rattle.gvdb_format.specs.Tables.{region};

use crate::place::key;
use gvdb_format::{HASH_OF_NOTHING, RawTable, hash_on};

/// Whether each item's hash goes on from its parent's. It looks at each byte of the keys once.
#[tactic(auto, using(crate::proofs::Below::below_next))]
pub(crate) fn hashes_go_on(table: RawTable<'_>) -> bool
    requires keys { KeepsAll (region table) keys }
    ensures { IsTrue result ↔ EachItem (region table.entry) (GoesOn (region table.entry)) }
{
    for i in 0..table.n_items() {
        if !hash_goes_on(table, i) {
            return false;
        }
    }
    true
}

/// Whether item `i`'s hash goes on from its parent's.
#[inline(always)]
pub(crate) fn hash_goes_on(table: RawTable<'_>, i: u32) -> bool
    requires good { HasGoodKey (region table) i }
    requires counted { i < item_count (region table) }
    ensures { IsTrue result ↔ GoesOn (region table.entry) i }
{
    table.hash_at(i) == hash_on(hash_above(table, i), key(table, i))
}

/// The hash of item `i`'s parent, or that of no bytes.
#[inline(always)]
fn hash_above(table: RawTable<'_>, i: u32) -> u32
    requires good { HasGoodKey (region table) i }
    requires counted { i < item_count (region table) }
    ensures { result ≡ hash_above (region table.entry) (item (region table.entry) i).parent }
{
    match table.parent_at(i) {
        Some(parent) => table.hash_at(parent),
        None => HASH_OF_NOTHING,
    }
}
