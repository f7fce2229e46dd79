//! S7, by hash: a fast pass for tables of long buckets, which says 'no two items have the same full name', or nothing.
//!
//! An item whose hash's flag isn't set yet is the first with its hash, and so with its name. The others are looked at one by one.
ghost use Rattle.std.specs.Prelude.{◌%◌, ◌≡◌, ◌<◌, ℕ, IsTrue};
ghost use Rattle.dconf_model.specs.Table.{item, item_count};
ghost use Rattle.dconf_model.specs.Searchable.{IsOnlyNamed};
ghost use Rattle.dconf_model.specs.Sound.{KeepsAll};
ghost use Rattle.dconf_model.specs.Sound.Rule.{keys, chain, hash, span, once};
ghost use Rattle.gvdb_check.specs.OnePass.{OnlyNamedInPart};
ghost use Rattle.gvdb_format.specs.Tables.{region};

use crate::flags::{FLAGS, is_set};
use crate::once::is_only_named;
use crate::one_pass::SHORT_BUCKET;
use gvdb_format::RawTable;

/// How many items a part has: few, so that hardly any two hashes share a flag.
const ITEMS_A_PART: u32 = 2_048;

/// Whether no two items are seen to have the same full name. It looks at each hash once for each 2,048 items, and at the items
/// of a bucket for each item that may have the hash of a lower one. It doesn't look where the buckets are short.
pub(crate) fn hashes_tell(table: RawTable<'_>) -> bool
    requires keys { KeepsAll (region table) keys }
    requires chain { KeepsAll (region table) chain }
    requires hash { KeepsAll (region table) hash }
    requires span { KeepsAll (region table) span }
    ensures { IsTrue result → KeepsAll (region table.entry) once }
{
    if table.n_items() / SHORT_BUCKET <= table.n_buckets() {
        return false;
    }
    let parts = table.n_items() / ITEMS_A_PART + 1;
    for part in 0..parts {
        if !part_is_once(table, part, parts) {
            return false;
        }
    }
    true
}

/// The same, of the items whose hashes are in one part.
fn part_is_once(table: RawTable<'_>, part: u32, parts: u32) -> bool
    requires keys { KeepsAll (region table) keys }
    requires chain { KeepsAll (region table) chain }
    requires hash { KeepsAll (region table) hash }
    requires span { KeepsAll (region table) span }
    requires parts { 0 < parts }
    ensures { IsTrue result → OnlyNamedInPart (region table.entry) part parts }
{
    let mut seen = [false; FLAGS];
    for i in 0..table.n_items() {
        if is_set(table.hash_at(i), part, parts, &mut seen) && !is_only_named(table, i) {
            return false;
        }
    }
    true
}
