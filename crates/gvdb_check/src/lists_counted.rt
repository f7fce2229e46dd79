//! S10, by counting: a fast pass, which says 'each list is right', or nothing.
//!
//! It looks whether each list holds children of its item alone, and none of them twice (lists_flagged.rt). Then no child is
//! missing where all lists together hold as many numbers as there are items with a parent.
ghost use Rattle.std.specs.Prelude.{◌≡◌, ◌<◌, ℕ, IfSome, IsTrue};
ghost use Rattle.dconf_model.specs.Table.{HasBytes, item, item_count, list_kind};
ghost use Rattle.dconf_model.specs.Sound.{IsChild, KeepsAll, list_length, listed};
ghost use Rattle.dconf_model.specs.Sound.Rule.{content, lists};
ghost use Rattle.gvdb_check.specs.Counted.{HasListOnceIfAny, IsOnce, ListsOnce, found_count};
ghost use Rattle.gvdb_format.specs.Tables.{item_of, region};

use crate::lists::{is_empty_at_root_alone, lists_children_alone, lists_rising_children, numbers};
use crate::lists_flagged::is_once;
use gvdb_format::{ItemRecord, Kind, RawTable};

/// Whether the lists are seen to be right. It looks at each item once, and at the numbers of each list as `is_once`
/// does.
pub(crate) fn lists_hold_all(table: RawTable<'_>) -> bool
    requires content { KeepsAll (region table) content }
    ensures { IsTrue result → KeepsAll (region table.entry) lists }
{
    let mut left = table.n_items() as usize;
    for i in 0..table.n_items() {
        let Some(found) = found_at(table, i, table.stored(i)) else {
            return false;
        };
        let Some(fewer) = left.checked_sub(found) else {
            return false;
        };
        left = fewer;
    }
    left == 0
}

/// How many items are found by item `i`: those in its list, and itself where it has no parent. None where its list
/// isn't seen to hold children of it alone, once each, and some but at `/`.
#[inline(always)]
pub(crate) fn found_at(table: RawTable<'_>, i: u32, stored: ItemRecord) -> Option<usize>
    requires counted { i < item_count (region table) }
    requires read { item_of stored ≡ item (region table) i }
    requires valid { HasBytes (region table) i }
    ensures { IfSome result (λ n. HasListOnceIfAny (region table.entry) i × (n ≡ found_count (region table.entry) i)) }
{
    let own = usize::from(stored.parent.is_none());
    if stored.kind != Kind::List.letter() {
        return Some(own);
    }
    Some(found_in_list(table, i)? + own)
}

/// How many items the list holds. None where it isn't seen to hold children of its item alone, once each, and some
/// but at `/`.
fn found_in_list(table: RawTable<'_>, i: u32) -> Option<usize>
    requires counted { i < item_count (region table) }
    requires valid { HasBytes (region table) i }
    ensures once { IfSome result (λ _. ListsOnce (region table.entry) i) }
    ensures len { IfSome result (λ n. n ≡ list_length (region table.entry) i) }
{
    if lists_children_once(table, i) && is_empty_at_root_alone(table, i) {
        Some(numbers(table, i).len())
    } else {
        None
    }
}

/// Whether the list is seen to hold children of its item alone, once each.
#[inline(always)]
fn lists_children_once(table: RawTable<'_>, i: u32) -> bool
    requires counted { i < item_count (region table) }
    requires valid { HasBytes (region table) i }
    ensures alone { IsTrue result → (k : ℕ) → k < list_length (region table.entry) i
        → IsChild (region table.entry) i (listed (region table.entry) i k) }
    ensures once { IsTrue result → IsOnce (region table.entry) i }
{
    lists_rising_children(table, i) || lists_children_alone(table, i) && is_once(table, i)
}
