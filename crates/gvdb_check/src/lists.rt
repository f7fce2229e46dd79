//! S10: a list holds exactly the items whose parent it is, once each; it is empty only at `/`.
//!
//! It is asked list by list where the fast pass (lists_counted.rt) doesn't say that all are right.
ghost use Rattle.std.specs.Prelude.{◌≡◌, ◌<◌, ◌↔◌, ℕ, IsTrue, codes, length};
ghost use Rattle.dconf_model.specs.Table.{HasBytes, item_count};
ghost use Rattle.dconf_model.specs.Names.{HasName};
ghost use Rattle.dconf_model.specs.Sound.{HasListIfAny, IsChild, ListsChildren, list_length, listed};
ghost use Rattle.gvdb_check.specs.Counted.{IsOnce};
ghost use Rattle.gvdb_check.specs.ListNumbers.{AreNumbers, IsFirstAt, IsListed, Occurs};
ghost use Rattle.gvdb_format.specs.Tables.{region};

use gv_types::Steps;
use gvdb_format::{Kind, NUMBER_LEN, RawTable, number};

/// Whether item `i` keeps the rule.
pub(crate) fn has_list_if_any(table: RawTable<'_>, i: u32) -> bool
    requires counted { i < item_count (region table) }
    requires valid { HasBytes (region table) i }
    ensures { IsTrue result ↔ HasListIfAny (region table.entry) i }
{
    !table.has_kind(i, Kind::List) || lists_children(table, i)
}

/// Whether the list holds exactly the children of its item, once each, and is empty only at `/`.
fn lists_children(table: RawTable<'_>, i: u32) -> bool
    requires counted { i < item_count (region table) }
    requires valid { HasBytes (region table) i }
    ensures { IsTrue result ↔ ListsChildren (region table.entry) i }
{
    lists_children_alone(table, i)
        && lists_each_child(table, i)
        && lists_once(table, i)
        && is_empty_at_root_alone(table, i)
}

/// Whether each number in the list is a child of its item.
pub(crate) fn lists_children_alone(table: RawTable<'_>, i: u32) -> bool
    requires counted { i < item_count (region table) }
    requires valid { HasBytes (region table) i }
    ensures { IsTrue result ↔ ((k : ℕ) → k < list_length (region table.entry) i
        → IsChild (region table.entry) i (listed (region table.entry) i k)) }
{
    numbers(table, i)
        .iter()
        .all(|bytes| is_child(table, i, number(bytes)))
}

/// Whether each child of the item is in its list.
fn lists_each_child(table: RawTable<'_>, i: u32) -> bool
    requires counted { i < item_count (region table) }
    requires valid { HasBytes (region table) i }
    ensures { IsTrue result ↔ ((j : ℕ) → IsChild (region table.entry) i j → IsListed (region table.entry) i j) }
{
    for j in 0..table.n_items() {
        if is_child(table, i, j) && !is_listed(table, i, j) {
            return false;
        }
    }
    true
}

/// Whether the number is in the list.
fn is_listed(table: RawTable<'_>, i: u32, item: u32) -> bool
    requires counted { i < item_count (region table) }
    requires valid { HasBytes (region table) i }
    ensures { IsTrue result ↔ IsListed (region table.entry) i item }
{
    holds(numbers(table, i), item)
}

/// Whether no number occurs twice in the list.
pub(crate) fn lists_once(table: RawTable<'_>, i: u32) -> bool
    requires counted { i < item_count (region table) }
    requires valid { HasBytes (region table) i }
    ensures { IsTrue result ↔ ((k m : ℕ) → k < list_length (region table.entry) i
        → m < list_length (region table.entry) i
        → listed (region table.entry) i k ≡ listed (region table.entry) i m → k ≡ m) }
{
    let numbers = numbers(table, i);
    (0..numbers.len()).all(|k| is_first_at(numbers, k))
}

// ---- one list

/// Whether the numbers in the list rise, and each is a child of its item.
#[inline(always)]
pub(crate) fn lists_rising_children(table: RawTable<'_>, i: u32) -> bool
    requires counted { i < item_count (region table) }
    requires valid { HasBytes (region table) i }
    ensures alone { IsTrue result → (k : ℕ) → k < list_length (region table.entry) i
        → IsChild (region table.entry) i (listed (region table.entry) i k) }
    ensures once { IsTrue result → IsOnce (region table.entry) i }
{
    let mut least = 0usize;
    for bytes in numbers(table, i) {
        let child = number(bytes);
        if (child as usize) < least || !is_child(table, i, child) {
            return false;
        }
        least = child as usize + 1;
    }
    true
}

/// Whether the list has numbers, or is that of `/`.
pub(crate) fn is_empty_at_root_alone(table: RawTable<'_>, i: u32) -> bool
    requires counted { i < item_count (region table) }
    requires valid { HasBytes (region table) i }
    ensures { IsTrue result ↔ (list_length (region table.entry) i ≡ 0 → HasName (region table.entry) i (codes "/")) }
{
    let mut steps = Steps::new();
    !numbers(table, i).is_empty() || table.is_named(i, b"/", &mut steps)
}

/// Whether this is the number of an item whose parent is item `i`.
#[inline(always)]
fn is_child(table: RawTable<'_>, i: u32, number: u32) -> bool
    ensures { IsTrue result ↔ IsChild (region table.entry) i number }
{
    number < table.n_items() && table.parent_at(number) == Some(i)
}

/// The numbers in the list, each as its four bytes.
#[inline(always)]
pub(crate) fn numbers<'a>(table: RawTable<'a>, i: u32) -> &'a [[u8; NUMBER_LEN]]
    requires counted { i < item_count (region table) }
    requires valid { HasBytes (region table) i }
    ensures { AreNumbers (region table.entry) i result.now }
{
    let bytes = table.pointed(table.stored(i)).unwrap_or_default();
    let (numbers, _) = bytes.as_chunks();
    numbers
}

/// Whether the number is among these.
fn holds(numbers: &[[u8; NUMBER_LEN]], item: u32) -> bool
    ensures { IsTrue result ↔ Occurs item numbers.now }
{
    numbers.iter().any(|bytes| number(bytes) == item)
}

/// Whether the number at place `k` is none of those before it.
fn is_first_at(numbers: &[[u8; NUMBER_LEN]], k: usize) -> bool
    requires { k < length numbers.now }
    ensures { IsTrue result ↔ IsFirstAt numbers.now k }
{
    !holds(&numbers[..k], number(&numbers[k]))
}
