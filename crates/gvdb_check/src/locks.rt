//! S11: `.locks` is a table of locks, which keeps S1 to S8.
ghost use Rattle.std.specs.Prelude.{◌≡◌, ◌<◌, ◌↔◌, IsTrue};
ghost use Rattle.dconf_model.specs.Table.{item, item_count, table_kind, table_of};
ghost use Rattle.dconf_model.specs.Searchable.{EachItem};
ghost use Rattle.dconf_model.specs.Sound.{HasLocksIfAny, IsLock, IsLockTable, KeepsAll};
ghost use Rattle.dconf_model.specs.Sound.Rule.{keys, place};
ghost use Rattle.gvdb_format.specs.Tables.{item_of, region};

use crate::place::key;
use crate::rules::is_searchable;
use gvdb_format::{ItemRecord, Kind, LOCKS, RawTable};

/// Whether item `i` keeps the rule. Of an item that is no table it looks at the kind alone, of one that is at no more
/// than the last seven bytes of its name. It checks the table of locks where it comes upon it.
pub(crate) fn has_locks_if_any(table: RawTable<'_>, i: u32) -> bool
    requires place { KeepsAll (region table) place }
    requires counted { i < item_count (region table) }
    ensures { IsTrue result ↔ HasLocksIfAny (region table.entry) i }
{
    !table.has_kind(i, Kind::Table) || has_locks_if_named(table, i)
}

/// The same, of a table.
fn has_locks_if_named(table: RawTable<'_>, i: u32) -> bool
    requires counted { i < item_count (region table) }
    requires of_kind { (item (region table) i).kind ≡ table_kind }
    ensures { IsTrue result ↔ HasLocksIfAny (region table.entry) i }
{
    !table.has_name(i, LOCKS) || points_to_locks(table, i)
}

/// Whether item `i`, if it is a table, is a sound table of locks.
#[inline(always)]
pub(crate) fn has_locks_if_table(table: RawTable<'_>, i: u32, stored: ItemRecord) -> bool
    requires counted { i < item_count (region table) }
    requires read { item_of stored ≡ item (region table) i }
    ensures { IsTrue result → (item (region table.entry) i).kind ≡ table_kind → IsLockTable (table_of (region table.entry) i) }
{
    stored.kind != Kind::Table.letter() || points_to_locks(table, i)
}

/// Whether item `i`, which is a table, points to a sound table of locks. It is kept out of the loops over all items.
#[inline(never)]
fn points_to_locks(table: RawTable<'_>, i: u32) -> bool
    requires counted { i < item_count (region table) }
    requires of_kind { (item (region table) i).kind ≡ table_kind }
    ensures { IsTrue result ↔ IsLockTable (table_of (region table.entry) i) }
{
    match table.table_at(i) {
        Some(locks) => is_lock_table(locks),
        None => false,
    }
}

/// Whether the table keeps S1 to S8 and holds locks.
fn is_lock_table(table: RawTable<'_>) -> bool
    ensures { IsTrue result ↔ IsLockTable (region table.entry) }
{
    is_searchable(table) && holds_locks(table)
}

/// Whether each item is a lock.
fn holds_locks(table: RawTable<'_>) -> bool
    requires keys { KeepsAll (region table) keys }
    ensures { IsTrue result ↔ EachItem (region table.entry) (IsLock (region table.entry)) }
{
    for i in 0..table.n_items() {
        if !is_lock(table, i) {
            return false;
        }
    }
    true
}

/// Whether the item is a value without parent whose key is a whole name.
fn is_lock(table: RawTable<'_>, i: u32) -> bool
    requires keys { KeepsAll (region table) keys }
    requires counted { i < item_count (region table) }
    ensures { IsTrue result ↔ IsLock (region table.entry) i }
{
    table.has_kind(i, Kind::Value)
        && table.parent_at(i).is_none()
        && key(table, i).starts_with(b"/")
}
