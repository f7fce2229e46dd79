//! What can be saved of a database that may not be sound: for each path its lowest value, and the locks of the lowest
//! `.locks`.
ghost use Rattle.std.specs.Prelude.{◌≡◌, ◌<◌, ◌↔◌, ◌⊎◌, ℕ, List, IfErr, IfNone, IfOk, IfSome, IsTrue, OnOk, string_bytes};
ghost use Rattle.std.specs.FinMap.{contains_key, empty};
ghost use Rattle.dconf_model.specs.Names.{HasName};
ghost use Rattle.dconf_model.specs.Opening.{IsDatabase};
ghost use Rattle.dconf_model.specs.Salvaging.{IsOpenLocks, IsSalvaged};
ghost use Rattle.dconf_model.specs.Table.{bytes_of, item, item_count, table_of, value_kind};
ghost use Rattle.gvdb_read.specs.Tables.{region};
ghost use Rattle.gvdb_write.specs.Salvaged.{HasLowestValues, HasNoShortText, IsLowestLocks, IsPointed, IsSalvageRefusal, SpellsLock, TakesLock, TakesValue};

use dconf_path::{KeyPath, LockPath, MAX_PATH_LEN};
use gvdb_format::{Kind, LOCKS, OpenFault};
use gvdb_maps::Map;
use gvdb_read::Table;
use refused::Refused;
use std::alloc::{AllocError, Global};

/// Why nothing is salvaged: the bytes are no database.
pub type SalvageFault = Refused<OpenFault>;

/// What can be saved of a database, sound or not.
///
/// The map holds at each path of a key the bytes of the lowest value of that name whose pointer is valid. It locks the
/// paths that the lowest `.locks` which opens names by values. What spells no path is passed over, and no value is
/// looked into.
///
/// An [`OpenFault`] comes where the bytes are no database, and `Memory` where a growth is refused. It walks from each item up its
/// parents, for at most 65,536 items, and compares as many paths as the map is deep. Of a path it holds one value at a time.
pub fn salvage(alloc: Global, file: &[u8]) -> Result<Map, SalvageFault>
    ensures opens { IfOk result (λ _. IsDatabase file.now) }
    ensures salvaged { IfOk result (λ map. IsSalvaged file.now map) }
    ensures fault { IfErr result (IsSalvageRefusal file.now) }
{
    let root = match Table::open(file) {
        Ok(root) => root,
        Err(fault) => return Err(SalvageFault::Fault(fault)),
    };
    let mut map = salvaged_values(alloc, root)?;
    if let Some(locks) = lowest_locks(root) {
        salvage_locks(alloc, locks, &mut map)?;
    }
    Ok(map)
}

/// The lowest value of each path of a key.
fn salvaged_values(alloc: Global, root: Table<'_>) -> Result<Map, AllocError>
    ensures values { IfOk result (HasLowestValues (region root.entry)) }
    ensures no_locks { IfOk result (λ map. map.locks ≡ empty) }
{
    let mut values = Map::new(alloc);
    // From the last item on: the lowest value of a path is the one that is set last.
    let mut i = root.n_items();
    while i > 0 {
        i -= 1;
        salvage_value(alloc, root, i, &mut values)?;
    }
    Ok(values)
}

/// Sets item `i`'s value at its name, where it is a value and its name is the path of a key.
fn salvage_value(alloc: Global, root: Table<'_>, i: u32, values: &mut Map) -> Result<(), AllocError>
    ensures takes { OnOk result (TakesValue (region root.entry) i values.old values.new) }
{
    let Some(bytes) = pointed_value(root, i) else {
        return Ok(());
    };
    let Some(name) = name_of(alloc, root, i)? else {
        return Ok(());
    };
    if KeyPath::parse(name.as_str()).is_err() {
        return Ok(());
    }
    values.insert_text(name, bytes.to_vec(alloc)?)
}

/// The bytes of item `i`, where it is a value whose pointer is valid.
fn pointed_value<'a>(table: Table<'a>, i: u32) -> Option<&'a [u8]>
    ensures some { IfSome result (λ bytes. IsPointed (region table.entry) i × (bytes.now ≡ bytes_of (region table.entry) i)) }
    ensures none { IfNone result (¬ IsPointed (region table.entry) i) }
{
    let item = table.item(i)?;
    if item.kind == Kind::Value.letter() {
        item.bytes
    } else {
        None
    }
}

/// The lowest table of locks that opens.
fn lowest_locks<'a>(root: Table<'a>) -> Option<Table<'a>>
    ensures some { IfSome result (λ locks. IsLowestLocks (region root.entry) (region locks)) }
    ensures none { IfNone result ((i : ℕ) → ¬ IsOpenLocks (region root.entry) i) }
{
    for i in 0..root.n_items() {
        if let Some(locks) = open_locks(root, i) {
            return Some(locks);
        }
    }
    None
}

/// The table of item `i`, where it is a table of locks that opens.
fn open_locks<'a>(root: Table<'a>, i: u32) -> Option<Table<'a>>
    ensures some { IfSome result (λ locks. IsOpenLocks (region root.entry) i × (region locks ≡ table_of (region root.entry) i)) }
    ensures none { IfNone result (¬ IsOpenLocks (region root.entry) i) }
{
    if root.has_name(i, LOCKS) {
        root.table_at(i)
    } else {
        None
    }
}

/// Locks the paths that a table's values name.
fn salvage_locks(alloc: Global, locks: Table<'_>, map: &mut Map) -> Result<(), AllocError>
    ensures locks { OnOk result ((path : List ℕ) → IsTrue (contains_key map.new.locks path)
        ↔ (IsTrue (contains_key map.old.locks path) ⊎ (i : ℕ) × SpellsLock (region locks.entry) i path)) }
    ensures values { OnOk result (map.new.values ≡ map.old.values) }
{
    for i in 0..locks.n_items() {
        salvage_lock(alloc, locks, i, map)?;
    }
    Ok(())
}

/// Locks item `i`'s name, where the item is a value, wherever its pointer leads, and its name is a path.
fn salvage_lock(alloc: Global, locks: Table<'_>, i: u32, map: &mut Map) -> Result<(), AllocError>
    ensures takes { OnOk result (TakesLock (region locks.entry) i map.old map.new) }
{
    if !is_value(locks, i) {
        return Ok(());
    }
    let Some(name) = name_of(alloc, locks, i)? else {
        return Ok(());
    };
    match LockPath::parse(name.as_str()) {
        Ok(path) => map.lock(path),
        Err(_) => Ok(()),
    }
}

/// Whether item `i` is a value, wherever its pointer leads.
fn is_value(table: Table<'_>, i: u32) -> bool
    ensures { IsTrue result ↔ ((i < item_count (region table.entry)) × ((item (region table.entry) i).kind ≡ value_kind)) }
{
    match table.item(i) {
        Some(item) => item.kind == Kind::Value.letter(),
        None => false,
    }
}

/// Item `i`'s full name, where it is a text that is no longer than a path.
///
/// An error comes where a growth is refused. It takes as much memory as the name has bytes.
pub fn name_of(alloc: Global, table: Table<'_>, i: u32) -> Result<Option<String>, AllocError>
    ensures some { IfOk result (λ found. IfSome found (λ name. HasName (region table.entry) i (string_bytes name))) }
    ensures none { IfOk result (λ found. IfNone found (HasNoShortText (region table.entry) i)) }
{
    let Some(len) = table.name_len(i, MAX_PATH_LEN) else {
        return Ok(None);
    };
    let mut name = Vec::new(alloc);
    name.resize(len, 0u8)?;
    if !table.write_name(i, &mut name) {
        return Ok(None);
    }
    Ok(String::from_utf8(name).ok())
}
