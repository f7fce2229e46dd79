//! Maps that are put together by each call, written, and read back. What is written, byte for byte, is in tests/program.d.
use dconf_path::{KeyPath, LockPath};
use gvdb_read::Table;
use gvdb_write::{Map, MapBuilder, salvage, write};
use std::alloc::{AllocError, Global};
use std::test::Fail;

/// The number 5 as a serialised `v`.
const FIVE: &[u8] = b"\x05\0\0\0\0i";

/// Puts a value, another one at the same path, which counts, and a lock into a map.
fn fill(map: &mut Map, path: KeyPath<'_>, lock: LockPath<'_>) -> Result<(), AllocError> {
    map.insert(path, b"\x06\0b")?;
    map.insert(path, FIVE)?;
    map.lock(lock)
}

/// Whether a map has the 5 at a path, and a lock, and no more.
fn has_five(map: &Map, path: KeyPath<'_>, lock: LockPath<'_>) -> bool {
    let key = match map.keys().next() {
        Some(key) => key.as_str() == path.as_str(),
        None => false,
    };
    let is_first = match map.locks().next() {
        Some(first) => first.as_str() == lock.as_str(),
        None => false,
    };
    key && is_first
        && map.get(path) == Some(FIVE)
        && map.is_locked(lock)
        && (map.key_count(), map.lock_count()) == (1, 1)
}

/// Whether a file is sound, and a directory may be locked in it.
fn locks_a_directory(file: &[u8]) -> bool {
    match Table::open(file) {
        Ok(table) => match table.table(".locks") {
            Some(locks) => table.check().is_ok() && locks.has_directory_value(),
            None => false,
        },
        Err(_) => false,
    }
}

/// Whether a map has the 5 and a lock, and what is salvaged of the database that it is written to has them, too.
fn is_written(
    alloc: Global,
    map: &Map,
    path: KeyPath<'_>,
    lock: LockPath<'_>,
) -> Result<bool, Fail> {
    let file = write(alloc, map)?;
    let kept = salvage(alloc, &file)?;
    Ok(has_five(map, path, lock) && has_five(&kept, path, lock) && locks_a_directory(&file))
}

/// Puts a value among those that a map is built of. Of one path the last counts.
fn add(
    alloc: Global,
    values: &mut MapBuilder,
    path: KeyPath<'_>,
    value: &[u8],
) -> Result<(), AllocError> {
    values.insert_text(
        String::from_str(alloc, path.as_str())?,
        value.to_vec(alloc)?,
    )
}

/// Whether what is written of values in no order has the last of each path, and the lock.
fn is_sorted(
    alloc: Global,
    first: KeyPath<'_>,
    last: KeyPath<'_>,
    lock: LockPath<'_>,
) -> Result<bool, Fail> {
    let mut values = MapBuilder::new(alloc);
    add(alloc, &mut values, last, FIVE)?;
    add(alloc, &mut values, first, b"\x06\0b")?;
    add(alloc, &mut values, first, FIVE)?;
    values.lock(lock)?;
    let map = salvage(alloc, &values.write()?)?;
    Ok(
        map.get(first) == Some(FIVE)
            && map.get(last) == Some(FIVE)
            && (map.key_count(), map.lock_count()) == (2, 1),
    )
}

#[test]
fn maps_are_written_and_read_back(rt: HostRuntime) -> Result<(), Fail> {
    let alloc = rt.alloc();
    let (first, last) = (KeyPath::parse("/a/k")?, KeyPath::parse("/b")?);
    let lock = LockPath::parse("/a/")?;
    assert!(rt; is_sorted(alloc, first, last, lock)?);
    let mut map = Map::new(alloc);
    fill(&mut map, last, lock)?;
    assert!(rt; is_written(alloc, &map, last, lock)?);
    Ok(())
}
