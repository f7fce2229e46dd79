//! A database that dconf made of no key, as the sound one that it stands for.
ghost use Rattle.std.specs.Prelude.{◌≡◌, ◌≢◌, ◌↔◌, ◌+◌, ◌≤◌, ℕ, List, None, Some, IfErr, IfOk, IfSome, IsTrue, length};
ghost use Rattle.dconf_model.specs.Databases.{IsGood};
ghost use Rattle.gvdb_read.specs.Tables.{region};
ghost use Rattle.dconfdb_calls.specs.Keyless.{IsFirstRoot, IsKeyless, IsNotKeyless, IsRootItem, IsRootPlace, IsSlash, with_empty_list};
ghost use Rattle.dconfdb_calls.specs.declared.fault.Fault.TheVariants.{Memory};

use crate::fault::Fault;
use crate::opened::open_layer;
use byteorder::{ByteOrder, LittleEndian};
use gvdb_read::Table;
use std::alloc::{AllocError, Global};

/// So many items has a database of no key: `/`, and perhaps `.locks`.
const MOST_ITEMS: u32 = 2;

/// Where a file's header has the end of its root table.
const ROOT_END: usize = 20;

/// How many bytes an item has.
const ITEM_LEN: usize = 24;

/// The sound database that a file stands for which dconf made of no key: its `/` has a kind and
/// contents that dconf leaves unset, and with an empty list there it is sound.
///
/// `Unsound` if it is none such, and `Memory` if an allocation fails. A file with more items is told
/// by its header and the head of its table.
pub fn keyless_file(alloc: Global, file: &[u8]) -> Result<Vec<u8>, Fault>
    ensures mended { IfOk result (λ it. IsKeyless file.now it.items) }
    ensures fault { IfErr result (IsNotKeyless file.now) }
{
    let Some(place) = root_place(file) else {
        return Err(Fault::Unsound);
    };
    let bytes = emptied(alloc, file, place)?;
    if is_sound(bytes.as_slice()) {
        Ok(bytes)
    } else {
        Err(Fault::Unsound)
    }
}

/// Whether bytes are a sound database.
fn is_sound(bytes: &[u8]) -> bool
    ensures { IsTrue result ↔ IsGood (Some bytes.now) }
{
    match open_layer(bytes, true) {
        Ok(_) => true,
        Err(_) => false,
    }
}

/// The file with an empty list at the place of an item.
fn emptied(alloc: Global, file: &[u8], place: usize) -> Result<Vec<u8>, Fault>
    requires { place + 24 ≤ length file.now }
    ensures emptied { IfOk result (λ it. it.items ≡ with_empty_list file.now place) }
    ensures memory { IfErr result (λ e. e ≡ Memory) }
{
    match try_emptied(alloc, file, place) {
        Ok(bytes) => Ok(bytes),
        Err(_) => Err(Fault::Memory),
    }
}

/// The same, or the allocation that failed.
fn try_emptied(alloc: Global, file: &[u8], place: usize) -> Result<Vec<u8>, AllocError>
    requires { place + 24 ≤ length file.now }
    ensures { IfOk result (λ it. it.items ≡ with_empty_list file.now place) }
{
    let mut bytes = Vec::new(alloc);
    bytes.extend_from_slice(&file[..place + 14])?;
    bytes.extend_from_slice(b"L")?;
    bytes.extend_from_slice(&file[place + 15..place + 16])?;
    bytes.extend_from_slice(&[0; 8])?;
    bytes.extend_from_slice(&file[place + 24..])?;
    Ok(bytes)
}

/// Where the item of `/` starts in a database of no key.
fn root_place(file: &[u8]) -> Option<usize>
    ensures some { IfSome result (IsRootPlace file.now) }
    ensures inside { IfSome result (λ place. place + 24 ≤ length file.now) }
    ensures none { result ≡ None → (place : ℕ) → ¬ IsRootPlace file.now place }
{
    let Ok(table) = Table::open(file) else {
        return None;
    };
    let count = table.n_items();
    if count > MOST_ITEMS {
        return None;
    }
    let Some(at) = root_item(table) else {
        return None;
    };
    let end = LittleEndian::read_u32(&file[ROOT_END..ROOT_END + 4]) as usize;
    Some(end - ITEM_LEN * (count - at) as usize)
}

/// The first item that is `/`.
fn root_item(table: Table<'_>) -> Option<u32>
    ensures some { IfSome result (IsFirstRoot (region table.entry)) }
    ensures none { result ≡ None → (i : ℕ) → ¬ IsRootItem (region table.entry) i }
{
    for at in 0..table.n_items() {
        if is_root(table, at) {
            return Some(at);
        }
    }
    None
}

/// Whether an item is `/`.
fn is_root(table: Table<'_>, at: u32) -> bool
    ensures { IsTrue result ↔ IsRootItem (region table.entry) at }
{
    match table.item(at) {
        Some(item) => item.parent.is_none() && is_slash(item.key),
        None => false,
    }
}

/// Whether a key is there, and is `/`.
fn is_slash(key: Option<&[u8]>) -> bool
    ensures { IsTrue result ↔ IsSlash key.entry }
{
    match key {
        Some(key) => key == b"/".as_slice(),
        None => false,
    }
}
