//! The calls of a folder, and what the names stand for after them.
ghost use Rattle.std.specs.Prelude.{◌≡◌, ◌≤◌, ◌∷◌, IfOk, IfSome, OnOk, OnErr, length};
ghost use Rattle.dconf_model.specs.Folders.{files_made, file_of, content, is_file, is_synced};
ghost use Rattle.dconf_model.specs.Folders.Event.{append, link, rename};
ghost use Rattle.dconf_folders.specs.Asides.{is_none_or};
ghost use Rattle.dconf_folders.specs.MemoryFolders.{event_of, events_of};
ghost use Rattle.dconf_folders.specs.Crashes.{was_named};

use std::alloc::{AllocError, Global};

/// A call of a folder in memory that changed something, with its names and bytes.
#[derive(Drop)]
pub(crate) enum Call {
    Create(String),
    Append(String, Vec<u8>),
    Sync(String),
    /// An append or a sync that failed.
    Touch(String),
    Rename(String, String),
    Remove(String),
    SyncFolder,
    Link(String, String),
}

/// How many files were made.
pub(crate) fn files_made(calls: &[Call]) -> usize
    ensures is { result ≡ files_made (events_of calls.now) }
    ensures bound { result ≤ length calls.now }
{
    let [earlier @ .., last] = calls else {
        return 0;
    };
    let before = files_made(earlier);
    match last {
        Call::Create(_) => before + 1,
        Call::Append(_, _) => before,
        Call::Sync(_) => before,
        Call::Touch(_) => before,
        Call::Rename(_, _) => before,
        Call::Remove(_) => before,
        Call::SyncFolder => before,
        Call::Link(_, _) => before,
    }
}

/// The file that a name stands for: how many were made before it.
pub(crate) fn file_of(calls: &[Call], name: &str) -> Option<usize>
    ensures { result ≡ file_of (events_of calls.now) name.now }
{
    let [earlier @ .., last] = calls else {
        return None;
    };
    match last {
        Call::Create(made) => {
            if name == made.as_str() {
                return Some(files_made(earlier));
            }
            file_of(earlier, name)
        }
        Call::Rename(from, to) => {
            if name == to.as_str() {
                return file_of(earlier, from.as_str());
            }
            if name == from.as_str() {
                return None;
            }
            file_of(earlier, name)
        }
        Call::Remove(gone) => {
            if name == gone.as_str() {
                return None;
            }
            file_of(earlier, name)
        }
        Call::Append(_, _) => file_of(earlier, name),
        Call::Sync(_) => file_of(earlier, name),
        Call::Touch(_) => file_of(earlier, name),
        Call::SyncFolder => file_of(earlier, name),
        Call::Link(from, to) => {
            if name == to.as_str() {
                return file_of(earlier, from.as_str());
            }
            file_of(earlier, name)
        }
    }
}

/// What a file holds.
pub(crate) fn content(alloc: Global, calls: &[Call], file: usize) -> Result<Vec<u8>, AllocError>
    ensures { IfOk result (λ bytes. bytes.items ≡ content (events_of calls.now) file) }
{
    let [earlier @ .., last] = calls else {
        return Ok(Vec::new(alloc));
    };
    let mut bytes = content(alloc, earlier, file)?;
    match last {
        Call::Append(name, more) => {
            if is_file(file_of(earlier, name.as_str()), file) {
                bytes.extend_from_slice(more.as_slice())?;
                return Ok(bytes);
            }
            Ok(bytes)
        }
        Call::Create(_) => Ok(bytes),
        Call::Rename(_, _) => Ok(bytes),
        Call::Remove(_) => Ok(bytes),
        Call::Sync(_) => Ok(bytes),
        Call::Touch(_) => Ok(bytes),
        Call::SyncFolder => Ok(bytes),
        Call::Link(_, _) => Ok(bytes),
    }
}

fn is_file(found: Option<usize>, file: usize) -> bool
    ensures { result ≡ is_file found file }
{
    match found {
        Some(other) => other == file,
        None => false,
    }
}

/// Whether the second file is none, or the first one.
pub(crate) fn is_none_or(file: Option<usize>, other: Option<usize>) -> bool
    ensures { result ≡ is_none_or file other }
{
    match (file, other) {
        (_, None) => true,
        (None, Some(_)) => false,
        (Some(file), Some(other)) => file == other,
    }
}

/// Whether all bytes of a file are synced.
pub(crate) fn is_synced(calls: &[Call], file: usize) -> bool
    ensures { result ≡ is_synced (events_of calls.now) file }
{
    let [earlier @ .., last] = calls else {
        return true;
    };
    match last {
        Call::Append(name, _) => {
            if is_file(file_of(earlier, name.as_str()), file) {
                return false;
            }
            is_synced(earlier, file)
        }
        Call::Touch(name) => {
            if is_file(file_of(earlier, name.as_str()), file) {
                return false;
            }
            is_synced(earlier, file)
        }
        Call::Sync(name) => {
            if is_file(file_of(earlier, name.as_str()), file) {
                return true;
            }
            is_synced(earlier, file)
        }
        Call::Create(_) => is_synced(earlier, file),
        Call::Rename(_, _) => is_synced(earlier, file),
        Call::Remove(_) => is_synced(earlier, file),
        Call::SyncFolder => is_synced(earlier, file),
        Call::Link(_, _) => is_synced(earlier, file),
    }
}

/// Whether a file was made under a name, or got it.
pub(crate) fn was_named(calls: &[Call], name: &str) -> bool
    ensures { result ≡ was_named (events_of calls.now) name.now }
{
    let [earlier @ .., last] = calls else {
        return false;
    };
    match last {
        Call::Create(made) => {
            if name == made.as_str() {
                return true;
            }
            was_named(earlier, name)
        }
        Call::Rename(_, to) => {
            if name == to.as_str() {
                return true;
            }
            was_named(earlier, name)
        }
        Call::Remove(_) => was_named(earlier, name),
        Call::Append(_, _) => was_named(earlier, name),
        Call::Sync(_) => was_named(earlier, name),
        Call::Touch(_) => was_named(earlier, name),
        Call::SyncFolder => was_named(earlier, name),
        Call::Link(_, to) => {
            if name == to.as_str() {
                return true;
            }
            was_named(earlier, name)
        }
    }
}

/// Adds a call. Where it fails the calls are as they were.
#[tactic(auto, using(crate::proofs::CallLemmas::events_of_push))]
pub(crate) fn push(calls: &mut Vec<Call>, call: Call) -> Result<(), AllocError>
    ensures ok { OnOk result (events_of calls.new.items ≡ event_of call ∷ events_of calls.old.items) }
    ensures err { OnErr result (calls.new.items ≡ calls.old.items) }
{
    calls.push(call)?;
    Ok(())
}

/// The call to append, where there is memory for it.
pub(crate) fn append_call(alloc: Global, name: &str, bytes: &[u8]) -> Option<Call>
    ensures { IfSome result (λ k. event_of k ≡ append name.now bytes.now) }
{
    let name = String::from_str(alloc, name).ok()?;
    Some(Call::Append(name, bytes.to_vec(alloc).ok()?))
}

/// The call to rename, where there is memory for it.
pub(crate) fn rename_call(alloc: Global, from: &str, to: &str) -> Option<Call>
    ensures { IfSome result (λ k. event_of k ≡ rename from.now to.now) }
{
    let from = String::from_str(alloc, from).ok()?;
    Some(Call::Rename(from, String::from_str(alloc, to).ok()?))
}

/// The call to give a file another name, where there is memory for it.
pub(crate) fn link_call(alloc: Global, from: &str, to: &str) -> Option<Call>
    ensures { IfSome result (λ k. event_of k ≡ link from.now to.now) }
{
    let from = String::from_str(alloc, from).ok()?;
    Some(Call::Link(from, String::from_str(alloc, to).ok()?))
}
