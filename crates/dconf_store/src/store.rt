//! What is saved of a store after changes, and what is seen when that is opened again.
ghost use Rattle.std.specs.Prelude.{◌≡◌, [], IfErr, IfOk, IsOk, None, OnOk, length, map, string_bytes};
ghost use Rattle.refused.specs.Faults.{OfFault};
ghost use Rattle.dconf_model.specs.Changes.{saved};
ghost use Rattle.dconf_model.specs.Layers.{visible};
ghost use Rattle.dconf_model.specs.Profiles.{has_writable};
ghost use Rattle.dconf_path.specs.Paths.{directory_text, key_text};
ghost use Rattle.dconf_path.specs.Profiles.{databases_of};
ghost use Rattle.dconf_layers.specs.Verdicts.{bytes_of_file, bytes_of_files};
ghost use Rattle.dconf_store.specs.Changes.{asked_of};
ghost use Rattle.dconf_store.specs.Faults.{IsFaultOf, IsNoValue, IsRefusedAt, IsTooLarge};
ghost use Rattle.dconf_store.specs.Files.{with_first_file};
ghost use Rattle.dconf_store.specs.Seen.{AreAccepted, AreChildrenAfter, HaveChanged, IsSavedAfter, IsValueAfter};

use crate::change::Change;
use crate::fault::{StoreFault, StoreFlaw};
use dconf_engine::Engine;
use dconf_path::{DirPath, KeyPath, Profile};
use gv_tree::Tree;
use gv_view::ViewFault;
use refused::Refused;
use std::alloc::{AllocError, Global};

/// The bytes of the first database after changes, each made in turn: those of its file's values and of the changes, without
/// locks. Of each database there are the bytes of its file, or None where there is no file.
///
/// All changes are made, or none. `BadDatabase` has the least index whose bytes are no sound database; `Refused` the first
/// change that is refused, and why; `TooBig` comes where there would be over 4,294,967,295 bytes, and `Memory` where a growth
/// is refused. It checks each file, and copies each path and value of the first.
pub fn user_file_after(
    alloc: Global,
    profile: &Profile<'_>,
    files: &[Option<&[u8]>],
    changes: &[Change<'_>],
) -> Result<Vec<u8>, StoreFault>
    requires { length files.now ≡ length (databases_of profile.now) }
    ensures file { IfOk result (λ file. IsSavedAfter (bytes_of_files files.now) (has_writable (databases_of profile.now)) (asked_of changes.now) file.items) }
    ensures fault { IfErr result (OfFault (IsFaultOf (bytes_of_files files.now) (has_writable (databases_of profile.now)) (asked_of changes.now))) }
{
    let mut engine = Engine::open(alloc, profile, files).map_err(Refused::into_fault)?;
    make_all(&mut engine, changes)?;
    engine.into_saved().map_err(Refused::into_fault)
}

/// The value that is seen at a path where the changes were made, saved, and opened again: None where none is seen.
///
/// It is the value that the rows and locks of the databases, the changes, and the order of the databases give. The faults are
/// those of [`user_file_after`], so that an answer means that each database is sound and each change was accepted; `TooLarge`
/// comes of a value that is more than 128 levels deep.
pub fn value_after(
    alloc: Global,
    profile: &Profile<'_>,
    files: &[Option<&[u8]>],
    changes: &[Change<'_>],
    path: KeyPath<'_>,
) -> Result<Option<Tree>, StoreFault>
    requires { length files.now ≡ length (databases_of profile.now) }
    ensures value { IfOk result (λ v. IsValueAfter (bytes_of_files files.now) (asked_of changes.now) (key_text path.entry) v) }
    ensures none { length files.now ≡ 0 → IfOk result (λ v. v ≡ None) }
    ensures accepted { IsOk result → AreAccepted (bytes_of_files files.now) (has_writable (databases_of profile.now)) (asked_of changes.now) }
    ensures fault { IfErr result (OfFault (IsNoValue (bytes_of_files files.now) (has_writable (databases_of profile.now)) (asked_of changes.now) (key_text path.entry))) }
{
    let saved = user_file_after(alloc, profile, files, changes)?;
    let again = replaced(alloc, files, &saved)?;
    let engine = Engine::open(alloc, profile, &again).map_err(Refused::into_fault)?;
    seen(alloc, &engine, path).map_err(Refused::into_fault)
}

/// The names of what a directory has where the changes were made, saved, and opened again: a key's name, and a directory's
/// with its `/`. They are in the order of their bytes, once each.
///
/// They are the first parts of the paths that the rows of the databases and the changes name. The faults are those of
/// [`user_file_after`].
pub fn children_after(
    alloc: Global,
    profile: &Profile<'_>,
    files: &[Option<&[u8]>],
    changes: &[Change<'_>],
    directory: DirPath<'_>,
) -> Result<Vec<String>, StoreFault>
    requires { length files.now ≡ length (databases_of profile.now) }
    ensures names { IfOk result (λ names. AreChildrenAfter (bytes_of_files files.now) (asked_of changes.now) (directory_text directory.entry) (map string_bytes names.items)) }
    ensures none { length files.now ≡ 0 → IfOk result (λ names. names.items ≡ []) }
    ensures accepted { IsOk result → AreAccepted (bytes_of_files files.now) (has_writable (databases_of profile.now)) (asked_of changes.now) }
    ensures fault { IfErr result (OfFault (IsFaultOf (bytes_of_files files.now) (has_writable (databases_of profile.now)) (asked_of changes.now))) }
{
    let file = user_file_after(alloc, profile, files, changes)?;
    let again = replaced(alloc, files, &file)?;
    let engine = Engine::open(alloc, profile, &again).map_err(Refused::into_fault)?;
    Ok(engine.list(alloc, directory)?)
}

/// Makes each change in turn, up to the first that is refused.
fn make_all(engine: &mut Engine<'_>, changes: &[Change<'_>]) -> Result<(), StoreFault>
    ensures made { OnOk result (HaveChanged engine.old (asked_of changes.now) engine.new) }
    ensures fault { IfErr result (OfFault (IsRefusedAt engine.old (asked_of changes.now))) }
{
    for (i, change) in changes.iter().enumerate() {
        match change.make(engine) {
            Ok(()) => {}
            Err(Refused::Fault(flaw)) => return Err(StoreFault::Fault(StoreFlaw::Refused(i, flaw))),
            Err(Refused::Memory) => return Err(StoreFault::Memory),
        }
    }
    Ok(())
}

/// The same files, but that the first has these bytes.
fn replaced<'a, 'f: 'a>(
    alloc: Global,
    files: &[Option<&'f [u8]>],
    first: &'a [u8],
) -> Result<Vec<Option<&'a [u8]>>, AllocError>
    ensures { IfOk result (λ again. bytes_of_files again.items ≡ with_first_file first.now (bytes_of_files files.now)) }
{
    let mut again = Vec::new(alloc);
    let Some((_, others)) = files.split_first() else {
        return Ok(again);
    };
    again.push(Some(first))?;
    for file in others {
        again.push(shortened(*file))?;
    }
    Ok(again)
}

/// The value that is seen at a path, if there is one.
fn seen(alloc: Global, engine: &Engine<'_>, path: KeyPath<'_>) -> Result<Option<Tree>, ViewFault>
    ensures value { IfOk result (λ v. v ≡ visible engine.now (key_text path.entry)) }
    ensures fault { IfErr result (OfFault (λ _. IsTooLarge (visible engine.now (key_text path.entry)))) }
{
    match engine.read(path) {
        Some(view) => Ok(Some(view.to_tree(alloc)?)),
        None => Ok(None),
    }
}

/// The same bytes, lent for a shorter time.
fn shortened<'a, 'f: 'a>(file: Option<&'f [u8]>) -> Option<&'a [u8]>
    ensures { bytes_of_file result ≡ bytes_of_file file.entry }
{
    match file {
        Some(bytes) => Some(bytes),
        None => None,
    }
}
