//! What a read of a store that was found gives, by what its files hold.
ghost use Rattle.std.specs.Prelude.{◌≡◌, ◌≤◌, ◌++◌, List, None, Option, IfOk, IfSome, IsTrue, IsErrOf, OnErr, false, length, option_map, vec_items};
ghost use Rattle.dconf_model.specs.Folders.{Event, read_content};
ghost use Rattle.dconf_model.specs.Reads.{IsOverSize};
ghost use Rattle.dconf_found.specs.FoundFolders.{Counts, IsTooBigToCount, IsDatabaseGiven, IsLookedUp, IsProfile, IsProfileFile, IsTooBigAt, IsTooBigDatabase, IsTooBigProfile, is_nowhere, losses, losses_of, made_of};
ghost use Rattle.dconf_found.specs.declared.bad_databases.Loss.{Loss};

use crate::bad::{BadDatabase, note};
use crate::bad_databases::counted;
use crate::everyones::everyones;
use dconf_folders::{Folder, FolderFault, LARGEST_FILE};
use std::alloc::{AllocError, Global};

/// How the names of a store that was found are looked up.
#[derive(Drop)]
pub(crate) struct Lookup {
    /// The profile's file,
    pub(crate) profile: String,
    /// or else what it says.
    pub(crate) made: Option<Vec<u8>>,
    /// Whether it is that of all users, whose databases of the system are files beside it.
    pub(crate) is_everyones: bool,
    /// Whether there is a folder: else only names that start with `/` may have a file.
    pub(crate) has_folder: bool,
}

/// Reads the file of this name: the profile as it is, and of any other what counts. A database of which something is lost is added to
/// the bad ones.
pub(crate) fn look_up<F: Folder>(
    alloc: Global,
    folder: &mut F,
    lookup: &Lookup,
    bad: &mut Vec<BadDatabase>,
    name: &str,
) -> Result<Option<Vec<u8>>, FolderFault>
    ensures gives { IsTrue (F.honest folder.new) → (es : List Event) → F.past folder.old es → IfOk result (λ found.
        IsLookedUp lookup.now name.now (read_content es name.now) (option_map vec_items found) (losses bad.old.items) (losses bad.new.items)) }
    ensures too_big { IsTrue (F.honest folder.new) → (es : List Event) → F.past folder.old es → IsErrOf result FolderFault.TooBig →
        IsTooBigAt lookup.now name.now (read_content es name.now) }
    ensures fault { OnErr result (bad.new.items ≡ bad.old.items) }
    ensures size { IfOk result (λ found. IfSome found (λ v. length v.items ≤ LARGEST_FILE)) }
    ensures past { (es : List Event) → F.past folder.old es → F.past folder.new es }
    ensures honest { IsTrue (F.honest folder.new) → IsTrue (F.honest folder.old) }
    ensures turn { F.holds_turn folder.new ≡ F.holds_turn folder.old }
{
    if name == lookup.profile.as_str() {
        return read_profile(alloc, folder, lookup, name);
    }
    if is_nowhere(lookup, name) {
        return Ok(None);
    }
    read_database(alloc, folder, bad, name)
}

/// Whether there is no folder in which the name could have a file.
fn is_nowhere(lookup: &Lookup, name: &str) -> bool
    ensures { result ≡ is_nowhere lookup.now name.now }
{
    !lookup.has_folder && !name.starts_with("/")
}

/// The bytes of the profile.
fn read_profile<F: Folder>(
    alloc: Global,
    folder: &mut F,
    lookup: &Lookup,
    name: &str,
) -> Result<Option<Vec<u8>>, FolderFault>
    ensures gives { IsTrue (F.honest folder.new) → (es : List Event) → F.past folder.old es → IfOk result (λ found.
        IsProfile (made_of lookup.now) lookup.now.is_everyones (read_content es name.now) (option_map vec_items found)) }
    ensures too_big { IsTrue (F.honest folder.new) → (es : List Event) → F.past folder.old es → IsErrOf result FolderFault.TooBig →
        IsTooBigProfile (made_of lookup.now) lookup.now.is_everyones (read_content es name.now) }
    ensures size { IfOk result (λ found. IfSome found (λ v. length v.items ≤ LARGEST_FILE)) }
    ensures past { (es : List Event) → F.past folder.old es → F.past folder.new es }
    ensures honest { IsTrue (F.honest folder.new) → IsTrue (F.honest folder.old) }
    ensures turn { F.holds_turn folder.new ≡ F.holds_turn folder.old }
{
    let shown = whole_profile(alloc, folder, lookup, name)?;
    if is_too_big(&shown) {
        return Err(FolderFault::TooBig);
    }
    Ok(shown)
}

/// The same, however many they are.
fn whole_profile<F: Folder>(
    alloc: Global,
    folder: &mut F,
    lookup: &Lookup,
    name: &str,
) -> Result<Option<Vec<u8>>, FolderFault>
    ensures gives { IsTrue (F.honest folder.new) → (es : List Event) → F.past folder.old es → IfOk result (λ found.
        IsProfile (made_of lookup.now) lookup.now.is_everyones (read_content es name.now) (option_map vec_items found)) }
    ensures too_big { IsTrue (F.honest folder.new) → (es : List Event) → F.past folder.old es → IsErrOf result FolderFault.TooBig →
        (made_of lookup.now ≡ None) × IsOverSize (read_content es name.now) }
    ensures past { (es : List Event) → F.past folder.old es → F.past folder.new es }
    ensures honest { IsTrue (F.honest folder.new) → IsTrue (F.honest folder.old) }
    ensures turn { F.holds_turn folder.new ≡ F.holds_turn folder.old }
{
    match &lookup.made {
        Some(text) => Ok(Some(text.as_slice().to_vec(alloc)?)),
        None => {
            let found = folder.read(alloc, name)?;
            Ok(profile_file(alloc, lookup.is_everyones, found)?)
        }
    }
}

/// What is read of the profile's file.
fn profile_file(
    alloc: Global,
    is_everyones: bool,
    found: Option<Vec<u8>>,
) -> Result<Option<Vec<u8>>, AllocError>
    ensures { IfOk result (λ given. IsProfileFile is_everyones (option_map vec_items found) (option_map vec_items given)) }
{
    match found {
        Some(bytes) if is_everyones => Ok(Some(everyones(alloc, bytes)?)),
        found => Ok(found),
    }
}

/// What counts of a database's file.
fn read_database<F: Folder>(
    alloc: Global,
    folder: &mut F,
    bad: &mut Vec<BadDatabase>,
    name: &str,
) -> Result<Option<Vec<u8>>, FolderFault>
    ensures gives { IsTrue (F.honest folder.new) → (es : List Event) → F.past folder.old es → IfOk result (λ found. (lost : Option Loss)
        × IsDatabaseGiven (read_content es name.now) (option_map vec_items found) lost × (losses bad.new.items ≡ losses bad.old.items ++ losses_of name.now lost)) }
    ensures too_big { IsTrue (F.honest folder.new) → (es : List Event) → F.past folder.old es → IsErrOf result FolderFault.TooBig →
        IsTooBigDatabase (read_content es name.now) }
    ensures fault { OnErr result (bad.new.items ≡ bad.old.items) }
    ensures size { IfOk result (λ found. IfSome found (λ v. length v.items ≤ LARGEST_FILE)) }
    ensures past { (es : List Event) → F.past folder.old es → F.past folder.new es }
    ensures honest { IsTrue (F.honest folder.new) → IsTrue (F.honest folder.old) }
    ensures turn { F.holds_turn folder.new ≡ F.holds_turn folder.old }
{
    match folder.read(alloc, name)? {
        Some(bytes) => count(alloc, bad, name, bytes),
        None => Ok(None),
    }
}

/// What counts of the bytes, and a note if something of them is lost.
fn count(
    alloc: Global,
    bad: &mut Vec<BadDatabase>,
    name: &str,
    bytes: Vec<u8>,
) -> Result<Option<Vec<u8>>, FolderFault>
    ensures gives { IfOk result (λ found. (lost : Option Loss)
        × Counts (vec_items bytes) (option_map vec_items found) lost × (losses bad.new.items ≡ losses bad.old.items ++ losses_of name.now lost)) }
    ensures too_big { IsErrOf result FolderFault.TooBig → IsTooBigToCount (vec_items bytes) }
    ensures fault { OnErr result (bad.new.items ≡ bad.old.items) }
    ensures size { IfOk result (λ found. IfSome found (λ v. length v.items ≤ LARGEST_FILE)) }
{
    let found = counted(alloc, bytes)?;
    if is_too_big(&found.file) {
        return Err(FolderFault::TooBig);
    }
    if let Some(loss) = found.loss {
        note(alloc, bad, name, loss)?;
    }
    Ok(found.file)
}

/// Whether it has more bytes than a file that is read.
fn is_too_big(file: &Option<Vec<u8>>) -> bool
    ensures big { IsTrue result → IsOverSize (option_map vec_items file.now) }
    ensures fits { result ≡ false → IfSome file.now (λ v. length v.items ≤ LARGEST_FILE) }
{
    match file {
        Some(bytes) => bytes.len() as u64 > LARGEST_FILE,
        None => false,
    }
}
