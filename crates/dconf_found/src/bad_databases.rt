//! What counts of a database's file where a bad one is not refused.
ghost use Rattle.std.specs.Prelude.{◌≡◌, ℕ, List, IfOk, IfNone, IfSome, IsErrOf, None, Some, option_map, vec_items};
ghost use Rattle.dconf_model.specs.Databases.{IsGood, IsTooBig};
ghost use Rattle.dconf_model.specs.Salvaging.{IsSalvaged};
ghost use Rattle.dconf_model.specs.Settings.{Settings};
ghost use Rattle.dconfdb_calls.specs.Keyless.{IsKeyless};
ghost use Rattle.dconfdb_calls.specs.Numbers.{number_of};
ghost use Rattle.dconfdb_calls.specs.Opened.{IsToldOf};
ghost use Rattle.dconf_found.specs.FoundFolders.{Counts, CountsBad, IsOfNoDatabase, IsTooBigToCount, nothing_of};

use dconf_folders::FolderFault;
use dconfdb_calls::{BadFile, Fault, keyless_file, open_layer, salvaged_file};
use std::alloc::Global;

/// What was wrong with a database, and how many values and locks of it count.
#[derive(Clone, Copy)]
pub struct Loss {
    pub bad: BadFile,
    pub keys: usize,
    pub locks: usize,
}

/// What counts of a database's file: bytes of a sound database, or none. And if it was bad, what was wrong.
#[derive(Drop)]
pub struct Counting {
    pub file: Option<Vec<u8>>,
    pub loss: Option<Loss>,
}

/// What counts of a database's file: a sound database as it is; one without keys that dconf made as the sound one that it
/// stands for; of another one what the command `repair` would keep; and of what is no database nothing.
///
/// `TooBig` if what is saved would have over 4,294,967,295 bytes; `Memory` if an allocation fails.
pub fn counted(alloc: Global, file: Vec<u8>) -> Result<Counting, FolderFault>
    ensures counts { IfOk result (λ it. Counts (vec_items file) (option_map vec_items it.file) it.loss) }
    ensures too_big { IsErrOf result FolderFault.TooBig → IsTooBigToCount (vec_items file) }
    ensures device { IsErrOf result FolderFault.Device → ⊥ }
{
    match fault_of(&file) {
        Some(bad) => counted_bad(alloc, &file, bad),
        None => Ok(Counting {
            file: Some(file),
            loss: None,
        }),
    }
}

/// Why the bytes are no sound database, if they aren't.
fn fault_of(file: &[u8]) -> Option<BadFile>
    ensures bad { IfSome result (λ bad. IsToldOf (Some file.now) (number_of bad.fault) bad.unsound) }
    ensures good { IfNone result (IsGood (Some file.now)) }
{
    match open_layer(file, true) {
        Ok(_) => None,
        Err(bad) => Some(bad),
    }
}

/// What counts of a bad one.
fn counted_bad(alloc: Global, file: &[u8], bad: BadFile) -> Result<Counting, FolderFault>
    requires { IsToldOf (Some file.now) (number_of bad.fault) bad.unsound }
    ensures counts { IfOk result (λ it. CountsBad file.now (option_map vec_items it.file) it.loss) }
    ensures too_big { IsErrOf result FolderFault.TooBig → (s : Settings) × IsSalvaged file.now s × IsTooBig s }
    ensures device { IsErrOf result FolderFault.Device → ⊥ }
{
    match keyless_file(alloc, file) {
        Ok(it) => Ok(Counting {
            file: Some(it),
            loss: None,
        }),
        Err(Fault::Unsound) => salvaged(alloc, file, bad),
        Err(_) => Err(FolderFault::Memory),
    }
}

/// What counts of one that is not dconf's without keys.
fn salvaged(alloc: Global, file: &[u8], bad: BadFile) -> Result<Counting, FolderFault>
    requires bad { IsToldOf (Some file.now) (number_of bad.fault) bad.unsound }
    requires other { (mended : List ℕ) → ¬ IsKeyless file.now mended }
    ensures counts { IfOk result (λ it. CountsBad file.now (option_map vec_items it.file) it.loss) }
    ensures too_big { IsErrOf result FolderFault.TooBig → (s : Settings) × IsSalvaged file.now s × IsTooBig s }
    ensures device { IsErrOf result FolderFault.Device → ⊥ }
{
    match salvaged_file(alloc, file) {
        Ok(it) => Ok(Counting {
            file: Some(it.file),
            loss: Some(Loss {
                bad,
                keys: it.keys,
                locks: it.locks,
            }),
        }),
        Err(fault) => without(fault, bad),
    }
}

/// What counts where nothing was salvaged.
fn without(fault: Fault, bad: BadFile) -> Result<Counting, FolderFault>
    ensures counts { IfOk result (λ it. IsOfNoDatabase fault × (it.file ≡ None) × (it.loss ≡ Some (nothing_of bad))) }
    ensures too_big { IsErrOf result FolderFault.TooBig → fault ≡ Fault.TooBig }
    ensures device { IsErrOf result FolderFault.Device → ⊥ }
{
    match fault {
        Fault::Short => Ok(nothing(bad)),
        Fault::BadSignature => Ok(nothing(bad)),
        Fault::BadVersion => Ok(nothing(bad)),
        Fault::BadRoot => Ok(nothing(bad)),
        Fault::BadTable => Ok(nothing(bad)),
        Fault::TooBig => Err(FolderFault::TooBig),
        // Of the others only a want of memory comes.
        _ => Err(FolderFault::Memory),
    }
}

fn nothing(bad: BadFile) -> Counting
    ensures { (result.file ≡ None) × (result.loss ≡ Some (nothing_of bad)) }
{
    Counting {
        file: None,
        loss: Some(Loss {
            bad,
            keys: 0,
            locks: 0,
        }),
    }
}
