//! What a database's file counts as that isn't sound.
ghost use Rattle.std.specs.Prelude.{◌≡◌, ◌≢◌, [], IfErr, IfOk, List, ℕ};
ghost use Rattle.dconfdb_calls.specs.Keyless.{IsKeyless};
ghost use Rattle.dconfdb_calls.specs.declared.fault.Fault.TheVariants.{Memory};
ghost use Rattle.dconf_mended.specs.declared.mended.Standing.TheVariants as Standing;
ghost use Rattle.dconf_mended.specs.Mending.{IsMended, is_told, standing_number};

use dconfdb_calls::{Fault, keyless_file, salvaged_file};
use std::alloc::Global;

/// What a file counts as.
#[derive(Clone, Copy, Debug, PartialEq, Eq)]
pub enum Standing {
    /// The sound database that it stands for: it lacks nothing, since dconf made it of no key.
    Whole,
    /// What can be saved of it.
    Saved,
    /// Nothing: it is no database, or what can be saved would be too big.
    Nothing,
}

/// What a file counts as: the bytes of a sound database, with so many values and locks that were saved; or none.
#[derive(Drop)]
pub struct Mended {
    pub standing: Standing,
    pub file: Vec<u8>,
    pub keys: usize,
    pub locks: usize,
}

/// What a file counts as that isn't sound. The only error is `Memory`, if an allocation fails.
pub fn mended_file(alloc: Global, file: &[u8]) -> Result<Mended, Fault>
    ensures mended { IfOk result (λ it. IsMended file.now it.standing it.file.items it.keys it.locks) }
    ensures fault { IfErr result (λ e. e ≡ Memory) }
{
    match keyless_file(alloc, file) {
        Ok(it) => Ok(Mended {
            standing: Standing::Whole,
            file: it,
            keys: 0,
            locks: 0,
        }),
        Err(Fault::Unsound) => saved(alloc, file),
        Err(_) => Err(Fault::Memory),
    }
}

/// What is saved of one that dconf didn't make of no key.
fn saved(alloc: Global, file: &[u8]) -> Result<Mended, Fault>
    requires { (mended : List ℕ) → ¬ IsKeyless file.now mended }
    ensures mended { IfOk result (λ it. IsMended file.now it.standing it.file.items it.keys it.locks) }
    ensures fault { IfErr result (λ e. e ≡ Memory) }
{
    match salvaged_file(alloc, file) {
        Ok(it) => Ok(Mended {
            standing: Standing::Saved,
            file: it.file,
            keys: it.keys,
            locks: it.locks,
        }),
        Err(fault) => without(alloc, fault),
    }
}

/// What it counts as where nothing is saved, by the fault.
fn without(alloc: Global, fault: Fault) -> Result<Mended, Fault>
    ensures nothing { IfOk result (λ it. (fault ≢ Memory) × (it.standing ≡ Standing.Nothing) × (it.file.items ≡ []) × (it.keys ≡ 0) × (it.locks ≡ 0)) }
    ensures fault { IfErr result (λ e. e ≡ Memory) }
{
    match fault {
        Fault::Short => Ok(nothing(alloc)),
        Fault::BadSignature => Ok(nothing(alloc)),
        Fault::BadVersion => Ok(nothing(alloc)),
        Fault::BadRoot => Ok(nothing(alloc)),
        Fault::BadTable => Ok(nothing(alloc)),
        Fault::TooBig => Ok(nothing(alloc)),
        // Of the others only a want of memory comes.
        _ => Err(Fault::Memory),
    }
}

fn nothing(alloc: Global) -> Mended
    ensures { (result.standing ≡ Standing.Nothing) × (result.file.items ≡ []) × (result.keys ≡ 0) × (result.locks ≡ 0) }
{
    Mended {
        standing: Standing::Nothing,
        file: Vec::new(alloc),
        keys: 0,
        locks: 0,
    }
}

/// The number of a standing: 0 whole, 1 saved, 2 nothing.
pub fn standing_number(standing: Standing) -> u32
    ensures { result ≡ standing_number standing }
{
    match standing {
        Standing::Whole => 0,
        Standing::Saved => 1,
        Standing::Nothing => 2,
    }
}

/// Whether what is wrong with the file is told: it lacks something.
pub fn is_told(standing: Standing) -> bool
    ensures { result ≡ is_told standing }
{
    !matches!(standing, Standing::Whole)
}
