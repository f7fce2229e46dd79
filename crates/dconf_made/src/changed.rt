//! The user's database with changes, and whether that says anything new.
ghost use Rattle.std.specs.Prelude.{◌≡◌, ◌↔◌, ◌⊎◌, IfErr, IfOk, IsTrue, length};
ghost use Rattle.dconfdb_calls.specs.Changed.{IsChanged, IsNoChange};
ghost use Rattle.dconfdb_calls.specs.Seen.{layers_of};
ghost use Rattle.dconfdb_calls.specs.declared.fault.Fault.TheVariants as Fault;
ghost use Rattle.dconf_made.specs.Made.{AreMade, IsNoChangeOf, named_at};

use crate::made::are_made;
use dconf_layers::Layer;
use dconfdb_calls::{DconfdbChange, Fault, Refused, user_file};
use std::alloc::Global;

/// The bytes of a database, and whether they say no more than was there.
#[derive(Drop)]
pub struct Changed {
    pub file: Vec<u8>,
    pub is_same: bool,
}

/// Why no file comes of changes: the first fault, and the index of the change that has it. Where none has it, at `Memory` and `TooBig`,
/// that is how many changes there are.
#[derive(Clone, Copy)]
pub struct Unchanged {
    pub fault: Fault,
    pub at: usize,
}

/// What [`user_file`] makes of changes, and whether it is there already: the user's database has what each of them asks for, or `old`,
/// which is what its file holds, is the same bytes.
#[tactic(auto, using(crate::proofs::MadeLaws::named, crate::proofs::MadeLaws::fault_of_memory))]
pub fn changed_file(
    alloc: Global,
    layers: &[Layer<'_>],
    writable: bool,
    changes: &[DconfdbChange<'_>],
    old: &[u8],
) -> Result<Changed, Unchanged>
    ensures file { IfOk result (λ it. IsChanged (layers_of layers.now writable) changes.now it.file.items) }
    ensures same { IfOk result (λ it. IsTrue it.is_same ↔ (AreMade (layers_of layers.now writable) changes.now ⊎ (it.file.items ≡ old.now))) }
    ensures fault { IfErr result (λ e. IsNoChangeOf (layers_of layers.now writable) changes.now e.fault e.at) }
{
    let count = changes.len();
    match user_file(alloc, layers, writable, changes) {
        Ok(file) => compared(alloc, layers, writable, changes, old, file),
        Err(refused) => Err(counted(refused, count)),
    }
}

/// A file, and whether it is there already.
fn compared(
    alloc: Global,
    layers: &[Layer<'_>],
    writable: bool,
    changes: &[DconfdbChange<'_>],
    old: &[u8],
    file: Vec<u8>,
) -> Result<Changed, Unchanged>
    ensures file { IfOk result (λ it. it.file.items ≡ file.items) }
    ensures same { IfOk result (λ it. IsTrue it.is_same ↔ (AreMade (layers_of layers.now writable) changes.now ⊎ (it.file.items ≡ old.now))) }
    ensures fault { IfErr result (λ e. (e.fault ≡ Fault.Memory) × (e.at ≡ length changes.now)) }
{
    match are_made(alloc, layers, writable, changes) {
        Ok(are) => {
            let is_same = is_either(are, file.as_slice(), old);
            Ok(Changed { file, is_same })
        }
        Err(fault) => Err(Unchanged {
            fault,
            at: changes.len(),
        }),
    }
}

/// The same of so many changes.
fn counted(refused: Refused, count: usize) -> Unchanged
    ensures fault { result.fault ≡ refused.fault }
    ensures at { result.at ≡ named_at refused.fault refused.at count }
{
    let at = match refused.fault {
        Fault::Memory => count,
        Fault::TooBig => count,
        _ => refused.at,
    };
    Unchanged {
        fault: refused.fault,
        at,
    }
}

/// Whether that is so, or the bytes are the same.
fn is_either(are: bool, file: &[u8], old: &[u8]) -> bool
    ensures { IsTrue result ↔ (IsTrue are ⊎ (file.now ≡ old.now)) }
{
    if are {
        return true;
    }
    file == old
}
