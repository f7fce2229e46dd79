//! The user's database with changes.
ghost use Rattle.std.specs.Prelude.{◌≡◌, ◌↔◌, IfErr, IfOk, IsTrue, OnErr, OnOk, Ok, false};
ghost use Rattle.gv_model.specs.Normal.{IsNormal};
ghost use Rattle.gv_model.specs.Printed.{is_too_large};
ghost use Rattle.gv_model.specs.TypeText.{type_at};
ghost use Rattle.gv_view.specs.Views.{value, view_bytes, view_ty};
ghost use Rattle.dconf_model.specs.Changes.{apply, Change.set_value};
ghost use Rattle.dconf_path.specs.Paths.{key_text};
ghost use Rattle.dconf_model.specs.Databases.{IsDatabaseOf};
ghost use Rattle.dconf_model.specs.Stores.{IsLimitedValue, IsWholeChange};
ghost use Rattle.dconfdb_calls.specs.Changed.{AreMadeInTurn, IsBadValue, IsChanged, IsNoChange, IsRefusedFor, IsSetInVain, SetsNormal, at_of, change_meant, with_fault};
ghost use Rattle.dconfdb_calls.specs.Seen.{layers_of};

use crate::fault::Fault;
use crate::given::{directory_path, key_path, view_of};
use dconf_engine::{ChangeFault, ChangeFlaw, Engine};
use dconf_layers::Layer;
use dconf_path::KeyPath;
use gv_normal::is_normal;
use gv_view::{TooLarge, View, ViewFault};
use gvdb_write::{TooBig, WriteFault};
use std::alloc::Global;

/// A change: sets the value of a key (`sets`), or takes the user's value away. Where it sets
/// nothing, a path that ends in `/` is a directory: the user's values of all keys below it go,
/// except those that are locked.
#[repr(C)]
#[derive(Clone, Copy)]
pub struct DconfdbChange<'a> {
    pub path: &'a [u8],
    pub value: &'a [u8],
    pub type_text: &'a [u8],
    pub sets: bool,
}

/// Why no file comes of changes: the first fault, and the index of the change that has it. It is 0
/// if no change is at fault: at `Memory` and `TooBig`.
#[derive(Clone, Copy)]
pub struct Refused {
    pub fault: Fault,
    pub at: usize,
}

impl Refused {
    /// A fault that is no change's.
    fn of_none(fault: Fault) -> Refused
        ensures fault { result.fault ≡ fault }
        ensures at { result.at ≡ 0 }
    {
        Refused { fault, at: 0 }
    }

    /// The fault of the change of this index, unless an allocation failed.
    fn of_change(fault: Fault, at: usize) -> Refused
        ensures fault { result.fault ≡ fault }
        ensures at { result.at ≡ at_of fault at }
    {
        match fault {
            Fault::Memory => Refused::of_none(fault),
            _ => Refused { fault, at },
        }
    }
}

/// The bytes of the first layer's database after all changes, each made in turn, without locks.
///
/// All changes are made, or none. `BadPath` if a change's path is not a key's, or, where it sets
/// nothing, a directory's; `BadType` if the type of a value that is set is none; `BadValue` if its
/// bytes are not in normal form at that; `NotWritable` if the first layer is not the user's
/// (`writable`); `Locked`; `TooLarge` if a value is nested too deep or too long; `TooBig` if the file
/// would have over 4,294,967,295 bytes; `Memory` if an allocation fails. It copies each path and
/// value of the first layer.
pub fn user_file(
    alloc: Global,
    layers: &[Layer<'_>],
    writable: bool,
    changes: &[DconfdbChange<'_>],
) -> Result<Vec<u8>, Refused>
    ensures file { IfOk result (λ file. IsChanged (layers_of layers.now writable) changes.now file.items) }
    ensures fault { IfErr result (λ e. IsNoChange (layers_of layers.now writable) changes.now e.fault e.at) }
{
    let Ok(mut engine) = Engine::of_layers(alloc, writable, layers) else {
        return Err(Refused::of_none(Fault::Memory));
    };
    make_all(alloc, &mut engine, changes)?;
    match engine.into_saved() {
        Ok(file) => Ok(file),
        Err(WriteFault::Fault(TooBig)) => Err(Refused::of_none(Fault::TooBig)),
        Err(WriteFault::Memory) => Err(Refused::of_none(Fault::Memory)),
    }
}

/// Makes each change in turn, up to the first that is refused.
fn make_all(
    alloc: Global,
    engine: &mut Engine<'_>,
    changes: &[DconfdbChange<'_>],
) -> Result<(), Refused>
    ensures made { OnOk result (AreMadeInTurn changes.now engine.old engine.new) }
    ensures fault { IfErr result (λ e. IsNoChange engine.old changes.now e.fault e.at) }
{
    for at in 0..changes.len() {
        if let Err(fault) = changes[at].make(alloc, engine) {
            return Err(Refused::of_change(fault, at));
        }
    }
    Ok(())
}

impl DconfdbChange<'_> {
    /// Makes the change, or leaves the engine as it was.
    fn make(self, alloc: Global, engine: &mut Engine<'_>) -> Result<(), Fault>
        ensures ok { OnOk result (apply engine.old (change_meant self.entry) ≡ Ok engine.new) }
        ensures whole { OnOk result (IsWholeChange (change_meant self.entry)) }
        ensures normal { OnOk result (SetsNormal self.entry) }
        ensures fault { IfErr result (IsRefusedFor engine.old self.entry) }
    {
        if !self.sets && self.path.ends_with(b"/") {
            return match directory_path(self.path) {
                Some(directory) => or_fault(engine.reset_dir(directory)),
                None => Err(Fault::BadPath),
            };
        }
        let Some(path) = key_path(self.path) else {
            return Err(Fault::BadPath);
        };
        if !self.sets {
            return or_fault(engine.reset(path));
        }
        let Some(value) = view_of(self.type_text, self.value) else {
            return Err(Fault::BadType);
        };
        if is_bad(value) {
            return Err(Fault::BadValue);
        }
        set(alloc, path, value, engine)
    }
}

/// Whether bytes are not those that are written for their value, and that is not too deep to be
/// told: it is too large then.
fn is_bad(view: View<'_>) -> bool
    ensures bad { IsTrue result → IsBadValue (view_ty view.entry) (view_bytes view.entry) }
    ensures good { result ≡ false → is_too_large (value view.entry) ≡ false → IsNormal (view_ty view.entry) (view_bytes view.entry) }
{
    if is_normal(view) {
        return false;
    }
    !view.is_too_large()
}

/// Sets a key, or leaves the engine as it was.
fn set(
    alloc: Global,
    path: KeyPath<'_>,
    view: View<'_>,
    engine: &mut Engine<'_>,
) -> Result<(), Fault>
    ensures ok { OnOk result (apply engine.old (set_value (key_text path.entry) (value view.entry)) ≡ Ok engine.new) }
    ensures whole { OnOk result (IsLimitedValue (value view.entry)) }
    ensures shallow { OnOk result (is_too_large (value view.entry) ≡ false) }
    ensures fault { IfErr result (IsSetInVain engine.old (key_text path.entry) (value view.entry)) }
{
    match view.to_tree(alloc) {
        Ok(tree) => or_fault(engine.write(path, &tree)),
        Err(ViewFault::Fault(TooLarge)) => Err(Fault::TooLarge),
        Err(ViewFault::Memory) => Err(Fault::Memory),
    }
}

/// Why a change is refused, if it is.
fn or_fault(made: Result<(), ChangeFault>) -> Result<(), Fault>
    ensures { result ≡ with_fault made }
{
    match made {
        Ok(()) => Ok(()),
        Err(ChangeFault::Fault(ChangeFlaw::NotWritable)) => Err(Fault::NotWritable),
        Err(ChangeFault::Fault(ChangeFlaw::Locked(_))) => Err(Fault::Locked),
        Err(ChangeFault::Fault(ChangeFlaw::TooLarge)) => Err(Fault::TooLarge),
        Err(ChangeFault::Memory) => Err(Fault::Memory),
    }
}
