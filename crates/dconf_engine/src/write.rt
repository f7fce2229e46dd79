//! Changes of the first layer.
ghost use Rattle.std.specs.Prelude.{◌≡◌, true, false, Ok, Err, Some, None, OnOk, OnErr, IfErr, IfOk};
ghost use Rattle.refused.specs.Faults.{OfFault};
ghost use Rattle.gv_tree.specs.Wholes.{IsWhole};
ghost use Rattle.dconf_model.specs.Values.{stored, is_storable};
ghost use Rattle.dconf_path.specs.Paths.{key_text};
ghost use Rattle.dconf_model.specs.Changes.{apply, Change.set_value, Change.reset_value, Change.load_values, first_locked, paths_of, all_storable, Refusal.too_large};
ghost use Rattle.dconf_engine.specs.ChangeFaults.{refusal_of, Refuses, path_refusal, rows_refusal};
ghost use Rattle.dconf_engine.specs.Loads.{rows_of, not_locked};
ghost use Rattle.dconf_engine.specs.Unsaved.{and_rows};

use crate::change_fault::{ChangeFault, ChangeFlaw};
use crate::changes::Changes;
use crate::engine::Engine;
use dconf_path::KeyPath;
use gv_build::variant_bytes;
use gv_tree::Tree;
use refused::Refused;
use std::alloc::Global;

impl<'a> Engine<'a> {
    /// Sets the value of a key.
    ///
    /// Refusals, in this order: `NotWritable`, `Locked(0)`, `TooLarge`; and `Memory` where a growth is refused. After
    /// each the engine is as it was. It writes the value's bytes once, copies the path, and compares as many paths as there
    /// are levels of unsaved changes.
    pub fn write(&mut self, path: KeyPath<'_>, value: &Tree) -> Result<(), ChangeFault>
        ensures ok { OnOk result (apply self.old (set_value (key_text path.entry) value.now) ≡ Ok self.new) }
        ensures whole { OnOk result (IsWhole value.now) }
        ensures fault { IfErr result (Refuses (apply self.old (set_value (key_text path.entry) value.now))) }
        ensures err { OnErr result (self.new ≡ self.old) }
    {
        self.check_path(path)?;
        let bytes = stored_bytes(self.alloc, value)?;
        self.changes.set(path, bytes)?;
        Ok(())
    }

    /// Takes away the user's value of a key, where it has one.
    ///
    /// Refusals, in this order: `NotWritable`, `Locked(0)`; and `Memory` where a growth is refused. After each the
    /// engine is as it was. It copies the path, and compares as many paths as there are levels of unsaved changes.
    pub fn reset(&mut self, path: KeyPath<'_>) -> Result<(), ChangeFault>
        ensures ok { OnOk result (apply self.old (reset_value (key_text path.entry)) ≡ Ok self.new) }
        ensures fault { IfErr result (Refuses (apply self.old (reset_value (key_text path.entry)))) }
        ensures err { OnErr result (self.new ≡ self.old) }
    {
        self.check_path(path)?;
        self.changes.reset(path)?;
        Ok(())
    }

    /// Refuses a path that may not be changed.
    fn check_path(&self, path: KeyPath<'_>) -> Result<(), ChangeFlaw>
        ensures ok { OnOk result (path_refusal self.now (key_text path.entry) ≡ None) }
        ensures fault { IfErr result (λ e. path_refusal self.now (key_text path.entry) ≡ Some (refusal_of e)) }
    {
        if !self.is_writable() {
            return Err(ChangeFlaw::NotWritable);
        }
        if self.is_locked(path) {
            return Err(ChangeFlaw::Locked(0));
        }
        Ok(())
    }

    /// Sets the value of each row's key; where `force`, of each that is not locked. Of rows of one key the last counts.
    ///
    /// Refusals, in this order: `NotWritable`; unless `force`, `Locked` of the first row whose key is; `TooLarge` of a value
    /// that would be set; and `Memory` where a growth is refused. After each the engine is as it was. It copies all
    /// unsaved changes, and writes each row's bytes once.
    pub fn load(&mut self, rows: &[(KeyPath<'_>, Tree)], force: bool) -> Result<(), ChangeFault>
        ensures ok { OnOk result (apply self.old (load_values (rows_of rows.now) force) ≡ Ok self.new) }
        ensures fault { IfErr result (Refuses (apply self.old (load_values (rows_of rows.now) force))) }
        ensures err { OnErr result (self.new ≡ self.old) }
    {
        self.check_rows(rows, force)?;
        let mut changes = self.changes.try_copy()?;
        self.set_rows(&mut changes, rows)?;
        self.changes = changes;
        Ok(())
    }

    /// Refuses rows that may not be loaded, whatever their values.
    pub(crate) fn check_rows(
        &self,
        rows: &[(KeyPath<'_>, Tree)],
        force: bool,
    ) -> Result<(), ChangeFlaw>
        ensures ok { OnOk result (rows_refusal self.now (rows_of rows.now) force ≡ None) }
        ensures fault { IfErr result (λ e. rows_refusal self.now (rows_of rows.now) force ≡ Some (refusal_of e)) }
    {
        if !self.is_writable() {
            return Err(ChangeFlaw::NotWritable);
        }
        if !force && let Some(row) = self.first_locked(rows) {
            return Err(ChangeFlaw::Locked(row));
        }
        Ok(())
    }

    /// The number of the first row whose key is locked.
    fn first_locked(&self, rows: &[(KeyPath<'_>, Tree)]) -> Option<usize>
        ensures { result ≡ first_locked self.now 0 (paths_of (rows_of rows.now)) }
    {
        rows.iter().position(|(path, _)| self.is_locked(*path))
    }

    /// Sets the rows whose keys are not locked.
    fn set_rows(
        &self,
        changes: &mut Changes,
        rows: &[(KeyPath<'_>, Tree)],
    ) -> Result<(), ChangeFault>
        ensures ok { OnOk result (changes.new ≡ and_rows (not_locked self.now (rows_of rows.now)) changes.old) }
        ensures storable { OnOk result (all_storable (not_locked self.now (rows_of rows.now)) ≡ true) }
        ensures fault { IfErr result (OfFault (λ e. (refusal_of e ≡ too_large) × (all_storable (not_locked self.now (rows_of rows.now)) ≡ false))) }
    {
        for (path, value) in rows {
            if !self.is_locked(*path) {
                changes.set(*path, stored_bytes(self.alloc, value)?)?;
            }
        }
        Ok(())
    }
}

/// The bytes of a value as it is stored: those of a variant that holds it.
///
/// `TooLarge` comes exactly where it may not be stored, and `Memory` where a growth is refused. It writes each byte once.
pub(crate) fn stored_bytes(alloc: Global, value: &Tree) -> Result<Vec<u8>, ChangeFault>
    ensures bytes { IfOk result (λ bytes. bytes.items ≡ stored value.now) }
    ensures whole { OnOk result (IsWhole value.now) }
    ensures storable { OnOk result (is_storable value.now ≡ true) }
    ensures fault { IfErr result (OfFault (λ e. (refusal_of e ≡ too_large) × (is_storable value.now ≡ false))) }
{
    variant_bytes(alloc, value).map_err(Refused::into_fault)
}
