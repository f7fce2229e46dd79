//! Resetting all keys below a directory.
ghost use Rattle.std.specs.Prelude.{◌≡◌, [], ◌∷◌, Ok, IfErr, OnErr, OnOk};
ghost use Rattle.std.specs.FinMap.{entries};
ghost use Rattle.dconf_path.specs.Paths.{directory_text, key_text};
ghost use Rattle.dconf_model.specs.Changes.{apply, Change.reset_below_directory};
ghost use Rattle.dconf_engine.specs.ChangeFaults.{Refuses};
ghost use Rattle.dconf_engine.specs.Cleared.{changed_paths, cleared, first_paths};
ghost use Rattle.dconf_engine.specs.Unsaved.{and_resets};

use crate::change_fault::{ChangeFault, ChangeFlaw};
use crate::changes::Changes;
use crate::engine::Engine;
use dconf_layers::{Layer, is_under};
use dconf_path::{DirPath, KeyPath};
use std::alloc::AllocError;

impl<'a> Engine<'a> {
    /// Takes away the user's values of the keys below a directory, except of those that are locked.
    ///
    /// Refusals: `NotWritable`; and `Memory` where a growth is refused. After each the engine is as it was. It copies all
    /// unsaved changes, and looks at the name of each item of the user's file.
    pub fn reset_dir(&mut self, directory: DirPath<'_>) -> Result<(), ChangeFault>
        ensures ok { OnOk result (apply self.old (reset_below_directory (directory_text directory.entry)) ≡ Ok self.new) }
        ensures fault { IfErr result (Refuses (apply self.old (reset_below_directory (directory_text directory.entry)))) }
        ensures err { OnErr result (self.new ≡ self.old) }
    {
        if !self.is_writable() {
            return Err(ChangeFault::Fault(ChangeFlaw::NotWritable));
        }
        let mut changes = self.changes.try_copy()?;
        self.reset_changed(&self.changes, directory, &mut changes)?;
        self.reset_first(&self.layers, directory, &mut changes)?;
        self.changes = changes;
        Ok(())
    }

    /// Resets what was changed below a directory.
    fn reset_changed(
        &self,
        from: &Changes,
        directory: DirPath<'_>,
        changes: &mut Changes,
    ) -> Result<(), AllocError>
        ensures { OnOk result (changes.new ≡ and_resets (cleared self.now (directory_text directory.entry) (changed_paths (entries from.now))) changes.old) }
    {
        for change in from.iter() {
            self.reset_below(change.path, directory, changes)?;
        }
        Ok(())
    }

    /// Resets what the first layer has below a directory.
    fn reset_first(
        &self,
        layers: &[Layer<'_>],
        directory: DirPath<'_>,
        changes: &mut Changes,
    ) -> Result<(), AllocError>
        ensures { OnOk result (changes.new ≡ and_resets (cleared self.now (directory_text directory.entry) (first_paths layers.now)) changes.old) }
    {
        let Some(first) = layers.first() else {
            return Ok(());
        };
        for entry in first.entries() {
            let path = entry.path(self.alloc)?;
            self.reset_below(KeyPath::parse(path.as_str()).unwrap(), directory, changes)?;
        }
        Ok(())
    }

    /// Resets a path that is below a directory and not locked.
    fn reset_below(
        &self,
        path: KeyPath<'_>,
        directory: DirPath<'_>,
        changes: &mut Changes,
    ) -> Result<(), AllocError>
        ensures { OnOk result (changes.new ≡ and_resets (cleared self.now (directory_text directory.entry) (key_text path.entry ∷ [])) changes.old) }
    {
        if !is_under(path.as_str(), directory) || self.is_locked(path) {
            return Ok(());
        }
        changes.reset(path)?;
        Ok(())
    }
}
