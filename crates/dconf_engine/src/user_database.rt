//! The user's database.
ghost use Rattle.std.specs.Prelude.{◌≡◌, true, false, IfOk, IfErr, OnOk, map};
ghost use Rattle.refused.specs.Faults.{OfFault};
ghost use Rattle.dconf_model.specs.Changes.{Change.load_values, Refusal.too_large, all_storable, apply, saved, with_all, with_first_layer};
ghost use Rattle.dconf_model.specs.Databases.{IsDatabaseOf};
ghost use Rattle.gvdb_maps.specs.Limits.{IsRefusal};
ghost use Rattle.dconf_model.specs.Settings.{no_settings};
ghost use Rattle.dconf_layers.specs.LayerRows.{layer_rows};
ghost use Rattle.dconf_layers.specs.LayerSettings.{settings_of};
ghost use Rattle.dconf_engine.specs.ChangeFaults.{Refuses, refusal_of};
ghost use Rattle.dconf_engine.specs.Loads.{IsLoaded, not_locked, rows_of};
ghost use Rattle.dconf_engine.specs.Saved.{with_unchanged};
ghost use Rattle.dconf_engine.specs.Unsaved.{with_changes};

use crate::change_fault::ChangeFault;
use crate::changes::Changes;
use crate::engine::Engine;
use crate::write::stored_bytes;
use dconf_layers::Layer;
use dconf_path::KeyPath;
use gv_tree::Tree;
use gvdb_write::{MapBuilder, WriteFault};
use std::alloc::{AllocError, Global};

impl<'a> Engine<'a> {
    /// The bytes of the user's database, without locks: what its file has, with all changes.
    ///
    /// `TooBig` comes where there would be over 4,294,967,295 bytes, and `Memory` where a growth is refused. It copies each
    /// path and value, and looks each path of the file up among the changes alone.
    pub fn save(&self) -> Result<Vec<u8>, WriteFault>
        ensures database { IfOk result (λ file. IsDatabaseOf (saved self.now.layers) file.items) }
        ensures fault { IfErr result (IsRefusal (saved self.now.layers)) }
    {
        let changes = self.changes.try_copy()?;
        user_values(self.alloc, &self.layers, changes)?.write()
    }

    /// As [`Engine::save`], of an engine that is not needed any longer, with the same errors. It copies the paths and values of
    /// the file, and moves what was set.
    pub fn into_saved(self) -> Result<Vec<u8>, WriteFault>
        ensures database { IfOk result (λ file. IsDatabaseOf (saved self.entry.layers) file.items) }
        ensures fault { IfErr result (IsRefusal (saved self.entry.layers)) }
    {
        let Engine {
            alloc,
            layers,
            changes,
            ..
        } = self;
        user_values(alloc, &layers, changes)?.write()
    }

    /// The user's values, without locks, once these rows are loaded: what [`Engine::load`] and then [`Engine::save`] write,
    /// with the refusals of `load`.
    ///
    /// It copies each path and value, and writes each row's bytes once. The rows need no place among the changes.
    pub fn loaded_values(
        &self,
        rows: &[(KeyPath<'_>, Tree)],
        force: bool,
    ) -> Result<MapBuilder, ChangeFault>
        ensures ok { IfOk result (IsLoaded self.now (rows_of rows.now) force) }
        ensures fault { IfErr result (Refuses (apply self.now (load_values (rows_of rows.now) force))) }
    {
        self.check_rows(rows, force)?;
        let mut values = user_values(self.alloc, &self.layers, self.changes.try_copy()?)?;
        self.add_rows(rows, &mut values)?;
        if self.layers.is_empty() {
            return Ok(MapBuilder::new(self.alloc));
        }
        Ok(values)
    }

    /// Adds the rows whose keys are not locked.
    fn add_rows(
        &self,
        rows: &[(KeyPath<'_>, Tree)],
        values: &mut MapBuilder,
    ) -> Result<(), ChangeFault>
        ensures ok { OnOk result (values.new ≡ record values.old { values = with_all (not_locked self.now (rows_of rows.now)) values.old.values }) }
        ensures storable { OnOk result (all_storable (not_locked self.now (rows_of rows.now)) ≡ true) }
        ensures fault { IfErr result (OfFault (λ e. (refusal_of e ≡ too_large) × (all_storable (not_locked self.now (rows_of rows.now)) ≡ false))) }
    {
        for (path, value) in rows {
            if !self.is_locked(*path) {
                let bytes = stored_bytes(self.alloc, value)?;
                let path = String::from_str(self.alloc, path.as_str())?;
                values.insert_text(path, bytes)?;
            }
        }
        Ok(())
    }
}

/// The user's values, without locks: those of the first layer, with changes.
fn user_values(
    alloc: Global,
    layers: &[Layer<'_>],
    changes: Changes,
) -> Result<MapBuilder, AllocError>
    ensures { IfOk result (λ user. user ≡ saved (with_first_layer (with_changes changes) (map settings_of layers.now))) }
{
    let Some(first) = layers.first() else {
        return Ok(MapBuilder::new(alloc));
    };
    let mut values = unchanged(alloc, *first, &changes)?;
    changes.move_sets(&mut values)?;
    Ok(values)
}

/// The values of a layer at paths that were not changed.
fn unchanged(alloc: Global, layer: Layer<'_>, changes: &Changes) -> Result<MapBuilder, AllocError>
    ensures { IfOk result (λ values. values ≡ with_unchanged changes.now (layer_rows layer.entry) no_settings) }
{
    let mut values = MapBuilder::new(alloc);
    for entry in layer.entries() {
        let path = entry.path(alloc)?;
        if !changes.has(path.as_str()) {
            values.insert_text(path, entry.bytes().to_vec(alloc)?)?;
        }
    }
    Ok(values)
}
