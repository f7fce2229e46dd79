//! Settings that are written without a map: rows are kept as they come, and sorted once.
ghost use Rattle.std.specs.Prelude.{◌≡◌, IsTrue, IfErr, IfOk, OnOk, OnErr, string_bytes};
ghost use Rattle.dconf_model.specs.Databases.{IsDatabaseOf};
ghost use Rattle.dconf_model.specs.Paths.{is_key_path};
ghost use Rattle.dconf_model.specs.Settings.{no_settings, with_lock, with_value};
ghost use Rattle.dconf_path.specs.Paths.{lock_text};
ghost use Rattle.gvdb_maps.specs.Limits.{IsRefusal};

use crate::database::write_sorted;
use crate::entries::{Sorted, last_of_each, lent, sort_by_path};
use crate::write_fault::WriteFault;
use dconf_path::LockPath;
use std::alloc::{AllocError, Global};
use std::collections::BTreeSet;
use std::marker::Model;

/// Paths and the bytes of their values, in the order in which they are given, and locked paths: of the values of one path
/// the last counts.
///
/// To write them costs less than to make a map and to write that. It holds each row that it was given until then.
#[derive(Drop)]
pub struct MapBuilder {
    alloc: Global,
    rows: Vec<(String, Vec<u8>)>,
    locks: BTreeSet<String>,
}

impl Model for MapBuilder {
    ghost use Rattle.dconf_model.specs.Settings.{IsSettings, Settings, settings_code};
    ghost use Rattle.gvdb_maps.specs.Maps.{settings_of_rows};

    ghost Value = { Settings };

    ghost coded = { settings_code };

    ghost view = { λ b. settings_of_rows b.rows.items b.locks };

    ghost invariant = { λ b. IsSettings (settings_of_rows b.rows.items b.locks) };
}

impl MapBuilder {
    /// No value and no lock. It takes no memory.
    pub fn new(alloc: Global) -> MapBuilder
        ensures { result ≡ no_settings }
    {
        let rows = Vec::new(alloc);
        let locks = BTreeSet::new(alloc);
        MapBuilder { alloc, rows, locks }
    }

    /// Sets the bytes of the value at the path of a key, in the place of those that it had, and keeps both where they are.
    ///
    /// An error comes where a growth is refused, and then all stays as it was. It copies nothing.
    pub fn insert_text(&mut self, path: String, value: Vec<u8>) -> Result<(), AllocError>
        requires { IsTrue (is_key_path (string_bytes path)) }
        ensures ok { OnOk result (self.new ≡ with_value self.old (string_bytes path) value.items) }
        ensures err { OnErr result (self.new ≡ self.old) }
    {
        self.rows.push((path, value))?;
        Ok(())
    }

    /// Locks a path, as [`Map::lock`](crate::Map::lock) does.
    pub fn lock(&mut self, path: LockPath<'_>) -> Result<(), AllocError>
        ensures ok { OnOk result (self.new ≡ with_lock self.old (lock_text path.entry)) }
        ensures err { OnErr result (self.new ≡ self.old) }
    {
        let path = String::from_str(self.alloc, path.as_str())?;
        self.locks.insert(path)?;
        Ok(())
    }

    /// The bytes of a database that holds these values and locks, with the errors of [`write`](crate::write).
    ///
    /// It sorts the paths. Where they come in groups, as those of a keyfile, each group is sorted by itself first, since groups
    /// mostly come in order.
    pub fn write(&self) -> Result<Vec<u8>, WriteFault>
        ensures database { IfOk result (λ file. IsDatabaseOf self.now file.items) }
        ensures fault { IfErr result (IsRefusal self.now) }
    {
        let mut rows = lent(self.alloc, &self.rows)?;
        sort_by_path(&mut rows)?;
        let entries = last_of_each(self.alloc, &rows)?;
        drop(rows);
        let locks = &self.locks;
        let sorted = Sorted { entries, locks };
        write_sorted(self.alloc, sorted)
    }
}
