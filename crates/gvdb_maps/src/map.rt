//! A map of paths to the bytes of their values, and a set of locked paths.
ghost use Rattle.std.specs.Prelude.{◌≡◌, ℕ, List, IsTrue, IfOk, OnOk, OnErr, option_map, string_bytes};
ghost use Rattle.std.specs.FinMap.{contains_key, get, keys, len};
ghost use Rattle.dconf_model.specs.Paths.{is_key_path, is_path};
ghost use Rattle.dconf_model.specs.Settings.{no_settings, with_value, with_lock};
ghost use Rattle.dconf_path.specs.Paths.{key_text, lock_text};
ghost use Rattle.gvdb_maps.specs.Maps.{AreKeyPaths, ArePaths, lent_entries, locks_of, sorted_settings, texts};

use crate::entries::{Sorted, listed};
use dconf_path::{KeyPath, LockPath};
use std::alloc::{AllocError, Global};
use std::collections::{BTreeMap, BTreeSet, btree_map, btree_set};
use std::fmt;
use std::marker::Model;

/// The bytes of the value at each path that has one, and the paths that are locked.
///
/// The bytes of a value are those of a `v` that holds it; they are kept as they are given.
#[derive(Drop)]
pub struct Map {
    alloc: Global,
    values: BTreeMap<String, Vec<u8>>,
    locks: BTreeSet<String>,
}

impl Model for Map {
    ghost use Rattle.dconf_model.specs.Settings.{IsSettings, Settings, settings_code};

    ghost Value = { Settings };

    ghost coded = { settings_code };

    ghost use Rattle.gvdb_maps.specs.Maps.{settings_of};

    ghost view = { λ m. settings_of m.values m.locks };

    ghost invariant = { λ m. IsSettings (settings_of m.values m.locks) };
}

impl Map {
    ghost use Rattle.gvdb_maps.specs.PathsLeft.{keys_left, locks_left};

    /// A map with no value and no lock. It takes no memory.
    pub fn new(alloc: Global) -> Map
        ensures { result ≡ no_settings }
    {
        let values = BTreeMap::new(alloc);
        let locks = BTreeSet::new(alloc);
        Map {
            alloc,
            values,
            locks,
        }
    }

    /// Sets the bytes of the value at a path, in the place of those that it had.
    ///
    /// An error comes where a growth is refused, and then the map stays as it was. It copies the path and the bytes,
    /// and compares as many paths as the map is deep.
    pub fn insert(&mut self, path: KeyPath<'_>, value: &[u8]) -> Result<(), AllocError>
        ensures ok { OnOk result (self.new ≡ with_value self.old (key_text path.entry) value.now) }
        ensures err { OnErr result (self.new ≡ self.old) }
    {
        let value = value.to_vec(self.alloc)?;
        let path = String::from_str(self.alloc, path.as_str())?;
        self.insert_text(path, value)
    }

    /// Sets the bytes of the value at the path of a key, in the place of those that it had, and keeps both where they are.
    ///
    /// An error comes where a growth is refused, and then the map stays as it was. It copies nothing, and compares as many
    /// paths as the map is deep.
    pub fn insert_text(&mut self, path: String, value: Vec<u8>) -> Result<(), AllocError>
        requires { IsTrue (is_key_path (string_bytes path)) }
        ensures ok { OnOk result (self.new ≡ with_value self.old (string_bytes path) value.items) }
        ensures err { OnErr result (self.new ≡ self.old) }
    {
        self.values.insert(path, value)?;
        Ok(())
    }

    /// Locks the path of a key, whether or not it has a value, or that of a directory.
    ///
    /// An error comes where a growth is refused, and then the map stays as it was. It copies the path, and compares
    /// as many paths as the set of locks is deep.
    pub fn lock(&mut self, path: LockPath<'_>) -> Result<(), AllocError>
        ensures ok { OnOk result (self.new ≡ with_lock self.old (lock_text path.entry)) }
        ensures err { OnErr result (self.new ≡ self.old) }
    {
        let path = String::from_str(self.alloc, path.as_str())?;
        self.locks.insert(path)?;
        Ok(())
    }

    /// The bytes of the value at a path, or None where it has none. It compares as many paths as the map is deep.
    pub fn get(&self, path: KeyPath<'_>) -> Option<&[u8]>
        ensures { option_map (λ bytes. bytes.now) result ≡ get self.now.values (key_text path.entry) }
    {
        match self.values.get(path.as_str()) {
            Some(value) => Some(value.as_slice()),
            None => None,
        }
    }

    /// Whether this very path is locked: that of a directory says nothing of the keys below it. It compares as many paths as
    /// the set of locks is deep.
    pub fn is_locked(&self, path: LockPath<'_>) -> bool
        ensures { result ≡ contains_key self.now.locks (lock_text path.entry) }
    {
        self.locks.contains(path.as_str())
    }

    /// How many paths have a value.
    pub fn key_count(&self) -> usize
        ensures { result ≡ len self.now.values }
    {
        self.values.len()
    }

    /// How many paths are locked.
    pub fn lock_count(&self) -> usize
        ensures { result ≡ len self.now.locks }
    {
        self.locks.len()
    }

    /// The paths that have a value, in the order of their bytes.
    pub fn keys(&self) -> Keys<'_>
        ensures { keys_left result ≡ keys self.now.values }
    {
        let rest = self.values.keys();
        Keys { rest }
    }

    /// The values in the order of their paths, and the locks.
    pub(crate) fn sorted(&self) -> Result<Sorted<'_>, AllocError>
        ensures { IfOk result (λ sorted. sorted_settings (lent_entries sorted.entries.items) sorted.locks.now ≡ self.now) }
    {
        let entries = listed(self.alloc, &self.values)?;
        let locks = &self.locks;
        Ok(Sorted { entries, locks })
    }

    /// The paths that are locked, in the order of their bytes.
    pub fn locks(&self) -> Locks<'_>
        ensures { locks_left result ≡ keys self.now.locks }
    {
        Locks::of(&self.locks)
    }
}

/// How many there are of each, and none of them.
impl fmt::Debug for Map {
    ghost use Rattle.std.specs.Prelude.{None};

    ghost debug_output = { λ _. None };

    fn fmt<W: fmt::Write>(&self, f: &mut fmt::Formatter<W>) -> fmt::Result {
        let values = self.key_count();
        let locks = self.lock_count();
        write!(f, "Map {{ values: {values}, locks: {locks} }}")
    }
}

/// The paths of a map that have a value, of those that are left.
#[derive(Drop)]
pub struct Keys<'a> {
    rest: btree_map::Keys<'a, String, Vec<u8>>,
    ghost are_paths: { AreKeyPaths (texts rest) },
}

impl<'a> Iterator for Keys<'a> {
    ghost use Rattle.std.specs.Iterator.{YieldsFirstBy, item_count};
    ghost use Rattle.dconf_path.specs.Paths.{key_text};
    ghost use Rattle.gvdb_maps.specs.PathsLeft.{keys_left};

    type Item = KeyPath<'a>;

    ghost next_gives = { YieldsFirstBy key_text keys_left };

    ghost remaining = { item_count keys_left };

    fn next(&mut self) -> Option<KeyPath<'a>> {
        let key = self.rest.next()?;
        // Each is the path of a key, so none is refused.
        KeyPath::parse(key.as_str()).ok()
    }
}

/// The locked paths of a map, of those that are left.
#[derive(Drop)]
pub struct Locks<'a> {
    rest: btree_set::Iter<'a, String>,
    ghost are_paths: { ArePaths (texts rest) },
}

impl<'a> Locks<'a> {
    ghost use Rattle.gvdb_maps.specs.PathsLeft.{locks_left};

    /// All of these.
    pub(crate) fn of(locks: &'a BTreeSet<String>) -> Locks<'a>
        requires { (path : List ℕ) → IsTrue (contains_key (locks_of locks.now) path) → IsTrue (is_path path) }
        ensures { locks_left result ≡ keys (locks_of locks.entry.now) }
    {
        let rest = locks.iter();
        Locks { rest }
    }
}

impl<'a> Iterator for Locks<'a> {
    ghost use Rattle.std.specs.Iterator.{YieldsFirstBy, item_count};
    ghost use Rattle.dconf_path.specs.Paths.{lock_text};
    ghost use Rattle.gvdb_maps.specs.PathsLeft.{locks_left};

    type Item = LockPath<'a>;

    ghost next_gives = { YieldsFirstBy lock_text locks_left };

    ghost remaining = { item_count locks_left };

    fn next(&mut self) -> Option<LockPath<'a>> {
        let lock = self.rest.next()?;
        // Each is a path, so none is refused.
        LockPath::parse(lock.as_str()).ok()
    }
}
