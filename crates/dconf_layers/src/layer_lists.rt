//! What a layer's file lists: the names of what a directory has, and the paths of its locks.
ghost use Rattle.std.specs.Prelude.{◌≡◌, Some, IfOk, OnOk, option_map, string_bytes};
ghost use Rattle.std.specs.FinMap.{keys};
ghost use Rattle.dconf_model.specs.Locks.{is_below};
ghost use Rattle.dconf_model.specs.Paths.{is_path};
ghost use Rattle.dconf_path.specs.Paths.{directory_text};
ghost use Rattle.dconf_layers.specs.LayerRows.{lock_count, lock_name, lock_name_at, locks_under};
ghost use Rattle.dconf_layers.specs.TextSets.{with_children, with_texts};

use crate::layer::Layer;
use crate::texts::Texts;
use dconf_path::{DirPath, LockPath};
use std::alloc::{AllocError, Global};

/// The longest path of a directory that the names which it has leave room for.
const ROOM: usize = 64;

impl<'a> Layer<'a> {
    ghost use Rattle.dconf_layers.specs.LayerSettings.{locks_of, settings_of};

    // ---- children

    /// Adds the names of what a directory has, by the directory's list. Each has room for the directory's path before it, where
    /// that isn't long.
    ///
    /// An error comes where a growth is refused. It is one search, and then it looks at these names alone.
    pub fn add_listed(self, directory: DirPath<'_>, names: &mut Texts) -> Result<(), AllocError>
        ensures { OnOk result (names.new ≡ with_children (directory_text directory.entry) (keys (settings_of self.entry).values) names.old) }
    {
        let Some(list) = self.values.find_list(directory.as_str()) else {
            return Ok(());
        };
        let room = directory.as_str().len().min(ROOM);
        for i in 0..list.len() {
            names.add_with_room(self.key(list.number(i)), room)?;
        }
        Ok(())
    }

    // ---- locks

    /// Adds the paths of its locks that start with a directory.
    ///
    /// An error comes where a growth is refused. It looks at the name of each lock.
    pub fn add_locks(
        self,
        alloc: Global,
        directory: DirPath<'_>,
        paths: &mut Texts,
    ) -> Result<(), AllocError>
        ensures { OnOk result (paths.new ≡ with_texts (locks_under (directory_text directory.entry) (keys (settings_of self.entry).locks)) paths.old) }
    {
        for i in 0..self.n_locks() {
            if let Some(name) = self.lock_at(alloc, i)? {
                add_if_lock(name.as_str(), directory, paths)?;
            }
        }
        Ok(())
    }

    /// How many items its table of locks has.
    fn n_locks(self) -> u32
        ensures { result ≡ lock_count (locks_of self.entry) }
    {
        match self.locks() {
            Some(locks) => locks.n_items(),
            None => 0,
        }
    }

    /// The name of item `i` of its table of locks, where it is a text no longer than a path.
    fn lock_at(self, alloc: Global, i: u32) -> Result<Option<String>, AllocError>
        ensures { IfOk result (λ found. lock_name (option_map string_bytes found) ≡ lock_name_at (locks_of self.entry) i) }
    {
        match self.locks() {
            Some(locks) => gvdb_write::name_of(alloc, locks, i),
            None => Ok(None),
        }
    }
}

/// Adds a text, if it is the path of a lock that starts with a directory.
fn add_if_lock(text: &str, directory: DirPath<'_>, paths: &mut Texts) -> Result<(), AllocError>
    ensures { OnOk result (paths.new ≡ with_texts (locks_under (directory_text directory.entry) (lock_name (Some text.now))) paths.old) }
{
    if is_lock(text) && is_under(text, directory) {
        return paths.add(text);
    }
    Ok(())
}

/// Whether a text is the path of a lock.
fn is_lock(text: &str) -> bool
    ensures { result ≡ is_path text.now }
{
    LockPath::parse(text).is_ok()
}

/// Whether a path starts with a directory.
pub fn is_under(path: &str, directory: DirPath<'_>) -> bool
    ensures { result ≡ is_below path.now (directory_text directory.entry) }
{
    path.starts_with(directory.as_str())
}
