//! Changes of the first layer that are not saved yet: at each path that was changed the bytes that it was set to, or
//! that it was reset.
ghost use Rattle.std.specs.Prelude.{◌≡◌, IsTrue, Some, None, OnOk, OnErr, IfOk, option_map, string_bytes};
ghost use Rattle.std.specs.FinMap.{contains_key, empty, entries, get, insert};
ghost use Rattle.dconf_model.specs.Paths.{is_key_path};
ghost use Rattle.dconf_path.specs.Paths.{key_text};
ghost use Rattle.dconf_engine.specs.Unsaved.{edit_bytes};
ghost use Rattle.dconf_engine.specs.Saved.{set_if, with_sets};
ghost use Rattle.dconf_engine.specs.TextMaps.{entries_by, AreAtKeyPaths};

use dconf_path::KeyPath;
use gvdb_write::MapBuilder;
use std::alloc::{AllocError, Global};
use std::collections::{BTreeMap, btree_map};
use std::marker::Model;

/// What was done at a path.
#[derive(Drop)]
pub(crate) enum Edit {
    /// It was set to these bytes.
    Set(Vec<u8>),
    /// Its value was taken away.
    Reset,
}

impl Edit {
    /// The bytes that were set, or None.
    pub(crate) fn bytes(&self) -> Option<&[u8]>
        ensures { option_map (λ bytes. bytes.now) result ≡ edit_bytes self.now }
    {
        match self {
            Edit::Set(bytes) => Some(bytes.as_slice()),
            Edit::Reset => None,
        }
    }

    /// Sets the bytes at a path among values, where they were set. Both are kept where they are.
    fn set_at(self, path: String, values: &mut MapBuilder) -> Result<(), AllocError>
        requires { IsTrue (is_key_path (string_bytes path)) }
        ensures { OnOk result (values.new ≡ set_if values.old (string_bytes path) (edit_bytes self)) }
    {
        match self {
            Edit::Set(bytes) => values.insert_text(path, bytes),
            Edit::Reset => Ok(()),
        }
    }
}

impl Clone for Edit {
    ghost is_clone = { λ a b. edit_bytes b ≡ edit_bytes a };

    fn clone(&self) -> Result<Edit, AllocError> {
        match self {
            Edit::Set(bytes) => Ok(Edit::Set(bytes.clone()?)),
            Edit::Reset => Ok(Edit::Reset),
        }
    }
}

/// At each path that was changed, what was done there.
#[derive(Drop)]
pub(crate) struct Changes {
    alloc: Global,
    edits: BTreeMap<String, Edit>,
}

impl Model for Changes {
    ghost use Rattle.dconf_engine.specs.TextMaps.{at_texts, IsAtKeys};
    ghost use Rattle.dconf_engine.specs.Unsaved.{Unsaved, edit_bytes, unsaved_code};

    ghost Value = { Unsaved };

    ghost coded = { unsaved_code };

    ghost view = { λ c. at_texts edit_bytes c.edits };

    ghost invariant = { λ c. IsAtKeys (at_texts edit_bytes c.edits) };
}

impl Changes {
    ghost use Rattle.dconf_engine.specs.UnsavedLeft.{changes_left};

    /// No changes. It takes no memory.
    pub(crate) fn new(alloc: Global) -> Changes
        ensures { result ≡ empty }
    {
        let edits = BTreeMap::new(alloc);
        Changes { alloc, edits }
    }

    /// What was done at a path, if anything was. It compares as many paths as the map is deep.
    pub(crate) fn get(&self, path: &str) -> Option<&Edit>
        ensures { option_map (λ edit. edit_bytes edit.now) result ≡ get self.now path.now }
    {
        self.edits.get(path)
    }

    /// Whether a path was changed.
    pub(crate) fn has(&self, path: &str) -> bool
        ensures { result ≡ contains_key self.now path.now }
    {
        self.get(path).is_some()
    }

    /// Sets a path to these bytes, whatever was changed there before.
    ///
    /// An error comes where a growth is refused, and then the changes stay as they were. It copies the path, and compares
    /// as many paths as the map is deep.
    pub(crate) fn set(&mut self, path: KeyPath<'_>, bytes: Vec<u8>) -> Result<(), AllocError>
        ensures ok { OnOk result (self.new ≡ insert self.old (key_text path.entry) (Some bytes.items)) }
        ensures err { OnErr result (self.new ≡ self.old) }
    {
        self.put(path, Edit::Set(bytes))
    }

    /// Resets a path, whatever was changed there before.
    ///
    /// An error comes where a growth is refused, and then the changes stay as they were. It copies the path, and compares
    /// as many paths as the map is deep.
    pub(crate) fn reset(&mut self, path: KeyPath<'_>) -> Result<(), AllocError>
        ensures ok { OnOk result (self.new ≡ insert self.old (key_text path.entry) None) }
        ensures err { OnErr result (self.new ≡ self.old) }
    {
        self.put(path, Edit::Reset)
    }

    /// Keeps what was done at a path, in the place of what was done there before.
    fn put(&mut self, path: KeyPath<'_>, edit: Edit) -> Result<(), AllocError>
        ensures ok { OnOk result (self.new ≡ insert self.old (key_text path.entry) (edit_bytes edit)) }
        ensures err { OnErr result (self.new ≡ self.old) }
    {
        let path = String::from_str(self.alloc, path.as_str())?;
        self.edits.insert(path, edit)?;
        Ok(())
    }

    /// The same changes once more. An error comes where a growth is refused. It copies each path and its bytes.
    pub(crate) fn try_copy(&self) -> Result<Changes, AllocError>
        ensures { IfOk result (λ copy. copy ≡ self.now) }
    {
        let edits = self.edits.clone()?;
        Ok(Changes {
            alloc: self.alloc,
            edits,
        })
    }

    /// Sets among values what was set, and keeps its paths and bytes where they are.
    ///
    /// An error comes where a growth is refused.
    pub(crate) fn move_sets(self, values: &mut MapBuilder) -> Result<(), AllocError>
        ensures { OnOk result (values.new ≡ with_sets (entries self) values.old) }
    {
        for (path, edit) in self.edits {
            edit.set_at(path, values)?;
        }
        Ok(())
    }

    /// The changes, in the order of the bytes of their paths.
    pub(crate) fn iter(&self) -> ChangesLeft<'_>
        ensures { changes_left result ≡ entries self.now }
    {
        let rest = self.edits.iter();
        ChangesLeft { rest }
    }
}

/// A path that was changed, and the bytes that it was set to, or None where it was reset.
#[derive(Clone, Copy)]
pub(crate) struct Changed<'a> {
    pub(crate) path: KeyPath<'a>,
    pub(crate) bytes: Option<&'a [u8]>,
}

/// The changes that are left, in the order of the bytes of their paths.
#[derive(Drop)]
pub(crate) struct ChangesLeft<'a> {
    rest: btree_map::Iter<'a, String, Edit>,
    ghost are_paths: { AreAtKeyPaths (entries_by edit_bytes rest) },
}

impl<'a> Iterator for ChangesLeft<'a> {
    ghost use Rattle.std.specs.Iterator.{YieldsFirstBy, item_count};
    ghost use Rattle.dconf_engine.specs.UnsavedLeft.{changes_left, entry_changed};

    type Item = Changed<'a>;

    ghost next_gives = { YieldsFirstBy entry_changed changes_left };

    ghost remaining = { item_count changes_left };

    fn next(&mut self) -> Option<Changed<'a>> {
        let (path, edit) = self.rest.next()?;
        // Each is the path of a key, so none is refused.
        let path = KeyPath::parse(path.as_str()).ok()?;
        let bytes = edit.bytes();
        Some(Changed { path, bytes })
    }
}
