//! What a directory has in any layer, and the locks below it.
ghost use Rattle.std.specs.Prelude.{◌≡◌, IfOk, OnOk, map, string_bytes};
ghost use Rattle.std.specs.FinMap.{entries};
ghost use Rattle.dconf_model.specs.Layers.{child_names, locks_below};
ghost use Rattle.dconf_path.specs.Paths.{directory_text};
ghost use Rattle.dconf_layers.specs.LayerRows.{layer_paths};
ghost use Rattle.dconf_layers.specs.TextSets.{with_children};
ghost use Rattle.dconf_engine.specs.LeftPaths.{base_paths, has_reset_below, is_reset_below, unchanged_of, with_set_children};
ghost use Rattle.dconf_engine.specs.UnsavedLeft.{entry_changed};

use crate::changes::{Changed, Changes};
use crate::engine::Engine;
use dconf_layers::{Layer, Texts, is_under};
use dconf_path::DirPath;
use std::alloc::{AllocError, Global};

impl<'a> Engine<'a> {
    // ---- children

    /// The names of what a directory has in any layer, locks aside: a key's name, and a directory's with its `/`. They are in
    /// the order of their bytes, once each.
    ///
    /// An error comes where a growth is refused. It asks each layer's file for the directory's list, and looks at these names
    /// alone, and at each unsaved change. Where a key below the directory was reset and that is not saved, it looks at each
    /// entry of the user's file instead of the list.
    pub fn list(&self, alloc: Global, directory: DirPath<'_>) -> Result<Vec<String>, AllocError>
        ensures { IfOk result (λ names. map string_bytes names.items ≡ child_names self.now (directory_text directory.entry)) }
    {
        let mut names = Texts::new(alloc);
        let Some((first, others)) = self.layers.split_first() else {
            return names.list();
        };
        add_file(alloc, *first, &self.changes, directory, &mut names)?;
        add_sets(&self.changes, directory, &mut names)?;
        for layer in others {
            layer.add_listed(directory, &mut names)?;
        }
        names.list()
    }

    // ---- locks

    /// The paths of the locks that start with a directory, its own among them: those of the layers from the second on. They are
    /// in the order of their bytes, once each.
    ///
    /// An error comes where a growth is refused. It looks at the name of each lock of these layers.
    pub fn locks(&self, alloc: Global, directory: DirPath<'_>) -> Result<Vec<String>, AllocError>
        ensures { IfOk result (λ paths. map string_bytes paths.items ≡ locks_below self.now (directory_text directory.entry)) }
    {
        let mut paths = Texts::new(alloc);
        let Some((_, later)) = self.layers.split_first() else {
            return paths.list();
        };
        for layer in later {
            layer.add_locks(alloc, directory, &mut paths)?;
        }
        paths.list()
    }
}

/// Adds the names of what a directory has in a layer's file, less those of which nothing is left.
fn add_file(
    alloc: Global,
    layer: Layer<'_>,
    changes: &Changes,
    directory: DirPath<'_>,
    names: &mut Texts,
) -> Result<(), AllocError>
    ensures { OnOk result (names.new ≡ with_children (directory_text directory.entry) (base_paths (directory_text directory.entry) changes.now layer.entry) names.old) }
{
    if has_reset_below(changes, directory) {
        return add_unchanged(alloc, layer, changes, directory, names);
    }
    layer.add_listed(directory, names)
}

/// Adds the names of what a directory has of a layer's entries that were not changed.
fn add_unchanged(
    alloc: Global,
    layer: Layer<'_>,
    changes: &Changes,
    directory: DirPath<'_>,
    names: &mut Texts,
) -> Result<(), AllocError>
    ensures { OnOk result (names.new ≡ with_children (directory_text directory.entry) (unchanged_of changes.now (layer_paths layer.entry)) names.old) }
{
    for entry in layer.entries() {
        let path = entry.path(alloc)?;
        if !changes.has(path.as_str()) {
            names.add_child(directory.as_str(), path.as_str())?;
        }
    }
    Ok(())
}

/// Adds the names of what a directory has of what was set.
fn add_sets(changes: &Changes, directory: DirPath<'_>, names: &mut Texts) -> Result<(), AllocError>
    ensures { OnOk result (names.new ≡ with_set_children (directory_text directory.entry) (entries changes.now) names.old) }
{
    for change in changes.iter() {
        if change.bytes.is_some() {
            names.add_child(directory.as_str(), change.path.as_str())?;
        }
    }
    Ok(())
}

/// Whether a path below a directory was reset. It looks at each change.
fn has_reset_below(changes: &Changes, directory: DirPath<'_>) -> bool
    ensures { result ≡ has_reset_below (directory_text directory.entry) changes.now }
{
    changes
        .iter()
        .any(|change| is_reset_below(change, directory))
}

/// Whether a change resets a path below a directory.
fn is_reset_below(change: Changed<'_>, directory: DirPath<'_>) -> bool
    ensures { result ≡ is_reset_below (directory_text directory.entry) (entry_changed change.entry).0 (entry_changed change.entry).1 }
{
    match change.bytes {
        Some(_) => false,
        None => is_under(change.path.as_str(), directory),
    }
}
