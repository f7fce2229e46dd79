//! Which keys edits are of: so who makes them isn't told of these as of what others changed.
ghost use Rattle.std.specs.Prelude.{◌≡◌, ◌↔◌, ℕ, List, IfOk, IfSome, IsSome, OnOk, map, string_bytes};
ghost use Rattle.dconf_model.specs.Layers.{all_paths};
ghost use Rattle.dconf_model.specs.Walks.{keys_below};
ghost use Rattle.dconf_path.specs.Paths.{directory_text};
ghost use Rattle.dconf_layers.specs.Children.{seen_path};
ghost use Rattle.dconf_layers.specs.LayerSettings.{settings_of};
ghost use Rattle.dconf_layers.specs.TextSets.{with_texts};
ghost use Rattle.dconf_told.specs.Own.{AreOwn, IsDirectoryText, below_in, each_of, keys_of};
ghost use Rattle.dconf_told.specs.Telling.{ended};

use crate::texts::texts_of;
use dconf_layers::{Layer, LentLayers, SeenKey, Texts};
use dconf_path::{DirPath, KeyPath};
use std::alloc::{AllocError, Global};

/// The keys that edits are of: each key whose path an edit names, and each key below a directory that an edit names which the layers
/// have before or after. They are in the order of their bytes, once each. An edit of `/` is of all keys that the layers have.
///
/// An error comes where a growth is refused. Where an edit names a directory, it asks of both layers what [`LentLayers::keys_below`]
/// asks; where none does, it asks them for nothing.
pub fn own_keys(
    alloc: Global,
    before: &[Layer<'_>],
    after: &[Layer<'_>],
    edits: &[&[u8]],
) -> Result<Vec<String>, AllocError>
    ensures { IfOk result (λ paths. AreOwn (map settings_of before.now) (map settings_of after.now) (each_of edits.now) (map string_bytes paths.items)) }
{
    let mut keys = Texts::new(alloc);
    for edit in edits {
        add_edit(alloc, before, after, edit, &mut keys)?;
    }
    keys.list()
}

/// The same, as they are handed out: a zero byte after each.
pub fn own_texts(
    alloc: Global,
    before: &[Layer<'_>],
    after: &[Layer<'_>],
    edits: &[&[u8]],
) -> Result<Vec<u8>, AllocError>
    ensures { IfOk result (λ all. (paths : List (List ℕ)) × AreOwn (map settings_of before.now) (map settings_of after.now) (each_of edits.now) paths × (all.items ≡ ended paths)) }
{
    let paths = own_keys(alloc, before, after, edits)?;
    texts_of(alloc, paths.as_slice())
}

/// Adds the keys that an edit is of.
fn add_edit(
    alloc: Global,
    before: &[Layer<'_>],
    after: &[Layer<'_>],
    edit: &[u8],
    keys: &mut Texts,
) -> Result<(), AllocError>
    ensures { OnOk result (keys.new ≡ with_texts (keys_of (map settings_of before.now) (map settings_of after.now) edit.now) keys.old) }
{
    match KeyPath::of_bytes(edit) {
        Some(key) => keys.add(key.as_str()),
        None => match directory_of(edit) {
            Some(directory) => add_both(alloc, before, after, directory, keys),
            None => Ok(()),
        },
    }
}

/// The path of a directory, if the bytes are one.
fn directory_of(bytes: &[u8]) -> Option<DirPath<'_>>
    ensures some { IsSome result ↔ IsDirectoryText bytes.entry.now }
    ensures path { IfSome result (λ path. directory_text path ≡ bytes.entry.now) }
{
    let text = str::from_utf8(bytes).ok()?;
    DirPath::parse(text).ok()
}

/// Adds the keys that the layers have below a directory, before or after.
fn add_both(
    alloc: Global,
    before: &[Layer<'_>],
    after: &[Layer<'_>],
    directory: DirPath<'_>,
    keys: &mut Texts,
) -> Result<(), AllocError>
    ensures { OnOk result (keys.new ≡ with_texts (below_in (map settings_of before.now) (map settings_of after.now) (directory_text directory.entry)) keys.old) }
{
    add_below(alloc, before, directory, keys)?;
    add_below(alloc, after, directory, keys)
}

/// Adds the keys that layers have below a directory.
fn add_below(
    alloc: Global,
    layers: &[Layer<'_>],
    directory: DirPath<'_>,
    keys: &mut Texts,
) -> Result<(), AllocError>
    ensures { OnOk result (keys.new ≡ with_texts (keys_below (all_paths (map settings_of layers.now)) (directory_text directory.entry)) keys.old) }
{
    let found = LentLayers::new(false, layers).keys_below(alloc, directory)?;
    add_found(found.as_slice(), keys)
}

/// Adds the paths of keys that are found.
fn add_found(found: &[SeenKey<'_>], keys: &mut Texts) -> Result<(), AllocError>
    ensures { OnOk result (keys.new ≡ with_texts (map seen_path found.now) keys.old) }
{
    for key in found {
        keys.add(key.path.as_str())?;
    }
    Ok(())
}
