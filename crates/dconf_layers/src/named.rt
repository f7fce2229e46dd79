//! What is seen at the keys below a directory, by the names of all values, which are brought into order. No directory is searched for,
//! so it doesn't matter how deep a key lies.
ghost use Rattle.std.specs.Prelude.{◌≡◌, ◌∷◌, [], IfOk, IsTrue, OnOk, filter, map, option_map, string_bytes};
ghost use Rattle.std.specs.FinMap.{keys};
ghost use Rattle.std.specs.List.{All};
ghost use Rattle.dconf_model.specs.Layers.{all_paths, visible_bytes};
ghost use Rattle.dconf_model.specs.Locks.{is_below};
ghost use Rattle.dconf_model.specs.Paths.{is_key_path};
ghost use Rattle.dconf_model.specs.Walks.{keys_below};
ghost use Rattle.dconf_path.specs.Paths.{directory_text};
ghost use Rattle.dconf_layers.specs.Entries.{entry_row};
ghost use Rattle.dconf_layers.specs.LayerSettings.{settings_of};
ghost use Rattle.dconf_layers.specs.TextSets.{with_texts};

use crate::entries::Entry;
use crate::layer::Layer;
use crate::layer_lists::is_under;
use crate::lent::LentLayers;
use crate::seen::{ROOM, SeenKey};
use crate::texts::Texts;
use dconf_path::{DirPath, KeyPath};
use std::alloc::{AllocError, Global};

impl<'a> LentLayers<'a, '_> {
    ghost use Rattle.dconf_layers.specs.LayerSettings.{seen_in};
    ghost use Rattle.dconf_layers.specs.Children.{IsShown, seen_path};

    /// The keys below a directory, in byte order, and what is seen at them.
    ///
    /// An error comes if an allocation fails. It names each value of the layers once, and then searches for each key.
    pub(crate) fn named(
        self,
        alloc: Global,
        directory: DirPath<'_>,
    ) -> Result<Vec<SeenKey<'a>>, AllocError>
        ensures found { IfOk result (λ keys. map seen_path keys.items ≡ keys_below (all_paths (seen_in self.entry).layers) (directory_text directory.entry)) }
        ensures shown { IfOk result (λ keys. All (IsShown (seen_in self.entry)) keys.items) }
    {
        let paths = paths_named(alloc, self.layers, directory)?;
        let mut keys = Vec::with_capacity(alloc, paths.len())?;
        for path in paths {
            keys.push(self.seen_at(path))?;
        }
        Ok(keys)
    }

    /// A path, and what is seen there if it is a key's.
    fn seen_at(self, path: String) -> SeenKey<'a>
        ensures path { seen_path result ≡ string_bytes path }
        ensures shown { IsShown (seen_in self.entry) result }
    {
        let bytes = self.bytes_seen(path.as_str());
        SeenKey { path, bytes }
    }

    /// The bytes of the value that is seen at a path, if it is a key's.
    fn bytes_seen(self, path: &str) -> Option<&'a [u8]>
        ensures { IsTrue (is_key_path path.entry.now) → option_map (λ bytes. bytes.now) result ≡ visible_bytes (seen_in self.entry) path.entry.now }
    {
        match KeyPath::parse(path) {
            Ok(path) => {
                let (_, bytes) = self.place(path)?;
                Some(bytes)
            }
            Err(_) => None,
        }
    }
}

/// The paths of the layers' keys below the directory, in byte order, once each.
fn paths_named(
    alloc: Global,
    layers: &[Layer<'_>],
    directory: DirPath<'_>,
) -> Result<Vec<String>, AllocError>
    ensures { IfOk result (λ paths. map string_bytes paths.items ≡ keys_below (all_paths (map settings_of layers.now)) (directory_text directory.entry)) }
{
    let mut paths = Texts::new(alloc);
    add_layers(alloc, layers, directory, &mut paths)?;
    paths.list()
}

/// Adds the paths of the layers' keys below the directory.
fn add_layers(
    alloc: Global,
    layers: &[Layer<'_>],
    directory: DirPath<'_>,
    paths: &mut Texts,
) -> Result<(), AllocError>
    ensures { OnOk result (paths.new ≡ with_texts (filter (λ path. is_below path (directory_text directory.entry)) (all_paths (map settings_of layers.now))) paths.old) }
{
    for layer in layers {
        add_layer(alloc, *layer, directory, paths)?;
    }
    Ok(())
}

/// Adds the paths of a layer's keys below the directory.
fn add_layer(
    alloc: Global,
    layer: Layer<'_>,
    directory: DirPath<'_>,
    paths: &mut Texts,
) -> Result<(), AllocError>
    ensures { OnOk result (paths.new ≡ with_texts (filter (λ path. is_below path (directory_text directory.entry)) (keys (settings_of layer.entry).values)) paths.old) }
{
    for entry in layer.entries() {
        add_entry(alloc, entry, directory, paths)?;
    }
    Ok(())
}

/// Adds an entry's path, if it is below the directory.
fn add_entry(
    alloc: Global,
    entry: Entry<'_>,
    directory: DirPath<'_>,
    paths: &mut Texts,
) -> Result<(), AllocError>
    ensures { OnOk result (paths.new ≡ with_texts (filter (λ path. is_below path (directory_text directory.entry)) ((entry_row entry.entry).0 ∷ [])) paths.old) }
{
    let path = entry.path(alloc)?;
    if is_under(path.as_str(), directory) {
        paths.add_with_room(path.as_str(), ROOM)?;
    }
    Ok(())
}
