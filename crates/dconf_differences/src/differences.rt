//! The keys that are seen otherwise through other layers.
ghost use Rattle.std.specs.Prelude.{◌≡◌, ◌↔◌, [], ◌∷◌, ◌++◌, IfOk, IsTrue, OnOk, drop, filter, map, option_map, string_bytes};
ghost use Rattle.std.specs.FinMap.{keys};
ghost use Rattle.gv_view.specs.Views.{value};
ghost use Rattle.dconf_model.specs.Layers.{all_paths};
ghost use Rattle.dconf_path.specs.Paths.{key_text};
ghost use Rattle.dconf_layers.specs.Entries.{entry_row};
ghost use Rattle.dconf_layers.specs.LayerSettings.{settings_of, seen_in};
ghost use Rattle.dconf_layers.specs.TextSets.{with_texts};
ghost use Rattle.dconf_differences.specs.Differing.{AreDiffering, Differs, differs, first_keys, with_first, PassesAlike};

use crate::same_values::show_same;
use crate::twins::Twins;
use dconf_layers::{Entry, Layer, LentLayers, Texts};
use dconf_path::KeyPath;
use gv_view::View;
use std::alloc::{AllocError, Global};

/// The paths of the keys that are seen otherwise through other layers: another value is seen, or one where none was, or a
/// key is locked in one alone. A value in other bytes is the same one. Asked are the keys of the first `count` layers of
/// each: where those after the first are the same, its keys are enough. They are in the order of their bytes, once each.
///
/// An error comes where a growth is refused. It looks at the name of each item of those layers, and reads each key
/// through all; it decodes values whose bytes are not the same.
pub fn differing(
    alloc: Global,
    first: LentLayers<'_, '_>,
    second: LentLayers<'_, '_>,
    count: usize,
) -> Result<Vec<String>, AllocError>
    ensures { IfOk result (λ paths. AreDiffering (seen_in first.entry) (seen_in second.entry)
        (first_keys count (seen_in first.entry) ++ first_keys count (seen_in second.entry)) (map string_bytes paths.items)) }
{
    let mut paths = Texts::new(alloc);
    let pair = Pair { first, second };
    pair.add_all(alloc, count, &mut paths)?;
    paths.list()
}

/// The paths of the keys that would be seen otherwise if the first layer were this one, as [`differing`] gives them. Asked
/// are the keys of the first layer and of this one.
///
/// An error comes where a growth is refused. It compares the items of these two; where they have the same names, each at
/// its place, it names and reads only those between the first and the last whose bytes are not the same.
pub fn differing_first<'a>(
    alloc: Global,
    layers: LentLayers<'a, '_>,
    first: Layer<'a>,
) -> Result<Vec<String>, AllocError>
    ensures { IfOk result (λ paths. AreDiffering (seen_in layers.entry) (with_first (seen_in layers.entry) (settings_of first.entry))
        (first_keys 1 (seen_in layers.entry) ++ keys (settings_of first.entry).values) (map string_bytes paths.items)) }
{
    let mut paths = Texts::new(alloc);
    let others = with_first(alloc, layers, first)?;
    let pair = Pair {
        first: layers,
        second: LentLayers::new(layers.writable, &others),
    };
    pair.add_first(alloc, first, &mut paths)?;
    paths.list()
}

/// The layers with this one as the first.
fn with_first<'a>(
    alloc: Global,
    layers: LentLayers<'a, '_>,
    first: Layer<'a>,
) -> Result<Vec<Layer<'a>>, AllocError>
    ensures { IfOk result (λ made. map settings_of made.items ≡ settings_of first.entry ∷ drop 1 (seen_in layers.entry).layers) }
{
    let mut made = Vec::new(alloc);
    made.push(first)?;
    if let Some((_, others)) = layers.layers.split_first() {
        made.extend_from_slice(others)?;
    }
    Ok(made)
}

/// Whether a key is seen otherwise through the second layers than through the first: another value is seen, or one where none
/// was, or it is locked through one of them alone.
///
/// An error comes where a growth is refused. It reads the key through both; it decodes values whose bytes are not the same.
pub fn differs(
    alloc: Global,
    first: LentLayers<'_, '_>,
    second: LentLayers<'_, '_>,
    path: KeyPath<'_>,
) -> Result<bool, AllocError>
    ensures { IfOk result (λ other. IsTrue other ↔ Differs (seen_in first.entry) (seen_in second.entry) (key_text path.entry)) }
{
    if first.is_locked(path) != second.is_locked(path) {
        return Ok(true);
    }
    let same = is_same(alloc, first.read(path), second.read(path))?;
    Ok(!same)
}

/// Whether the same value is seen, or none both times.
fn is_same(
    alloc: Global,
    first: Option<View<'_>>,
    second: Option<View<'_>>,
) -> Result<bool, AllocError>
    ensures { IfOk result (λ same. IsTrue same ↔ (option_map value first.entry ≡ option_map value second.entry)) }
{
    match (first, second) {
        (Some(first), Some(second)) => show_same(alloc, first, second),
        (None, None) => Ok(true),
        _ => Ok(false),
    }
}

/// Two ways to see layers.
#[derive(Clone, Copy)]
struct Pair<'a, 'l> {
    first: LentLayers<'a, 'l>,
    second: LentLayers<'a, 'l>,
}

impl<'a, 'l> Pair<'a, 'l> {
    /// Adds the keys of the first `count` layers of both that are seen otherwise.
    fn add_all(self, alloc: Global, count: usize, paths: &mut Texts) -> Result<(), AllocError>
        ensures { OnOk result (paths.new ≡ with_texts (filter (differs (seen_in self.entry.first) (seen_in self.entry.second))
            (first_keys count (seen_in self.entry.first) ++ first_keys count (seen_in self.entry.second))) paths.old) }
    {
        self.add_layers(alloc, self.first.prefix(count), paths)?;
        self.add_layers(alloc, self.second.prefix(count), paths)
    }

    /// Adds the keys of the first layers that are seen otherwise, where the second way's is this one, and the others are the same.
    fn add_first(self, alloc: Global, first: Layer<'_>, paths: &mut Texts) -> Result<(), AllocError>
        requires { (seen_in self.second).layers ≡ settings_of first ∷ drop 1 (seen_in self.first).layers }
        ensures { OnOk result (paths.new ≡ with_texts (filter (differs (seen_in self.entry.first) (seen_in self.entry.second))
            (first_keys 1 (seen_in self.entry.first) ++ keys (settings_of first.entry).values)) paths.old) }
    {
        let Some((layer, _)) = self.first.layers.split_first() else {
            return self.add_layer(alloc, first, paths);
        };
        let twins = Twins::new(*layer, first);
        self.add_twin(alloc, twins, paths)?;
        self.add_twin(alloc, twins.turned(), paths)
    }

    /// Adds those of a layer, where what the other has as it has it is seen alike.
    fn add_twin(self, alloc: Global, twins: Twins<'_>, paths: &mut Texts) -> Result<(), AllocError>
        requires { PassesAlike (differs (seen_in self.first) (seen_in self.second)) (settings_of twins.layer) (settings_of twins.other) }
        ensures { OnOk result (paths.new ≡ with_texts (filter (differs (seen_in self.entry.first) (seen_in self.entry.second)) (keys (settings_of twins.entry.layer).values)) paths.old) }
    {
        for entry in twins.entries() {
            if !entry.is_in(twins.other) {
                self.add_entry(alloc, entry, paths)?;
            }
        }
        Ok(())
    }

    /// Adds the keys of layers that are seen otherwise through the second than through the first.
    fn add_layers(
        self,
        alloc: Global,
        layers: LentLayers<'_, '_>,
        paths: &mut Texts,
    ) -> Result<(), AllocError>
        ensures { OnOk result (paths.new ≡ with_texts (filter (differs (seen_in self.entry.first) (seen_in self.entry.second)) (all_paths (seen_in layers.entry).layers)) paths.old) }
    {
        for layer in layers.layers {
            self.add_layer(alloc, *layer, paths)?;
        }
        Ok(())
    }

    /// Adds those of a layer.
    fn add_layer(self, alloc: Global, layer: Layer<'_>, paths: &mut Texts) -> Result<(), AllocError>
        ensures { OnOk result (paths.new ≡ with_texts (filter (differs (seen_in self.entry.first) (seen_in self.entry.second)) (keys (settings_of layer.entry).values)) paths.old) }
    {
        for entry in layer.entries() {
            self.add_entry(alloc, entry, paths)?;
        }
        Ok(())
    }

    /// Adds an entry's path, if it is such a key.
    fn add_entry(self, alloc: Global, entry: Entry<'_>, paths: &mut Texts) -> Result<(), AllocError>
        ensures { OnOk result (paths.new ≡ with_texts (filter (differs (seen_in self.entry.first) (seen_in self.entry.second)) ((entry_row entry.entry).0 ∷ [])) paths.old) }
    {
        let path = entry.path(alloc)?;
        let key = KeyPath::parse(path.as_str()).unwrap();
        if !self.differs(alloc, key)? {
            return Ok(());
        }
        paths.add(path.as_str())
    }

    /// Whether a key is seen otherwise.
    fn differs(self, alloc: Global, key: KeyPath<'_>) -> Result<bool, AllocError>
        ensures { IfOk result (λ is. is ≡ differs (seen_in self.entry.first) (seen_in self.entry.second) (key_text key.entry)) }
    {
        differs(alloc, self.first, self.second, key)
    }
}
