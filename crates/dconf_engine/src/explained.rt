//! What each layer has for a key, locked or not: what explains the value that is seen.
ghost use Rattle.std.specs.Prelude.{◌≡◌, option_and_then, option_map, slice_get};
ghost use Rattle.std.specs.FinMap.{get};
ghost use Rattle.gv_view.specs.Views.{value};
ghost use Rattle.dconf_model.specs.Explains.{lock_in, value_in};
ghost use Rattle.dconf_path.specs.Paths.{key_text};
ghost use Rattle.dconf_layers.specs.LayerSettings.{settings_of};
ghost use Rattle.dconf_engine.specs.Unsaved.{with_changes};

use crate::changes::Changes;
use crate::engine::Engine;
use dconf_layers::Layer;
use dconf_path::KeyPath;
use gv_view::View;

impl Engine<'_> {
    /// The value that the layer with this index has at a path, seen or not, or None where it has none. It is one search.
    pub fn value_in(&self, i: usize, path: KeyPath<'_>) -> Option<View<'_>>
        ensures { value_in self.now (key_text path.entry) i ≡ option_map value result }
    {
        let bytes = self.bytes_in(i, path)?;
        Some(View::of_variant(bytes))
    }

    /// The bytes of that value.
    fn bytes_in(&self, i: usize, path: KeyPath<'_>) -> Option<&[u8]>
        ensures { option_map (λ bytes. bytes.now) result ≡ option_and_then (λ s. get s.values (key_text path.entry)) (slice_get self.now.layers i) }
    {
        let Some(layer) = self.layers.get(i) else {
            return None;
        };
        if i == 0 {
            changed_bytes(&self.changes, *layer, path)
        } else {
            layer.get(path.as_str())
        }
    }

    /// The lock by which the layer with this index locks a key, or None where it doesn't: the key's own path where that is
    /// locked, else the nearest directory. The first layer locks nothing.
    ///
    /// It searches for the path, and for each of its directories.
    pub fn lock_in<'p>(&self, i: usize, path: KeyPath<'p>) -> Option<&'p str>
        ensures { option_map (λ lock. lock.now) result ≡ lock_in self.now (key_text path.entry) i }
    {
        if i == 0 {
            return None;
        }
        match self.layers.get(i) {
            Some(layer) => layer.lock_of(path),
            None => None,
        }
    }
}

/// The bytes of a layer's value at a path: those of a change where there is one, else those of its file.
fn changed_bytes<'l>(changes: &'l Changes, layer: Layer<'l>, path: KeyPath<'_>) -> Option<&'l [u8]>
    ensures { option_map (λ bytes. bytes.now) result ≡ get (with_changes changes.now (settings_of layer.entry).values) (key_text path.entry) }
{
    match changes.get(path.as_str()) {
        Some(edit) => edit.bytes(),
        None => layer.get(path.as_str()),
    }
}
