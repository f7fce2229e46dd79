//! The value that is seen at a path, and locks.
ghost use Rattle.std.specs.Prelude.{◌≡◌, ◌↔◌, ℕ, List, IfSome, IsSome, IsTrue, Some, None, false, true};
ghost use Rattle.std.specs.FinMap.{get};
ghost use Rattle.dconf_model.specs.Layers.{is_locked, origin, place_of, visible, visible_bytes, without_user};
ghost use Rattle.dconf_model.specs.Salvaging.{IsKeyText};
ghost use Rattle.dconf_model.specs.Values.{held_value};
ghost use Rattle.dconf_layers.specs.LayerSettings.{settings_of};
ghost use Rattle.dconfdb_calls.specs.Seen.{IsHeldIn, found_value, layers_of};

use crate::given::key_path;
use dconf_layers::{Layer, LentLayers};
use gv_view::View;

/// A value that was found: its bytes and the text of its type, both lent from the file of its
/// layer, and the index of that layer. libdconfdb's own value has this layout, so that it is filled
/// in place.
#[repr(C)]
#[derive(Clone, Copy)]
pub struct DconfdbFound<'a> {
    pub value: &'a [u8],
    pub type_text: &'a [u8],
    pub origin: usize,
}

/// The effective value at a path: the bytes as they are stored, and their type. None if the bytes
/// are not a key's path, or no layer gives a value.
///
/// It asks each layer, from the last on, whether it locks the path, and then each layer from there
/// on for its value. It allocates nothing.
pub fn read<'a>(layers: &[Layer<'a>], path: &[u8]) -> Option<DconfdbFound<'a>>
    ensures value { IfSome result (λ found. visible (layers_of layers.now true) path.now ≡ Some (found_value found)) }
    ensures stored { IfSome result (λ found. (bytes : List ℕ) × (visible_bytes (layers_of layers.now true) path.now ≡ Some bytes) × IsHeldIn bytes found) }
    ensures origin { IfSome result (λ found. origin (layers_of layers.now true) path.now ≡ Some found.origin) }
    ensures key { IsSome result → IsKeyText path.now }
    ensures none { result ≡ None → IsKeyText path.now → place_of (layers_of layers.now true) path.now ≡ None }
{
    let (origin, bytes) = LentLayers::new(true, layers).place_of_bytes(path)?;
    Some(found_in(origin, bytes))
}

/// As [`read`], without the values of the first layer, if that is the user's (`writable`).
pub fn read_default<'a>(
    layers: &[Layer<'a>],
    writable: bool,
    path: &[u8],
) -> Option<DconfdbFound<'a>>
    ensures value { IfSome result (λ found. visible (without_user (layers_of layers.now writable)) path.now ≡ Some (found_value found)) }
    ensures stored { IfSome result (λ found. (bytes : List ℕ) × (visible_bytes (without_user (layers_of layers.now writable)) path.now ≡ Some bytes) × IsHeldIn bytes found) }
    ensures origin { IfSome result (λ found. origin (without_user (layers_of layers.now writable)) path.now ≡ Some found.origin) }
    ensures key { IsSome result → IsKeyText path.now }
    ensures none { result ≡ None → IsKeyText path.now → place_of (without_user (layers_of layers.now writable)) path.now ≡ None }
{
    let path = key_path(path)?;
    let (origin, bytes) = LentLayers::new(writable, layers).default_place(path)?;
    Some(found_in(origin, bytes))
}

/// The value that one layer has at a path, whether or not it is locked; `origin` is 0. None if the
/// bytes are not a key's path, or the layer has no value there.
pub fn read_own<'a>(layer: &Layer<'a>, path: &[u8]) -> Option<DconfdbFound<'a>>
    ensures value { IfSome result (λ found. (bytes : List ℕ) × (get (settings_of layer.now).values path.now ≡ Some bytes) × (held_value bytes ≡ Some (found_value found))) }
    ensures stored { IfSome result (λ found. (bytes : List ℕ) × (get (settings_of layer.now).values path.now ≡ Some bytes) × IsHeldIn bytes found) }
    ensures origin { IfSome result (λ found. found.origin ≡ 0) }
    ensures key { IsSome result → IsKeyText path.now }
    ensures none { result ≡ None → IsKeyText path.now → get (settings_of layer.now).values path.now ≡ None }
{
    let path = key_path(path)?;
    let bytes = layer.get(path.as_str())?;
    Some(found_in(0, bytes))
}

/// Whether a path is locked: a layer from the second on has a lock that covers it. False if the
/// bytes are not a key's path.
pub fn is_key_locked(layers: &[Layer<'_>], path: &[u8]) -> bool
    ensures { IsTrue result ↔ (IsKeyText path.now × IsTrue (is_locked (layers_of layers.now true) path.now)) }
{
    match key_path(path) {
        Some(path) => LentLayers::new(true, layers).is_locked(path),
        None => false,
    }
}

/// Whether a key may be written: the first layer is the user's (`writable`), and the key is not
/// locked. False if the bytes are not a key's path.
pub fn is_key_writable(layers: &[Layer<'_>], writable: bool, path: &[u8]) -> bool
    ensures { IsTrue result ↔ (IsKeyText path.now × IsTrue writable × (is_locked (layers_of layers.now true) path.now ≡ false)) }
{
    match key_path(path) {
        Some(path) => writable && !LentLayers::new(true, layers).is_locked(path),
        None => false,
    }
}

/// What a stored variant holds, found in that layer.
#[inline(always)]
fn found_in<'a>(origin: usize, bytes: &'a [u8]) -> DconfdbFound<'a>
    ensures value { held_value bytes.entry.now ≡ Some (found_value result) }
    ensures held { IsHeldIn bytes.entry.now result }
    ensures origin { result.origin ≡ origin }
{
    let view = View::of_variant(bytes);
    DconfdbFound {
        value: view.bytes(),
        type_text: view.type_str().as_str().as_bytes(),
        origin,
    }
}
