//! The value that is seen at a path, and locks.
ghost use Rattle.std.specs.Prelude.{◌≡◌, ◌↔◌, ℕ, List, IsTrue, Some, None, false, true};
ghost use Rattle.std.specs.FinMap.{get};
ghost use Rattle.dconf_model.specs.Layers.{is_locked, origin, place_of, visible, visible_bytes, without_user};
ghost use Rattle.dconf_model.specs.Salvaging.{IsKeyText};
ghost use Rattle.dconf_model.specs.Values.{held_value};
ghost use Rattle.dconf_layers.specs.LayerSettings.{settings_of};
ghost use Rattle.dconfdb_calls.specs.Seen.{IsHeldIn, found_value, layers_of};

use dconf_layers::Layer;
use dconfdb_calls::{DconfdbFound, is_key_locked, is_key_writable, read, read_default, read_own};

/// The effective value at a path. False if the bytes are not a key's path, and if no layer gives a
/// value; then `found` stays as it was.
#[unsafe(no_mangle)]
pub extern "C" fn dconfdb_read<'a>(
    layers: &[Layer<'a>],
    path: &[u8],
    found: &mut DconfdbFound<'a>,
) -> bool
    ensures value { IsTrue result → visible (layers_of layers.now true) path.now ≡ Some (found_value found.new) }
    ensures stored { IsTrue result → (bytes : List ℕ) × (visible_bytes (layers_of layers.now true) path.now ≡ Some bytes) × IsHeldIn bytes found.new }
    ensures origin { IsTrue result → origin (layers_of layers.now true) path.now ≡ Some found.new.origin }
    ensures key { IsTrue result → IsKeyText path.now }
    ensures none { result ≡ false → IsKeyText path.now → place_of (layers_of layers.now true) path.now ≡ None }
    ensures kept { result ≡ false → found.new ≡ found.old }
{
    match read(layers, path) {
        Some(seen) => {
            *found = seen;
            true
        }
        None => false,
    }
}

/// As `dconfdb_read`, without the values of the first layer, if that is the user's (`writable`).
#[unsafe(no_mangle)]
pub extern "C" fn dconfdb_read_default<'a>(
    layers: &[Layer<'a>],
    writable: bool,
    path: &[u8],
    found: &mut DconfdbFound<'a>,
) -> bool
    ensures value { IsTrue result → visible (without_user (layers_of layers.now writable)) path.now ≡ Some (found_value found.new) }
    ensures stored { IsTrue result → (bytes : List ℕ) × (visible_bytes (without_user (layers_of layers.now writable)) path.now ≡ Some bytes) × IsHeldIn bytes found.new }
    ensures origin { IsTrue result → origin (without_user (layers_of layers.now writable)) path.now ≡ Some found.new.origin }
    ensures key { IsTrue result → IsKeyText path.now }
    ensures none { result ≡ false → IsKeyText path.now → place_of (without_user (layers_of layers.now writable)) path.now ≡ None }
    ensures kept { result ≡ false → found.new ≡ found.old }
{
    match read_default(layers, writable, path) {
        Some(seen) => {
            *found = seen;
            true
        }
        None => false,
    }
}

/// The value that one layer has at a path, whether or not it is locked: the user's own, of the first. Where it isn't the user's
/// (`is_users`), there is none. Its `origin` is 0. False as for `dconfdb_read`.
#[unsafe(no_mangle)]
pub extern "C" fn dconfdb_read_alone<'a>(
    layer: &Layer<'a>,
    is_users: bool,
    path: &[u8],
    found: &mut DconfdbFound<'a>,
) -> bool
    ensures users { IsTrue result → IsTrue is_users }
    ensures value { IsTrue result → (bytes : List ℕ) × (get (settings_of layer.now).values path.now ≡ Some bytes) × (held_value bytes ≡ Some (found_value found.new)) }
    ensures stored { IsTrue result → (bytes : List ℕ) × (get (settings_of layer.now).values path.now ≡ Some bytes) × IsHeldIn bytes found.new }
    ensures origin { IsTrue result → found.new.origin ≡ 0 }
    ensures key { IsTrue result → IsKeyText path.now }
    ensures none { result ≡ false → IsTrue is_users → IsKeyText path.now → get (settings_of layer.now).values path.now ≡ None }
    ensures kept { result ≡ false → found.new ≡ found.old }
{
    if !is_users {
        return false;
    }
    match read_own(layer, path) {
        Some(own) => {
            *found = own;
            true
        }
        None => false,
    }
}

/// Whether a path is locked: a layer from the second on has a lock that covers it. False if the
/// bytes are not a key's path.
#[unsafe(no_mangle)]
pub extern "C" fn dconfdb_is_locked(layers: &[Layer<'_>], path: &[u8]) -> bool
    ensures { IsTrue result ↔ (IsKeyText path.now × IsTrue (is_locked (layers_of layers.now true) path.now)) }
{
    is_key_locked(layers, path)
}

/// Whether a key may be written: the first layer is the user's (`writable`), and the key is not
/// locked. False if the bytes are not a key's path.
#[unsafe(no_mangle)]
pub extern "C" fn dconfdb_is_writable(layers: &[Layer<'_>], writable: bool, path: &[u8]) -> bool
    ensures { IsTrue result ↔ (IsKeyText path.now × IsTrue writable × (is_locked (layers_of layers.now true) path.now ≡ false)) }
{
    is_key_writable(layers, writable, path)
}
