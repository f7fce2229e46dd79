//! Files as those who noted what they set left them; and numbers that stand for values.
ghost use Rattle.std.specs.Prelude.{◌≡◌, ◌≢◌, ℕ, List, None, Some};
ghost use Rattle.std.specs.FinMap.{get};
ghost use Rattle.dconf_model.specs.Salvaging.{IsKeyText};
ghost use Rattle.dconf_layers.specs.LayerSettings.{settings_of};
ghost use Rattle.dconf_left.specs.Changes.{nanoseconds};
ghost use Rattle.dconf_left.specs.Left.{left_state, state_number};
ghost use Rattle.dconf_left.specs.Numbers.{value_number};
ghost use Rattle.dconfdb_calls.specs.Seen.{IsHeldIn};
ghost use Rattle.dconfdb_calls.specs.declared.values.DconfdbFound.{DconfdbFound};

use dconf_files::{FileStamp, FileTime};
use dconf_layers::Layer;
use dconf_left::{nanoseconds, state_number, value_number};
use dconfdb_calls::read_own;

/// Whether the file of a name was left as it is, by the bytes of those that were: 0 nobody left it so,
/// 1 one did, 2 it was on the disk then.
#[unsafe(no_mangle)]
pub extern "C" fn dconfdb_left_state(left: &[u8], name: &[u8], file: &FileStamp) -> u32
    ensures { result ≡ state_number (left_state left.now name.now file.now) }
{
    state_number(left, name, file)
}

/// The nanoseconds of a time since the beginning of its clock: none of one before that, which is a negative number of seconds; and of one that is too late for
/// 64 bits those that they hold.
#[unsafe(no_mangle)]
pub extern "C" fn dconfdb_nanoseconds(time: &FileTime) -> u64
    ensures { result ≡ nanoseconds time.now }
{
    nanoseconds(*time)
}

/// A number for the value that one layer has at a path, whether or not it is locked: of its type and its
/// bytes. 0 if the bytes are not a key's path, and if there is none.
#[unsafe(no_mangle)]
pub extern "C" fn dconfdb_value_number(layer: &Layer<'_>, path: &[u8]) -> u64
    ensures some { result ≢ 0 → (bytes : List ℕ) × (found : DconfdbFound) × (get (settings_of layer.now).values path.now ≡ Some bytes) × IsHeldIn bytes found × (result ≡ value_number found.type_text.now found.value.now) }
    ensures key { result ≢ 0 → IsKeyText path.now }
    ensures none { result ≡ 0 → IsKeyText path.now → get (settings_of layer.now).values path.now ≡ None }
{
    match read_own(layer, path) {
        Some(own) => value_number(own.type_text, own.value),
        None => 0,
    }
}
