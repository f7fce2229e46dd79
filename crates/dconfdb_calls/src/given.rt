//! What C lends, and what it is handed.
ghost use Rattle.std.specs.Prelude.{◌≡◌, ◌↔◌, IfSome, IsSome};
ghost use Rattle.gv_model.specs.TypeText.{type_at};
ghost use Rattle.gv_view.specs.Views.{view_bytes, view_ty};
ghost use Rattle.dconf_path.specs.Paths.{directory_text, key_text};
ghost use Rattle.dconf_model.specs.Salvaging.{IsKeyText};
ghost use Rattle.dconfdb_calls.specs.Given.{HandsOut, IsDirectory, SpellsType};

use dconf_path::{DirPath, KeyPath};
use gv_types::TypeStr;
use gv_view::View;

/// The path of a key, if the bytes are one.
#[inline(always)]
pub(crate) fn key_path(bytes: &[u8]) -> Option<KeyPath<'_>>
    ensures some { IsSome result ↔ IsKeyText bytes.entry.now }
    ensures path { IfSome result (λ path. key_text path ≡ bytes.entry.now) }
{
    KeyPath::of_bytes(bytes)
}

/// The path of a directory, if the bytes are one.
pub(crate) fn directory_path(bytes: &[u8]) -> Option<DirPath<'_>>
    ensures some { IsSome result ↔ IsDirectory bytes.entry.now }
    ensures path { IfSome result (λ path. directory_text path ≡ bytes.entry.now) }
{
    let text = str::from_utf8(bytes).ok()?;
    DirPath::parse(text).ok()
}

/// The bytes at the type that the text spells, if it spells one.
pub(crate) fn view_of<'a>(of: &'a [u8], bytes: &'a [u8]) -> Option<View<'a>>
    ensures some { IsSome result ↔ SpellsType of.now }
    ensures at_type { IfSome result (λ v. view_ty v ≡ type_at of.now) }
    ensures bytes { IfSome result (λ v. view_bytes v ≡ bytes.now) }
{
    let text = str::from_utf8(of).ok()?;
    let type_str = TypeStr::parse(text).ok()?;
    Some(View::new(type_str, bytes))
}

/// Copies the items to the start of the room, and says how many they are. A room that is too short
/// for all of them stays as it was.
pub fn hand_out<T: Copy>(items: &[T], room: &mut [T]) -> usize
    ensures { HandsOut items.now room.old room.new result }
{
    if items.len() <= room.len() {
        let (prefix, _) = room.split_at_mut(items.len());
        prefix.copy_from_slice(items);
    }
    items.len()
}
