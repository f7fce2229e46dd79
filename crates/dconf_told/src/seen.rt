//! What is seen at a key's path through layers, and beside an edit that waits.
ghost use Rattle.std.specs.Prelude.{◌≡◌, ◌↔◌, ◌&&◌, IfSome, IsSome, option_map};
ghost use Rattle.gv_model.specs.TypeText.{type_at};
ghost use Rattle.gv_view.specs.Views.{value, view_bytes, view_ty};
ghost use Rattle.dconf_model.specs.Layers.{visible, without_user};
ghost use Rattle.dconf_path.specs.Paths.{key_text};
ghost use Rattle.dconf_layers.specs.LayerSettings.{seen_in};
ghost use Rattle.dconf_seen.specs.Waiting.{fits_all, may_write, word_numbered};
ghost use Rattle.dconf_told.specs.Types.{SpellsType, stored_for, value_for};

use dconf_layers::{Layer, LentLayers};
use dconf_path::KeyPath;
use dconf_seen::{Shown, Word, shown_as};
use gv_types::TypeStr;
use gv_view::View;

/// What the newest edit says that waits of a key, if one waits: it sets a value, or takes the user's away. One that sets bytes of no
/// type takes it away, too.
#[repr(C)]
#[derive(Clone, Copy)]
pub struct DconfdbWaits<'a> {
    pub value: &'a [u8],
    pub type_text: &'a [u8],
    pub waits: bool,
    pub sets: bool,
}

/// What a key is seen through: the layers of a store, of which the first may be the user's (`writable`), and what waits.
#[repr(C)]
#[derive(Clone, Copy)]
pub struct DconfdbView<'a, 'l> {
    pub layers: &'l [Layer<'a>],
    pub edit: DconfdbWaits<'a>,
    pub writable: bool,
}

impl<'a> DconfdbWaits<'a> {
    ghost use Rattle.dconf_told.specs.Seeing.{edit_value};

    /// The value that it sets.
    fn view(self) -> Option<View<'a>>
        ensures { option_map value result ≡ edit_value self.entry }
    {
        if !self.sets {
            return None;
        }
        view_of(self.type_text, self.value)
    }
}

impl<'a> DconfdbView<'a, '_> {
    ghost use Rattle.dconf_told.specs.Seeing.{shown_to};

    /// The value that is seen, by who asks for that type.
    pub(crate) fn seen(self, path: KeyPath<'_>, type_text: &[u8]) -> Option<View<'a>>
        ensures { option_map value result ≡ shown_to type_text.now self.entry (key_text path.entry) }
    {
        let layers = LentLayers::new(self.writable, self.layers);
        let edit = self.edit.view();
        let word = word_of(self.edit.waits, edit.is_some());
        let counts = counts(self.edit.waits, layers, path);
        let shown = shown_as(word, counts, fits(type_text, edit), true);
        found_at(shown, type_text, layers, path, edit)
    }
}

ghost use Rattle.dconf_told.specs.Seeing.{is_of};

/// The value that is found there. One that is stored is looked up only if it is seen: if it is of another type, it counts as none.
fn found_at<'a>(
    shown: Shown,
    type_text: &[u8],
    layers: LentLayers<'a, '_>,
    path: KeyPath<'_>,
    edit: Option<View<'a>>,
) -> Option<View<'a>>
    ensures { option_map value result ≡ value_for (is_of type_text.now) shown (seen_in layers.entry) (key_text path.entry) (option_map value edit.entry) }
{
    match shown {
        Shown::Stored => stored_for(type_text, layers, path),
        Shown::Default => default_view(layers, path),
        Shown::Edit => edit,
    }
}

/// The value that the layers show, or, if it is of another type, what is seen without the user's.
fn stored_for<'a>(
    type_text: &[u8],
    layers: LentLayers<'a, '_>,
    path: KeyPath<'_>,
) -> Option<View<'a>>
    ensures { option_map value result ≡ stored_for (is_of type_text.now) (seen_in layers.entry) (key_text path.entry) }
{
    let stored = layers.read(path);
    if fits(type_text, stored) {
        return stored;
    }
    default_view(layers, path)
}

/// The bytes at the type that the text spells, if it spells one.
fn view_of<'a>(of: &'a [u8], bytes: &'a [u8]) -> Option<View<'a>>
    ensures some { IsSome result ↔ SpellsType of.now }
    ensures at_type { IfSome result (λ v. view_ty v ≡ type_at of.now) }
    ensures bytes { IfSome result (λ v. view_bytes v ≡ bytes.now) }
{
    let text = str::from_utf8(of).ok()?;
    let type_str = TypeStr::parse(text).ok()?;
    Some(View::new(type_str, bytes))
}

/// Whether what waits of a key counts: something does, and the key may be written.
fn counts(waits: bool, layers: LentLayers<'_, '_>, path: KeyPath<'_>) -> bool
    ensures { result ≡ waits && may_write (seen_in layers.entry) (key_text path.entry) }
{
    waits && layers.writable && !layers.is_locked(path)
}

/// What is seen without the user's value.
fn default_view<'a>(layers: LentLayers<'a, '_>, path: KeyPath<'_>) -> Option<View<'a>>
    ensures { option_map value result ≡ visible (without_user (seen_in layers.entry)) (key_text path.entry) }
{
    let (_, bytes) = layers.default_place(path)?;
    Some(View::of_variant(bytes))
}

fn word_of(waits: bool, sets: bool) -> Word
    ensures { result ≡ word_numbered waits sets }
{
    match (waits, sets) {
        (true, true) => Word::Sets,
        (true, false) => Word::Unset,
        (false, _) => Word::Silent,
    }
}

/// Whether a value is of that type, or there is none.
fn fits(type_text: &[u8], view: Option<View<'_>>) -> bool
    ensures { result ≡ fits_all (is_of type_text.now) (option_map value view.entry) }
{
    match view {
        Some(view) => is_of(type_text, view),
        None => true,
    }
}

/// Whether a value is of that type; of the empty text each is.
fn is_of(type_text: &[u8], view: View<'_>) -> bool
    ensures { result ≡ is_of type_text.now (value view.entry) }
{
    type_text.is_empty() || type_text == view.type_str().as_str().as_bytes()
}
