//! Whether a layer's own value is this one.
ghost use Rattle.std.specs.Prelude.{◌≡◌, ◌↔◌, IfErr, IfOk, IsSome, IsTrue, Some, option_map};
ghost use Rattle.std.specs.FinMap.{get};
ghost use Rattle.gv_view.specs.Views.{value};
ghost use Rattle.dconf_model.specs.Salvaging.{IsKeyText};
ghost use Rattle.dconf_layers.specs.LayerSettings.{settings_of};
ghost use Rattle.dconfdb_calls.specs.Stored.{IsStored, own_value};
ghost use Rattle.dconfdb_calls.specs.declared.fault.Fault.TheVariants.{Memory};

use crate::fault::Fault;
use crate::given::{key_path, view_of};
use dconf_differences::show_same;
use dconf_layers::Layer;
use gv_view::View;
use std::alloc::Global;

/// Whether the value that a layer has at a path is this one: of the type that the text spells, and
/// with the same in it, whatever its bytes. False also if the bytes are not a key's path, and if the
/// text spells no type.
///
/// The only error is `Memory`, if an allocation fails. The same bytes at one type are told without
/// memory, and so are other bytes that are normal; other values are decoded.
pub fn is_stored(
    alloc: Global,
    layer: &Layer<'_>,
    path: &[u8],
    value: &[u8],
    type_text: &[u8],
) -> Result<bool, Fault>
    ensures stored { IfOk result (λ is. IsTrue is ↔ IsStored (settings_of layer.now) path.now value.now type_text.now) }
    ensures fault { IfErr result (λ e. e ≡ Memory) }
{
    match (view_of(type_text, value), own_view(layer, path)) {
        (Some(asked), Some(own)) => is_same(alloc, own, asked),
        _ => Ok(false),
    }
}

/// The value that a layer has at a path, if that is a key's.
fn own_view<'a>(layer: &Layer<'a>, path: &[u8]) -> Option<View<'a>>
    ensures key { IsSome result → IsKeyText path.now }
    ensures value { IsKeyText path.now → option_map value result ≡ own_value (settings_of layer.now) path.now }
{
    let path = key_path(path)?;
    let bytes = layer.get(path.as_str())?;
    Some(View::of_variant(bytes))
}

/// Whether two views show the same value.
fn is_same(alloc: Global, own: View<'_>, asked: View<'_>) -> Result<bool, Fault>
    ensures same { IfOk result (λ same. IsTrue same ↔ (value own.entry ≡ value asked.entry)) }
    ensures fault { IfErr result (λ e. e ≡ Memory) }
{
    match show_same(alloc, own, asked) {
        Ok(same) => Ok(same),
        Err(_) => Err(Fault::Memory),
    }
}
