//! Bytes at the type that a text spells.
ghost use Rattle.std.specs.Prelude.{◌≡◌, IfNone, IfSome, None, Some};
ghost use Rattle.gv_model.specs.Ty.{Ty.tuple, Types.end};
ghost use Rattle.gv_model.specs.Tree.{Tree.node, Trees.none};
ghost use Rattle.gv_model.specs.TypeText.{type_at, type_of_text};
ghost use Rattle.gv_model.specs.Decode.{decode};
ghost use Rattle.gv_view.specs.Views.{view_bytes, view_ty};

use gv_types::TypeStr;
use gv_view::View;

/// The bytes at the type that the text spells, if it spells one.
#[tactic(auto, using(crate::proofs::TypedLaws::typed_at, crate::proofs::TypedLaws::untyped))]
pub(crate) fn view_of<'a>(type_text: &'a [u8], bytes: &'a [u8]) -> Option<View<'a>>
    ensures typed { IfSome result (λ v. type_of_text type_text.entry.now ≡ Some (view_ty v)) }
    ensures at_type { IfSome result (λ v. view_ty v ≡ type_at type_text.entry.now) }
    ensures bytes { IfSome result (λ v. view_bytes v ≡ bytes.entry.now) }
    ensures untyped { IfNone result (type_of_text type_text.entry.now ≡ None) }
    ensures nothing { IfNone result (decode (type_at type_text.entry.now) bytes.entry.now ≡ node (tuple end) none) }
{
    let type_str = TypeStr::of_bytes(type_text)?;
    Some(View::new(type_str, bytes))
}
