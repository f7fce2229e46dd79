//! Values that carry their type (GVariant Specification, "Variants").
ghost use Rattle.std.specs.Prelude.{◌≡◌, Some, option_map, slice_get};
ghost use Rattle.gv_model.specs.Ty.{Ty.variant, Ty.tuple, Types.end};
ghost use Rattle.gv_model.specs.Tree.{children, tree_at};
ghost use Rattle.gv_model.specs.Decode.{cut, decode};
ghost use Rattle.gv_types.specs.TypeStr.{ty};
ghost use Rattle.gv_view.specs.Views.{shown};
ghost use Rattle.gv_view.specs.Variants.{held};

use crate::text::around_last_zero;
use crate::view::View;
use gv_types::TypeStr;

impl<'a> View<'a> {
    ghost use Rattle.gv_view.specs.Views.{value, Lends};

    /// The value that a variant of these bytes holds: its type's text comes after the last zero byte. Where there
    /// is none, or no type after it, it is `()`.
    ///
    /// It looks for the zero byte from the end, and at each byte of the type's text once.
    pub fn of_variant(bytes: &'a [u8]) -> View<'a>
        ensures lends { Lends bytes.entry.now (slice_get (cut variant bytes.entry.now) 0) (Some result) }
        ensures value { tree_at (children (decode variant bytes.entry.now)) 0 ≡ Some (value result) }
    {
        match held_in_variant(bytes) {
            Some(held) => held,
            None => View::new(unit_type(), &[]),
        }
    }
}

/// The bytes before the last zero byte, at the type whose text comes after it, or None where there is no zero byte, or no
/// type after the last one.
///
/// It looks for the zero byte from the end, and at each byte of the type's text once.
pub fn held_in_variant(bytes: &[u8]) -> Option<View<'_>>
    ensures { option_map shown result ≡ held bytes.now }
{
    let (value, text) = around_last_zero(bytes)?;
    Some(View::new(TypeStr::of_bytes(text)?, value))
}

/// The type `()`.
fn unit_type<'a>() -> TypeStr<'a>
    ensures { ty result ≡ tuple end }
{
    TypeStr::parse("()").unwrap()
}
