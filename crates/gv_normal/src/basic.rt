//! Numbers and texts (GVariant Specification, "Serialisation of Base Types").
ghost use Rattle.std.specs.Prelude.{◌≡◌, ◌↔◌, suc, IsTrue, Some, None, length};
ghost use Rattle.gv_model.specs.Ty.{Ty.basic};
ghost use Rattle.gv_model.specs.Layout.{basic_size};
ghost use Rattle.gv_types.specs.Classes.{basic_of};
ghost use Rattle.gv_model.specs.Normal.{IsEncoded};

use gv_types::{BasicType, is_object_path, is_signature};
use gv_view::text_in;

/// Whether bytes of the type's size are normal: a boolean is 0 or 1.
pub(crate) fn is_normal_number(of: BasicType, bytes: &[u8]) -> bool
    requires { basic_size (basic_of of) ≡ Some (length bytes.now) }
    ensures { IsTrue result ↔ IsEncoded (basic (basic_of of)) bytes.now }
{
    match of {
        BasicType::Boolean => bytes[0] <= 1,
        _ => true,
    }
}

/// Whether bytes are a text of the type with a zero byte at its end.
pub(crate) fn is_normal_text(of: BasicType, bytes: &[u8]) -> bool
    requires { basic_size (basic_of of) ≡ None }
    ensures { IsTrue result ↔ IsEncoded (basic (basic_of of)) bytes.now }
{
    let Some(text) = text_in(bytes) else {
        return false;
    };
    match of {
        BasicType::ObjectPath => is_object_path(text),
        BasicType::Signature => is_signature(text),
        _ => true,
    }
}
