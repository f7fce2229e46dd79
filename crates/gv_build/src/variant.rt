//! Variants: the value, a zero byte, and the text of the value's type (GVariant Specification, "Variants").
ghost use Rattle.std.specs.Prelude.{◌≡◌, ◌+◌, ◌≤◌, ◌++◌, ◌∷◌, length, OnOk, IfErr};
ghost use Rattle.gv_model.specs.Ty.{spelling};
ghost use Rattle.gv_types.specs.TypeStr.{ty};
ghost use Rattle.gv_build.specs.Faults.{limit, IsOverLimit};

use crate::buffer::{push_byte, push_bytes};
use crate::fault::BuildFault;
use gv_types::TypeStr;

/// Appends what comes after a value of this type in a variant.
pub(crate) fn end_variant(of: TypeStr<'_>, out: &mut Vec<u8>) -> Result<(), BuildFault>
    requires { length out.old.items ≤ limit }
    ensures bytes { OnOk result (out.new.items ≡ out.old.items ++ 0 ∷ spelling (ty of.entry)) }
    ensures fits { OnOk result (length out.new.items ≤ limit) }
    ensures fault { IfErr result (IsOverLimit (length out.old.items + length (0 ∷ spelling (ty of.entry)))) }
{
    push_byte(out, 0)?;
    push_bytes(out, of.as_str().as_bytes())
}
