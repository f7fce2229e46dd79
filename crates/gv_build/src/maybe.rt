//! Maybes: the value alone, with a zero byte after it where values differ in size, and no byte for Nothing (GVariant
//! Specification, "Maybes").
ghost use Rattle.std.specs.Prelude.{◌≡◌, ◌+◌, ◌≤◌, ◌++◌, length, OnOk, IfErr};
ghost use Rattle.gv_model.specs.Layout.{fixed_size};
ghost use Rattle.gv_types.specs.TypeStr.{ty};
ghost use Rattle.gv_build.specs.Faults.{limit, IsOverLimit};
ghost use Rattle.gv_build.specs.Writing.{just_end};

use crate::buffer::push_byte;
use crate::fault::BuildFault;
use gv_layout::fixed_size;
use gv_types::TypeStr;

/// Appends what comes after a value of this type in a maybe.
pub(crate) fn end_just(of: TypeStr<'_>, out: &mut Vec<u8>) -> Result<(), BuildFault>
    requires { length out.old.items ≤ limit }
    ensures bytes { OnOk result (out.new.items ≡ out.old.items ++ just_end (fixed_size (ty of.entry))) }
    ensures fits { OnOk result (length out.new.items ≤ limit) }
    ensures fault { IfErr result (IsOverLimit (length out.old.items + length (just_end (fixed_size (ty of.entry))))) }
{
    match fixed_size(of) {
        Some(_) => Ok(()),
        None => push_byte(out, 0),
    }
}
