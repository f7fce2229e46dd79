//! Basic values: numbers with the lowest byte first, texts with a zero byte after them (GVariant Specification,
//! "Serialisation of Base Types").
ghost use Rattle.std.specs.Prelude.{◌≡◌, ◌+◌, ◌≤◌, ◌++◌, [], ◌∷◌, length, OnOk, IfErr};
ghost use Rattle.gv_model.specs.Encode.{encode, number_bytes};
ghost use Rattle.gv_model.specs.BasicValue.{number_in};
ghost use Rattle.gv_tree.specs.Basics.{basic_tree};
ghost use Rattle.gv_build.specs.Faults.{limit, IsOverLimit};

use crate::buffer::{push_byte, push_bytes, push_number};
use crate::fault::BuildFault;
use gv_tree::Basic;

/// Appends a basic value.
#[tactic(auto, unfolding(gv_model::specs::Encode::encode))]
pub(crate) fn write_basic(value: &Basic, out: &mut Vec<u8>) -> Result<(), BuildFault>
    requires { length out.old.items ≤ limit }
    ensures bytes { OnOk result (out.new.items ≡ out.old.items ++ encode (basic_tree value.now)) }
    ensures fits { OnOk result (length out.new.items ≤ limit) }
    ensures fault { IfErr result (IsOverLimit (length out.old.items + length (encode (basic_tree value.now)))) }
{
    match value {
        Basic::Bool(truth) => push_number(u64::from(*truth), 1, out),
        Basic::Byte(n) => push_number(u64::from(*n), 1, out),
        Basic::Int16(n) => push_number(u64::from(n.cast_unsigned()), 2, out),
        Basic::Uint16(n) => push_number(u64::from(*n), 2, out),
        Basic::Int32(n) => push_number(u64::from(n.cast_unsigned()), 4, out),
        Basic::Uint32(n) => push_number(u64::from(*n), 4, out),
        Basic::Int64(n) => push_number(n.cast_unsigned(), 8, out),
        Basic::Uint64(n) => push_number(*n, 8, out),
        Basic::HandleNo(n) => push_number(u64::from(n.cast_unsigned()), 4, out),
        Basic::DoubleBits(bytes) => write_double(*bytes, out),
        Basic::Text(text) => write_text(text, out),
        Basic::ObjectPath(text) => write_text(text, out),
        Basic::Signature(text) => write_text(text, out),
    }
}

/// Appends the eight bytes of a double.
fn write_double(bytes: [u8; 8], out: &mut Vec<u8>) -> Result<(), BuildFault>
    requires { length out.old.items ≤ limit }
    ensures bytes { OnOk result (out.new.items ≡ out.old.items ++ number_bytes 8 (number_in bytes)) }
    ensures fits { OnOk result (length out.new.items ≤ limit) }
    ensures fault { IfErr result (IsOverLimit (length out.old.items + length (number_bytes 8 (number_in bytes)))) }
{
    push_bytes(out, &bytes)
}

/// Appends a text and a zero byte.
fn write_text(text: &str, out: &mut Vec<u8>) -> Result<(), BuildFault>
    requires { length out.old.items ≤ limit }
    ensures bytes { OnOk result (out.new.items ≡ out.old.items ++ (text.now ++ 0 ∷ [])) }
    ensures fits { OnOk result (length out.new.items ≤ limit) }
    ensures fault { IfErr result (IsOverLimit (length out.old.items + length (text.now ++ 0 ∷ []))) }
{
    push_bytes(out, text.as_bytes())?;
    push_byte(out, 0)
}
