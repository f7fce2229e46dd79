//! The buffer that is written, which is never grown past the limit.
ghost use Rattle.std.specs.Prelude.{◌≡◌, ◌+◌, ◌<◌, ◌≤◌, ◌^◌, [], ◌∷◌, ◌++◌, length, OnOk, IfErr};
ghost use Rattle.gv_model.specs.Encode.{zeros, number_bytes};
ghost use Rattle.gv_build.specs.Faults.{limit, IsOverLimit};

use crate::fault::BuildFault;
use gv_view::TooLarge;

/// The most bytes of a value.
pub const MAX_LEN: usize = 0xffff_ffff;

/// Appends the bytes, unless there would be too many.
pub(crate) fn push_bytes(out: &mut Vec<u8>, bytes: &[u8]) -> Result<(), BuildFault>
    requires { length out.old.items ≤ limit }
    ensures bytes { OnOk result (out.new.items ≡ out.old.items ++ bytes.now) }
    ensures fits { OnOk result (length out.new.items ≤ limit) }
    ensures fault { IfErr result (IsOverLimit (length out.old.items + length bytes.now)) }
{
    if bytes.len() > MAX_LEN - out.len() {
        return Err(BuildFault::Fault(TooLarge));
    }
    out.extend_from_slice(bytes)?;
    Ok(())
}

/// Appends a byte, unless there would be too many.
pub(crate) fn push_byte(out: &mut Vec<u8>, byte: u8) -> Result<(), BuildFault>
    requires { length out.old.items ≤ limit }
    ensures bytes { OnOk result (out.new.items ≡ out.old.items ++ byte ∷ []) }
    ensures fits { OnOk result (length out.new.items ≤ limit) }
    ensures fault { IfErr result (IsOverLimit (length out.old.items + length (byte ∷ []))) }
{
    if out.len() == MAX_LEN {
        return Err(BuildFault::Fault(TooLarge));
    }
    out.push(byte)?;
    Ok(())
}

/// Appends so many zero bytes, unless there would be too many.
pub(crate) fn pad(out: &mut Vec<u8>, count: usize) -> Result<(), BuildFault>
    requires { length out.old.items ≤ limit }
    ensures bytes { OnOk result (out.new.items ≡ out.old.items ++ zeros count) }
    ensures fits { OnOk result (length out.new.items ≤ limit) }
    ensures fault { IfErr result (IsOverLimit (length out.old.items + count)) }
{
    if count > MAX_LEN - out.len() {
        return Err(BuildFault::Fault(TooLarge));
    }
    out.resize(out.len() + count, 0)?;
    Ok(())
}

/// Appends a number in so many bytes, the lowest first, unless there would be too many.
pub(crate) fn push_number(n: u64, width: usize, out: &mut Vec<u8>) -> Result<(), BuildFault>
    requires width { width ≤ 8 }
    requires number { n < 256 ^ width }
    requires room { length out.old.items ≤ limit }
    ensures bytes { OnOk result (out.new.items ≡ out.old.items ++ number_bytes width n) }
    ensures fits { OnOk result (length out.new.items ≤ limit) }
    ensures fault { IfErr result (IsOverLimit (length out.old.items + length (number_bytes width n))) }
{
    push_bytes(out, &n.to_le_bytes()[..width])
}
