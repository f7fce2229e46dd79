//! Framing offsets after a container's body, in the least width that serves for all of them (GVariant Specification,
//! "Framing Offsets").
ghost use Rattle.std.specs.Prelude.{◌≡◌, ◌+◌, ◌≤◌, ◌++◌, length, OnOk, IfErr};
ghost use Rattle.std.specs.List.{AllByRecursion};
ghost use Rattle.gv_build.specs.Faults.{limit, IsOverLimit};
ghost use Rattle.gv_build.specs.Writing.{offsets_of};

use crate::buffer::{MAX_LEN, push_number};
use crate::fault::BuildFault;
use gv_layout::least_width;
use gv_view::TooLarge;

/// Appends the offsets after a body of so many bytes.
pub(crate) fn write_offsets(ends: &[u32], body: usize, out: &mut Vec<u8>) -> Result<(), BuildFault>
    requires within { AllByRecursion (λ e. e ≤ body) ends.now }
    requires after { body ≤ length out.old.items }
    requires room { length out.old.items ≤ limit }
    ensures bytes { OnOk result (out.new.items ≡ out.old.items ++ offsets_of body ends.now) }
    ensures fits { OnOk result (length out.new.items ≤ limit) }
    ensures fault { IfErr result (IsOverLimit (length out.old.items + length (offsets_of body ends.now))) }
{
    if ends.len() > MAX_LEN - out.len() {
        return Err(BuildFault::Fault(TooLarge));
    }
    let width = least_width(body, ends.len());
    for end in ends {
        push_number(u64::from(*end), width, out)?;
    }
    Ok(())
}
