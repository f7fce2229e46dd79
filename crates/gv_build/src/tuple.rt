//! Tuples and entries: each member aligned, and after them the ends of those that differ in size, the last member's
//! left out and the first one's last; at a fixed size zero bytes up to it (GVariant Specification, "Structures").
ghost use Rattle.std.specs.Prelude.{◌≡◌, ◌+◌, ◌-◌, ◌≤◌, [], ◌∷◌, ◌++◌, length, OnOk, IfErr};
ghost use Rattle.std.specs.List.{AllByRecursion};
ghost use Rattle.gv_model.specs.Layout.{fixed_size};
ghost use Rattle.gv_model.specs.Encode.{tuple_bytes};
ghost use Rattle.gv_types.specs.TypeStr.{ty};
ghost use Rattle.gv_build.specs.Faults.{limit, IsOverLimit};
ghost use Rattle.gv_build.specs.Writing.{parts_of, open_end, tuple_end};

use crate::buffer::pad;
use crate::fault::BuildFault;
use crate::offsets::write_offsets;
use crate::place::place;
use gv_layout::fixed_size;
use gv_tree::Tree;
use gv_types::TypeStr;
use smallvec::SmallVec;
use std::alloc::AllocFailed;

/// Appends the members of a tuple of this type.
#[cycle(values)]
pub(crate) fn write_tuple(
    of: TypeStr<'_>,
    members: &[Tree],
    out: &mut Vec<u8>,
) -> Result<(), BuildFault>
    requires { length out.old.items ≤ limit }
    ensures bytes { OnOk result (out.new.items
        ≡ out.old.items ++ tuple_bytes (parts_of members.now) (fixed_size (ty of.entry))) }
    ensures fits { OnOk result (length out.new.items ≤ limit) }
    ensures fault { IfErr result (IsOverLimit (length out.old.items
        + length (tuple_bytes (parts_of members.now) (fixed_size (ty of.entry))))) }
{
    match members.split_last() {
        Some((last, before)) => write_members(of, before, last, out),
        None => end_tuple(fixed_size(of), &[], 0, out),
    }
}

/// Appends the members of a tuple or an entry of this type: all but the last, and the last.
#[cycle(values)]
pub(crate) fn write_members(
    of: TypeStr<'_>,
    before: &[Tree],
    last: &Tree,
    out: &mut Vec<u8>,
) -> Result<(), BuildFault>
    requires { length out.old.items ≤ limit }
    ensures bytes { OnOk result (out.new.items
        ≡ out.old.items ++ tuple_bytes (parts_of (before.now ++ last.now ∷ [])) (fixed_size (ty of.entry))) }
    ensures fits { OnOk result (length out.new.items ≤ limit) }
    ensures fault { IfErr result (IsOverLimit (length out.old.items
        + length (tuple_bytes (parts_of (before.now ++ last.now ∷ [])) (fixed_size (ty of.entry))))) }
{
    let start = out.len();
    let mut ends: SmallVec<u32, 8> = SmallVec::new(*out.allocator());
    for member in before {
        place(member, start, out)?;
        push_end(&mut ends, member.type_text(), (out.len() - start) as u32)?;
    }
    place(last, start, out)?;
    ends.reverse();
    end_tuple(fixed_size(of), ends.as_slice(), out.len() - start, out)
}

/// Keeps the end of a member that is of no fixed size.
fn push_end(ends: &mut SmallVec<u32, 8>, of: TypeStr<'_>, end: u32) -> Result<(), AllocFailed<u32>>
    ensures { OnOk result (ends.new.items ≡ ends.old.items ++ open_end (fixed_size (ty of.entry)) end) }
{
    match fixed_size(of) {
        Some(_) => Ok(()),
        None => ends.push(end),
    }
}

/// Appends what comes after a body of so many bytes: zero bytes up to the fixed size, or the ends.
fn end_tuple(
    size: Option<usize>,
    ends: &[u32],
    body: usize,
    out: &mut Vec<u8>,
) -> Result<(), BuildFault>
    requires within { AllByRecursion (λ e. e ≤ body) ends.now }
    requires after { body ≤ length out.old.items }
    requires room { length out.old.items ≤ limit }
    ensures bytes { OnOk result (out.new.items ≡ out.old.items ++ tuple_end size body ends.now) }
    ensures fits { OnOk result (length out.new.items ≤ limit) }
    ensures fault { IfErr result (IsOverLimit (length out.old.items + length (tuple_end size body ends.now))) }
{
    match size {
        Some(size) => pad(out, size.saturating_sub(body)),
        None => write_offsets(ends, body, out),
    }
}
