//! Arrays: elements of a fixed size one after the other; others each aligned, with the end of each after them
//! (GVariant Specification, "Arrays").
ghost use Rattle.std.specs.Prelude.{◌≡◌, ◌+◌, ◌≤◌, ◌++◌, length, OnOk, IfErr};
ghost use Rattle.gv_model.specs.Encode.{array_bytes, joined_parts, framed, body_from, ends_from};
ghost use Rattle.gv_types.specs.TypeStr.{ty};
ghost use Rattle.gv_build.specs.Faults.{limit, IsOverLimit};
ghost use Rattle.gv_build.specs.Writing.{parts_of, element_size};

use crate::fault::BuildFault;
use crate::offsets::write_offsets;
use crate::place::place;
use crate::tree::write_tree;
use gv_layout::fixed_size;
use gv_tree::Tree;
use gv_types::TypeStr;
use smallvec::SmallVec;

/// Appends the elements of an array of this type.
#[cycle(values)]
pub(crate) fn write_array(
    of: TypeStr<'_>,
    elements: &[Tree],
    out: &mut Vec<u8>,
) -> Result<(), BuildFault>
    requires { length out.old.items ≤ limit }
    ensures bytes { OnOk result (out.new.items
        ≡ out.old.items ++ array_bytes (parts_of elements.now) (element_size (ty of.entry))) }
    ensures fits { OnOk result (length out.new.items ≤ limit) }
    ensures fault { IfErr result (IsOverLimit (length out.old.items
        + length (array_bytes (parts_of elements.now) (element_size (ty of.entry))))) }
{
    match element_size(of) {
        Some(_) => write_joined(elements, out),
        None => write_framed(elements, out),
    }
}

/// The size of the elements of an array of this type, if they all have one.
pub(crate) fn element_size(of: TypeStr<'_>) -> Option<usize>
    ensures { result ≡ element_size (ty of.entry) }
{
    fixed_size(of.element()?)
}

/// Appends elements of one size.
#[cycle(values)]
fn write_joined(elements: &[Tree], out: &mut Vec<u8>) -> Result<(), BuildFault>
    requires { length out.old.items ≤ limit }
    ensures bytes { OnOk result (out.new.items ≡ out.old.items ++ joined_parts (parts_of elements.now)) }
    ensures fits { OnOk result (length out.new.items ≤ limit) }
    ensures fault { IfErr result (IsOverLimit (length out.old.items + length (joined_parts (parts_of elements.now)))) }
{
    for element in elements {
        write_tree(element, out)?;
    }
    Ok(())
}

/// Appends elements that differ in size, and the end of each.
#[cycle(values)]
fn write_framed(elements: &[Tree], out: &mut Vec<u8>) -> Result<(), BuildFault>
    requires { length out.old.items ≤ limit }
    ensures bytes { OnOk result (out.new.items
        ≡ out.old.items ++ framed (body_from 0 (parts_of elements.now)) (ends_from 0 (parts_of elements.now))) }
    ensures fits { OnOk result (length out.new.items ≤ limit) }
    ensures fault { IfErr result (IsOverLimit (length out.old.items
        + length (framed (body_from 0 (parts_of elements.now)) (ends_from 0 (parts_of elements.now))))) }
{
    let start = out.len();
    let mut ends: SmallVec<u32, 16> = SmallVec::new(*out.allocator());
    for element in elements {
        place(element, start, out)?;
        ends.push((out.len() - start) as u32)?;
    }
    write_offsets(ends.as_slice(), out.len() - start, out)
}
