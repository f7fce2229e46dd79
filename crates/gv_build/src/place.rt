//! Children in their places, each after padding to its alignment (GVariant Specification, "Alignment").
ghost use Rattle.std.specs.Prelude.{◌≡◌, ◌+◌, ◌-◌, ◌≤◌, ◌++◌, length, OnOk, IfErr};
ghost use Rattle.gv_build.specs.Faults.{limit, IsOverLimit};
ghost use Rattle.gv_build.specs.Writing.{own_part, placed_bytes};

use crate::buffer::pad;
use crate::fault::BuildFault;
use crate::tree::write_tree;
use gv_layout::{alignment, round_up};
use gv_tree::Tree;

/// Appends a child of the container that starts there, and zero bytes before it up to its alignment.
#[cycle(values)]
pub(crate) fn place(child: &Tree, start: usize, out: &mut Vec<u8>) -> Result<(), BuildFault>
    requires started { start ≤ length out.old.items }
    requires room { length out.old.items ≤ limit }
    ensures bytes { OnOk result (out.new.items
        ≡ out.old.items ++ placed_bytes (length out.old.items - start) (own_part child.now)) }
    ensures fits { OnOk result (length out.new.items ≤ limit) }
    ensures fault { IfErr result (IsOverLimit
        (length out.old.items + length (placed_bytes (length out.old.items - start) (own_part child.now)))) }
{
    let at = out.len() - start;
    pad(out, round_up(at, alignment(child.type_text())) - at)?;
    write_tree(child, out)
}
