//! Any value, by what it is made of.
ghost use Rattle.std.specs.Prelude.{◌≡◌, ◌+◌, ◌≤◌, ◌++◌, length, OnOk, IfErr};
ghost use Rattle.gv_model.specs.Encode.{encode};
ghost use Rattle.gv_build.specs.Faults.{limit, IsOverLimit};

use crate::array::write_array;
use crate::basic::write_basic;
use crate::fault::BuildFault;
use crate::maybe::end_just;
use crate::tuple::{write_members, write_tuple};
use crate::variant::end_variant;
use gv_tree::{Shape, Tree};
use std::slice;

/// Appends a value.
#[cycle(values)]
pub(crate) fn write_tree(tree: &Tree, out: &mut Vec<u8>) -> Result<(), BuildFault>
    requires { length out.old.items ≤ limit }
    ensures bytes { OnOk result (out.new.items ≡ out.old.items ++ encode tree.now) }
    ensures fits { OnOk result (length out.new.items ≤ limit) }
    ensures fault { IfErr result (IsOverLimit (length out.old.items + length (encode tree.now))) }
{
    match tree.shape() {
        Shape::Basic(value) => write_basic(value, out),
        Shape::Maybe(None) => Ok(()),
        Shape::Maybe(Some(child)) => {
            write_tree(child, out)?;
            end_just(child.type_text(), out)
        }
        Shape::Array(elements) => write_array(tree.type_text(), elements, out),
        Shape::Tuple(members) => write_tuple(tree.type_text(), members, out),
        Shape::Entry(key, value) => {
            write_members(tree.type_text(), slice::from_ref(key), value, out)
        }
        Shape::Variant(child) => {
            write_tree(child, out)?;
            end_variant(child.type_text(), out)
        }
    }
}
