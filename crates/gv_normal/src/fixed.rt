//! Values of a fixed size: numbers, and tuples and entries of them (GVariant Specification, "Fixed Size").
ghost use Rattle.std.specs.Prelude.{◌≡◌, ◌≤◌, ◌<◌, ◌+◌, ◌^◌, ◌↔◌, suc, IsTrue, Some, length};
ghost use Rattle.gv_model.specs.Ty.{spelling};
ghost use Rattle.gv_model.specs.Layout.{fixed_size};
ghost use Rattle.gv_types.specs.TypeStr.{ty};
ghost use Rattle.gv_normal.specs.InPlace.{IsNormalWithin, HasMembers};
ghost use Rattle.gv_model.specs.Tree.{nodes};
ghost use Rattle.gv_model.specs.Decode.{decode};

use crate::basic::is_normal_number;
use crate::padding::{are_zero, lies_after};
use gv_layout::{round_up, type_info};
use gv_types::{Class, Steps, TypeStr};

/// Whether bytes of the type's size are normal, and no deeper than so many levels.
#[cycle(fixed)]
pub(crate) fn is_normal_fixed(of: TypeStr<'_>, bytes: &[u8], levels: u8, steps: &mut Steps) -> bool
    requires size { fixed_size (ty of) ≡ Some (length bytes.now) }
    requires room { steps.old + length (spelling (ty of)) < 2 ^ 128 }
    ensures normal { IsTrue result ↔ IsNormalWithin levels (ty of.entry) bytes.now }
    ensures few { steps.new ≤ steps.old + length (spelling (ty of.entry)) }
    ensures exact { IsTrue result → steps.new ≡ steps.old + nodes (decode (ty of.entry) bytes.now) }
    ensures grows { steps.old ≤ steps.new }
{
    steps.tick();
    let Some(below) = levels.checked_sub(1) else {
        return false;
    };
    match of.class() {
        Class::Basic(basic) => is_normal_number(basic, bytes),
        _ => are_normal_fixed(of, bytes, below, steps),
    }
}

/// Whether the members of a value of a fixed size are normal, and no deeper than so many levels, and all other bytes
/// zero.
#[cycle(fixed)]
fn are_normal_fixed(of: TypeStr<'_>, bytes: &[u8], levels: u8, steps: &mut Steps) -> bool
    requires kind { HasMembers (ty of) }
    requires size { fixed_size (ty of) ≡ Some (length bytes.now) }
    requires room { steps.old + length (spelling (ty of)) ≤ 2 ^ 128 }
    ensures normal { IsTrue result ↔ IsNormalWithin (suc levels) (ty of.entry) bytes.now }
    ensures few { steps.new + 1 ≤ steps.old + length (spelling (ty of.entry)) }
    ensures exact { IsTrue result → steps.new + 1 ≡ steps.old + nodes (decode (ty of.entry) bytes.now) }
    ensures grows { steps.old ≤ steps.new }
{
    let mut end = 0;
    for member in of.members() {
        let layout = type_info(member);
        let from = round_up(end, layout.alignment);
        let Some(size) = layout.size else {
            return false;
        };
        if !lies_after(bytes, end, from, from + size) {
            return false;
        }
        if !is_normal_fixed(member, &bytes[from..from + size], levels, steps) {
            return false;
        }
        end = from + size;
    }
    are_zero(&bytes[end..])
}
