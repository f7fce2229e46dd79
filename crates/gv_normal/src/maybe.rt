//! Maybes (GVariant Specification, "Maybes"): Nothing is no bytes. Just is the child's bytes and, where they vary in
//! their size, a zero byte.
ghost use Rattle.std.specs.Prelude.{◌≡◌, ◌≤◌, ◌<◌, ◌+◌, ◌^◌, ◌↔◌, suc, IsTrue, length};
ghost use Rattle.gv_model.specs.Ty.{spelling, Ty.maybe};
ghost use Rattle.gv_types.specs.TypeStr.{ty};
ghost use Rattle.gv_normal.specs.InPlace.{IsNormalWithin};
ghost use Rattle.gv_model.specs.Laws.{most_values};
ghost use Rattle.gv_model.specs.Tree.{nodes};
ghost use Rattle.gv_model.specs.Decode.{decode};

use crate::fixed::is_normal_fixed;
use crate::in_place::is_normal_open;
use gv_layout::fixed_size;
use gv_types::{Steps, TypeStr};

/// Whether bytes are normal at a maybe of this type, where the child has no more than so many levels.
#[cycle(normal)]
pub(crate) fn is_normal_maybe(
    child: TypeStr<'_>,
    bytes: &[u8],
    levels: u8,
    steps: &mut Steps,
) -> bool
    requires room { steps.old + most_values (length bytes.now) (suc (length (spelling (ty child)))) ≤ 2 ^ 128 }
    ensures normal { IsTrue result ↔ IsNormalWithin (suc levels) (maybe (ty child.entry)) bytes.now }
    ensures few { steps.new + 1 ≤ steps.old + most_values (length bytes.now) (suc (length (spelling (ty child.entry)))) }
    ensures exact { IsTrue result → steps.new + 1 ≡ steps.old + nodes (decode (maybe (ty child.entry)) bytes.now) }
    ensures grows { steps.old ≤ steps.new }
{
    let Some((last, prefix)) = bytes.split_last() else {
        return true;
    };
    match fixed_size(child) {
        Some(size) => bytes.len() == size && is_normal_fixed(child, bytes, levels, steps),
        None => *last == 0 && is_normal_open(child, prefix, levels, steps),
    }
}
