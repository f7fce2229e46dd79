//! Variants (GVariant Specification, "Variants"): the child's bytes, a zero byte, and the child's type text.
ghost use Rattle.std.specs.Prelude.{◌≡◌, ◌≤◌, ◌<◌, ◌+◌, ◌^◌, ◌↔◌, suc, IsTrue, length};
ghost use Rattle.gv_model.specs.Ty.{Ty.variant};
ghost use Rattle.gv_normal.specs.InPlace.{IsNormalWithin};
ghost use Rattle.gv_model.specs.Laws.{most_values};
ghost use Rattle.gv_model.specs.Tree.{nodes};
ghost use Rattle.gv_model.specs.Decode.{decode};

use crate::in_place::is_normal_within;
use gv_types::Steps;

/// Whether bytes are normal at `v`, where the child has no more than so many levels.
#[cycle(normal)]
pub(crate) fn is_normal_variant(bytes: &[u8], levels: u8, steps: &mut Steps) -> bool
    requires room { steps.old + most_values (length bytes.now) 1 ≤ 2 ^ 128 }
    ensures normal { IsTrue result ↔ IsNormalWithin (suc levels) variant bytes.now }
    ensures few { steps.new + 1 ≤ steps.old + most_values (length bytes.now) 1 }
    ensures exact { IsTrue result → steps.new + 1 ≡ steps.old + nodes (decode (variant) bytes.now) }
    ensures grows { steps.old ≤ steps.new }
{
    match gv_view::held_in_variant(bytes) {
        Some(held) => is_normal_within(held.type_str(), held.bytes(), levels, steps),
        None => false,
    }
}
