//! Whether bytes are normal, told in place: each value is looked at once, and a child only after its place is seen to be
//! in order.
ghost use Rattle.std.specs.Prelude.{◌≡◌, ◌≤◌, ◌<◌, ◌+◌, ◌*◌, ◌^◌, ◌↔◌, IsTrue, None, length};
ghost use Rattle.gv_model.specs.Ty.{spelling};
ghost use Rattle.gv_model.specs.Layout.{fixed_size};
ghost use Rattle.gv_model.specs.Normal.{IsNormal};
ghost use Rattle.gv_types.specs.TypeStr.{ty};
ghost use Rattle.gv_view.specs.Views.{view_ty, view_bytes};
ghost use Rattle.gv_normal.specs.InPlace.{IsNormalWithin};
ghost use Rattle.gv_model.specs.Laws.{most_values};
ghost use Rattle.gv_model.specs.Tree.{nodes};
ghost use Rattle.gv_model.specs.Decode.{decode};

use crate::array::is_normal_array;
use crate::basic::is_normal_text;
use crate::fixed::is_normal_fixed;
use crate::maybe::is_normal_maybe;
use crate::tuple::are_normal_members;
use crate::variant::is_normal_variant;
use gv_layout::fixed_size;
use gv_types::{Class, Steps, TypeStr};
use gv_view::View;

/// The most levels that a normal value has.
const MAX_LEVELS: u8 = 128;

/// Whether the bytes are the ones that are written for their value, and the value has no more than 128 levels.
///
/// It takes no memory, and looks at each value in it at most once. It stops at the first that isn't normal.
pub fn is_normal(view: View<'_>) -> bool
    ensures { IsTrue result ↔ IsNormal (view_ty view.entry) (view_bytes view.entry) }
{
    is_normal_counted(view, &mut Steps::new())
}

/// As `is_normal`, and counts a step for each value that is looked at, and for each number of an array. Where the bytes are normal
/// these are all values in it. Of `n` bytes at a type of `t` bytes it takes at most `(n + 1)(n + 2t)` steps.
pub fn is_normal_counted(view: View<'_>, steps: &mut Steps) -> bool
    requires { steps.old + (length (view_bytes view) + 1) * (length (view_bytes view) + 2 * length (spelling (view_ty view))) < 2 ^ 128 }
    ensures normal { IsTrue result ↔ IsNormal (view_ty view.entry) (view_bytes view.entry) }
    ensures few { steps.new ≤ steps.old
        + (length (view_bytes view.entry) + 1) * (length (view_bytes view.entry) + 2 * length (spelling (view_ty view.entry))) }
    ensures exact { IsTrue result → steps.new ≡ steps.old + nodes (decode (view_ty view.entry) (view_bytes view.entry)) }
    ensures grows { steps.old ≤ steps.new }
{
    is_normal_within(view.type_str(), view.bytes(), MAX_LEVELS, steps)
}

/// Whether the bytes are normal at the type, and no deeper than so many levels.
#[cycle(normal)]
pub(crate) fn is_normal_within(of: TypeStr<'_>, bytes: &[u8], levels: u8, steps: &mut Steps) -> bool
    requires room { steps.old + most_values (length bytes.now) (length (spelling (ty of))) < 2 ^ 128 }
    ensures normal { IsTrue result ↔ IsNormalWithin levels (ty of.entry) bytes.now }
    ensures few { steps.new ≤ steps.old + most_values (length bytes.now) (length (spelling (ty of.entry))) }
    ensures exact { IsTrue result → steps.new ≡ steps.old + nodes (decode (ty of.entry) bytes.now) }
    ensures grows { steps.old ≤ steps.new }
{
    match fixed_size(of) {
        Some(size) => bytes.len() == size && is_normal_fixed(of, bytes, levels, steps),
        None => is_normal_open(of, bytes, levels, steps),
    }
}

/// The same at a type of no fixed size.
#[cycle(normal)]
pub(crate) fn is_normal_open(of: TypeStr<'_>, bytes: &[u8], levels: u8, steps: &mut Steps) -> bool
    requires open { fixed_size (ty of) ≡ None }
    requires room { steps.old + most_values (length bytes.now) (length (spelling (ty of))) < 2 ^ 128 }
    ensures normal { IsTrue result ↔ IsNormalWithin levels (ty of.entry) bytes.now }
    ensures few { steps.new ≤ steps.old + most_values (length bytes.now) (length (spelling (ty of.entry))) }
    ensures exact { IsTrue result → steps.new ≡ steps.old + nodes (decode (ty of.entry) bytes.now) }
    ensures grows { steps.old ≤ steps.new }
{
    steps.tick();
    let Some(below) = levels.checked_sub(1) else {
        return false;
    };
    match of.class() {
        Class::Basic(basic) => is_normal_text(basic, bytes),
        Class::Variant => is_normal_variant(bytes, below, steps),
        Class::Array => is_normal_array(of.element().unwrap(), bytes, below, steps),
        Class::Maybe => is_normal_maybe(of.element().unwrap(), bytes, below, steps),
        Class::Tuple | Class::Entry => are_normal_members(of, bytes, below, steps),
    }
}
