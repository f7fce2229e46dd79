//! The bytes of whole values.
ghost use Rattle.std.specs.Prelude.{◌≡◌, ◌≤◌, ◌<◌, ◌⊎◌, length, true, false, IfOk, IfErr, OnOk};
ghost use Rattle.gv_model.specs.Ty.{Ty.variant};
ghost use Rattle.gv_model.specs.Tree.{Tree.node, Trees.first, Trees.none, depth};
ghost use Rattle.gv_model.specs.Printed.{is_too_large};
ghost use Rattle.gv_model.specs.Encode.{encode};
ghost use Rattle.gv_tree.specs.Wholes.{IsWhole};
ghost use Rattle.gv_view.specs.Views.{value};
ghost use Rattle.gv_build.specs.Faults.{limit, IsOverLimit, IsUnbuildable};

use crate::fault::BuildFault;
use crate::room::room;
use crate::tree::write_tree;
use crate::variant::end_variant;
use gv_tree::Tree;
use gv_view::{TooLarge, View};
use std::alloc::Global;

/// The bytes of a value in normal form.
///
/// `TooLarge` comes exactly where there would be over 4,294,967,295 bytes, and `Memory` where a growth is refused. It
/// writes each byte once, and walks the type's text of each child that it aligns.
pub fn serialise(alloc: Global, tree: &Tree) -> Result<Vec<u8>, BuildFault>
    ensures bytes { IfOk result (λ v. v.items ≡ encode tree.now) }
    ensures fits { OnOk result (length (encode tree.now) ≤ limit) }
    ensures fault { IfErr result (IsOverLimit (length (encode tree.now))) }
{
    let mut bytes = Vec::with_capacity(alloc, room(tree))?;
    write_tree(tree, &mut bytes)?;
    Ok(bytes)
}

/// The bytes of a variant that holds the value, in normal form.
///
/// `TooLarge` comes exactly where the value has 128 levels or there would be over 4,294,967,295 bytes, and `Memory`
/// where a growth is refused. It writes each byte once.
pub fn variant_bytes(alloc: Global, tree: &Tree) -> Result<Vec<u8>, BuildFault>
    ensures bytes { IfOk result (λ v. v.items ≡ encode (node variant (first tree.now none))) }
    ensures fits { OnOk result (length (encode (node variant (first tree.now none))) ≤ limit) }
    ensures levels { OnOk result (depth tree.now < 128) }
    ensures whole { OnOk result (IsWhole tree.now) }
    ensures fault { IfErr result (IsUnbuildable
        ((limit < length (encode (node variant (first tree.now none)))) ⊎ (depth tree.now ≡ 128))) }
{
    let of = tree.type_text();
    let levels = tree.depth();
    if levels >= Tree::MAX_LEVELS {
        return Err(BuildFault::Fault(TooLarge));
    }
    let end = 1 + of.as_str().len();
    let mut out = Vec::with_capacity(alloc, room(tree).saturating_add(end))?;
    write_tree(tree, &mut out)?;
    end_variant(of, &mut out)?;
    Ok(out)
}

/// The bytes of a view's value in normal form.
///
/// `TooLarge` comes exactly where the value has over 128 levels, or there would be over 4,294,967,295 bytes, and
/// `Memory` where a growth is refused. It makes the value's tree, and writes each byte once.
pub fn normal_form(alloc: Global, view: View<'_>) -> Result<Vec<u8>, BuildFault>
    ensures bytes { IfOk result (λ v. v.items ≡ encode (value view.entry)) }
    ensures fits { OnOk result (length (encode (value view.entry)) ≤ limit) }
    ensures size { OnOk result (is_too_large (value view.entry) ≡ false) }
    ensures fault { IfErr result (IsUnbuildable
        ((is_too_large (value view.entry) ≡ true) ⊎ (limit < length (encode (value view.entry))))) }
{
    let tree = view.to_tree(alloc)?;
    serialise(alloc, &tree)
}
