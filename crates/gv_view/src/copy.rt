//! Trees of values, made from the leaves up: a value's children are copied, and then it is made of their trees.
ghost use Rattle.std.specs.Prelude.{◌≡◌, ◌≤◌, ◌<◌, IfOk, IfErr, OnOk};
ghost use Rattle.gv_model.specs.Ty.{Ty.basic};
ghost use Rattle.gv_model.specs.Tree.{depth, children};
ghost use Rattle.gv_types.specs.Classes.{basic_of};
ghost use Rattle.gv_types.specs.declared.class.Class.TheVariants as classes;
ghost use Rattle.gv_tree.specs.Basics.{basic_tree};
ghost use Rattle.gv_tree.specs.Nodes.{trees_of};
ghost use Rattle.refused.specs.declared.Refused.TheVariants.{Memory};
ghost use Rattle.refused.specs.Faults.{OfFault};
ghost use Rattle.gv_view.specs.Views.{view_ty, value};
ghost use Rattle.gv_view.specs.Copying.{AreChildTrees};

use crate::owned::{TooLarge, ViewFault};
use crate::view::View;
use gv_tree::{Basic, Tree, TreeFault};
use gv_types::{BasicType, Class};
use std::alloc::{AllocError, Global};

/// The tree of a value of no more than these levels, `TooLarge` exactly where it has more.
pub(crate) fn copied(alloc: Global, view: View<'_>, levels: u8) -> Result<Tree, ViewFault>
    requires { levels ≤ 128 }
    ensures tree { IfOk result (λ t. t ≡ value view.entry) }
    ensures fits { OnOk result (depth (value view.entry) ≤ levels) }
    ensures fault { IfErr result (OfFault (λ _. levels < depth (value view.entry))) }
{
    if levels == 0 {
        return Err(ViewFault::Fault(TooLarge));
    }
    let mut parts = Vec::new(alloc);
    for child in view.children() {
        parts.push(copied(alloc, child, levels - 1)?)?;
    }
    assembled(alloc, view, parts).map_err(|_| ViewFault::Memory)
}

/// The tree of a value with these children.
fn assembled(alloc: Global, view: View<'_>, parts: Vec<Tree>) -> Result<Tree, TreeFault>
    requires levels { depth (value view) ≤ 128 }
    requires all { trees_of parts.items ≡ children (value view) }
    ensures tree { IfOk result (λ t. t ≡ value view.entry) }
    ensures fault { IfErr result (λ f. f ≡ Memory) }
{
    match view.type_str().class() {
        Class::Basic(of) => Tree::basic(alloc, basic(alloc, view, of)?),
        Class::Variant => variant(alloc, view, parts),
        Class::Array => array(alloc, view, parts),
        Class::Maybe => maybe(alloc, view, parts),
        Class::Tuple => tuple(alloc, view, parts),
        Class::Entry => entry(alloc, view, parts),
    }
}

/// The value at the basic type. Texts are copied.
fn basic(alloc: Global, view: View<'_>, of: BasicType) -> Result<Basic, AllocError>
    requires { view_ty view ≡ basic (basic_of of) }
    ensures { IfOk result (λ b. basic_tree b ≡ value view.entry) }
{
    Ok(match of {
        BasicType::Boolean => Basic::Bool(view.as_bool().unwrap()),
        BasicType::Byte => Basic::Byte(view.as_u8().unwrap()),
        BasicType::Int16 => Basic::Int16(view.as_i16().unwrap()),
        BasicType::Uint16 => Basic::Uint16(view.as_u16().unwrap()),
        BasicType::Int32 => Basic::Int32(view.as_i32().unwrap()),
        BasicType::Uint32 => Basic::Uint32(view.as_u32().unwrap()),
        BasicType::Int64 => Basic::Int64(view.as_i64().unwrap()),
        BasicType::Uint64 => Basic::Uint64(view.as_u64().unwrap()),
        BasicType::Handle => Basic::HandleNo(view.as_handle().unwrap()),
        BasicType::Double => Basic::DoubleBits(view.as_double_bits().unwrap()),
        BasicType::Text => Basic::Text(String::from_str(alloc, view.as_str().unwrap())?),
        BasicType::ObjectPath => Basic::ObjectPath(String::from_str(
            alloc,
            view.as_str().unwrap(),
        )?),
        BasicType::Signature => Basic::Signature(String::from_str(alloc, view.as_str().unwrap())?),
    })
}

/// The array of these elements.
fn array(alloc: Global, view: View<'_>, elements: Vec<Tree>) -> Result<Tree, TreeFault>
    requires { AreChildTrees view classes.Array elements.items }
    ensures tree { IfOk result (λ t. t ≡ value view.entry) }
    ensures fault { IfErr result (λ f. f ≡ Memory) }
{
    Tree::array(alloc, view.type_str().element().unwrap(), elements)
}

/// The maybe of this child, if there is one.
fn maybe(alloc: Global, view: View<'_>, mut child: Vec<Tree>) -> Result<Tree, TreeFault>
    requires { AreChildTrees view classes.Maybe child.items }
    ensures tree { IfOk result (λ t. t ≡ value view.entry) }
    ensures fault { IfErr result (λ f. f ≡ Memory) }
{
    Tree::maybe(alloc, view.type_str().element().unwrap(), child.pop())
}

/// The tuple of these members.
fn tuple(alloc: Global, view: View<'_>, members: Vec<Tree>) -> Result<Tree, TreeFault>
    requires { AreChildTrees view classes.Tuple members.items }
    ensures tree { IfOk result (λ t. t ≡ value view.entry) }
    ensures fault { IfErr result (λ f. f ≡ Memory) }
{
    let _of = view;
    Tree::tuple(alloc, members)
}

/// The entry of this key and this value.
fn entry(alloc: Global, view: View<'_>, mut pair: Vec<Tree>) -> Result<Tree, TreeFault>
    requires { AreChildTrees view classes.Entry pair.items }
    ensures tree { IfOk result (λ t. t ≡ value view.entry) }
    ensures fault { IfErr result (λ f. f ≡ Memory) }
{
    let _of = view;
    let value = pair.pop().unwrap();
    let key = pair.pop().unwrap();
    Tree::entry(alloc, key, value)
}

/// The variant of this child.
fn variant(alloc: Global, view: View<'_>, mut child: Vec<Tree>) -> Result<Tree, TreeFault>
    requires { AreChildTrees view classes.Variant child.items }
    ensures tree { IfOk result (λ t. t ≡ value view.entry) }
    ensures fault { IfErr result (λ f. f ≡ Memory) }
{
    let _of = view;
    Tree::variant(alloc, child.pop().unwrap())
}
