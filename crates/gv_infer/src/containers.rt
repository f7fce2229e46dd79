//! Containers of built children: None where they would have over 128 levels.
ghost use Rattle.std.specs.Prelude.{◌≡◌, Result, Ok, IfErr};
ghost use Rattle.gv_model.specs.Ty.{Ty, Ty.variant, Ty.array, Ty.maybe, Ty.tuple};
ghost use Rattle.gv_model.specs.Tree.{Tree as Value, Trees, Tree.node, Trees.none, Trees.first};
ghost use Rattle.gv_model.specs.Typed.{types_of};
ghost use Rattle.gv_model.specs.Literals.{ValueFault as TheFault};
ghost use Rattle.gv_model.specs.TextValues.{at_maybes};
ghost use Rattle.gv_types.specs.TypeStr.{ty};
ghost use Rattle.gv_infer.specs.BareTypes.{bare_type};
ghost use Rattle.gv_infer.specs.Building.{BuildsTo, IsBuilt, IsWithinLimits, IsContainerFault, IsConstructed, IsConstructedOf, IsNoneOrOfType, IsOfType, AreEntryParts, entry_node};
ghost use Rattle.gv_infer.specs.Children.{AllBuildTo, AllOfType, IsTupleTypeOf};

use crate::fault::ValueFault;
use gv_tree::{Tree, TreeFault, TreeFlaw};
use gv_types::{Class, TypeStr};
use std::alloc::Global;

/// The tree, or None where it was refused for its levels.
pub(crate) fn shallow(made: Result<Tree, TreeFault>) -> Result<Option<Tree>, ValueFault>
    requires { IfErr made IsContainerFault }
    ensures built { (v : Value) → IsConstructed v made → IsBuilt (Ok v) result }
    ensures typed { (t : Ty) → IsConstructedOf t made → IsOfType t result }
{
    match made {
        Ok(tree) => Ok(Some(tree)),
        Err(TreeFault::Fault(TreeFlaw::TooDeep)) => Ok(None),
        Err(TreeFault::Memory) => Err(ValueFault::Memory),
        Err(_) => unreachable!(),
    }
}

/// An array of elements of the type.
#[inline(never)]
pub(crate) fn array(
    alloc: Global,
    of: TypeStr<'_>,
    elements: Option<Vec<Tree>>,
) -> Result<Option<Tree>, ValueFault>
    requires typed { AllOfType (ty of) elements }
    requires within { IsWithinLimits (array (ty of)) }
    ensures built { (vs : Trees) → AllBuildTo elements vs → IsBuilt (Ok (node (array (ty of.entry)) vs)) result }
    ensures typed { IsOfType (array (ty of.entry)) result }
{
    match elements {
        Some(elements) => shallow(Tree::array(alloc, of, elements)),
        None => Ok(None),
    }
}

/// A tuple of the members.
#[inline(never)]
pub(crate) fn tuple(
    alloc: Global,
    of: TypeStr<'_>,
    members: Option<Vec<Tree>>,
) -> Result<Option<Tree>, ValueFault>
    requires { IsTupleTypeOf (ty of) members }
    ensures built { (vs : Trees) → AllBuildTo members vs → IsBuilt (Ok (node (ty of.entry) vs)) result }
    ensures typed { IsOfType (ty of.entry) result }
{
    match members {
        Some(members) => shallow(Tree::tuple(alloc, members)),
        None => Ok(None),
    }
}

/// An entry of the key and the value.
#[inline(never)]
pub(crate) fn entry(
    alloc: Global,
    of: TypeStr<'_>,
    key: Option<Tree>,
    value: Option<Tree>,
) -> Result<Option<Tree>, ValueFault>
    requires { AreEntryParts (ty of) key value }
    ensures built { (u v : Value) → BuildsTo key u → BuildsTo value v → IsBuilt (Ok (entry_node (ty of.entry) u v)) result }
    ensures typed { IsOfType (ty of.entry) result }
{
    match key {
        Some(key) => match value {
            Some(value) => shallow(Tree::entry(alloc, key, value)),
            None => Ok(None),
        },
        None => Ok(None),
    }
}

/// A variant that holds the value.
#[inline(never)]
pub(crate) fn variant(alloc: Global, child: Option<Tree>) -> Result<Option<Tree>, ValueFault>
    ensures built { (v : Value) → BuildsTo child v → IsBuilt (Ok (node variant (first v none))) result }
    ensures typed { IsOfType variant result }
{
    match child {
        Some(child) => shallow(Tree::variant(alloc, child)),
        None => Ok(None),
    }
}

/// A value at a maybe of its type.
#[inline(never)]
pub(crate) fn just(
    alloc: Global,
    of: TypeStr<'_>,
    child: Option<Tree>,
) -> Result<Option<Tree>, ValueFault>
    requires typed { IsNoneOrOfType (ty of) child }
    requires within { IsWithinLimits (maybe (ty of)) }
    ensures built { (v : Value) → BuildsTo child v → IsBuilt (Ok (node (maybe (ty of.entry)) (first v none))) result }
    ensures typed { IsOfType (maybe (ty of.entry)) result }
{
    match child {
        Some(child) => shallow(Tree::maybe(alloc, of, Some(child))),
        None => Ok(None),
    }
}

/// Nothing, at a maybe of the type.
#[inline(never)]
pub(crate) fn nothing(alloc: Global, of: TypeStr<'_>) -> Result<Option<Tree>, ValueFault>
    requires within { IsWithinLimits (maybe (ty of)) }
    ensures built { IsBuilt (Ok (node (maybe (ty of.entry)) none)) result }
{
    shallow(Tree::maybe(alloc, of, None))
}

/// A value of the bare type at the maybes around it, from the inside out.
pub(crate) fn in_maybes(
    alloc: Global,
    of: TypeStr<'_>,
    built: Result<Option<Tree>, ValueFault>,
) -> Result<Option<Tree>, ValueFault>
    requires { IsOfType (bare_type (ty of)) built }
    ensures built { (f : Ty → Result Value TheFault)
        → IsBuilt (f (bare_type (ty of.entry))) built
        → IsBuilt (at_maybes f (ty of.entry)) result }
    ensures typed { IsOfType (ty of.entry) result }
{
    match of.class() {
        Class::Maybe => {
            let inner = of.element().unwrap();
            let child = in_maybes(alloc, inner, built)?;
            just(alloc, inner, child)
        }
        _ => built,
    }
}
