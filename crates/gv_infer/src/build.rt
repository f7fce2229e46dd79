//! The value of syntax at a type that it admits (GLib, "GVariant Text Format"): literals from the left, then depth.
ghost use Rattle.std.specs.Prelude.{◌≡◌};
ghost use Rattle.gv_model.specs.Ty.{members, Ty.variant};
ghost use Rattle.gv_model.specs.Admits.{Admits, AllAdmit, Admit, KeysAdmit, ValuesAdmit, IsArrayOf, IsTupleOf, IsEntryOf, IsMaybeOf};
ghost use Rattle.gv_model.specs.LeastTypes.{choice};
ghost use Rattle.gv_model.specs.TextValues.{literal_value, elements, members_of, entries, at_array, at_tuple, at_entry, at_variant, at_maybe, only_one, chosen_or};
ghost use Rattle.gv_types.specs.TypeStr.{ty};
ghost use Rattle.gv_syntax.specs.SyntaxNodes.{nodes_of, pairs_of};
ghost use Rattle.gv_syntax.specs.Parsed.{IsWithin};
ghost use Rattle.gv_infer.specs.Building.{IsBuilt, IsOfType};
ghost use Rattle.gv_infer.specs.Children.{AreBuilt};
ghost use Rattle.gv_infer.specs.Within.{AreWithin, PairsWithin};

use crate::bare::{bare, entry_types};
use crate::children::BuiltTrees;
use crate::containers::{array, entry, in_maybes, just, nothing, tuple, variant};
use crate::fault::ValueFault;
use crate::literal::{byte_string_at, number_tree, text_tree, truth_tree};
use crate::typing::type_of_node;
use gv_syntax::{SyntaxKind, SyntaxNode};
use gv_tree::Tree;
use gv_types::TypeStr;
use std::alloc::Global;

/// The value of the syntax at a type that it admits, or None where that would have over 128 levels.
///
/// Refused is the first literal from the left that is no value of its type.
#[cycle(build)]
pub(crate) fn build(
    alloc: Global,
    node: &SyntaxNode,
    of: TypeStr<'_>,
) -> Result<Option<Tree>, ValueFault>
    requires fits { Admits node.now (ty of) }
    requires within { IsWithin node.now }
    ensures built { IsBuilt (literal_value choice node.now (ty of.entry)) result }
    ensures typed { IsOfType (ty of.entry) result }
{
    let inside = bare(of);
    let built = match &node.kind {
        SyntaxKind::Truth(truth) => truth_tree(alloc, *truth),
        SyntaxKind::Integer {
            negative,
            magnitude,
        } => number_tree(alloc, inside, *negative, *magnitude),
        SyntaxKind::Text(text) => text_tree(alloc, inside, text.as_str()),
        SyntaxKind::ByteString(bytes) => byte_string_at(alloc, inside, bytes.as_slice()),
        SyntaxKind::Array(elements) => build_array(alloc, elements.as_slice(), inside),
        SyntaxKind::Tuple(members) => build_tuple(alloc, members.as_slice(), inside),
        SyntaxKind::Dictionary(pairs) => build_dictionary(alloc, pairs.as_slice(), inside),
        SyntaxKind::Entry(key, value) => build_entry(alloc, key, value, inside),
        SyntaxKind::Variant(content) => build_variant(alloc, content),
        SyntaxKind::Just(child) => return build_just(alloc, child, of),
        SyntaxKind::Nothing => return nothing(alloc, of.element().unwrap()),
        SyntaxKind::OfType(_, inner) => return build(alloc, inner, of),
        SyntaxKind::Keyword(_, inner) => return build(alloc, inner, of),
    };
    in_maybes(alloc, of, built)
}

/// A value after `just`, at a maybe.
#[cycle(build)]
#[inline(never)]
fn build_just(alloc: Global, node: &SyntaxNode, of: TypeStr<'_>) -> Result<Option<Tree>, ValueFault>
    requires fits { IsMaybeOf (Admits node.now) (ty of) }
    requires within { IsWithin node.now }
    ensures built { IsBuilt (at_maybe (λ u. only_one (literal_value choice node.now u)) (ty of.entry)) result }
    ensures typed { IsOfType (ty of.entry) result }
{
    let inner = of.element().unwrap();
    let child = build(alloc, node, inner)?;
    just(alloc, inner, child)
}

/// What is in `<..>`, at the type that is chosen for it.
#[cycle(build)]
#[inline(never)]
fn build_variant(alloc: Global, node: &SyntaxNode) -> Result<Option<Tree>, ValueFault>
    requires { IsWithin node.now }
    ensures built { IsBuilt
        (at_variant (only_one (chosen_or (literal_value choice node.now) (choice node.now))) variant)
        result }
    ensures typed { IsOfType variant result }
{
    match type_of_node(alloc, node) {
        Ok(of) => {
            let child = build(alloc, node, of.as_type())?;
            variant(alloc, child)
        }
        Err(fault) => Err(fault.into_fault()),
    }
}

/// An array, at an array's type.
#[cycle(build)]
#[inline(never)]
fn build_array(
    alloc: Global,
    nodes: &[SyntaxNode],
    of: TypeStr<'_>,
) -> Result<Option<Tree>, ValueFault>
    requires fits { IsArrayOf (AllAdmit (nodes_of nodes.now)) (ty of) }
    requires within { AreWithin (nodes_of nodes.now) }
    ensures built { IsBuilt (at_array (elements choice (nodes_of nodes.now)) (ty of.entry)) result }
    ensures typed { IsOfType (ty of.entry) result }
{
    let element = of.element().unwrap();
    let children = build_elements(alloc, nodes, element)?;
    array(alloc, element, children)
}

/// The elements of an array.
#[cycle(build)]
#[inline(never)]
fn build_elements(
    alloc: Global,
    nodes: &[SyntaxNode],
    of: TypeStr<'_>,
) -> Result<Option<Vec<Tree>>, ValueFault>
    requires fits { AllAdmit (nodes_of nodes.now) (ty of) }
    requires within { AreWithin (nodes_of nodes.now) }
    ensures { AreBuilt (elements choice (nodes_of nodes.now) (ty of.entry)) result }
{
    let mut children = BuiltTrees::with_capacity(alloc, nodes.len())?;
    for node in nodes {
        children.push(build(alloc, node, of)?)?;
    }
    Ok(children.finish())
}

/// A tuple, at a tuple's type.
#[cycle(build)]
#[inline(never)]
fn build_tuple(
    alloc: Global,
    nodes: &[SyntaxNode],
    of: TypeStr<'_>,
) -> Result<Option<Tree>, ValueFault>
    requires fits { IsTupleOf (Admit (nodes_of nodes.now)) (ty of) }
    requires within { AreWithin (nodes_of nodes.now) }
    ensures built { IsBuilt (at_tuple (members_of choice (nodes_of nodes.now)) (ty of.entry)) result }
    ensures typed { IsOfType (ty of.entry) result }
{
    let children = build_members(alloc, nodes, of)?;
    tuple(alloc, of, children)
}

/// The members of a tuple, each at its own type.
#[cycle(build)]
#[inline(never)]
fn build_members(
    alloc: Global,
    nodes: &[SyntaxNode],
    of: TypeStr<'_>,
) -> Result<Option<Vec<Tree>>, ValueFault>
    requires fits { Admit (nodes_of nodes.now) (members (ty of)) }
    requires within { AreWithin (nodes_of nodes.now) }
    ensures { AreBuilt (members_of choice (nodes_of nodes.now) (members (ty of.entry))) result }
{
    let mut children = BuiltTrees::with_capacity(alloc, nodes.len())?;
    let mut types = of.members();
    for node in nodes {
        let of = types.next().unwrap();
        children.push(build(alloc, node, of)?)?;
    }
    Ok(children.finish())
}

/// A dictionary, at the type of an array of entries.
#[cycle(build)]
#[inline(never)]
fn build_dictionary(
    alloc: Global,
    pairs: &[(SyntaxNode, SyntaxNode)],
    of: TypeStr<'_>,
) -> Result<Option<Tree>, ValueFault>
    requires fits { IsArrayOf (IsEntryOf (KeysAdmit (pairs_of pairs.now)) (ValuesAdmit (pairs_of pairs.now))) (ty of) }
    requires within { PairsWithin (pairs_of pairs.now) }
    ensures built { IsBuilt (at_array (entries choice (pairs_of pairs.now)) (ty of.entry)) result }
    ensures typed { IsOfType (ty of.entry) result }
{
    let of = of.element().unwrap();
    let children = build_entries(alloc, pairs, of)?;
    array(alloc, of, children)
}

/// The entries of a dictionary.
#[cycle(build)]
#[inline(never)]
fn build_entries(
    alloc: Global,
    pairs: &[(SyntaxNode, SyntaxNode)],
    of: TypeStr<'_>,
) -> Result<Option<Vec<Tree>>, ValueFault>
    requires fits { IsEntryOf (KeysAdmit (pairs_of pairs.now)) (ValuesAdmit (pairs_of pairs.now)) (ty of) }
    requires within { PairsWithin (pairs_of pairs.now) }
    ensures { AreBuilt (entries choice (pairs_of pairs.now) (ty of.entry)) result }
{
    let mut children = BuiltTrees::with_capacity(alloc, pairs.len())?;
    for (key, value) in pairs {
        children.push(build_entry(alloc, key, value, of)?)?;
    }
    Ok(children.finish())
}

/// An entry, at an entry's type.
#[cycle(build)]
#[inline(never)]
fn build_entry(
    alloc: Global,
    key: &SyntaxNode,
    value: &SyntaxNode,
    of: TypeStr<'_>,
) -> Result<Option<Tree>, ValueFault>
    requires fits { IsEntryOf (Admits key.now) (Admits value.now) (ty of) }
    requires within { IsWithin key.now × IsWithin value.now }
    ensures built { IsBuilt
        (at_entry (literal_value choice key.now) (literal_value choice value.now) (ty of.entry))
        result }
    ensures typed { IsOfType (ty of.entry) result }
{
    let (key_type, value_type) = entry_types(of).unwrap();
    let key = build(alloc, key, key_type)?;
    let value = build(alloc, value, value_type)?;
    entry(alloc, of, key, value)
}
