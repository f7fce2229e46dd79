//! Trees made of their parts.
ghost use Rattle.std.specs.Prelude.{◌≡◌, Some, IfOk, IfErr};
ghost use Rattle.gv_model.specs.Ty.{Ty.array, Ty.maybe, Ty.tuple, Ty.variant};
ghost use Rattle.gv_model.specs.Tree.{Tree.node, Trees.first, Trees.none};
ghost use Rattle.gv_model.specs.Typed.{types_of};
ghost use Rattle.gv_types.specs.TypeStr.{ty};
ghost use Rattle.gv_tree.specs.Basics.{basic_tree};
ghost use Rattle.gv_tree.specs.Nodes.{trees_of, trees_of_option};
ghost use Rattle.gv_tree.specs.Wholes.{IsWhole, entry_tree};
ghost use Rattle.gv_tree.specs.Faults.{IsBasicFault, IsContentFault, IsSizeFault, IsEntryFault};
ghost use Rattle.gv_tree.specs.Sums.{ContentIs};
ghost use Rattle.refused.specs.Faults.{OfFault, OfFaultAlone};

use crate::basic::Basic;
use crate::fault::{TreeFault, TreeFlaw};
use crate::sums::Sums;
use crate::tree::{Node, Tree};
use crate::type_texts::{bracketed, first_other, nesting_of, prefixed};
use gv_types::TypeStr;
use std::alloc::{AllocError, Global};

impl Tree {
    /// A basic value.
    ///
    /// Refused are, in this order, a text with a zero byte, an object path that is none, and a signature that is none. It
    /// looks at each byte of a text, and takes no memory.
    pub fn basic(_alloc: Global, value: Basic) -> Result<Tree, TreeFault>
        ensures made { IfOk result (λ t. t ≡ basic_tree value) }
        ensures whole { IfOk result IsWhole }
        ensures fault { IfErr result (OfFaultAlone (IsBasicFault (basic_tree value))) }
    {
        value.check()?;
        Ok(Tree {
            node: Node::Basic(value),
            levels: 1,
            type_levels: 1,
            values: 1,
        })
    }

    /// A value of the type, or Nothing.
    ///
    /// Refused are, in this order, a value of another type (`WrongType(0)`), more than 128 levels of the value or its
    /// type, a type text that is too long, and running out of memory.
    pub fn maybe(alloc: Global, of: TypeStr<'_>, child: Option<Tree>) -> Result<Tree, TreeFault>
        ensures made { IfOk result (λ t. t ≡ node (maybe (ty of.entry)) (trees_of_option child)) }
        ensures whole { IfOk result IsWhole }
        ensures fault { IfErr result (IsContentFault (ty of.entry) (node (maybe (ty of.entry)) (trees_of_option child))) }
    {
        let sizes = content_sizes(of, child.as_slice())?;
        let text = prefixed(alloc, "m", of)?;
        let children = at_most_one(alloc, child)?;
        Ok(sizes.seal(text, children))
    }

    /// An array of elements of the type.
    ///
    /// Refused are, in this order, the first element of another type, more than 128 levels of the value or its type, a
    /// type text that is too long, and running out of memory.
    pub fn array(alloc: Global, of: TypeStr<'_>, elements: Vec<Tree>) -> Result<Tree, TreeFault>
        ensures made { IfOk result (λ t. t ≡ node (array (ty of.entry)) (trees_of elements.items)) }
        ensures whole { IfOk result IsWhole }
        ensures fault { IfErr result (IsContentFault (ty of.entry) (node (array (ty of.entry)) (trees_of elements.items))) }
    {
        let sizes = content_sizes(of, elements.as_slice())?;
        let text = prefixed(alloc, "a", of)?;
        Ok(sizes.seal(text, elements))
    }

    /// A tuple of the members.
    ///
    /// Refused are, in this order, more than 128 levels of the value or its type, a type text that is too long, and want
    /// of memory.
    pub fn tuple(alloc: Global, members: Vec<Tree>) -> Result<Tree, TreeFault>
        ensures made { IfOk result (λ t. t ≡ node (tuple (types_of (trees_of members.items))) (trees_of members.items)) }
        ensures whole { IfOk result IsWhole }
        ensures fault { IfErr result (OfFault (IsSizeFault (node (tuple (types_of (trees_of members.items))) (trees_of members.items)))) }
    {
        let sums = Sums::of(members.as_slice());
        let sizes = sums.container(sums.type_levels + 1, sums.type_bytes.saturating_add(2))?;
        let text = bracketed(alloc, "(", members.as_slice(), ")")?;
        Ok(sizes.seal(text, members))
    }

    /// A dictionary's entry.
    ///
    /// Refused are, in this order, a key of no basic type, more than 128 levels of the value or its type, a type text that
    /// is too long, and running out of memory.
    pub fn entry(alloc: Global, key: Tree, value: Tree) -> Result<Tree, TreeFault>
        ensures made { IfOk result (λ t. Some t ≡ entry_tree key value) }
        ensures whole { IfOk result IsWhole }
        ensures fault { IfErr result (IsEntryFault (entry_tree key value)) }
    {
        if !key.type_text().is_basic() {
            return Err(TreeFault::Fault(TreeFlaw::KeyNotBasic));
        }
        let sums = Sums::none().with(&key).with(&value);
        let sizes = sums.container(sums.type_levels + 1, sums.type_bytes.saturating_add(2))?;
        let children = Vec::from_array(alloc, [key, value])?;
        let text = bracketed(alloc, "{", children.as_slice(), "}")?;
        Ok(sizes.seal(text, children))
    }

    /// A variant that holds the value.
    ///
    /// Refused are, in this order, more than 128 levels and running out of memory.
    pub fn variant(alloc: Global, child: Tree) -> Result<Tree, TreeFault>
        ensures made { IfOk result (λ t. t ≡ node variant (first child none)) }
        ensures whole { IfOk result IsWhole }
        ensures fault { IfErr result (OfFault (IsSizeFault (node variant (first child none)))) }
    {
        let sums = Sums::none().with(&child);
        let sizes = sums.container(1, 1)?;
        let text = String::from_str(alloc, "v")?;
        let children = Vec::from_array(alloc, [child])?;
        Ok(sizes.seal(text, children))
    }
}

/// The sizes of an array or a maybe that holds the trees, if they are all of the type.
fn content_sizes(of: TypeStr<'_>, trees: &[Tree]) -> Result<Sums, TreeFlaw>
    ensures array { ContentIs (ty of.entry) (node (array (ty of.entry)) (trees_of trees.now)) result }
    ensures maybe { ContentIs (ty of.entry) (node (maybe (ty of.entry)) (trees_of trees.now)) result }
{
    if let Some(at) = first_other(of, trees) {
        return Err(TreeFlaw::WrongType(at));
    }
    let sums = Sums::of(trees);
    sums.container(nesting_of(of) + 1, of.as_str().len() + 1)
}

/// A list of the tree, if there is one.
fn at_most_one(alloc: Global, tree: Option<Tree>) -> Result<Vec<Tree>, AllocError>
    ensures { IfOk result (λ trees. trees_of trees.items ≡ trees_of_option tree) }
{
    match tree {
        Some(tree) => Ok(Vec::from_array(alloc, [tree])?),
        None => Ok(Vec::new(alloc)),
    }
}
