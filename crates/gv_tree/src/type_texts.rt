//! The texts of containers' types, and how deep types nest.
ghost use Rattle.std.specs.Prelude.{◌≡◌, ◌++◌, IfOk, MatchOption, string_bytes};
ghost use Rattle.gv_model.specs.Ty.{spelling, spellings, nesting};
ghost use Rattle.gv_model.specs.Typed.{types_of, AllOf};
ghost use Rattle.gv_types.specs.TypeStr.{ty};
ghost use Rattle.gv_tree.specs.Nodes.{trees_of};
ghost use Rattle.gv_tree.specs.Faults.{IsFirstOther};

use crate::tree::Tree;
use gv_types::{Class, TypeStr};
use std::alloc::{AllocError, Global};

/// A letter and the text of a type.
pub(crate) fn prefixed(alloc: Global, letter: &str, of: TypeStr<'_>) -> Result<String, AllocError>
    ensures { IfOk result (λ text. string_bytes text ≡ letter.now ++ spelling (ty of.entry)) }
{
    let mut text = String::from_str(alloc, letter)?;
    text.push_str(of.as_str())?;
    Ok(text)
}

/// The texts of the trees' types, one after the other, between two brackets.
pub(crate) fn bracketed(
    alloc: Global,
    opening: &str,
    trees: &[Tree],
    closing: &str,
) -> Result<String, AllocError>
    ensures { IfOk result (λ text. string_bytes text ≡ opening.now ++ (spellings (types_of (trees_of trees.now)) ++ closing.now)) }
{
    let mut text = String::from_str(alloc, opening)?;
    for tree in trees {
        text.push_str(tree.type_text().as_str())?;
    }
    text.push_str(closing)?;
    Ok(text)
}

/// The index of the first tree of another type. It compares the texts of the types.
pub(crate) fn first_other(of: TypeStr<'_>, trees: &[Tree]) -> Option<usize>
    ensures { MatchOption result
        (AllOf (ty of.entry) (trees_of trees.now))
        (IsFirstOther (ty of.entry) (trees_of trees.now)) }
{
    for i in 0..trees.len() {
        if trees[i].type_text().as_str() != of.as_str() {
            return Some(i);
        }
    }
    None
}

/// How deep the type nests.
pub(crate) fn nesting_of(of: TypeStr<'_>) -> u8
    ensures { result ≡ nesting (ty of.entry) }
{
    match of.class() {
        Class::Basic(_) | Class::Variant => 1,
        Class::Array | Class::Maybe => 1 + nesting_of(of.element().unwrap()),
        Class::Tuple | Class::Entry => {
            let mut deepest = 0;
            for member in of.members() {
                deepest = deepest.max(nesting_of(member));
            }
            1 + deepest
        }
    }
}
