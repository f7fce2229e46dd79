//! Whether syntax admits a type (GLib, "GVariant Text Format", Type Annotations and Type Inference).
ghost use Rattle.std.specs.Prelude.{◌↔◌, IsTrue};
ghost use Rattle.gv_model.specs.Admits.{Admits, AllAdmit, Admit, KeysAdmit, ValuesAdmit, IsNumberType, IsTextType, IsArrayOf, IsTupleOf, IsEntryOf};
ghost use Rattle.gv_types.specs.TypeStr.{ty};
ghost use Rattle.gv_syntax.specs.SyntaxNodes.{nodes_of, pairs_of};

use crate::bare::{bare, entry_types};
use gv_syntax::{SyntaxKind, SyntaxNode};
use gv_types::{BasicType, Class, TypeStr};

/// Whether the syntax admits the type. It looks at each node once, and takes no memory.
#[cycle(admits)]
pub(crate) fn admits(node: &SyntaxNode, of: TypeStr<'_>) -> bool
    ensures { IsTrue result ↔ Admits node.now (ty of.entry) }
{
    match &node.kind {
        SyntaxKind::Truth(_) => bare(of).class() == Class::Basic(BasicType::Boolean),
        SyntaxKind::Integer { .. } => is_number_type(bare(of)),
        SyntaxKind::Text(_) => is_text_type(bare(of)),
        SyntaxKind::ByteString(_) => bare(of).as_str() == "ay",
        SyntaxKind::Array(elements) => all_admit(elements.as_slice(), bare(of)),
        SyntaxKind::Tuple(members) => each_admits(members.as_slice(), bare(of)),
        SyntaxKind::Dictionary(pairs) => pairs_admit(pairs.as_slice(), bare(of)),
        SyntaxKind::Entry(key, value) => entry_admits(key, value, bare(of)),
        SyntaxKind::Variant(_) => bare(of).class() == Class::Variant,
        SyntaxKind::Just(inner) => {
            of.class() == Class::Maybe && admits(inner, of.element().unwrap())
        }
        SyntaxKind::Nothing => of.class() == Class::Maybe,
        SyntaxKind::OfType(at, inner) => {
            of.as_str() == at.as_type().as_str() && admits(inner, of)
        }
        SyntaxKind::Keyword(word, inner) => of.class() == Class::Basic(*word) && admits(inner, of),
    }
}

/// Whether it is a number type.
fn is_number_type(of: TypeStr<'_>) -> bool
    ensures { IsTrue result ↔ IsNumberType (ty of.entry) }
{
    match of.class() {
        Class::Basic(basic) => basic.is_number(),
        _ => false,
    }
}

/// Whether it is the type of a string, an object path or a signature.
fn is_text_type(of: TypeStr<'_>) -> bool
    ensures { IsTrue result ↔ IsTextType (ty of.entry) }
{
    match of.class() {
        Class::Basic(basic) => basic.is_text(),
        _ => false,
    }
}

/// Whether it is an array's type, whose element each of these admits.
#[cycle(admits)]
fn all_admit(elements: &[SyntaxNode], of: TypeStr<'_>) -> bool
    ensures { IsTrue result ↔ IsArrayOf (AllAdmit (nodes_of elements.now)) (ty of.entry) }
{
    match of.class() {
        Class::Array => all_admit_one(elements, of.element().unwrap()),
        _ => false,
    }
}

/// Whether each of these admits the type.
#[cycle(admits)]
fn all_admit_one(elements: &[SyntaxNode], of: TypeStr<'_>) -> bool
    ensures { IsTrue result ↔ AllAdmit (nodes_of elements.now) (ty of.entry) }
{
    for element in elements {
        if !admits(element, of) {
            return false;
        }
    }
    true
}

/// Whether it is the type of a tuple, and each of these admits its own member.
#[cycle(admits)]
fn each_admits(members: &[SyntaxNode], of: TypeStr<'_>) -> bool
    ensures { IsTrue result ↔ IsTupleOf (Admit (nodes_of members.now)) (ty of.entry) }
{
    if of.class() != Class::Tuple {
        return false;
    }
    let mut types = of.members();
    for member in members {
        match types.next() {
            Some(of) if admits(member, of) => {}
            _ => return false,
        }
    }
    types.next().is_none()
}

/// Whether it is the type of a dictionary, whose key and value each pair admits.
#[cycle(admits)]
fn pairs_admit(pairs: &[(SyntaxNode, SyntaxNode)], of: TypeStr<'_>) -> bool
    ensures { IsTrue result
        ↔ IsArrayOf (IsEntryOf (KeysAdmit (pairs_of pairs.now)) (ValuesAdmit (pairs_of pairs.now))) (ty of.entry) }
{
    if of.class() != Class::Array {
        return false;
    }
    match entry_types(of.element().unwrap()) {
        Some((key_type, value_type)) => all_pairs_admit(pairs, key_type, value_type),
        None => false,
    }
}

/// Whether each key and each value admits its type.
#[cycle(admits)]
fn all_pairs_admit(
    pairs: &[(SyntaxNode, SyntaxNode)],
    key_type: TypeStr<'_>,
    value_type: TypeStr<'_>,
) -> bool
    ensures { IsTrue result
        ↔ (KeysAdmit (pairs_of pairs.now) (ty key_type.entry) × ValuesAdmit (pairs_of pairs.now) (ty value_type.entry)) }
{
    for (key, value) in pairs {
        if !admits(key, key_type) || !admits(value, value_type) {
            return false;
        }
    }
    true
}

/// Whether it is the type of an entry, whose key and value these admit.
#[cycle(admits)]
fn entry_admits(key: &SyntaxNode, value: &SyntaxNode, of: TypeStr<'_>) -> bool
    ensures { IsTrue result ↔ IsEntryOf (Admits key.now) (Admits value.now) (ty of.entry) }
{
    match entry_types(of) {
        Some((key_type, value_type)) => admits(key, key_type) && admits(value, value_type),
        None => false,
    }
}
