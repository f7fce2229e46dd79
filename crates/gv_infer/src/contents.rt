//! The contents of `<..>`, which are typed by themselves.
#![tactic(auto, using(crate::proofs::ContentRules::content_rules), unfolding(gv_model::specs::TextValues::contents, gv_model::specs::Syntax::levels, gv_model::specs::Grammar::tokens_of, gv_model::specs::Grammar::tokens_bytes))]

ghost use Rattle.std.specs.Prelude.{◌≤◌, IfOk, IfErr};
ghost use Rattle.gv_model.specs.Grammar.{text_bytes};
ghost use Rattle.gv_model.specs.TextValues.{contents, all_contents, pairs_contents};
ghost use Rattle.gv_syntax.specs.SyntaxNodes.{nodes_of, pairs_of};
ghost use Rattle.gv_model.specs.Grammar.{syntaxes_bytes, pairs_bytes};
ghost use Rattle.gv_infer.specs.Typings.{AreTyped, IsFirstChoiceFault};

use crate::fault::TypingFault;
use crate::typing::type_of_node;
use gv_syntax::{SyntaxKind, SyntaxNode};
use std::alloc::Global;

/// Finds the first of the contents of `<..>` that has no type, in the order of their closing.
#[cycle(contents)]
pub(crate) fn check_contents(alloc: Global, node: &SyntaxNode) -> Result<(), TypingFault>
    requires { text_bytes node.now ≤ 16777216 }
    ensures typed { IfOk result (λ u. AreTyped (contents node.now)) }
    ensures fault { IfErr result (IsFirstChoiceFault (contents node.now)) }
{
    match &node.kind {
        SyntaxKind::Truth(_) => Ok(()),
        SyntaxKind::Integer { .. } => Ok(()),
        SyntaxKind::Text(_) => Ok(()),
        SyntaxKind::ByteString(_) => Ok(()),
        SyntaxKind::Nothing => Ok(()),
        SyntaxKind::Array(nodes) => check_each(alloc, nodes.as_slice()),
        SyntaxKind::Tuple(nodes) => check_each(alloc, nodes.as_slice()),
        SyntaxKind::Dictionary(pairs) => check_pairs(alloc, pairs.as_slice()),
        SyntaxKind::Entry(key, value) => {
            check_contents(alloc, key)?;
            check_contents(alloc, value)
        }
        SyntaxKind::Variant(inner) => {
            check_contents(alloc, inner)?;
            type_of_node(alloc, inner)?;
            Ok(())
        }
        SyntaxKind::Just(inner) => check_contents(alloc, inner),
        SyntaxKind::OfType(_, inner) => check_contents(alloc, inner),
        SyntaxKind::Keyword(_, inner) => check_contents(alloc, inner),
    }
}

/// Finds the first of the contents of `<..>` in some parts of the syntax that has no type.
#[cycle(contents)]
fn check_each(alloc: Global, nodes: &[SyntaxNode]) -> Result<(), TypingFault>
    requires { syntaxes_bytes (nodes_of nodes.now) ≤ 16777216 }
    ensures typed { IfOk result (λ u. AreTyped (all_contents (nodes_of nodes.now))) }
    ensures fault { IfErr result (IsFirstChoiceFault (all_contents (nodes_of nodes.now))) }
{
    for node in nodes {
        check_contents(alloc, node)?;
    }
    Ok(())
}

/// Finds the first of the contents of `<..>` in some pairs that has no type: the key of each comes before its value.
#[cycle(contents)]
fn check_pairs(alloc: Global, pairs: &[(SyntaxNode, SyntaxNode)]) -> Result<(), TypingFault>
    requires { pairs_bytes (pairs_of pairs.now) ≤ 16777216 }
    ensures typed { IfOk result (λ u. AreTyped (pairs_contents (pairs_of pairs.now))) }
    ensures fault { IfErr result (IsFirstChoiceFault (pairs_contents (pairs_of pairs.now))) }
{
    for (key, value) in pairs {
        check_contents(alloc, key)?;
        check_contents(alloc, value)?;
    }
    Ok(())
}
