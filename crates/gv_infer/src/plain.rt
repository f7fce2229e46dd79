//! Literals whose type is told at sight.
#![tactic(auto, unfolding(gv_model::specs::Patterns::pattern, gv_model::specs::LeastTypes::choice))]

ghost use Rattle.std.specs.Prelude.{◌≡◌, IfSome, IsTrue};
ghost use Rattle.gv_model.specs.Ty.{Ty.basic};
ghost use Rattle.gv_model.specs.Chosen.{Choice.is};
ghost use Rattle.gv_model.specs.LeastTypes.{choice};
ghost use Rattle.gv_model.specs.Patterns.{all_common, pattern, Pattern.loose, Bare.basics, BasicSet.texts, BasicSet.numbers};
ghost use Rattle.gv_types.specs.Classes.{basic_of};
ghost use Rattle.gv_types.specs.TypeStr.{ty};
ghost use Rattle.gv_syntax.specs.SyntaxNodes.{nodes_of};

use gv_syntax::{SyntaxKind, SyntaxNode};
use gv_types::{BasicType, TypeStr};

/// The type of a truth value, a number, a string, a word before a number, or an array of strings;
/// it is the one that [`crate::type_of`] finds. Of anything else None.
pub(crate) fn plain_type<'a>(node: &SyntaxNode) -> Option<TypeStr<'a>>
    ensures { IfSome result (λ t. choice node.now ≡ is (ty t)) }
{
    match &node.kind {
        SyntaxKind::Truth(_) => Some(basic_type(BasicType::Boolean)),
        SyntaxKind::Integer { .. } => Some(basic_type(BasicType::Int32)),
        SyntaxKind::Text(_) => Some(basic_type(BasicType::Text)),
        SyntaxKind::Keyword(of, inner) if of.is_number() && is_integer(inner) => {
            Some(basic_type(*of))
        }
        SyntaxKind::Array(nodes) if are_strings(nodes.as_slice()) => Some(TypeStr::of_checked(
            "as",
        )),
        _ => None,
    }
}

/// The type's text.
fn basic_type<'a>(of: BasicType) -> TypeStr<'a>
    ensures { ty result ≡ basic (basic_of of) }
{
    TypeStr::of_checked(of.letter())
}

/// Whether it is an integer.
fn is_integer(node: &SyntaxNode) -> bool
    ensures { IsTrue result → pattern node.now ≡ loose (basics numbers) }
{
    matches!(node.kind, SyntaxKind::Integer { .. })
}

/// Whether it is a string.
fn is_string(node: &SyntaxNode) -> bool
    ensures { IsTrue result → pattern node.now ≡ loose (basics texts) }
{
    matches!(node.kind, SyntaxKind::Text(_))
}

/// Whether these are strings, and one at least.
fn are_strings(nodes: &[SyntaxNode]) -> bool
    ensures { IsTrue result → all_common (nodes_of nodes.now) ≡ loose (basics texts) }
{
    let mut len = nodes.len();
    while len > 0 {
        if !is_string(&nodes[len - 1]) {
            return false;
        }
        len -= 1;
    }
    !nodes.is_empty()
}
