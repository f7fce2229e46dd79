//! The type of a text: the least that its syntax admits.
ghost use Rattle.std.specs.Prelude.{◌≡◌, ◌≤◌, IfOk, IfErr};
ghost use Rattle.gv_model.specs.Grammar.{text_bytes};
ghost use Rattle.gv_model.specs.Chosen.{Choice.is};
ghost use Rattle.gv_model.specs.LeastTypes.{choice};
ghost use Rattle.gv_model.specs.TextValues.{HasChoice};
ghost use Rattle.gv_syntax.specs.TypeTexts.{type_of_owned};
ghost use Rattle.gv_infer.specs.Typings.{IsTypingFault, IsChoiceFault};

use crate::contents::check_contents;
use crate::fault::{TypingFault, TypingFlaw};
use gv_patterns::{Found, write_least_type};
use gv_syntax::{Syntax, SyntaxNode, TypeText};
use gv_types::TypeStr;
use std::alloc::Global;

/// The type of a text, by its syntax.
///
/// What is in `<..>` is typed first, one after the other in the order of their closing. The first that has no type is
/// why the text has none: `NoCommonType` where no type within the limit of depth fits, `Ambiguous` where several fit and
/// none of them comes first. `Memory` says that a growth was refused. It takes time linear in the syntax times the levels
/// of its type.
pub fn type_of(alloc: Global, syntax: &Syntax) -> Result<TypeText, TypingFault>
    ensures chosen { IfOk result (λ t. HasChoice syntax.now (is (type_of_owned t))) }
    ensures fault { IfErr result (IsTypingFault syntax.now) }
{
    let root = syntax.root();
    check_contents(alloc, root)?;
    type_of_node(alloc, root)
}

/// The type of a text, by its whole syntax, or the fault that [`type_of`] gives. Where it has a type, nothing is known of
/// what is in `<..>`: that is not looked at.
pub(crate) fn type_of_root(alloc: Global, root: &SyntaxNode) -> Result<TypeText, TypingFault>
    requires { text_bytes root.now ≤ 16777216 }
    ensures chosen { IfOk result (λ t. choice root.now ≡ is (type_of_owned t)) }
    ensures fault { IfErr result (IsTypingFault root.now) }
{
    match type_of_node(alloc, root) {
        Ok(of) => Ok(of),
        Err(fault) => {
            check_contents(alloc, root)?;
            Err(fault)
        }
    }
}

/// The type of a part of the syntax for itself; what is in `<..>` is not looked at.
pub(crate) fn type_of_node(alloc: Global, node: &SyntaxNode) -> Result<TypeText, TypingFault>
    requires { text_bytes node.now ≤ 16777216 }
    ensures chosen { IfOk result (λ t. choice node.now ≡ is (type_of_owned t)) }
    ensures fault { IfErr result (IsChoiceFault (choice node.now)) }
{
    let mut text = String::new(alloc);
    let found = write_least_type(alloc, node, &mut text)?;
    if TypeStr::parse(text.as_str()).is_err() {
        return Err(TypingFault::Fault(TypingFlaw::NoCommonType));
    }
    match found {
        Found::Nowhere => Err(TypingFault::Fault(TypingFlaw::NoCommonType)),
        Found::Many => Err(TypingFault::Fault(TypingFlaw::Ambiguous)),
        Found::Least => Ok(TypeText::of_checked(text)),
    }
}
