//! Reading a text: its syntax, the type of that, and the value at this type.
ghost use Rattle.std.specs.Prelude.{◌≡◌, ◌≤◌, ℕ, List, Ok, length, IfOk, IfErr};
ghost use Rattle.gv_model.specs.Chosen.{Choice.is};
ghost use Rattle.gv_model.specs.LeastTypes.{choice};
ghost use Rattle.gv_model.specs.Parsing.{IsTree};
ghost use Rattle.gv_types.specs.TypeStr.{ty};
ghost use Rattle.gv_syntax.specs.Parsed.{IsWithin};
ghost use Rattle.gv_infer.specs.Reads.{Reads, IsReadFault};

use crate::build::build;
use crate::contents::check_contents;
use crate::fault::{ReadFault, ReadFlaw, ValueFlaw};
use crate::plain::plain_type;
use crate::plain_literal::read_plain;
use crate::typing::type_of_root;
use gv_syntax::{SyntaxNode, parse};
use gv_tree::Tree;
use gv_types::TypeStr;
use std::alloc::Global;

/// The value of a text of at most 16 MiB, by its own type.
///
/// It gives the text's first fault: `Text` where it has no syntax; `Typing` where that has no type of its own, or what
/// is in one of its `<..>` has none; and `Value` where a literal is no value of the type that it gets, or the value
/// would have over 128 levels. `Memory` says that a growth was refused.
///
/// A truth value, an `i` or a `u` that is printed so and has no minus sign, and a string in `'` of printable ASCII without a
/// backslash are read at sight: in time linear in the text, with memory for the string alone. Any other text it types once as a
/// whole, and once what is in each `<..>`, each in time linear in its own syntax times the levels of its type, and asks
/// nothing of a type that it has just chosen. Only where there is no value are the `<..>` typed once more, to find the first
/// without a type. It takes memory for the syntax, the value, and the types of the `<..>` that lie around one another.
pub fn read_value(alloc: Global, text: &str) -> Result<Tree, ReadFault>
    requires { length text.now ≤ 16777216 }
    ensures value { IfOk result (λ v. Reads text.now (Ok v)) }
    ensures fault { IfErr result (IsReadFault text.now) }
{
    if let Some(value) = read_plain(alloc, text)? {
        return Ok(value);
    }
    match parse(alloc, text) {
        Ok(syntax) => value_of(alloc, syntax.root()),
        Err(fault) => Err(fault.into_fault()),
    }
}

/// The value of a text, whose syntax that is, by its own type.
fn value_of(alloc: Global, root: &SyntaxNode) -> Result<Tree, ReadFault>
    requires { IsWithin root.now }
    ensures value { (text : List ℕ) → IsTree text root.now → IfOk result (λ v. Reads text (Ok v)) }
    ensures fault { (text : List ℕ) → IsTree text root.now → IfErr result (IsReadFault text) }
{
    if let Some(of) = plain_type(root) {
        return value_at_own(alloc, root, of);
    }
    match type_of_root(alloc, root) {
        Ok(of) => value_at_own(alloc, root, of.as_type()),
        Err(fault) => Err(fault.into_fault()),
    }
}

/// The value of a text, whose syntax that is, at its own type.
fn value_at_own(alloc: Global, root: &SyntaxNode, of: TypeStr<'_>) -> Result<Tree, ReadFault>
    requires within { IsWithin root.now }
    requires own { choice root.now ≡ is (ty of) }
    ensures value { (text : List ℕ) → IsTree text root.now → IfOk result (λ v. Reads text (Ok v)) }
    ensures fault { (text : List ℕ) → IsTree text root.now → IfErr result (IsReadFault text) }
{
    match build(alloc, root, of) {
        Ok(built) => built.ok_or(ReadFault::Fault(ReadFlaw::Value(ValueFlaw::TooDeep))),
        Err(fault) => match check_contents(alloc, root) {
            Ok(()) => Err(fault.into_fault()),
            Err(fault) => Err(fault.into_fault()),
        },
    }
}
