//! The value that syntax has at a type.
ghost use Rattle.std.specs.Prelude.{Ok, IfOk, IfErr};
ghost use Rattle.gv_model.specs.TextValues.{HasValue};
ghost use Rattle.gv_types.specs.TypeStr.{ty};
ghost use Rattle.gv_infer.specs.Values.{IsValueFault};

use crate::admits::admits;
use crate::build::build;
use crate::contents::check_contents;
use crate::fault::{ValueFault, ValueFlaw};
use gv_syntax::Syntax;
use gv_tree::Tree;
use gv_types::TypeStr;
use std::alloc::Global;

/// The value that syntax has at a type.
///
/// Refused are, in this order: a type that the syntax doesn't admit (`NoCommonType`); the first `<..>` whose content
/// has no type of its own, in the order of the closing `>` (`NoCommonType`, `Ambiguous`); the first literal from the
/// left that is no value of its type (`OutOfRange`, `BadObjectPath`, `BadSignature`, `DoubleText`); a value of over 128
/// levels (`TooDeep`); running out of memory. It looks at each part of the syntax a few times, and copies each string once.
/// What is in a `<..>` is typed once, as it is met, and once more only where there is no value.
pub fn value_at(alloc: Global, syntax: &Syntax, of: TypeStr<'_>) -> Result<Tree, ValueFault>
    ensures value { IfOk result (λ v. HasValue syntax.now (ty of.entry) (Ok v)) }
    ensures fault { IfErr result (IsValueFault syntax.now (ty of.entry)) }
{
    let root = syntax.root();
    if !admits(root, of) {
        return Err(ValueFault::Fault(ValueFlaw::NoCommonType));
    }
    match build(alloc, root, of) {
        Ok(built) => built.ok_or(ValueFault::Fault(ValueFlaw::TooDeep)),
        Err(fault) => match check_contents(alloc, root) {
            Ok(()) => Err(fault),
            Err(fault) => Err(fault.into_fault()),
        },
    }
}
