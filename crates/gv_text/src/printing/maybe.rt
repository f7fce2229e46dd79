//! Maybes as text (GLib, "GVariant Text Format": "Maybe Types").
//!
//! Levels of Just around a value are not written, and those around Nothing are, each as `just `. The type that
//! comes before an annotated maybe says the rest, so that nothing inside is annotated.
ghost use Rattle.std.specs.Prelude.{◌≡◌, ◌+◌, IfOk, ◌<◌, IfErr, ◌≤◌, ◌++◌, true, false, MatchOption, OnOk, string_bytes};
ghost use Rattle.gv_model.specs.Tree.{depth};
ghost use Rattle.gv_model.specs.Printed.{text_of, ends_in_nothing};
ghost use Rattle.gv_types.specs.Classes.{class_of};
ghost use Rattle.gv_types.specs.declared.class.Class.TheVariants.{Maybe};
ghost use Rattle.refused.specs.declared.Refused.TheVariants.{Fault};
ghost use Rattle.gv_text.specs.declared.print_fault.PrintFlaw.TheVariants.{TooLarge};
ghost use Rattle.gv_view.specs.Views.{value, view_ty};
ghost use Rattle.gv_text.specs.Printing.{IsNothing, IsPrintedAs, Prints};

use super::push_value;
use super::type_mark::push_type_mark;
use crate::print_fault::{PrintFault, PrintFlaw};
use gv_types::Class;
use gv_view::View;
use std::alloc::AllocError;

/// Writes a maybe.
#[cycle(values)]
pub(super) fn push_maybe(
    to: &mut String,
    view: View<'_>,
    levels: u8,
    annotated: bool,
) -> Result<(), PrintFault>
    requires kind { class_of (view_ty view) ≡ Maybe }
    requires some { 0 < levels }
    ensures { Prints result (value view.entry) levels annotated false (string_bytes to.old) (string_bytes to.new) }
{
    if annotated {
        push_type_mark(to, view.type_str())?;
    }
    match innermost(view, levels)? {
        Some((inner, left)) => push_value(to, inner, left, false, false),
        None => Ok(push_nothing(to, view)?),
    }
}

/// The value inside all levels of Just, with the levels that are left for it, or None where they end in Nothing.
fn innermost<'a>(view: View<'a>, levels: u8) -> Result<Option<(View<'a>, u8)>, PrintFault>
    requires kind { class_of (view_ty view) ≡ Maybe }
    requires some { 0 < levels }
    ensures inner { IfOk result (λ o. MatchOption o (IsNothing (value view.entry)) (λ r. IsPrintedAs (value view.entry) (value r.0))) }
    ensures left { IfOk result (λ o. MatchOption o (depth (value view.entry) ≤ levels)
        (λ r. (r.1 < levels) × (r.1 + depth (value view.entry) ≡ levels + depth (value r.0)))) }
    ensures deep { IfErr result (λ f. (f ≡ Fault TooLarge) × (levels < depth (value view.entry))) }
{
    let (mut inner, mut left) = (view, levels);
    while let Class::Maybe = inner.type_str().class() {
        let Some(child) = inner.child(0) else {
            return Ok(None);
        };
        left -= 1;
        if left == 0 {
            return Err(PrintFault::Fault(PrintFlaw::TooLarge));
        }
        inner = child;
    }
    Ok(Some((inner, left)))
}

/// Writes Nothing, and before it `just ` for each level of Just around it.
fn push_nothing(to: &mut String, view: View<'_>) -> Result<(), AllocError>
    requires { ends_in_nothing (value view) ≡ true }
    ensures { OnOk result (string_bytes to.new ≡ string_bytes to.old ++ text_of (value view.entry) false false) }
{
    let mut level = view;
    while let Some(child) = level.child(0) {
        to.push_str("just ")?;
        level = child;
    }
    to.push_str("nothing")?;
    Ok(())
}
