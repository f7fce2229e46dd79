//! The children of a container as text, one after the other; the elements of an array are in `array`.
ghost use Rattle.std.specs.Prelude.{◌≡◌, ◌↔◌, ◌<◌, false, IsTrue, IfOk, string_bytes};
ghost use Rattle.gv_model.specs.Tree.{children, trees_len};
ghost use Rattle.gv_model.specs.Printed.{comma, joined_by};
ghost use Rattle.gv_model.specs.Quoted.{between};
ghost use Rattle.gv_view.specs.Views.{value};
ghost use Rattle.gv_text.specs.Printing.{PrintsChildren, child_texts};

use super::default::push_rest;
use super::push_value;
use crate::print_fault::PrintFault;
use gv_view::View;

/// Writes a value's children with commas between them, in brackets.
#[cycle(values)]
pub(super) fn push_between(
    to: &mut String,
    view: View<'_>,
    levels: u8,
    brackets: (char, char),
    annotated: bool,
) -> Result<(), PrintFault>
    requires left { brackets.0 < 128 }
    requires right { brackets.1 < 128 }
    requires some { 0 < levels }
    ensures { PrintsChildren result (value view.entry) levels
        (between brackets.0 (joined_by comma (child_texts (children (value view.entry)) annotated false)) brackets.1)
        (string_bytes to.old) (string_bytes to.new) }
{
    to.push(brackets.0)?;
    push_children(to, view, levels, ", ", annotated)?;
    to.push(brackets.1)?;
    Ok(())
}

/// Writes a value's children with `mark` between them, and answers whether there is one alone.
#[cycle(values)]
pub(super) fn push_children(
    to: &mut String,
    view: View<'_>,
    levels: u8,
    mark: &str,
    annotated: bool,
) -> Result<bool, PrintFault>
    requires { 0 < levels }
    ensures text { PrintsChildren result (value view.entry) levels
        (joined_by mark.now (child_texts (children (value view.entry)) annotated false))
        (string_bytes to.old) (string_bytes to.new) }
    ensures alone { IfOk result (λ alone. IsTrue alone ↔ (trees_len (children (value view.entry)) ≡ 1)) }
{
    let mut children = view.children();
    let Some(first) = children.next() else {
        return Ok(false);
    };
    push_value(to, first, levels - 1, annotated, false)?;
    let mut alone = true;
    while let Some(child) = children.next() {
        alone = false;
        to.push_str(mark)?;
        push_value(to, child, levels - 1, annotated, false)?;
        if let Some(unplaced) = children.unplaced() {
            push_rest(to, unplaced, levels - 1, mark, annotated)?;
            return Ok(false);
        }
    }
    Ok(alone)
}
