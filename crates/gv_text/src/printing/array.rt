//! Arrays as text (GLib, "GVariant Text Format": "Arrays", "Dictionaries" and "Bytestrings").
//!
//! Bytes whose only zero byte is the last are a byte string. Entries occur in braces, other elements in square
//! brackets. Only the first element is annotated, and an array that has none is itself.
//!
//! The elements have one type, so those without bytes are alike. A file can have millions of them, each with a long text. From
//! the second element on that text is written once, and then copied.
ghost use Rattle.std.specs.Prelude.{◌≡◌, IfOk, ◌<◌, ◌++◌, true, false, IfSome, option_map, string_bytes};
ghost use Rattle.gv_model.specs.Tree.{children, depth};
ghost use Rattle.gv_model.specs.Printed.{comma, joined_by, holds_double};
ghost use Rattle.gv_types.specs.Classes.{class_of};
ghost use Rattle.gv_types.specs.TypeStr.{ty, element_of};
ghost use Rattle.gv_types.specs.declared.class.Class.TheVariants.{Array};
ghost use Rattle.gv_view.specs.Views.{value, view_ty};
ghost use Rattle.gv_text.specs.Printing.{IsNoted, Prints, PrintsChildren, brackets_of, byte_string_of, child_texts};

use super::push_value;
use super::quoted::push_byte_string;
use super::type_mark::push_type_mark;
use crate::print_fault::{PrintFault, PrintFlaw};
use gv_types::{Class, TypeStr};
use gv_view::View;

/// Writes an array: as a byte string where it is one, else its elements in their brackets.
#[cycle(values)]
pub(super) fn push_array(
    to: &mut String,
    view: View<'_>,
    levels: u8,
    annotated: bool,
) -> Result<(), PrintFault>
    requires kind { class_of (view_ty view) ≡ Array }
    requires some { 0 < levels }
    ensures { Prints result (value view.entry) levels annotated false (string_bytes to.old) (string_bytes to.new) }
{
    if let Some(body) = byte_string(view) {
        // The bytes are a level below.
        if levels < 2 {
            return Err(PrintFault::Fault(PrintFlaw::TooLarge));
        }
        return Ok(push_byte_string(to, body)?);
    }
    if annotated && view.n_children() == 0 {
        push_type_mark(to, view.type_str())?;
    }
    let (left, right) = brackets(view.type_str());
    to.push(left)?;
    push_elements(to, view, levels, annotated)?;
    to.push(right)?;
    Ok(())
}

/// Writes an array's elements with commas between them, the first of them annotated or not.
#[cycle(values)]
fn push_elements(
    to: &mut String,
    view: View<'_>,
    levels: u8,
    annotated: bool,
) -> Result<(), PrintFault>
    requires kind { class_of (view_ty view) ≡ Array }
    requires some { 0 < levels }
    ensures { PrintsChildren result (value view.entry) levels
        (joined_by comma (child_texts (children (value view.entry)) annotated true)) (string_bytes to.old) (string_bytes to.new) }
{
    let mut children = view.children();
    let Some(first) = children.next() else {
        return Ok(());
    };
    push_value(to, first, levels - 1, annotated, true)?;
    let mut noted = None;
    while let Some(child) = children.next() {
        noted = push_element(to, child, levels - 1, noted)?;
    }
    Ok(())
}

/// Writes a comma and an element that is not annotated, and answers where these stand for an element without bytes, from start
/// to end. Where that is already noted, an element without bytes is copied from there.
#[cycle(values)]
#[inline(always)]
fn push_element(
    to: &mut String,
    child: View<'_>,
    levels: u8,
    noted: Option<(usize, usize)>,
) -> Result<Option<(usize, usize)>, PrintFault>
    requires { IfSome noted (λ r. IsNoted (view_ty child) levels r.0 r.1 (string_bytes to.now)) }
    ensures text { Prints result (value child.entry) levels false true (string_bytes to.old ++ comma) (string_bytes to.new) }
    ensures noted { IfOk result (λ n. IfSome n (λ r. IsNoted (view_ty child.entry) levels r.0 r.1 (string_bytes to.new))) }
{
    let is_empty = child.bytes().is_empty();
    if is_empty {
        if let Some((start, end)) = noted {
            to.extend_from_within(start..end)?;
            return Ok(noted);
        }
    }
    let start = to.len();
    to.push_str(", ")?;
    push_value(to, child, levels, false, true)?;
    Ok(if is_empty {
        Some((start, to.len()))
    } else {
        noted
    })
}

/// The bytes of a byte string before its zero byte, or None for any other value.
fn byte_string<'a>(view: View<'a>) -> Option<&'a [u8]>
    ensures text { option_map (λ b. b.now) result ≡ byte_string_of (value view.entry) }
    ensures plain { IfSome result (λ _. holds_double (value view.entry) ≡ false) }
    ensures levels { IfSome result (λ _. depth (value view.entry) ≡ 2) }
{
    let (last, body) = view.as_bytes()?.split_last()?;
    if *last == 0 && !body.contains(&0) {
        Some(body)
    } else {
        None
    }
}

/// The brackets around the elements of an array of this type.
pub(super) fn brackets(of: TypeStr<'_>) -> (char, char)
    ensures { result ≡ brackets_of (element_of (ty of.entry)) }
{
    match of.element() {
        Some(element) if element.class() == Class::Entry => ('{', '}'),
        _ => ('[', ']'),
    }
}
