//! The text of a value (GLib, "GVariant Text Format"), annotated so that its type can be read back.
ghost use Rattle.std.specs.Prelude.{◌≡◌, ◌++◌, true, false, IfOk, IfErr, OnOk, string_bytes};
ghost use Rattle.gv_model.specs.Printed.{printed, is_too_large, holds_double};
ghost use Rattle.gv_view.specs.Views.{value};
ghost use Rattle.gv_text.specs.Printing.{IsUnprintable, Prints};

mod array;
mod basic;
mod children;
mod default;
mod maybe;
mod quoted;
mod tuple;
mod type_mark;

use crate::print_fault::{PrintFault, PrintFlaw};
use array::push_array;
use basic::push_basic;
use children::push_between;
use default::push_default;
use gv_types::Class;
use gv_view::View;
use maybe::push_maybe;
use std::alloc::Global;
use tuple::{push_entry, push_tuple};

/// How many bytes a text has room for at first: as many as most settings have.
const ROOM: usize = 24;

/// The text of the value that the view reads, annotated.
///
/// It is one walk over the values: its time is linear in the bytes, in the text and, for each container in it, in the container's
/// type. A second walk, which writes nothing, says whether a value that holds a double is also too deep.
pub fn print(alloc: Global, view: View<'_>) -> Result<String, PrintFault>
    ensures text { IfOk result (λ s. string_bytes s ≡ printed (value view.entry) true) }
    ensures printable { OnOk result ((is_too_large (value view.entry) ≡ false) × (holds_double (value view.entry) ≡ false)) }
    ensures fault { IfErr result (IsUnprintable (value view.entry)) }
{
    let mut text = String::with_capacity(alloc, ROOM)?;
    print_onto(&mut text, view)?;
    Ok(text)
}

/// As [`print`], behind what the text has. If it fails, nothing is said of the text.
pub fn print_onto(to: &mut String, view: View<'_>) -> Result<(), PrintFault>
    ensures text { OnOk result (string_bytes to.new ≡ string_bytes to.old ++ printed (value view.entry) true) }
    ensures printable { OnOk result ((is_too_large (value view.entry) ≡ false) × (holds_double (value view.entry) ≡ false)) }
    ensures fault { IfErr result (IsUnprintable (value view.entry)) }
{
    match push_value(to, view, View::MAX_LEVELS, true, false) {
        // A value that is too deep behind the double comes first.
        Err(PrintFault::Fault(PrintFlaw::DoubleText)) if view.is_too_large() => Err(
            PrintFault::Fault(PrintFlaw::TooLarge),
        ),
        printed => printed,
    }
}

/// Writes the value that the view reads, which has no more than these levels, annotated or not; `in_array` says that it is
/// an element of an array.
#[cycle(values)]
fn push_value(
    to: &mut String,
    view: View<'_>,
    levels: u8,
    annotated: bool,
    in_array: bool,
) -> Result<(), PrintFault>
    ensures { Prints result (value view.entry) levels annotated in_array (string_bytes to.old) (string_bytes to.new) }
{
    if levels == 0 {
        return Err(PrintFault::Fault(PrintFlaw::TooLarge));
    }
    // What has no bytes is told by its type alone.
    if view.bytes().is_empty() {
        return push_default(to, view.type_str(), levels, annotated, in_array);
    }
    match view.type_str().class() {
        Class::Basic(basic) => push_basic(to, view, basic, annotated),
        // A variant's child is always annotated.
        Class::Variant => push_between(to, view, levels, ('<', '>'), true),
        Class::Array => push_array(to, view, levels, annotated),
        Class::Maybe => push_maybe(to, view, levels, annotated),
        Class::Tuple => push_tuple(to, view, levels, annotated),
        Class::Entry => push_entry(to, view, levels, annotated, in_array),
    }
}
