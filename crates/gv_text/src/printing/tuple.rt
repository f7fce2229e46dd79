//! Tuples and entries as text (GLib, "GVariant Text Format": "Tuples" and "Dictionaries").
//!
//! A tuple of one has a comma after its member. An entry that is an element of an array is written without braces.
ghost use Rattle.std.specs.Prelude.{◌≡◌, ◌<◌, false, string_bytes};
ghost use Rattle.gv_types.specs.Classes.{class_of};
ghost use Rattle.gv_types.specs.declared.class.Class.TheVariants.{Tuple, Entry};
ghost use Rattle.gv_view.specs.Views.{value, view_ty};
ghost use Rattle.gv_text.specs.Printing.{Prints};

use super::children::{push_between, push_children};
use crate::print_fault::PrintFault;
use gv_view::View;

/// Writes a tuple.
#[cycle(values)]
pub(super) fn push_tuple(
    to: &mut String,
    view: View<'_>,
    levels: u8,
    annotated: bool,
) -> Result<(), PrintFault>
    requires kind { class_of (view_ty view) ≡ Tuple }
    requires some { 0 < levels }
    ensures { Prints result (value view.entry) levels annotated false (string_bytes to.old) (string_bytes to.new) }
{
    to.push('(')?;
    let alone = push_children(to, view, levels, ", ", annotated)?;
    to.push_str(if alone { ",)" } else { ")" })?;
    Ok(())
}

/// Writes an entry, its key and its value.
#[cycle(values)]
pub(super) fn push_entry(
    to: &mut String,
    view: View<'_>,
    levels: u8,
    annotated: bool,
    in_array: bool,
) -> Result<(), PrintFault>
    requires kind { class_of (view_ty view) ≡ Entry }
    requires some { 0 < levels }
    ensures { Prints result (value view.entry) levels annotated in_array (string_bytes to.old) (string_bytes to.new) }
{
    if !in_array {
        return push_between(to, view, levels, ('{', '}'), annotated);
    }
    push_children(to, view, levels, ": ", annotated)?;
    Ok(())
}
