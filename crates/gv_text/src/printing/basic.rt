//! Values of basic types as text (GLib, "GVariant Text Format": "Numbers" and "Strings").
ghost use Rattle.std.specs.Prelude.{◌≡◌, ◌++◌, false, MatchResult, OnOk, string_bytes};
ghost use Rattle.gv_model.specs.Ty.{Ty.basic};
ghost use Rattle.gv_model.specs.Tree.{depth};
ghost use Rattle.gv_model.specs.Printed.{word, hex_byte, holds_double};
ghost use Rattle.gv_types.specs.Classes.{basic_of};
ghost use Rattle.gv_view.specs.Views.{value, view_ty};
ghost use Rattle.gv_text.specs.Printing.{IsLevelFault, IsWritten, Prints, figures_of};

use super::quoted::{digit, push_quoted};
use crate::print_fault::{PrintFault, PrintFlaw};
use gv_types::{BasicType, Class};
use gv_view::View;
use std::alloc::AllocError;

/// Writes the word before a value of this type that is annotated, if it has one.
pub(super) fn push_word(to: &mut String, of: BasicType) -> Result<(), AllocError>
    ensures { OnOk result (string_bytes to.new ≡ string_bytes to.old ++ word (basic_of of)) }
{
    match of {
        BasicType::Boolean | BasicType::Int32 | BasicType::Double | BasicType::Text => Ok(()),
        _ => {
            to.push_str(of.keyword())?;
            to.push(' ')
        }
    }
}

fn push_hex_byte(to: &mut String, byte: u8) -> Result<(), AllocError>
    ensures { OnOk result (string_bytes to.new ≡ string_bytes to.old ++ hex_byte byte) }
{
    to.push_str("0x")?;
    to.push(digit(byte / 16))?;
    to.push(digit(byte % 16))
}

/// Writes a value of a basic type, after its type's word if it is annotated.
pub(crate) fn push_basic(
    to: &mut String,
    view: View<'_>,
    of: BasicType,
    annotated: bool,
) -> Result<(), PrintFault>
    requires { view_ty view ≡ basic (basic_of of) }
    ensures { Prints result (value view.entry) 1 annotated false (string_bytes to.old) (string_bytes to.new) }
{
    if annotated {
        push_word(to, of)?;
    }
    push_figures(to, view, of)
}

/// Writes a value of a basic type without its type's word.
fn push_figures(to: &mut String, view: View<'_>, of: BasicType) -> Result<(), PrintFault>
    requires { view_ty view ≡ basic (basic_of of) }
    ensures { MatchResult result
        (λ _. IsWritten (holds_double (value view.entry)) (depth (value view.entry)) 1 (figures_of (value view.entry)) (string_bytes to.old) (string_bytes to.new))
        (IsLevelFault (value view.entry) 1) }
{
    match of {
        BasicType::Boolean => to.push_str(if view.as_bool().unwrap() {
            "true"
        } else {
            "false"
        })?,
        BasicType::Byte => push_hex_byte(to, view.as_u8().unwrap())?,
        BasicType::Int16 => write!(to, "{}", view.as_i16().unwrap())?,
        BasicType::Uint16 => write!(to, "{}", view.as_u16().unwrap())?,
        BasicType::Int32 => write!(to, "{}", view.as_i32().unwrap())?,
        BasicType::Uint32 => write!(to, "{}", view.as_u32().unwrap())?,
        BasicType::Int64 => write!(to, "{}", view.as_i64().unwrap())?,
        BasicType::Uint64 => write!(to, "{}", view.as_u64().unwrap())?,
        BasicType::Handle => write!(to, "{}", view.as_handle().unwrap())?,
        BasicType::Text | BasicType::ObjectPath | BasicType::Signature => {
            push_quoted(to, view.as_str().unwrap())?
        }
        BasicType::Double => return Err(PrintFault::Fault(PrintFlaw::DoubleText)),
    }
    Ok(())
}
