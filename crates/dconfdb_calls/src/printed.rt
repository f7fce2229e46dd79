//! The text of a value.
ghost use Rattle.std.specs.Prelude.{◌≡◌, ◌≢◌, true, IfErr, IfOk, IsOk, string_bytes};
ghost use Rattle.gv_model.specs.Decode.{decode};
ghost use Rattle.gv_model.specs.Printed.{printed};
ghost use Rattle.gv_model.specs.TypeText.{type_at};
ghost use Rattle.dconfdb_calls.specs.Given.{SpellsType};
ghost use Rattle.dconfdb_calls.specs.Printed.{IsUnprinted, unprinted_number};

use crate::given::view_of;
use gv_text::{PrintFault, PrintFlaw, print};
use std::alloc::Global;

/// Why a value has no text. C is told its number.
#[derive(Clone, Copy, Debug, PartialEq, Eq)]
pub enum Unprinted {
    /// A type text spells no type.
    BadType,
    /// The value isn't printed.
    Value(PrintFault),
}

impl Unprinted {
    /// The number that C is told.
    pub fn number(self) -> u32
        ensures number { result ≡ unprinted_number self }
        ensures some { result ≢ 0 }
    {
        match self {
            Unprinted::Value(PrintFault::Memory) => 1,
            Unprinted::BadType => 14,
            Unprinted::Value(PrintFault::Fault(PrintFlaw::TooLarge)) => 17,
            Unprinted::Value(PrintFault::Fault(PrintFlaw::DoubleText)) => 19,
        }
    }
}

/// The text of the value that bytes have at the type that a text spells, annotated so that it can
/// be read back (GLib, "GVariant Text Format"): what `dconfdb read` prints.
///
/// `BadType` if the text spells no type, else `Value` of why the value is not printed. It is linear
/// in the bytes and in the text.
pub fn value_text(alloc: Global, type_text: &[u8], bytes: &[u8]) -> Result<String, Unprinted>
    ensures text { IfOk result (λ text. string_bytes text ≡ printed (decode (type_at type_text.now) bytes.now) true) }
    ensures typed { IsOk result → SpellsType type_text.now }
    ensures fault { IfErr result (IsUnprinted type_text.now bytes.now) }
{
    match view_of(type_text, bytes) {
        Some(view) => print(alloc, view).map_err(Unprinted::Value),
        None => Err(Unprinted::BadType),
    }
}
