//! The value of a text.
ghost use Rattle.std.specs.Prelude.{◌≡◌, ◌≢◌, ◌++◌, IfErr, IfOk, IsOk, IsUtf8, length};
ghost use Rattle.gv_model.specs.Ty.{spelling};
ghost use Rattle.gv_types.specs.TypeStr.{ty};
ghost use Rattle.dconfdb_values.specs.Parsed.{IsParsed, IsUnparsed, IsUnwritten, IsWritten, place_of, text_number, unparsed_number, value_number};
ghost use Rattle.dconfdb_values.specs.declared.parsing.Unparsed.TheVariants.{Memory};

use gv_build::{BuildFault, serialise};
use gv_infer::{ReadFault, ReadFlaw, ValueFlaw, read_value};
use gv_syntax::{Span, TextCause};
use gv_tree::Tree;
use gv_types::TypeStr;
use std::alloc::Global;

/// The most bytes of a text that is read.
const LONGEST: usize = 16_777_216;

/// The value of a text: its bytes in normal form, so many as `size` says, and behind them the text of
/// its type.
#[derive(Drop)]
pub struct Parsed {
    pub block: Vec<u8>,
    pub size: usize,
}

/// Why a text has no value. C is told its number, and where it is in the text.
#[derive(Clone, Copy)]
pub enum Unparsed {
    /// An allocation failed.
    Memory,
    /// The bytes are no UTF-8.
    NotText,
    /// They are over 16 MiB.
    TooLong,
    /// The value has over 4,294,967,295 bytes.
    TooLarge,
    /// It is no text of a value.
    Read(ReadFlaw),
}

impl Unparsed {
    /// The number that C is told.
    pub fn number(self) -> u32
        ensures number { result ≡ unparsed_number self }
        ensures some { result ≢ 0 }
    {
        match self {
            Unparsed::Memory => 1,
            Unparsed::NotText => 8,
            Unparsed::TooLong | Unparsed::TooLarge => 17,
            Unparsed::Read(ReadFlaw::Text(flaw)) => number_of_text(flaw.cause),
            Unparsed::Read(ReadFlaw::Typing(flaw)) => number_of_value(ValueFlaw::from(flaw)),
            Unparsed::Read(ReadFlaw::Value(flaw)) => number_of_value(flaw),
        }
    }

    /// Where it is in the text: from 0 to 0 if it is the whole text's.
    pub fn place(self) -> Span
        ensures { result ≡ place_of self }
    {
        match self {
            Unparsed::Read(ReadFlaw::Text(flaw)) => flaw.span,
            _ => Span { start: 0, end: 0 },
        }
    }
}

/// The number of a fault of a text's tokens or of its syntax.
fn number_of_text(cause: TextCause) -> u32
    ensures number { result ≡ text_number cause }
    ensures some { result ≢ 0 }
{
    match cause {
        TextCause::TooDeep => 17,
        TextCause::DoubleText => 19,
        TextCause::BadToken => 32,
        TextCause::Unclosed => 33,
        TextCause::BadEscape => 34,
        TextCause::Unexpected => 35,
    }
}

/// That of a fault of its type or of its value.
fn number_of_value(flaw: ValueFlaw) -> u32
    ensures number { result ≡ value_number flaw }
    ensures some { result ≢ 0 }
{
    match flaw {
        ValueFlaw::TooDeep => 17,
        ValueFlaw::DoubleText => 19,
        ValueFlaw::NoCommonType => 36,
        ValueFlaw::Ambiguous => 37,
        ValueFlaw::OutOfRange => 38,
        ValueFlaw::BadObjectPath => 39,
        ValueFlaw::BadSignature => 40,
    }
}

/// The value that a text has by its own, least type (GLib, "GVariant Text Format"): its bytes in
/// normal form, and the text of that type.
///
/// The fault is the text's first: `Read` if it spells no value, or one with a double or of over 128
/// levels; `NotText` if the bytes are no UTF-8, and `TooLong` if they are over 16 MiB; `TooLarge` if
/// the value would have over 4,294,967,295 bytes; `Memory` if an allocation fails. It takes the time
/// and the memory that gv_infer's `read_value` takes, and that of the value's bytes.
pub fn value_of_text(alloc: Global, text: &[u8]) -> Result<Parsed, Unparsed>
    ensures value { IfOk result (λ p. IsParsed text.now p.block.items p.size) }
    ensures text { IsOk result → IsUtf8 text.now }
    ensures fault { IfErr result (IsUnparsed text.now) }
{
    let Ok(text) = str::from_utf8(text) else {
        return Err(Unparsed::NotText);
    };
    if text.len() > LONGEST {
        return Err(Unparsed::TooLong);
    }
    match read_value(alloc, text) {
        Ok(tree) => written(alloc, &tree),
        Err(ReadFault::Fault(flaw)) => Err(Unparsed::Read(flaw)),
        Err(ReadFault::Memory) => Err(Unparsed::Memory),
    }
}

/// The bytes of a value, and the text of its type.
fn written(alloc: Global, tree: &Tree) -> Result<Parsed, Unparsed>
    ensures written { IfOk result (λ p. IsWritten tree.now p.block.items p.size) }
    ensures fault { IfErr result (IsUnwritten tree.now) }
{
    let of = tree.type_text();
    match serialise(alloc, tree) {
        Ok(bytes) => with_type(bytes, of),
        Err(BuildFault::Fault(_)) => Err(Unparsed::TooLarge),
        Err(BuildFault::Memory) => Err(Unparsed::Memory),
    }
}

/// Bytes, and the text of a type behind them.
fn with_type(bytes: Vec<u8>, of: TypeStr<'_>) -> Result<Parsed, Unparsed>
    ensures block { IfOk result (λ p. p.block.items ≡ bytes.items ++ spelling (ty of.entry)) }
    ensures size { IfOk result (λ p. p.size ≡ length bytes.items) }
    ensures fault { IfErr result (λ e. e ≡ Memory) }
{
    let size = bytes.len();
    let mut block = bytes;
    match block.extend_from_slice(of.as_str().as_bytes()) {
        Ok(()) => Ok(Parsed { block, size }),
        Err(_) => Err(Unparsed::Memory),
    }
}
