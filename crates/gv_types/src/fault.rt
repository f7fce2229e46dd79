//! Why a text is refused as a type.
use std::error::Error;
use std::fmt;

/// Why a text is refused as a type: its first fault from left to right, with the index of its byte.
///
/// At one byte `BadChar` comes before `KeyNotBasic`, and this before `TooDeep`. A fault is printed as its name
/// and index, `KeyNotBasic at 2`.
#[derive(Clone, Copy, Debug, PartialEq, Eq)]
pub enum TypeFault {
    /// The text has more than 67,108,864 bytes. This is looked at before all else.
    TooLong,
    /// There are no bytes.
    Empty,
    /// A byte that can't occur there.
    BadChar(usize),
    /// An entry's key starts with `v`, `a`, `m`, `(` or `{`.
    KeyNotBasic(usize),
    /// A type begins at nesting 129.
    TooDeep(usize),
    /// The text ends inside a type; the index is its length.
    Unclosed(usize),
    /// The first byte after a whole type.
    Trailing(usize),
}

impl fmt::Display for TypeFault {
    ghost use Rattle.std.specs.Prelude.{Some};
    ghost use Rattle.gv_model.specs.FaultTexts.{type_fault_text};
    ghost use Rattle.gv_types.specs.TypeFaults.{type_fault_of};

    ghost output = { λ fault. Some (type_fault_text (type_fault_of fault)) };

    fn fmt<W: fmt::Write>(&self, f: &mut fmt::Formatter<W>) -> fmt::Result {
        match self {
            TypeFault::TooLong => f.write_str("TooLong"),
            TypeFault::Empty => f.write_str("Empty at 0"),
            TypeFault::BadChar(at) => write!(f, "BadChar at {at}"),
            TypeFault::KeyNotBasic(at) => write!(f, "KeyNotBasic at {at}"),
            TypeFault::TooDeep(at) => write!(f, "TooDeep at {at}"),
            TypeFault::Unclosed(at) => write!(f, "Unclosed at {at}"),
            TypeFault::Trailing(at) => write!(f, "Trailing at {at}"),
        }
    }
}

impl Error for TypeFault {}
