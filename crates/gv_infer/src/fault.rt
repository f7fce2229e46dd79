//! Why a text has no type or no value.
ghost use Rattle.std.specs.Prelude.{◌≡◌, Some};
ghost use Rattle.gv_infer.specs.declared.fault.ReadFlaw.TheVariants.{Text, Typing, Value};

use gv_syntax::TextFlaw;
use refused::Refused;
use std::error::Error;
use std::fmt;

/// Why a text has no type.
pub type TypingFault = Refused<TypingFlaw>;

/// Why syntax has no value at a type.
pub type ValueFault = Refused<ValueFlaw>;

/// Why a text has no value.
pub type ReadFault = Refused<ReadFlaw>;

/// What is wrong with a text that has no type.
#[derive(Clone, Copy, Debug, PartialEq, Eq)]
pub enum TypingFlaw {
    /// It is of no type within the limit of depth.
    NoCommonType,
    /// It may have several types, and none of them comes first.
    Ambiguous,
}

/// What is wrong with syntax that has no value at a type.
#[derive(Clone, Copy, Debug, PartialEq, Eq)]
pub enum ValueFlaw {
    /// The syntax doesn't admit the type, or what is in a `<..>` admits none.
    NoCommonType,
    /// No one type is the least that is admitted by what is in a `<..>`.
    Ambiguous,
    /// A number lies outside its type.
    OutOfRange,
    /// A text is no object path.
    BadObjectPath,
    /// A text is no signature.
    BadSignature,
    /// A number of the type `d`, of which there is no text here.
    DoubleText,
    /// The value would have over 128 levels.
    TooDeep,
}

/// What is wrong with a text that has no value.
#[derive(Clone, Copy, Debug, PartialEq, Eq)]
pub enum ReadFlaw {
    /// It has no tokens, or no syntax.
    Text(TextFlaw),
    /// Its syntax has no type of its own.
    Typing(TypingFlaw),
    /// Its syntax has no value at that type.
    Value(ValueFlaw),
}

impl fmt::Display for TypingFlaw {
    ghost use Rattle.gv_infer.specs.FaultTexts.{typing_fault_text};

    ghost output = { λ flaw. Some (typing_fault_text flaw) };

    fn fmt<W: fmt::Write>(&self, f: &mut fmt::Formatter<W>) -> fmt::Result {
        ValueFlaw::from(*self).fmt(f)
    }
}

impl fmt::Display for ValueFlaw {
    ghost use Rattle.gv_infer.specs.FaultTexts.{value_fault_text};

    ghost output = { λ flaw. Some (value_fault_text flaw) };

    fn fmt<W: fmt::Write>(&self, f: &mut fmt::Formatter<W>) -> fmt::Result {
        f.write_str(match self {
            ValueFlaw::NoCommonType => "NoCommonType",
            ValueFlaw::Ambiguous => "Ambiguous",
            ValueFlaw::OutOfRange => "OutOfRange",
            ValueFlaw::BadObjectPath => "BadObjectPath",
            ValueFlaw::BadSignature => "BadSignature",
            ValueFlaw::DoubleText => "DoubleText",
            ValueFlaw::TooDeep => "TooDeep",
        })
    }
}

impl fmt::Display for ReadFlaw {
    ghost use Rattle.gv_infer.specs.FaultTexts.{read_fault_text};

    ghost output = { λ flaw. Some (read_fault_text flaw) };

    fn fmt<W: fmt::Write>(&self, f: &mut fmt::Formatter<W>) -> fmt::Result {
        match self {
            ReadFlaw::Text(flaw) => flaw.fmt(f),
            ReadFlaw::Typing(flaw) => flaw.fmt(f),
            ReadFlaw::Value(flaw) => flaw.fmt(f),
        }
    }
}

impl Error for TypingFlaw {}

impl Error for ValueFlaw {}

impl Error for ReadFlaw {}

impl From<TypingFlaw> for ValueFlaw {
    ghost use Rattle.gv_infer.specs.ValueFaults.{value_flaw};

    ghost from_gives = { λ typing flaw. flaw ≡ value_flaw typing };

    fn from(flaw: TypingFlaw) -> ValueFlaw {
        match flaw {
            TypingFlaw::NoCommonType => ValueFlaw::NoCommonType,
            TypingFlaw::Ambiguous => ValueFlaw::Ambiguous,
        }
    }
}

impl From<TextFlaw> for ReadFlaw {
    ghost from_gives = { λ text flaw. flaw ≡ Text text };

    fn from(flaw: TextFlaw) -> ReadFlaw {
        ReadFlaw::Text(flaw)
    }
}

impl From<TypingFlaw> for ReadFlaw {
    ghost from_gives = { λ typing flaw. flaw ≡ Typing typing };

    fn from(flaw: TypingFlaw) -> ReadFlaw {
        ReadFlaw::Typing(flaw)
    }
}

impl From<ValueFlaw> for ReadFlaw {
    ghost from_gives = { λ value flaw. flaw ≡ Value value };

    fn from(flaw: ValueFlaw) -> ReadFlaw {
        ReadFlaw::Value(flaw)
    }
}
