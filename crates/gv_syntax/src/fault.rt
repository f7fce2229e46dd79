//! Why a text has no tokens or no syntax.
ghost use Rattle.std.specs.Prelude.{◌≡◌};
ghost use Rattle.refused.specs.declared.Refused.TheVariants.{Fault};

use crate::token::Span;
use refused::Refused;
use std::error::Error;
use std::fmt;

/// What is wrong with a text.
#[derive(Clone, Copy, Debug, PartialEq, Eq)]
pub enum TextCause {
    /// Characters that are no token.
    BadToken,
    /// A string, or a bracket, that the text ends in.
    Unclosed,
    /// An escape that stands for no character.
    BadEscape,
    /// A double, of which there is no text here.
    DoubleText,
    /// A token that can't occur there, or the end of the text.
    Unexpected,
    /// A value begins 129 deep.
    TooDeep,
}

/// Why a text has no tokens or no syntax.
pub type TextFault = Refused<TextFlaw>;

/// A text's first fault and where it is.
#[derive(Clone, Copy, Debug, PartialEq, Eq)]
pub struct TextFlaw {
    pub cause: TextCause,
    pub span: Span,
}

impl TextFlaw {
    /// A fault of the text between two places.
    pub(crate) fn at(cause: TextCause, start: usize, end: usize) -> TextFault
        ensures { result ≡ Fault (record { cause = cause; span = record { start = start; end = end } }) }
    {
        TextFault::Fault(TextFlaw {
            cause,
            span: Span { start, end },
        })
    }
}

impl fmt::Display for TextCause {
    ghost use Rattle.std.specs.Prelude.{Some};
    ghost use Rattle.gv_model.specs.FaultTexts.{text_cause_text};
    ghost use Rattle.gv_syntax.specs.ModelTokens.{cause_of};

    ghost output = { λ fault. Some (text_cause_text (cause_of fault)) };

    fn fmt<W: fmt::Write>(&self, f: &mut fmt::Formatter<W>) -> fmt::Result {
        f.write_str(match self {
            TextCause::BadToken => "BadToken",
            TextCause::Unclosed => "Unclosed",
            TextCause::BadEscape => "BadEscape",
            TextCause::DoubleText => "DoubleText",
            TextCause::Unexpected => "Unexpected",
            TextCause::TooDeep => "TooDeep",
        })
    }
}

impl fmt::Display for TextFlaw {
    ghost use Rattle.std.specs.Prelude.{Some};
    ghost use Rattle.gv_syntax.specs.FaultTexts.{text_fault_text};

    ghost output = { λ flaw. Some (text_fault_text flaw) };

    fn fmt<W: fmt::Write>(&self, f: &mut fmt::Formatter<W>) -> fmt::Result {
        write!(
            f,
            "{} at {}..{}",
            self.cause, self.span.start, self.span.end
        )
    }
}

impl Error for TextFlaw {}
