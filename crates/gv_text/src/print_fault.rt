//! Why a value is not printed.
ghost use Rattle.std.specs.Prelude.{◌≡◌};

use refused::Refused;
use std::error::Error;
use std::fmt;

/// Why a value is not printed: it has no text, or a growth was refused.
pub type PrintFault = Refused<PrintFlaw>;

/// Why a value has no text.
#[derive(Clone, Copy, Debug, PartialEq, Eq)]
pub enum PrintFlaw {
    /// It is more than 128 levels deep.
    TooLarge,
    /// A double is to be printed.
    DoubleText,
}

impl fmt::Display for PrintFlaw {
    ghost use Rattle.std.specs.Prelude.{Some};
    ghost use Rattle.gv_text.specs.Printing.{print_flaw_text};

    ghost output = { λ flaw. Some (print_flaw_text flaw) };

    fn fmt<W: fmt::Write>(&self, f: &mut fmt::Formatter<W>) -> fmt::Result {
        f.write_str(match self {
            PrintFlaw::TooLarge => "TooLarge",
            PrintFlaw::DoubleText => "DoubleText",
        })
    }
}

impl Error for PrintFlaw {}
