//! Why rows can't be written as a keyfile.
ghost use Rattle.std.specs.Prelude.{◌≡◌};

use refused::Refused;
use std::error::Error;
use std::fmt;

/// What is wrong with a row that is to be written. It is printed as its name.
#[derive(Clone, Copy, Debug, PartialEq, Eq)]
pub enum RowsCause {
    /// The path's part between the directory and the key is no group: it has a bracket or a control character.
    BadGroup,
    /// The key could not be read again: it is no name of a key, starts with `#`, has `=`, or has a blank at an end.
    BadKeyName,
}

/// Why rows have no text.
pub type RowsFault = Refused<RowsFlaw>;

/// The first fault of rows. It is printed as the name of its cause.
#[derive(Clone, Copy, Debug, PartialEq, Eq)]
pub struct RowsFlaw {
    /// The number of its row, from 0 on.
    pub row: usize,
    pub cause: RowsCause,
}

impl RowsCause {
    ghost use Rattle.dconf_model.specs.FaultTexts.{cause_text};
    ghost use Rattle.keyfile_core.specs.RowsFaults.{rows_cause_of};

    /// The name by which it is printed.
    fn name(self) -> &'static str
        ensures { result.now ≡ cause_text (rows_cause_of self) }
    {
        match self {
            RowsCause::BadGroup => "BadGroup",
            RowsCause::BadKeyName => "BadKeyName",
        }
    }
}

impl fmt::Display for RowsCause {
    ghost use Rattle.std.specs.Prelude.{Some};
    ghost use Rattle.dconf_model.specs.FaultTexts.{cause_text};
    ghost use Rattle.keyfile_core.specs.RowsFaults.{rows_cause_of};

    ghost output = { λ cause. Some (cause_text (rows_cause_of cause)) };

    fn fmt<W: fmt::Write>(&self, f: &mut fmt::Formatter<W>) -> fmt::Result {
        f.write_str(self.name())
    }
}

impl fmt::Display for RowsFlaw {
    ghost use Rattle.std.specs.Prelude.{Some};
    ghost use Rattle.dconf_model.specs.FaultTexts.{cause_text};
    ghost use Rattle.keyfile_core.specs.RowsFaults.{rows_cause_of};

    ghost output = { λ fault. Some (cause_text (rows_cause_of fault.cause)) };

    fn fmt<W: fmt::Write>(&self, f: &mut fmt::Formatter<W>) -> fmt::Result {
        f.write_str(self.cause.name())
    }
}

impl Error for RowsCause {}

impl Error for RowsFlaw {}
