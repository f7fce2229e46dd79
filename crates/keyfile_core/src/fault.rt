//! Why bytes are refused as a keyfile.
ghost use Rattle.std.specs.Prelude.{◌≡◌};
ghost use Rattle.dconf_path.specs.Faults.{text_fault_of};
ghost use Rattle.keyfile_core.specs.KeyfileFaults.{fault_of};

use dconf_path::TextFault;
use refused::Refused;
use std::error::Error;
use std::fmt;

/// What is wrong with a keyfile. It is printed as its name.
#[derive(Clone, Copy, Debug, PartialEq, Eq)]
pub enum KeyfileCause {
    /// It has more than 16,777,216 bytes.
    TooBig,
    /// A byte is no part of a whole character.
    NotUtf8,
    /// A line is neither empty, nor a comment, nor in brackets, and has no `=`, or has a zero byte.
    BadLine,
    /// A key comes before the first group.
    NoGroup,
    /// A line that starts with `[` doesn't end with `]`, or what is between is no group.
    BadGroup,
    /// A key is empty, or has a slash, a bracket or a control character.
    BadKeyName,
}

/// Why bytes have no rows.
pub type KeyfileFault = Refused<KeyfileFlaw>;

/// The first fault of a keyfile. It is printed as the name of its cause: the line is for who knows the file's name.
#[derive(Clone, Copy, Debug, PartialEq, Eq)]
pub struct KeyfileFlaw {
    /// The number of its line, from 1 on, or 0 of `TooBig`.
    pub line: usize,
    pub cause: KeyfileCause,
}

impl KeyfileFlaw {
    /// The fault of a file that is no text.
    pub(crate) fn of_text(fault: TextFault) -> KeyfileFlaw
        ensures { fault_of result ≡ text_fault_of fault }
    {
        match fault {
            TextFault::TooBig => KeyfileFlaw {
                line: 0,
                cause: KeyfileCause::TooBig,
            },
            TextFault::NotUtf8(line) => KeyfileFlaw {
                line,
                cause: KeyfileCause::NotUtf8,
            },
        }
    }
}

impl KeyfileCause {
    ghost use Rattle.dconf_model.specs.FaultTexts.{cause_text};
    ghost use Rattle.keyfile_core.specs.KeyfileFaults.{cause_of};

    /// The name by which it is printed.
    fn name(self) -> &'static str
        ensures { result.now ≡ cause_text (cause_of self) }
    {
        match self {
            KeyfileCause::TooBig => "TooBig",
            KeyfileCause::NotUtf8 => "NotUtf8",
            KeyfileCause::BadLine => "BadLine",
            KeyfileCause::NoGroup => "NoGroup",
            KeyfileCause::BadGroup => "BadGroup",
            KeyfileCause::BadKeyName => "BadKeyName",
        }
    }
}

impl fmt::Display for KeyfileCause {
    ghost use Rattle.std.specs.Prelude.{Some};
    ghost use Rattle.dconf_model.specs.FaultTexts.{cause_text};
    ghost use Rattle.keyfile_core.specs.KeyfileFaults.{cause_of};

    ghost output = { λ cause. Some (cause_text (cause_of cause)) };

    fn fmt<W: fmt::Write>(&self, f: &mut fmt::Formatter<W>) -> fmt::Result {
        f.write_str(self.name())
    }
}

impl fmt::Display for KeyfileFlaw {
    ghost use Rattle.std.specs.Prelude.{Some};
    ghost use Rattle.dconf_model.specs.FaultTexts.{cause_text};

    ghost output = { λ fault. Some (cause_text (fault_of fault).cause) };

    fn fmt<W: fmt::Write>(&self, f: &mut fmt::Formatter<W>) -> fmt::Result {
        f.write_str(self.cause.name())
    }
}

impl Error for KeyfileCause {}

impl Error for KeyfileFlaw {}
