//! The text of a file of settings, which is a keyfile, a lock file or a profile: its length is looked at first, and then
//! whether it is UTF-8.
ghost use Rattle.std.specs.Prelude.{◌≡◌, ◌≤◌, ◌+◌, ◌==◌, None, Some, IfErr, IfOk, length, take, count_by};
ghost use Rattle.dconf_model.specs.Lines.{longest_text, settings_text_fault};
ghost use Rattle.dconf_path.specs.Faults.{text_fault_of};

use std::error::Error;
use std::fmt;

/// How many bytes a keyfile, a lock file and a profile have at most.
pub const MAX_TEXT_LEN: usize = 16_777_216;

/// Why bytes are no text of settings. A fault is printed as its name.
#[derive(Clone, Copy, Debug, PartialEq, Eq)]
pub enum TextFault {
    /// They are more than [`MAX_TEXT_LEN`].
    TooBig,
    /// They are no UTF-8. The first byte that is no part of a whole character is in the line of this number, counted from 1.
    NotUtf8(usize),
}

impl TextFault {
    /// The line at fault, counted from 1. It is 0 of a text that is too big.
    pub fn line(self) -> usize
        ensures { result ≡ (text_fault_of self).line }
    {
        match self {
            TextFault::TooBig => 0,
            TextFault::NotUtf8(line) => line,
        }
    }
}

impl fmt::Display for TextFault {
    ghost use Rattle.dconf_model.specs.FaultTexts.{cause_text};

    ghost output = { λ fault. Some (cause_text (text_fault_of fault).cause) };

    fn fmt<W: fmt::Write>(&self, f: &mut fmt::Formatter<W>) -> fmt::Result {
        f.write_str(match self {
            TextFault::TooBig => "TooBig",
            TextFault::NotUtf8(_) => "NotUtf8",
        })
    }
}

impl Error for TextFault {}

/// The text of a file, lent from its bytes, or the fault that comes before those of its lines.
///
/// It takes no memory. Each byte is looked at once, and once more up to the first that is no part of a whole character.
pub fn settings_text(bytes: &[u8]) -> Result<&str, TextFault>
    ensures text { IfOk result (λ text. text.now ≡ bytes.entry.now) }
    ensures small { IfOk result (λ _. length bytes.entry.now ≤ longest_text) }
    ensures faultless { IfOk result (λ _. settings_text_fault bytes.entry.now ≡ None) }
    ensures fault { IfErr result (λ fault. settings_text_fault bytes.entry.now ≡ Some (text_fault_of fault)) }
{
    if bytes.len() > MAX_TEXT_LEN {
        return Err(TextFault::TooBig);
    }
    match std::str::from_utf8(bytes) {
        Ok(text) => Ok(text),
        Err(fault) => Err(TextFault::NotUtf8(line_of(bytes, fault.valid_up_to()))),
    }
}

/// The number of the line in which a place lies, counted from 1.
fn line_of(bytes: &[u8], place: usize) -> usize
    requires { place ≤ length bytes.now }
    ensures { result ≡ count_by (λ c. c == 10) (take place bytes.now) + 1 }
{
    bytes[..place].iter().filter(|byte| **byte == b'\n').count() + 1
}
