//! Where a text stands, who reads it, and why it is none.
ghost use Rattle.std.specs.Prelude.{◌≡◌, ◌+◌, ◌==◌};
ghost use Rattle.std.specs.List.{count_by};
ghost use Rattle.dconf_texts.specs.Readings.{cause_number, cause_of, is_glibs};

/// The number of a text that holds a double, which is no value of ours.
const DOUBLE_TEXT: u32 = 19;

/// Whose cause is told why a text of a keyfile is no value that a database has.
#[derive(Clone, Copy)]
pub enum TextCause {
    /// GLib's.
    Glibs,
    /// That of our reader.
    Reading,
    /// That by which no database holds the value.
    Storing,
}

/// The number of the line that begins behind these bytes, or goes on there, counted from 1.
pub fn line_behind(before: &[u8]) -> usize
    ensures { result ≡ count_by (λ c. c == 10) before.now + 1 }
{
    before.iter().filter(|byte| **byte == b'\n').count() + 1
}

/// Whether GLib is asked for the value of a text that ours refuses by this number: it reads a double.
pub fn is_glibs(fault: u32) -> bool
    ensures { result ≡ is_glibs fault }
{
    fault == DOUBLE_TEXT
}

/// Whose cause is told, of a text that ours refused by this number, or took (0); and that GLib refused, if it was asked.
pub fn cause_of(fault: u32, is_refused: bool) -> TextCause
    ensures { result ≡ cause_of fault is_refused }
{
    if is_refused {
        return TextCause::Glibs;
    }
    if fault != 0 {
        return TextCause::Reading;
    }
    TextCause::Storing
}

/// The same as a number: 0 GLib's, 1 our reader's, 2 that of storing it.
pub fn cause_number(fault: u32, is_refused: bool) -> u32
    ensures { result ≡ cause_number (cause_of fault is_refused) }
{
    match cause_of(fault, is_refused) {
        TextCause::Glibs => 0,
        TextCause::Reading => 1,
        TextCause::Storing => 2,
    }
}
