//! Texts of which each character stands for itself in quotes: they are printed and read as they are.
ghost use Rattle.std.specs.Prelude.{◌≡◌};
ghost use Rattle.std.specs.List.{list_all};
ghost use Rattle.gv_syntax.specs.Printable.{is_printable};

/// Whether each byte of a text is a character that stands for itself in this quote: printable ASCII, but for the backslash and the
/// quote. It looks at each byte once, up to the first that isn't.
pub fn is_plain(text: &[u8], quote: char) -> bool
    ensures { result ≡ list_all (is_printable quote) text.now }
{
    text.iter().all(|byte| is_printable(*byte, quote))
}

/// Whether a byte is a character that stands for itself in this quote.
fn is_printable(byte: u8, quote: char) -> bool
    ensures { result ≡ is_printable quote byte }
{
    byte >= b' ' && byte <= b'~' && byte != b'\\' && char::from(byte) != quote
}
