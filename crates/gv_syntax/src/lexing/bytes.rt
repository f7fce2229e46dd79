//! The classes of bytes that tokens are made of, and the longest prefix of one class.
ghost use Rattle.std.specs.Prelude.{◌≡◌, ◌≤◌, length};
ghost use Rattle.gv_model.specs.Characters.{digit_value, prefix_of, is_quote, is_sign};
ghost use Rattle.gv_syntax.specs.ByteClasses.{is_of};

/// A class of bytes.
#[derive(Clone, Copy)]
pub(crate) enum ByteClass {
    /// Space, tab, line feed, carriage return, form feed.
    Blank,
    /// `0` to `9`.
    Digit,
    /// A digit of this base, which is at most 16.
    DigitOf(u8),
    /// An ASCII letter or digit.
    WordByte,
    /// What stands for itself in a string that this quote closes.
    Plain(u8),
}

impl ByteClass {
    /// Whether the byte is of the class.
    pub(crate) fn has(self, c: u8) -> bool
        ensures { result ≡ is_of self c }
    {
        match self {
            ByteClass::Blank => matches!(c, b' ' | b'\t' | b'\n' | b'\r' | 12),
            ByteClass::Digit => c.is_ascii_digit(),
            ByteClass::DigitOf(base) => digit_value(c) < base,
            ByteClass::WordByte => c.is_ascii_alphanumeric(),
            ByteClass::Plain(quote) => c != quote && c != 0 && c != b'\\',
        }
    }

    /// How many bytes at the start of the text are of the class.
    pub(crate) fn prefix_len(self, text: &[u8]) -> usize
        ensures len { result ≡ length (prefix_of (is_of self) text.now) }
        ensures within { result ≤ length text.now }
    {
        text.iter()
            .position(|c| !self.has(*c))
            .unwrap_or(text.len())
    }
}

/// What a digit of any base up to 16 stands for; 16 for any other byte.
pub(crate) fn digit_value(c: u8) -> u8
    ensures { result ≡ digit_value c }
{
    match c {
        b'0'..=b'9' => c - b'0',
        b'a'..=b'f' => c - b'a' + 10,
        b'A'..=b'F' => c - b'A' + 10,
        _ => 16,
    }
}

/// Whether the byte is `+` or `-`.
pub(crate) fn is_sign(c: u8) -> bool
    ensures { result ≡ is_sign c }
{
    c == b'+' || c == b'-'
}

/// Whether the byte is a quote of either kind.
pub(crate) fn is_quote(c: u8) -> bool
    ensures { result ≡ is_quote c }
{
    c == b'\'' || c == b'"'
}
