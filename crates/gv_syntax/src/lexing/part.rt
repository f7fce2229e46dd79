//! The parts of a quoted text that don't stand for themselves: escapes, the closing quote and zero bytes
//! (GLib, "GVariant Text Format", Strings and Bytestrings).
ghost use Rattle.std.specs.Prelude.{◌≡◌, ◌≤◌, ◌<◌, ℕ, List, ◌∷◌, length, ◌≢◌, Bool, get_or, true, false, IsTrue};
ghost use Rattle.std.specs.Prelude.{if◌then◌else◌, Some, None};
ghost use Rattle.gv_model.specs.Characters.{prefix_of, is_digit_of, is_quote};
ghost use Rattle.gv_model.specs.Strings.{at_most, part, escape_in, letter_or_self, letter_meaning, number_escape};
ghost use Rattle.gv_model.specs.Strings.{octal_escape, is_scalar};
ghost use Rattle.gv_syntax.specs.LexSteps.{text_part_of, byte_part_of, TakesFrom, EndsInAscii, BeginsWithPart, IsAsciiPart};

use crate::fault::TextCause;
use crate::lexing::bytes::ByteClass;
use crate::lexing::numeral::capped_number;

/// What a part of a quoted text stands for, in characters or in bytes.
pub(crate) enum Part<T> {
    /// One or none, by so many bytes of the text.
    Char(Option<T>, usize),
    /// The quote that closes the text.
    Closes,
    /// A fault between two places, counted from where the part begins.
    Faulty(TextCause, usize, usize),
}

/// The part that a string has at the start of the text, which begins with an ASCII character.
pub(crate) fn text_part(text: &[u8], quote: u8) -> Part<char>
    requires quote { IsTrue (is_quote quote) }
    requires ascii { (0 < length text.now) × (get_or text.now 0 0 < 128) }
    ensures part { BeginsWithPart false quote text.now (text_part_of result) }
    ensures within { TakesFrom text.now (text_part_of result) }
    ensures ascii { EndsInAscii text.now (text_part_of result) }
{
    if text[0] != b'\\' {
        return in_text(plain_part(text[0], quote));
    }
    if text.len() > 1 && text[1] >= 128 {
        return Part::Char(None, 1);
    }
    text_escape(&text[1..])
}

/// The part that a byte string has at the start of the text.
pub(crate) fn byte_part(text: &[u8], quote: u8) -> Part<u8>
    requires quote { IsTrue (is_quote quote) }
    requires some { 0 < length text.now }
    ensures part { BeginsWithPart true quote text.now (byte_part_of result) }
    ensures within { TakesFrom text.now (byte_part_of result) }
{
    if text[0] != b'\\' {
        return plain_part(text[0], quote);
    }
    byte_escape(&text[1..])
}

/// The part that a byte is which is no backslash.
fn plain_part(c: u8, quote: u8) -> Part<u8>
    requires { c ≢ 92 }
    ensures part { (of_bytes : Bool) (cs : List ℕ) → byte_part_of result ≡ part of_bytes quote c cs }
    ensures within { (s : List ℕ) → 1 ≤ length s → TakesFrom s (byte_part_of result) }
    ensures ascii { c < 128 → IsAsciiPart result }
    ensures end { (s : List ℕ) → get_or s 0 0 < 128 → EndsInAscii s (byte_part_of result) }
{
    if c == quote {
        Part::Closes
    } else if c == 0 {
        Part::Faulty(TextCause::BadToken, 0, 1)
    } else {
        Part::Char(Some(c), 1)
    }
}

/// The escape in a string that goes on so after its backslash, with an ASCII character.
fn text_escape(text: &[u8]) -> Part<char>
    requires { get_or text.now 0 0 < 128 }
    ensures part { text_part_of result ≡ escape_in false text.now }
    ensures within { TakesFrom (92 ∷ text.now) (text_part_of result) }
    ensures ascii { EndsInAscii (92 ∷ text.now) (text_part_of result) }
{
    match text {
        [] => Part::Char(None, 1),
        [b'u', rest @ ..] => number_escape(4, rest),
        [b'U', rest @ ..] => number_escape(8, rest),
        [c, ..] => in_text(letter_escape(*c)),
    }
}

/// The escape in a byte string that goes on so after its backslash.
fn byte_escape(text: &[u8]) -> Part<u8>
    ensures part { byte_part_of result ≡ escape_in true text.now }
    ensures within { TakesFrom (92 ∷ text.now) (byte_part_of result) }
{
    match text {
        [] => Part::Char(None, 1),
        [b'0'..=b'7', ..] => octal_escape(text),
        [c, ..] => letter_escape(*c),
    }
}

/// The escape by one character. At the end of a line it stands for nothing.
fn letter_escape(c: u8) -> Part<u8>
    ensures { byte_part_of result ≡ letter_or_self (letter_meaning c) c }
{
    let meaning = match c {
        b'a' => 7,
        b'b' => 8,
        b'f' => 12,
        b'n' => b'\n',
        b'r' => b'\r',
        b't' => b'\t',
        b'v' => 11,
        b'\n' => return Part::Char(None, 2),
        0 => return Part::Faulty(TextCause::BadToken, 1, 2),
        _ => c,
    };
    Part::Char(Some(meaning), 2)
}

/// The same part in a string.
fn in_text(part: Part<u8>) -> Part<char>
    requires { IsAsciiPart part }
    ensures { text_part_of result ≡ byte_part_of part }
{
    match part {
        Part::Char(Some(c), len) => Part::Char(Some(char::from(c)), len),
        Part::Char(None, len) => Part::Char(None, len),
        Part::Closes => Part::Closes,
        Part::Faulty(cause, start, end) => Part::Faulty(cause, start, end),
    }
}

/// The escape by a number of this many hexadecimal digits, which the text begins with.
fn number_escape(wanted: usize, text: &[u8]) -> Part<char>
    requires { (0 < wanted) × (wanted ≤ 8) }
    ensures part { text_part_of result ≡ number_escape wanted (prefix_of (is_digit_of 16) (at_most wanted text.now)) }
    ensures within { (c : ℕ) → TakesFrom (92 ∷ c ∷ text.now) (text_part_of result) }
    ensures ascii { (c : ℕ) → EndsInAscii (92 ∷ c ∷ text.now) (text_part_of result) }
{
    let digits = leading_digits(16, wanted, text);
    let found = digits.len();
    match scalar(capped_number(16, digits)) {
        Some(c) if found == wanted => Part::Char(Some(c), 2 + found),
        _ => Part::Faulty(TextCause::BadEscape, 0, 2 + found),
    }
}

/// The escape by a number of up to three octal digits, which the text begins with.
fn octal_escape(text: &[u8]) -> Part<u8>
    ensures part { byte_part_of result ≡ octal_escape (prefix_of (is_digit_of 8) (at_most 3 text.now)) }
    ensures within { TakesFrom (92 ∷ text.now) (byte_part_of result) }
{
    let digits = leading_digits(8, 3, text);
    match u8::try_from(capped_number(8, digits)) {
        Ok(byte) => Part::Char(Some(byte), 1 + digits.len()),
        Err(_) => Part::Faulty(TextCause::BadEscape, 0, 1 + digits.len()),
    }
}

/// The digits of a base at the start of the text, at most so many.
fn leading_digits(base: u8, most: usize, text: &[u8]) -> &[u8]
    ensures { result.now ≡ prefix_of (is_digit_of base) (at_most most text.now) }
{
    let prefix = &text[..most.min(text.len())];
    &prefix[..ByteClass::DigitOf(base).prefix_len(prefix)]
}

/// The character of this number, which isn't 0.
fn scalar(number: u128) -> Option<char>
    ensures { result ≡ (if is_scalar number then Some number else None) }
{
    match u32::try_from(number) {
        Ok(code) if code != 0 => char::from_u32(code),
        _ => None,
    }
}
