//! Integers, and the runs of characters that are no integer (GLib, "GVariant Text Format", Numbers).
ghost use Rattle.std.specs.Prelude.{◌≡◌, ◌≤◌, ◌<◌, ◌+◌, ◌^◌, ℕ, ◌∷◌, length, List, min, option_map, Some, None};
ghost use Rattle.std.specs.Prelude.{if◌then◌else◌};
ghost use Rattle.gv_model.specs.Characters.{begins, after_prefix, is_digit, is_e, tail};
ghost use Rattle.gv_model.specs.Numerals.{without_sign, begins_hex, run_of, number_after, number_of_base, number_of};
ghost use Rattle.gv_model.specs.Numerals.{is_exponent, is_fraction, is_double_word, is_double, number_at};
ghost use Rattle.gv_syntax.specs.NumberChars.{goes_on};
ghost use Rattle.gv_syntax.specs.LexSteps.{placed_as};

use crate::fault::TextCause;
use crate::lexing::bytes::{ByteClass, digit_value, is_sign};
use crate::lexing::word::is_word;
use crate::token::TokenKind;

/// It stands for every number from there on.
const TOO_LARGE: u128 = 1 << 64;

/// The text without the sign at its start, if one is there.
fn without_sign(text: &[u8]) -> &[u8]
    ensures { result.now ≡ without_sign text.now }
{
    match text.split_first() {
        Some((c, rest)) if is_sign(*c) => rest,
        _ => text,
    }
}

/// The digits after the `0x` or `0X` at the start of the text.
fn hex_digits(text: &[u8]) -> Option<&[u8]>
    ensures { option_map (λ digits. digits.now) result
        ≡ (if begins_hex text.now then Some (tail (tail text.now)) else None) }
{
    match text {
        [b'0', b'x' | b'X', digits @ ..] => Some(digits),
        _ => None,
    }
}

/// Where the letters, digits and points after the first byte end. An `e` takes a sign with it, unless the run is
/// hexadecimal.
pub(crate) fn run_len(text: &[u8]) -> usize
    requires { 0 < length text.now }
    ensures len { (c : ℕ) (cs : List ℕ) → text.now ≡ c ∷ cs → result ≡ length (run_of c cs) }
    ensures within { result ≤ length text.now }
{
    let is_hex = hex_digits(without_sign(text)).is_some();
    let mut end = 1;
    while end < text.len() && goes_on(text[end - 1], text[end], is_hex) {
        end += 1;
    }
    end
}

/// Whether a run that has come to a byte takes the next one.
fn goes_on(last: u8, next: u8, is_hex: bool) -> bool
    ensures { result ≡ goes_on is_hex last next }
{
    ByteClass::WordByte.has(next) || next == b'.' || (is_sign(next) && is_e(last) && !is_hex)
}

fn is_e(c: u8) -> bool
    ensures { result ≡ is_e c }
{
    c == b'e' || c == b'E'
}

/// The token that a run is, or why it is none.
pub(crate) fn number(run: &[u8]) -> Result<TokenKind, TextCause>
    ensures { (at : ℕ) → number_at at run.now ≡ placed_as result at (at + length run.now) }
{
    let digits = without_sign(run);
    match magnitude(digits) {
        Some(magnitude) => Ok(TokenKind::Integer {
            negative: run.first() == Some(&b'-'),
            magnitude,
        }),
        None if is_double(digits) => Err(TextCause::DoubleText),
        None => Err(TextCause::BadToken),
    }
}

/// The number that digits without a sign stand for: hexadecimal after `0x`, octal after `0`, else decimal.
fn magnitude(text: &[u8]) -> Option<u128>
    ensures { result ≡ number_of text.now }
{
    if let Some(digits) = hex_digits(text) {
        return magnitude_of(16, digits);
    }
    if text.first() == Some(&b'0') {
        return magnitude_of(8, text);
    }
    magnitude_of(10, text)
}

/// The number that digits of this base stand for.
fn magnitude_of(base: u8, digits: &[u8]) -> Option<u128>
    requires { 0 < base }
    ensures { result ≡ number_of_base base digits.now }
{
    if digits.is_empty() || ByteClass::DigitOf(base).prefix_len(digits) < digits.len() {
        return None;
    }
    Some(capped_number(base, digits))
}

/// The number that digits stand for, or 2^64 where it is greater.
pub(crate) fn capped_number(base: u8, digits: &[u8]) -> u128
    requires { 0 < base }
    ensures { result ≡ min (number_after base 0 digits.now) (2 ^ 64) }
{
    let mut number: u128 = 0;
    for digit in digits {
        number = (number * u128::from(base) + u128::from(digit_value(*digit))).min(TOO_LARGE);
    }
    number
}

/// Whether the text, which has no sign, is that of a double.
fn is_double(text: &[u8]) -> bool
    ensures { result ≡ is_double text.now }
{
    is_fraction(begins_with_digit(text), after_digits(text)) || is_double_word(text)
}

/// Whether the text goes on from digits, if there are any, as a double does: with a point, an exponent, or both.
fn is_fraction(has_digits: bool, text: &[u8]) -> bool
    ensures { result ≡ is_fraction has_digits text.now }
{
    match text.split_first() {
        Some((c, rest)) if *c == b'.' => {
            let after_prefix = after_digits(rest);
            (has_digits || begins_with_digit(rest))
                && (after_prefix.is_empty() || is_exponent(after_prefix))
        }
        _ => has_digits && is_exponent(text),
    }
}

/// Whether the text is `e`, a sign or none, and digits.
fn is_exponent(text: &[u8]) -> bool
    ensures { result ≡ is_exponent text.now }
{
    match text.split_first() {
        Some((c, rest)) if is_e(*c) => {
            let digits = without_sign(rest);
            begins_with_digit(digits) && after_digits(digits).is_empty()
        }
        _ => false,
    }
}

fn begins_with_digit(text: &[u8]) -> bool
    ensures { result ≡ begins is_digit text.now }
{
    match text.first() {
        Some(c) => c.is_ascii_digit(),
        None => false,
    }
}

/// What follows the digits at the start of the text.
fn after_digits(text: &[u8]) -> &[u8]
    ensures { result.now ≡ after_prefix is_digit text.now }
{
    &text[ByteClass::Digit.prefix_len(text)..]
}

/// Whether the text is one of the doubles that have a name.
pub(crate) fn is_double_word(text: &[u8]) -> bool
    ensures { result ≡ is_double_word text.now }
{
    is_word(text, "inf") || is_word(text, "nan") || is_word(text, "infinity")
}
