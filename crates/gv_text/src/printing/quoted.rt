//! Strings and byte strings in quotes (GLib, "GVariant Text Format": "Strings" and "Bytestrings").
//!
//! Printable ASCII and all from U+00A0 stand for themselves; the quote in use and the backslash have a
//! backslash before them; the others are escaped by a letter or by their number.
ghost use Rattle.std.specs.Prelude.{◌≡◌, ◌<◌, ◌++◌, OnOk, string_bytes, chars, flat_map};
ghost use Rattle.gv_model.specs.Quoted.{digit, escape_letter, four_hex, three_octal, plain, char_text, byte_text, quote_for, quoted, byte_string};
ghost use Rattle.std.specs.Prelude.{encode_utf8};

use gv_syntax::is_plain;
use gv_view::utf8_of;
use std::alloc::AllocError;

/// Writes the text in quotes.
pub(crate) fn push_quoted(to: &mut String, text: &str) -> Result<(), AllocError>
    ensures { OnOk result (string_bytes to.new ≡ string_bytes to.old ++ quoted text.now) }
{
    // Most texts have no quote and nothing to escape, which one look tells.
    if is_plain(text.as_bytes(), '\'') {
        to.push('\'')?;
        to.push_str(text)?;
        to.push('\'')?;
        return Ok(());
    }
    push_escaped(to, text)
}

/// Writes a text in quotes by its characters, or at once where each stands for itself.
fn push_escaped(to: &mut String, text: &str) -> Result<(), AllocError>
    ensures { OnOk result (string_bytes to.new ≡ string_bytes to.old ++ quoted text.now) }
{
    let quote = quote_for(text.as_bytes());
    to.push(quote)?;
    if is_plain(text.as_bytes(), quote) {
        to.push_str(text)?;
    } else {
        push_each_char(to, quote, text)?;
    }
    to.push(quote)?;
    Ok(())
}

fn push_each_char(to: &mut String, quote: char, text: &str) -> Result<(), AllocError>
    ensures { OnOk result (string_bytes to.new ≡ string_bytes to.old ++ flat_map (char_text quote) (chars text.now)) }
{
    for c in text.chars() {
        push_char(to, quote, c)?;
    }
    Ok(())
}

/// Writes the bytes as a byte string, `b` and the bytes in quotes.
pub(crate) fn push_byte_string(to: &mut String, bytes: &[u8]) -> Result<(), AllocError>
    ensures { OnOk result (string_bytes to.new ≡ string_bytes to.old ++ byte_string bytes.now) }
{
    let quote = quote_for(bytes);
    to.push('b')?;
    to.push(quote)?;
    push_bytes(to, quote, bytes)?;
    to.push(quote)?;
    Ok(())
}

/// Writes the bytes of a byte string, all at once where each stands for itself.
fn push_bytes(to: &mut String, quote: char, bytes: &[u8]) -> Result<(), AllocError>
    requires { quote < 128 }
    ensures { OnOk result (string_bytes to.new ≡ string_bytes to.old ++ flat_map (byte_text quote) bytes.now) }
{
    match utf8_of(bytes) {
        Some(text) if is_plain(bytes, quote) => to.push_str(text),
        _ => push_each_byte(to, quote, bytes),
    }
}

fn push_each_byte(to: &mut String, quote: char, bytes: &[u8]) -> Result<(), AllocError>
    requires { quote < 128 }
    ensures { OnOk result (string_bytes to.new ≡ string_bytes to.old ++ flat_map (byte_text quote) bytes.now) }
{
    for byte in bytes {
        push_byte(to, quote, *byte)?;
    }
    Ok(())
}

/// The quote for a text: `'`, or `"` where the text has a `'`.
fn quote_for(text: &[u8]) -> char
    ensures { result ≡ quote_for text.now }
{
    if text.contains(&b'\'') { '"' } else { '\'' }
}

fn push_char(to: &mut String, quote: char, c: char) -> Result<(), AllocError>
    ensures { OnOk result (string_bytes to.new ≡ string_bytes to.old ++ char_text quote c) }
{
    if (c >= ' ' && c <= '~') || c >= '\u{a0}' {
        return push_plain(to, quote, c);
    }
    to.push('\\')?;
    match escape_letter(c) {
        Some(letter) => to.push(letter),
        None => push_four_hex(to, u32::from(c)),
    }
}

fn push_byte(to: &mut String, quote: char, byte: u8) -> Result<(), AllocError>
    requires { quote < 128 }
    ensures { OnOk result (string_bytes to.new ≡ string_bytes to.old ++ byte_text quote byte) }
{
    if byte >= b' ' && byte <= b'~' {
        return push_plain(to, quote, char::from(byte));
    }
    to.push('\\')?;
    match escape_letter(char::from(byte)) {
        Some(letter) => to.push(letter),
        None => push_three_octal(to, byte),
    }
}

/// Writes a character that stands for itself.
fn push_plain(to: &mut String, quote: char, c: char) -> Result<(), AllocError>
    ensures { OnOk result (string_bytes to.new ≡ string_bytes to.old ++ plain quote c (encode_utf8 c)) }
{
    if c == quote || c == '\\' {
        to.push('\\')?;
    }
    to.push(c)
}

/// The letter of the seven characters that are escaped by one.
fn escape_letter(c: char) -> Option<char>
    ensures { result ≡ escape_letter c }
{
    match c {
        '\u{7}' => Some('a'),
        '\u{8}' => Some('b'),
        '\t' => Some('t'),
        '\n' => Some('n'),
        '\u{b}' => Some('v'),
        '\u{c}' => Some('f'),
        '\r' => Some('r'),
        _ => None,
    }
}

fn push_four_hex(to: &mut String, number: u32) -> Result<(), AllocError>
    requires { number < 65536 }
    ensures { OnOk result (string_bytes to.new ≡ string_bytes to.old ++ four_hex number) }
{
    to.push('u')?;
    to.push(digit((number / 4096) as u8))?;
    to.push(digit((number / 256 % 16) as u8))?;
    to.push(digit((number / 16 % 16) as u8))?;
    to.push(digit((number % 16) as u8))
}

fn push_three_octal(to: &mut String, byte: u8) -> Result<(), AllocError>
    ensures { OnOk result (string_bytes to.new ≡ string_bytes to.old ++ three_octal byte) }
{
    to.push(digit(byte / 64))?;
    to.push(digit(byte / 8 % 8))?;
    to.push(digit(byte % 8))
}

/// A digit of a number to a base of at most 16, in lower case.
pub(crate) fn digit(number: u8) -> char
    requires { number < 16 }
    ensures { result ≡ digit number }
{
    if number < 10 {
        char::from(b'0' + number)
    } else {
        char::from(b'a' + (number - 10))
    }
}
