//! Bytes as characters.
ghost use Rattle.std.specs.Prelude.{◌≡◌, ◌<◌, ◌≤◌, IfOk, length, string_bytes};
ghost use Rattle.bstr.specs.Utf8.{decoded, or_replacement};
ghost use Rattle.dconf_texts.specs.Strings.{as_utf8, read_at_once};

use bstr::decode_utf8;
use std::alloc::{AllocError, Global};

/// What stands for a byte that is no part of a character.
const NO_CHARACTER: char = '\u{FFFD}';

/// The characters of any bytes, and U+FFFD for each byte that is no part of one.
///
/// The error is a failed allocation.
pub(crate) fn read_all(alloc: Global, bytes: &[u8]) -> Result<String, AllocError>
    ensures { IfOk result (λ text. string_bytes text ≡ as_utf8 bytes.now) }
{
    let mut text = String::new(alloc);
    let mut rest = bytes;
    while !rest.is_empty() {
        let (character, size) = read_one(rest);
        text.push(character)?;
        rest = &rest[size..];
    }
    Ok(text)
}

/// The first character, and how many bytes it has.
fn read_one(bytes: &[u8]) -> (char, usize)
    requires { 0 < length bytes.now }
    ensures character { result.0 ≡ or_replacement (decoded bytes.now).char }
    ensures size { result.1 ≡ read_at_once (decoded bytes.now).char (decoded bytes.now).size }
    ensures some { 1 ≤ result.1 }
    ensures fits { result.1 ≤ length bytes.now }
{
    match decode_utf8(bytes) {
        (Some(character), size) => (character, size),
        (None, _) => (NO_CHARACTER, 1),
    }
}
