//! Texts in bytes (GVariant Specification, "Strings", with the D-Bus Specification's "Valid Object Paths").
ghost use Rattle.std.specs.Prelude.{◌≡◌, option_map};
ghost use Rattle.std.specs.List.{list_all};
ghost use Rattle.gv_model.specs.Ty.{Ty.basic, Basic.string, Basic.path, Basic.signature};
ghost use Rattle.gv_model.specs.Tree.{Tree.text};
ghost use Rattle.gv_model.specs.Decode.{decode};
ghost use Rattle.gv_model.specs.Variants.{at_last_zero};
ghost use Rattle.gv_view.specs.Texts.{utf8_of, utf8_in, is_ascii_char};

use gv_types::{is_object_path, is_signature};
use memchr::{memchr, memrchr};

/// The most bytes of a text that are looked at one by one: in longer ones whole words of bytes are.
const SHORT: usize = 32;

/// The string in the bytes, empty where there is none.
pub(crate) fn string_in(bytes: &[u8]) -> &str
    ensures { decode (basic string) bytes.now ≡ text string result.now }
{
    match text_in(bytes) {
        Some(text) => text,
        None => "",
    }
}

/// The object path in the bytes, `/` where there is none.
pub(crate) fn object_path_in(bytes: &[u8]) -> &str
    ensures { decode (basic path) bytes.now ≡ text path result.now }
{
    match text_in(bytes) {
        Some(text) if is_object_path(text) => text,
        _ => "/",
    }
}

/// The signature in the bytes, empty where there is none.
pub(crate) fn signature_in(bytes: &[u8]) -> &str
    ensures { decode (basic signature) bytes.now ≡ text signature result.now }
{
    match text_in(bytes) {
        Some(text) if is_signature(text) => text,
        _ => "",
    }
}

/// The text before a zero byte that is the last and the only one, if it is UTF-8.
///
/// It looks at each byte of a short ASCII text once, and at each of any other text once for the zero byte and once for
/// UTF-8.
pub fn text_in(bytes: &[u8]) -> Option<&str>
    ensures { option_map (λ s. s.now) result ≡ utf8_in bytes.now }
{
    let (last, prefix) = bytes.split_last()?;
    if *last == 0 && prefix.len() <= SHORT && is_ascii_text(prefix) {
        return Some(unsafe { str::from_utf8_unchecked(prefix) });
    }
    long_text_in(bytes)
}

/// The same, of a text that may be long or not ASCII.
fn long_text_in(bytes: &[u8]) -> Option<&str>
    ensures { option_map (λ s. s.now) result ≡ utf8_in bytes.now }
{
    let end = memchr(0, bytes)?;
    if end + 1 != bytes.len() {
        return None;
    }
    utf8_of(&bytes[..end])
}

/// Whether all bytes are ASCII, and none is zero.
fn is_ascii_text(bytes: &[u8]) -> bool
    ensures { result ≡ list_all is_ascii_char bytes.now }
{
    bytes.iter().all(|byte| *byte > 0 && *byte < 128)
}

/// The bytes before the last zero byte, and those after it.
pub(crate) fn around_last_zero(bytes: &[u8]) -> Option<(&[u8], &[u8])>
    ensures { option_map (λ p. (p.0.now, p.1.now)) result ≡ at_last_zero bytes.now }
{
    let zero = memrchr(0, bytes)?;
    Some((&bytes[..zero], &bytes[zero + 1..]))
}

/// The bytes as a text, if they are UTF-8.
pub fn utf8_of(bytes: &[u8]) -> Option<&str>
    ensures { option_map (λ s. s.now) result ≡ utf8_of bytes.now }
{
    simdutf8::compat::from_utf8(bytes).ok()
}
