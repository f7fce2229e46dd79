//! Names of keys in a keyfile: not empty, without slashes, brackets and control characters.
ghost use Rattle.std.specs.Prelude.{◌≡◌, IsTrue};
ghost use Rattle.std.specs.List.{list_all};
ghost use Rattle.dconf_model.specs.Keyfiles.{is_key, is_readable_key};
ghost use Rattle.keyfile_core.specs.SchemaKeys.{is_schema_byte};

use crate::blanks::{trim_end, trim_start};
use crate::groups::is_plain;

/// Whether a text is the name of a key.
pub(crate) fn is_key(text: &str) -> bool
    ensures { result ≡ is_key text.now }
{
    !text.is_empty() && !text.as_bytes().contains(&b'/') && is_plain(text)
}

/// Whether a key is read again as it is written: its line is no comment, and it has no `=` and no blank at either end.
pub(crate) fn is_readable_key(text: &str) -> bool
    ensures { result ≡ is_readable_key text.now }
{
    is_schema_key(text)
        || is_key(text)
            && !text.as_bytes().contains(&b'=')
            && !text.starts_with("#")
            && trim_start(trim_end(text)) == text
}

/// Whether a key is as a schema names it, as nearly all are: of it nothing else is to be asked.
fn is_schema_key(text: &str) -> bool
    ensures { IsTrue result → IsTrue (is_readable_key text.now) }
{
    !text.is_empty() && are_schema_bytes(text.as_bytes())
}

/// Whether each byte may be in the name that a schema gives a key.
fn are_schema_bytes(bytes: &[u8]) -> bool
    ensures { result ≡ list_all is_schema_byte bytes.now }
{
    bytes.iter().all(|byte| is_schema_byte(*byte))
}

/// Whether a byte is a small letter, a digit or `-`.
fn is_schema_byte(byte: u8) -> bool
    ensures { result ≡ is_schema_byte byte }
{
    matches!(byte, b'a'..=b'z' | b'0'..=b'9' | b'-')
}
