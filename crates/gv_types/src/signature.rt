//! Signatures (GVariant Specification, "Type Strings").
ghost use Rattle.std.specs.Prelude.{◌≡◌};
ghost use Rattle.gv_model.specs.Texts.{are_types, is_signature};
ghost use Rattle.gv_model.specs.TypeText.{seen};

use crate::grammar::after_type;
use crate::type_str::TypeStr;

/// Whether the text is a signature: types one after the other, without `m`, each within the limits of a type text.
///
/// It looks at each byte at most twice.
pub fn is_signature(text: &str) -> bool
    ensures { result ≡ is_signature text.now }
{
    !text.as_bytes().contains(&b'm') && are_types(text.as_bytes())
}

/// Whether the text is types one after the other, each within the limits of a type text.
fn are_types(text: &[u8]) -> bool
    ensures { result ≡ are_types (seen text.now) }
{
    let mut rest = text;
    while !rest.is_empty() {
        match after_type(rest, TypeStr::MAX_LEVELS) {
            Ok(after) if rest.len() - after.len() <= TypeStr::MAX_LEN => rest = after,
            _ => return false,
        }
    }
    true
}
