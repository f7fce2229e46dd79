//! Texts.
ghost use Rattle.std.specs.Prelude.{◌↔◌, IfSome, IsSome};
ghost use Rattle.dconfdb_values.specs.Texts.{IsText, IsTextType};

use crate::typed::view_of;

/// The text that the bytes are at `s`, `o` or `g`, lent from them, or that of the default where they
/// are no such text: none at `s` and `g`, `/` at `o`. None at any other type.
///
/// It looks at each byte once for the zero byte and once for UTF-8.
pub fn text<'a>(type_text: &'a [u8], bytes: &'a [u8]) -> Option<&'a str>
    ensures some { IsSome result ↔ IsTextType type_text.entry.now }
    ensures value { IfSome result (λ s. IsText type_text.entry.now bytes.entry.now s.now) }
{
    view_of(type_text, bytes)?.as_str()
}
