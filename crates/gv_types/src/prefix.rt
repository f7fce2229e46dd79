//! The type at the start of bytes, and what follows it (GVariant Specification, "Type Strings").
ghost use Rattle.std.specs.Prelude.{◌≡◌, ◌++◌, [], IfSome, option_map};
ghost use Rattle.gv_model.specs.Ty.{spelling};
ghost use Rattle.gv_model.specs.TypeText.{mark};
ghost use Rattle.gv_model.specs.Lexing.{type_prefix};
ghost use Rattle.gv_types.specs.Classes.{class_of_mark};

use crate::class::{Class, class_of_letter};
use crate::grammar::after_type;
use crate::type_str::TypeStr;

impl Class {
    /// The class of the types that begin with this byte, or None where none does.
    #[inline(always)]
    pub fn of_letter(letter: u8) -> Option<Class>
        ensures { result ≡ class_of_mark (mark letter) }
    {
        class_of_letter(letter)
    }
}

impl<'a> TypeStr<'a> {
    ghost use Rattle.gv_types.specs.TypeStr.{ty};

    /// The type that a prefix of the bytes spells, of at most 128 levels and 67,108,864 bytes, and the bytes after it, or None.
    ///
    /// It looks at each byte of the type once.
    pub fn split_prefix(bytes: &'a [u8]) -> Option<(TypeStr<'a>, &'a [u8])>
        ensures found { option_map (λ r. ty r.0) result ≡ type_prefix [] bytes.entry.now }
        ensures whole { IfSome result (λ r. bytes.entry.now ≡ spelling (ty r.0) ++ r.1.now) }
    {
        let Ok(after) = after_type(bytes, TypeStr::MAX_LEVELS) else {
            return None;
        };
        let (prefix, rest) = bytes.split_at(bytes.len() - after.len());
        if prefix.len() > TypeStr::MAX_LEN {
            return None;
        }
        let text = unsafe { str::from_utf8_unchecked(prefix) };
        Some((TypeStr::of_checked(text), rest))
    }
}
