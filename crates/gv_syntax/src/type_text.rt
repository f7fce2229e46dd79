//! An owned text of a type.
ghost use Rattle.std.specs.Prelude.{◌≡◌, IfOk, IsTrue, string_bytes};
ghost use Rattle.gv_model.specs.TypeText.{is_type, type_at};
ghost use Rattle.gv_types.specs.TypeStr.{ty};

use gv_types::TypeStr;
use std::alloc::{AllocError, Global};

/// The text of one type, which owns it.
#[derive(Debug, Drop)]
pub struct TypeText {
    pub(crate) text: String,
    ghost spells_type: { IsTrue (is_type (string_bytes text)) },
}

impl TypeText {
    ghost use Rattle.gv_syntax.specs.TypeTexts.{type_of_owned};

    /// A copy of the text.
    pub fn copy(alloc: Global, of: TypeStr<'_>) -> Result<TypeText, AllocError>
        ensures copied { IfOk result (λ t. type_of_owned t ≡ ty of.entry) }
    {
        Ok(TypeText {
            text: String::from_str(alloc, of.as_str())?,
        })
    }

    /// Takes a text that is known to be one type. It looks at no byte.
    pub fn of_checked(text: String) -> TypeText
        requires { IsTrue (is_type (string_bytes text)) }
        ensures { type_of_owned result ≡ type_at (string_bytes text) }
    {
        TypeText { text }
    }

    /// The type. It looks at no byte.
    pub fn as_type(&self) -> TypeStr<'_>
        ensures { ty result ≡ type_of_owned self.now }
    {
        TypeStr::of_checked(self.text.as_str())
    }
}
