//! The text of one type.
ghost use Rattle.std.specs.Prelude.{◌≡◌, ◌≤◌, ◌↔◌, ℕ, [], None, true, IfOk, IfErr, IsOk, IsTrue, option_map};
ghost use Rattle.gv_model.specs.Ty.{Basic, Ty.basic, spelling, members, type_list};
ghost use Rattle.gv_model.specs.Layout.{fixed_size};
ghost use Rattle.gv_model.specs.TypeText.{is_type, type_at, type_of_text};
ghost use Rattle.gv_model.specs.TypeFault.{IsFault};
ghost use Rattle.gv_model.specs.Lexing.{type_prefix};
ghost use Rattle.gv_types.specs.Classes.{class_of, AreBracketed};
ghost use Rattle.gv_types.specs.SingleTuples.{single_tuples};
ghost use Rattle.gv_types.specs.TypeFaults.{type_fault_of};

use crate::class::{BasicType, Class, class_of_letter};
use crate::fault::TypeFault;
use crate::grammar::{after_type, read_type};
use crate::members::Members;

/// The text of one type, lent from where it was found.
#[derive(Clone, Copy, Debug)]
pub struct TypeStr<'a> {
    pub(crate) text: &'a str,
    /// Of how many tuples of one member, one in another, the type is known to be.
    pub(crate) singles: u8,
    /// Whether the type is known to have no fixed size.
    pub(crate) known_open: bool,
    ghost spells_type: { IsTrue (is_type text.now) },
    ghost alone: { singles ≤ single_tuples (type_at text.now) },
    ghost open: { IsTrue known_open → fixed_size (type_at text.now) ≡ None },
}

impl TypeStr<'_> {
    /// The most bytes of a type's text.
    pub const MAX_LEN: usize = 67_108_864;

    /// The most levels that a type nests.
    pub const MAX_LEVELS: u8 = 128;
}

impl<'a> TypeStr<'a> {
    ghost use Rattle.gv_types.specs.TypeStr.{text_of, ty, element_of, key_of, is_known_open};
    ghost use Rattle.gv_types.specs.Members.{members_left};

    /// Takes a text that is one type, of at most 128 levels and 67,108,864 bytes.
    ///
    /// Any other is refused with its first fault from left to right; a text that is too long is refused before it
    /// is looked at. It looks at each byte once.
    pub fn parse(text: &'a str) -> Result<TypeStr<'a>, TypeFault>
        ensures accepts { IsOk result ↔ IsTrue (is_type text.entry.now) }
        ensures found { IfOk result (λ t. text_of t ≡ text.entry.now) }
        ensures fault { IfErr result (λ e. IsFault text.entry.now (type_fault_of e)) }
    {
        if text.len() > TypeStr::MAX_LEN {
            return Err(TypeFault::TooLong);
        }
        if text.is_empty() {
            return Err(TypeFault::Empty);
        }
        match after_type(text.as_bytes(), TypeStr::MAX_LEVELS) {
            Ok([]) => Ok(TypeStr::of_checked(text)),
            Ok(rest) => Err(TypeFault::Trailing(text.len() - rest.len())),
            Err(stop) => Err(stop.halt.at(text.len() - stop.rest.len())),
        }
    }

    /// The type that the bytes spell, of at most 128 levels and 67,108,864 bytes, or None.
    ///
    /// It looks at each byte once. What is spelled is ASCII, so nothing else asks whether the bytes are UTF-8.
    pub fn of_bytes(bytes: &'a [u8]) -> Option<TypeStr<'a>>
        ensures { option_map ty result ≡ type_of_text bytes.entry.now }
    {
        if bytes.len() > TypeStr::MAX_LEN {
            return None;
        }
        let Ok(rest) = after_type(bytes, TypeStr::MAX_LEVELS) else {
            return None;
        };
        if !rest.is_empty() {
            return None;
        }
        let text = unsafe { str::from_utf8_unchecked(bytes) };
        Some(TypeStr::of_checked(text))
    }

    /// The type that a prefix of a text spells, of at most 128 levels and 67,108,864 bytes, or None.
    ///
    /// There is one at most, since no type's text begins another's. It looks at each byte of the type once.
    pub fn prefix_of(text: &'a str) -> Option<TypeStr<'a>>
        ensures { option_map ty result ≡ type_prefix [] text.entry.now }
    {
        let Ok(rest) = after_type(text.as_bytes(), TypeStr::MAX_LEVELS) else {
            return None;
        };
        let len = text.len() - rest.len();
        if len > TypeStr::MAX_LEN {
            return None;
        }
        Some(TypeStr::of_checked(&text[..len]))
    }

    /// Takes a text that is known to be one type. It looks at no byte.
    pub fn of_checked(text: &'a str) -> TypeStr<'a>
        requires { IsTrue (is_type text.now) }
        ensures { text_of result ≡ text.entry.now }
    {
        TypeStr {
            text,
            singles: 0,
            known_open: false,
        }
    }

    /// The same type, of which is known from now on that it has no fixed size, as gv_layout finds it. It looks at no byte.
    pub fn as_open(self) -> TypeStr<'a>
        requires { fixed_size (ty self) ≡ None }
        ensures text { text_of result ≡ text_of self.entry }
        ensures known { is_known_open result ≡ true }
    {
        TypeStr {
            text: self.text,
            singles: self.singles,
            known_open: true,
        }
    }

    /// Whether the type is known to have no fixed size: it came from `as_open`, or is the one member of a tuple that did.
    /// It looks at no byte.
    pub fn is_known_open(self) -> bool
        ensures known { result ≡ is_known_open self.entry }
        ensures open { IsTrue result → fixed_size (ty self.entry) ≡ None }
    {
        self.known_open
    }

    /// The same type, of which is known from now on how many tuples of one member it is, one in another.
    ///
    /// It looks at each byte of a tuple's text once, and of any other type at the first.
    pub fn as_read(self) -> TypeStr<'a>
        ensures text { text_of result ≡ text_of self.entry }
        ensures known { is_known_open result ≡ is_known_open self.entry }
    {
        let text = self.text.as_bytes();
        if text[0] != b'(' {
            return self;
        }
        // The text is a type's, so it is read.
        let Ok(read) = read_type(text, TypeStr::MAX_LEVELS) else {
            return self;
        };
        let known_open = self.known_open;
        TypeStr {
            text: self.text,
            singles: read.singles,
            known_open,
        }
    }

    /// The text itself. It looks at no byte.
    pub fn as_str(self) -> &'a str
        ensures text { result.now ≡ text_of self.entry }
        ensures spelled { result.now ≡ spelling (ty self.entry) }
    {
        self.text
    }

    /// What kind of type it is. It looks at the first byte.
    #[inline(always)]
    pub fn class(self) -> Class
        ensures { result ≡ class_of (ty self.entry) }
    {
        class_of_letter(self.text.as_bytes()[0]).unwrap()
    }

    /// Whether it is a type that holds no other. It looks at the first byte.
    pub fn is_basic(self) -> bool
        ensures { IsTrue result ↔ ((k : Basic) × (ty self.entry ≡ basic k)) }
    {
        matches!(self.class(), Class::Basic(_))
    }

    /// The type that an array or a maybe holds, or None for any other type. It looks at the first byte.
    pub fn element(self) -> Option<TypeStr<'a>>
        ensures { option_map ty result ≡ element_of (ty self.entry) }
    {
        match self.class() {
            Class::Array | Class::Maybe => Some(TypeStr::of_checked(&self.text[1..])),
            _ => None,
        }
    }

    /// The type of an entry's key, or None for any other type. It looks at the first byte.
    pub fn key(self) -> Option<TypeStr<'a>>
        ensures { option_map ty result ≡ key_of (ty self.entry) }
    {
        match self.class() {
            Class::Entry => Some(TypeStr::of_checked(&self.text[1..2])),
            _ => None,
        }
    }

    /// The types of a tuple's members, or of an entry's key and value, in order. No other type has members.
    ///
    /// A walk along them looks at each byte once.
    pub fn members(self) -> Members<'a>
        ensures { members_left result ≡ type_list (members (ty self.entry)) }
    {
        match self.class() {
            Class::Tuple | Class::Entry => self.between_brackets(),
            _ => Members::none(),
        }
    }

    /// The types of the members of a tuple or an entry, whose text lies between brackets.
    fn between_brackets(self) -> Members<'a>
        requires { AreBracketed (class_of (ty self)) }
        ensures { members_left result ≡ type_list (members (ty self.entry)) }
    {
        Members {
            rest: &self.text[1..self.text.len() - 1],
            singles: self.singles,
            known_open: self.known_open,
        }
    }
}
