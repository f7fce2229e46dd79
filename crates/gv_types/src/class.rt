//! What the first letter of a type says (GVariant Specification, "Type Strings").
ghost use Rattle.std.specs.Prelude.{◌≡◌, ◌∷◌, []};
ghost use Rattle.gv_model.specs.Ty.{letter};
ghost use Rattle.gv_model.specs.TypeText.{mark};
ghost use Rattle.gv_model.specs.Layout.{basic_size};
ghost use Rattle.gv_model.specs.Words.{keyword};
ghost use Rattle.gv_model.specs.Patterns.{is_number, is_textual};
ghost use Rattle.gv_types.specs.Classes.{basic_in, basic_of, class_of_mark};

/// A type that holds no other.
#[derive(Clone, Copy, Debug, PartialEq, Eq)]
pub enum BasicType {
    /// `b`, true or false.
    Boolean,
    /// `y`, an unsigned number of 8 bits.
    Byte,
    /// `n`, a signed number of 16 bits.
    Int16,
    /// `q`, an unsigned number of 16 bits.
    Uint16,
    /// `i`, a signed number of 32 bits.
    Int32,
    /// `u`, an unsigned number of 32 bits.
    Uint32,
    /// `x`, a signed number of 64 bits.
    Int64,
    /// `t`, an unsigned number of 64 bits.
    Uint64,
    /// `h`, a signed index of 32 bits into a list of file descriptors.
    Handle,
    /// `d`, eight bytes that this project doesn't look into.
    Double,
    /// `s`, a text in UTF-8 without a zero byte.
    Text,
    /// `o`, a D-Bus object path.
    ObjectPath,
    /// `g`, the texts of some types.
    Signature,
}

impl BasicType {
    /// The text of the type, which is its letter.
    pub fn letter(self) -> &'static str
        ensures { result.now ≡ letter (basic_of self) ∷ [] }
    {
        match self {
            BasicType::Boolean => "b",
            BasicType::Byte => "y",
            BasicType::Int16 => "n",
            BasicType::Uint16 => "q",
            BasicType::Int32 => "i",
            BasicType::Uint32 => "u",
            BasicType::Int64 => "x",
            BasicType::Uint64 => "t",
            BasicType::Handle => "h",
            BasicType::Double => "d",
            BasicType::Text => "s",
            BasicType::ObjectPath => "o",
            BasicType::Signature => "g",
        }
    }

    /// The word that names the type before a value in a text.
    pub fn keyword(self) -> &'static str
        ensures { result.now ≡ keyword (basic_of self) }
    {
        match self {
            BasicType::Boolean => "boolean",
            BasicType::Byte => "byte",
            BasicType::Int16 => "int16",
            BasicType::Uint16 => "uint16",
            BasicType::Int32 => "int32",
            BasicType::Uint32 => "uint32",
            BasicType::Int64 => "int64",
            BasicType::Uint64 => "uint64",
            BasicType::Handle => "handle",
            BasicType::Double => "double",
            BasicType::Text => "string",
            BasicType::ObjectPath => "objectpath",
            BasicType::Signature => "signature",
        }
    }

    /// The number of bytes of each value, or None for a text.
    pub fn size(self) -> Option<u8>
        ensures { result ≡ basic_size (basic_of self) }
    {
        match self {
            BasicType::Boolean | BasicType::Byte => Some(1),
            BasicType::Int16 | BasicType::Uint16 => Some(2),
            BasicType::Int32 | BasicType::Uint32 | BasicType::Handle => Some(4),
            BasicType::Int64 | BasicType::Uint64 | BasicType::Double => Some(8),
            BasicType::Text | BasicType::ObjectPath | BasicType::Signature => None,
        }
    }

    /// Whether an integer in a text may have the type.
    pub fn is_number(self) -> bool
        ensures { result ≡ is_number (basic_of self) }
    {
        self != BasicType::Boolean && !self.is_text()
    }

    /// Whether a string in a text may have the type.
    pub fn is_text(self) -> bool
        ensures { result ≡ is_textual (basic_of self) }
    {
        self.size().is_none()
    }
}

/// What kind of type a type is.
#[derive(Clone, Copy, Debug, PartialEq, Eq)]
pub enum Class {
    /// A type that holds no other.
    Basic(BasicType),
    /// `v`, a value with its type.
    Variant,
    /// `aT`, values of one type.
    Array,
    /// `mT`, a value or Nothing.
    Maybe,
    /// `(T..)`, members of one type each.
    Tuple,
    /// `{KT}`, a basic key and a value.
    Entry,
}

/// The class of the types that begin with this byte, or None where none does.
#[tactic(auto, unfolding(gv_model::specs::TypeText::mark))]
#[inline(always)]
pub(crate) fn class_of_letter(letter: u8) -> Option<Class>
    ensures { result ≡ class_of_mark (mark letter) }
{
    let basic = match letter {
        b'b' => BasicType::Boolean,
        b'y' => BasicType::Byte,
        b'n' => BasicType::Int16,
        b'q' => BasicType::Uint16,
        b'i' => BasicType::Int32,
        b'u' => BasicType::Uint32,
        b'x' => BasicType::Int64,
        b't' => BasicType::Uint64,
        b'h' => BasicType::Handle,
        b'd' => BasicType::Double,
        b's' => BasicType::Text,
        b'o' => BasicType::ObjectPath,
        b'g' => BasicType::Signature,
        b'v' => return Some(Class::Variant),
        b'a' => return Some(Class::Array),
        b'm' => return Some(Class::Maybe),
        b'(' => return Some(Class::Tuple),
        b'{' => return Some(Class::Entry),
        _ => return None,
    };
    Some(Class::Basic(basic))
}

/// The basic type whose text is this byte, or None where there is none.
#[inline(always)]
pub(crate) fn basic_type_of(letter: u8) -> Option<BasicType>
    ensures { result ≡ basic_in (class_of_mark (mark letter)) }
{
    match class_of_letter(letter) {
        Some(Class::Basic(of)) => Some(of),
        _ => None,
    }
}
