//! Numbers.
ghost use Rattle.std.specs.Prelude.{◌≡◌, ◌↔◌, IfSome, IsSome, IsTrue};
ghost use Rattle.gv_model.specs.BasicValue.{truth};
ghost use Rattle.gv_model.specs.Decode.{decode};
ghost use Rattle.gv_model.specs.Layout.{basic_size};
ghost use Rattle.gv_model.specs.Tree.{Tree.number};
ghost use Rattle.gv_model.specs.Ty.{Ty.basic};
ghost use Rattle.gv_model.specs.TypeText.{mark};
ghost use Rattle.gv_types.specs.Classes.{basic_of};
ghost use Rattle.dconfdb_values.specs.Numbers.{IsAskedAs, IsNumber, IsNumberType, number_type, sized};

use byteorder::{ByteOrder, LittleEndian};
use gv_types::BasicType;

/// The number that the bytes are at the type that the text spells, if it is the one of this
/// letter: of `b` 0 or 1, and of the others the bits that they are written in, the lowest first. An
/// index of a file descriptor, `h`, is asked for by `i` too. None at any other type.
///
/// The text of a number's type is its letter, so no other text is looked at.
pub fn number(type_text: &[u8], bytes: &[u8], letter: u8) -> Option<u64>
    ensures some { IsSome result ↔ IsNumberType type_text.now letter }
    ensures value { IfSome result (IsNumber type_text.now bytes.now letter) }
{
    let [own] = type_text else {
        return None;
    };
    if !is_asked_as(*own, letter) {
        return None;
    }
    Some(bits(type_of(*own)?, bytes))
}

/// Whether the letter asks for numbers of the type of that one.
fn is_asked_as(own: u8, letter: u8) -> bool
    ensures { IsTrue result ↔ IsAskedAs own letter }
{
    own == letter || (own == b'h' && letter == b'i')
}

/// The type of numbers that a letter spells.
#[tactic(auto, unfolding(gv_model::specs::TypeText::mark))]
fn type_of(letter: u8) -> Option<BasicType>
    ensures { result ≡ number_type (mark letter) }
{
    match letter {
        b'b' => Some(BasicType::Boolean),
        b'y' => Some(BasicType::Byte),
        b'n' => Some(BasicType::Int16),
        b'q' => Some(BasicType::Uint16),
        b'i' => Some(BasicType::Int32),
        b'u' => Some(BasicType::Uint32),
        b'x' => Some(BasicType::Int64),
        b't' => Some(BasicType::Uint64),
        b'h' => Some(BasicType::Handle),
        b'd' => Some(BasicType::Double),
        _ => None,
    }
}

/// The bits of a number of a type.
fn bits(of: BasicType, bytes: &[u8]) -> u64
    requires { IsSome (basic_size (basic_of of)) }
    ensures { decode (basic (basic_of of)) bytes.now ≡ number (basic_of of) result }
{
    match of {
        BasicType::Boolean => truth_in(bytes),
        BasicType::Byte => u64::from(one_byte(bytes)),
        BasicType::Int16 | BasicType::Uint16 => two_bytes(bytes),
        BasicType::Int32 | BasicType::Uint32 | BasicType::Handle => four_bytes(bytes),
        _ => eight_bytes(bytes),
    }
}

/// Whether the number in one byte is another than 0, as 1 or 0.
fn truth_in(bytes: &[u8]) -> u64
    ensures { result ≡ truth (sized 1 bytes.now) }
{
    let n = one_byte(bytes);
    if n == 0 { 0 } else { 1 }
}

/// The number in one byte; 0 where there is not one.
fn one_byte(bytes: &[u8]) -> u8
    ensures { result ≡ sized 1 bytes.now }
{
    match bytes {
        [byte] => *byte,
        _ => 0,
    }
}

/// The same of two bytes, the lowest first.
fn two_bytes(bytes: &[u8]) -> u64
    ensures { result ≡ sized 2 bytes.now }
{
    if bytes.len() == 2 {
        u64::from(LittleEndian::read_u16(bytes))
    } else {
        0
    }
}

/// Of four bytes.
fn four_bytes(bytes: &[u8]) -> u64
    ensures { result ≡ sized 4 bytes.now }
{
    if bytes.len() == 4 {
        u64::from(LittleEndian::read_u32(bytes))
    } else {
        0
    }
}

/// Of eight bytes.
fn eight_bytes(bytes: &[u8]) -> u64
    ensures { result ≡ sized 8 bytes.now }
{
    if bytes.len() == 8 {
        LittleEndian::read_u64(bytes)
    } else {
        0
    }
}
