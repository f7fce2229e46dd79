//! A type and bytes, and what the bytes are at basic types.
ghost use Rattle.std.specs.Prelude.{◌≡◌, ◌↔◌, Some, IsSome, IfSome, length};
ghost use Rattle.std.specs.Int.{cast_unsigned, w16, w32, w64};
ghost use Rattle.gv_model.specs.Ty.{Basic, Ty.array, Ty.basic, Basic.boolean, Basic.byte, Basic.int16, Basic.uint16, Basic.int32, Basic.uint32, Basic.int64, Basic.uint64, Basic.handle, Basic.double};
ghost use Rattle.gv_model.specs.Tree.{Tree.number, Tree.text, Tree.node, byte_trees};
ghost use Rattle.gv_model.specs.BasicValue.{number_in, bits_of};
ghost use Rattle.gv_model.specs.Layout.{basic_size};
ghost use Rattle.gv_types.specs.Classes.{basic_of};

use crate::number::double_bits;
use crate::text::{object_path_in, signature_in, string_in};
use byteorder::{ByteOrder, LittleEndian};
use gv_layout::is_true;
use gv_types::{BasicType, Class, TypeStr};

/// The bytes of a number that reads as its default.
static ZEROS: [u8; 8] = [0; 8];

/// Bytes that are read as a value of a type.
#[derive(Clone, Copy, Debug)]
pub struct View<'a> {
    pub(crate) type_str: TypeStr<'a>,
    pub(crate) bytes: &'a [u8],
}

impl<'a> View<'a> {
    ghost use Rattle.gv_view.specs.Views.{type_str_of, view_ty, view_bytes, value, IsTextType, truth_bits};

    /// Reads the bytes at the type.
    pub fn new(type_str: TypeStr<'a>, bytes: &'a [u8]) -> View<'a>
        ensures type_str { type_str_of result ≡ type_str.entry }
        ensures bytes { view_bytes result ≡ bytes.entry.now }
    {
        View { type_str, bytes }
    }

    /// The type at which the bytes are read.
    pub fn type_str(self) -> TypeStr<'a>
        ensures { result ≡ type_str_of self.entry }
    {
        self.type_str
    }

    /// The bytes that are read, as they were handed in.
    pub fn bytes(self) -> &'a [u8]
        ensures { result.now ≡ view_bytes self.entry }
    {
        self.bytes
    }

    /// The truth value at `b`: any byte but 0 is true. None at another type.
    pub fn as_bool(self) -> Option<bool>
        ensures some { IsSome result ↔ (view_ty self.entry ≡ basic boolean) }
        ensures value { IfSome result (λ b. value self.entry ≡ number boolean (truth_bits b)) }
    {
        let bytes = self.number_bytes(BasicType::Boolean, 1)?;
        Some(is_true(bytes))
    }

    /// The number at `y`. None at another type.
    pub fn as_u8(self) -> Option<u8>
        ensures some { IsSome result ↔ (view_ty self.entry ≡ basic byte) }
        ensures value { IfSome result (λ n. value self.entry ≡ number byte n) }
    {
        let bytes = self.number_bytes(BasicType::Byte, 1)?;
        Some(bytes[0])
    }

    /// The number at `n`. None at another type.
    pub fn as_i16(self) -> Option<i16>
        ensures some { IsSome result ↔ (view_ty self.entry ≡ basic int16) }
        ensures value { IfSome result (λ n. value self.entry ≡ number int16 (cast_unsigned w16 n)) }
    {
        let bytes = self.number_bytes(BasicType::Int16, 2)?;
        let bits = LittleEndian::read_u16(bytes);
        Some(bits.cast_signed())
    }

    /// The number at `q`. None at another type.
    pub fn as_u16(self) -> Option<u16>
        ensures some { IsSome result ↔ (view_ty self.entry ≡ basic uint16) }
        ensures value { IfSome result (λ n. value self.entry ≡ number uint16 n) }
    {
        let bytes = self.number_bytes(BasicType::Uint16, 2)?;
        Some(LittleEndian::read_u16(bytes))
    }

    /// The number at `i`. None at another type.
    pub fn as_i32(self) -> Option<i32>
        ensures some { IsSome result ↔ (view_ty self.entry ≡ basic int32) }
        ensures value { IfSome result (λ n. value self.entry ≡ number int32 (cast_unsigned w32 n)) }
    {
        let bytes = self.number_bytes(BasicType::Int32, 4)?;
        let bits = LittleEndian::read_u32(bytes);
        Some(bits.cast_signed())
    }

    /// The number at `u`. None at another type.
    pub fn as_u32(self) -> Option<u32>
        ensures some { IsSome result ↔ (view_ty self.entry ≡ basic uint32) }
        ensures value { IfSome result (λ n. value self.entry ≡ number uint32 n) }
    {
        let bytes = self.number_bytes(BasicType::Uint32, 4)?;
        Some(LittleEndian::read_u32(bytes))
    }

    /// The number at `x`. None at another type.
    pub fn as_i64(self) -> Option<i64>
        ensures some { IsSome result ↔ (view_ty self.entry ≡ basic int64) }
        ensures value { IfSome result (λ n. value self.entry ≡ number int64 (cast_unsigned w64 n)) }
    {
        let bytes = self.number_bytes(BasicType::Int64, 8)?;
        let bits = LittleEndian::read_u64(bytes);
        Some(bits.cast_signed())
    }

    /// The number at `t`. None at another type.
    pub fn as_u64(self) -> Option<u64>
        ensures some { IsSome result ↔ (view_ty self.entry ≡ basic uint64) }
        ensures value { IfSome result (λ n. value self.entry ≡ number uint64 n) }
    {
        let bytes = self.number_bytes(BasicType::Uint64, 8)?;
        Some(LittleEndian::read_u64(bytes))
    }

    /// The index at `h`. None at another type.
    pub fn as_handle(self) -> Option<i32>
        ensures some { IsSome result ↔ (view_ty self.entry ≡ basic handle) }
        ensures value { IfSome result (λ n. value self.entry ≡ number handle (cast_unsigned w32 n)) }
    {
        let bytes = self.number_bytes(BasicType::Handle, 4)?;
        let bits = LittleEndian::read_u32(bytes);
        Some(bits.cast_signed())
    }

    /// The eight bytes at `d`, all zero where there are not eight. None at another type.
    pub fn as_double_bits(self) -> Option<[u8; 8]>
        ensures some { IsSome result ↔ (view_ty self.entry ≡ basic double) }
        ensures value { IfSome result (λ b. value self.entry ≡ number double (number_in b)) }
    {
        let bytes = self.number_bytes(BasicType::Double, 8)?;
        Some(double_bits(bytes))
    }

    /// The text at `s`, `o` or `g`, lent from the bytes, or that of the default where they are no such text. None at
    /// another type.
    ///
    /// It looks at each byte once for the zero byte and once for UTF-8.
    pub fn as_str(self) -> Option<&'a str>
        ensures some { IsSome result ↔ IsTextType (view_ty self.entry) }
        ensures value { IfSome result (λ s.
            (k : Basic) × (view_ty self.entry ≡ basic k) × (value self.entry ≡ text k s.now)) }
    {
        match self.type_str.class() {
            Class::Basic(BasicType::Text) => Some(string_in(self.bytes)),
            Class::Basic(BasicType::ObjectPath) => Some(object_path_in(self.bytes)),
            Class::Basic(BasicType::Signature) => Some(signature_in(self.bytes)),
            _ => None,
        }
    }

    /// The bytes at `ay`, as they were handed in. None at another type.
    pub fn as_bytes(self) -> Option<&'a [u8]>
        ensures some { IsSome result ↔ (view_ty self.entry ≡ array (basic byte)) }
        ensures value { IfSome result (λ b. value self.entry ≡ node (array (basic byte)) (byte_trees b.now)) }
    {
        if self.type_str.class() != Class::Array {
            return None;
        }
        match self.type_str.element()?.class() {
            Class::Basic(BasicType::Byte) => Some(self.bytes),
            _ => None,
        }
    }

    /// The bytes of a number of this basic type and size, or as many zeros where there are too few or too many.
    fn number_bytes(self, of: BasicType, size: usize) -> Option<&'a [u8]>
        requires { basic_size (basic_of of) ≡ Some size }
        ensures some { IsSome result ↔ (view_ty self.entry ≡ basic (basic_of of)) }
        ensures size { IfSome result (λ b. length b.now ≡ size) }
        ensures value { IfSome result (λ b.
            value self.entry ≡ number (basic_of of) (bits_of (basic_of of) (number_in b.now))) }
    {
        if self.type_str.class() != Class::Basic(of) {
            return None;
        }
        if self.bytes.len() == size {
            Some(self.bytes)
        } else {
            Some(&ZEROS[..size])
        }
    }
}
