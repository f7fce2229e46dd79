//! Values of the types that hold no other (GVariant Specification, "The GVariant Type System").
ghost use Rattle.std.specs.Prelude.{◌≡◌, ◌↔◌, ◌<◌, ◌^◌, true, false, IfOk, IsTrue, MatchResult};
ghost use Rattle.gv_model.specs.Ty.{Ty.basic, spelling};
ghost use Rattle.gv_model.specs.Tree.{type_of};
ghost use Rattle.gv_model.specs.BasicValue.{number_in};
ghost use Rattle.gv_model.specs.Typed.{IsValue};
ghost use Rattle.gv_types.specs.Classes.{basic_of};
ghost use Rattle.gv_tree.specs.Faults.{IsBasicFault, has_zero};
ghost use Rattle.gv_tree.specs.declared.fault.TreeFlaw.TheVariants.{HasNul};

use crate::fault::TreeFlaw;
use gv_types::{BasicType, is_object_path, is_signature};
use std::alloc::{AllocError, Global};

/// A value of a type that holds no other.
///
/// A text, an object path and a signature are looked at where a tree is made of them.
#[derive(Debug, Drop)]
pub enum Basic {
    /// `b`, true or false.
    Bool(bool),
    /// `y`, an unsigned number of 8 bits.
    Byte(u8),
    /// `n`, a signed number of 16 bits.
    Int16(i16),
    /// `q`, an unsigned number of 16 bits.
    Uint16(u16),
    /// `i`, a signed number of 32 bits.
    Int32(i32),
    /// `u`, an unsigned number of 32 bits.
    Uint32(u32),
    /// `x`, a signed number of 64 bits.
    Int64(i64),
    /// `t`, an unsigned number of 64 bits.
    Uint64(u64),
    /// `h`, a signed index of 32 bits into a list of file descriptors.
    HandleNo(i32),
    /// `d`, by its eight bytes, the lowest first.
    DoubleBits([u8; 8]),
    /// `s`, a text without a zero byte.
    Text(String),
    /// `o`, a D-Bus object path.
    ObjectPath(String),
    /// `g`, the texts of some types.
    Signature(String),
}

impl Basic {
    ghost use Rattle.gv_tree.specs.Basics.{basic_tree, BitsAre, TextIs};

    /// Its type.
    pub(crate) fn basic_type(&self) -> BasicType
        ensures { type_of (basic_tree self.now) ≡ basic (basic_of result) }
    {
        match self {
            Basic::Bool(_) => BasicType::Boolean,
            Basic::Byte(_) => BasicType::Byte,
            Basic::Int16(_) => BasicType::Int16,
            Basic::Uint16(_) => BasicType::Uint16,
            Basic::Int32(_) => BasicType::Int32,
            Basic::Uint32(_) => BasicType::Uint32,
            Basic::Int64(_) => BasicType::Int64,
            Basic::Uint64(_) => BasicType::Uint64,
            Basic::HandleNo(_) => BasicType::Handle,
            Basic::DoubleBits(_) => BasicType::Double,
            Basic::Text(_) => BasicType::Text,
            Basic::ObjectPath(_) => BasicType::ObjectPath,
            Basic::Signature(_) => BasicType::Signature,
        }
    }

    /// The text of its type.
    #[tactic(auto, unfolding(gv_model::specs::Ty::spelling))]
    pub(crate) fn type_text(&self) -> &'static str
        ensures { result.now ≡ spelling (type_of (basic_tree self.now)) }
    {
        self.basic_type().letter()
    }

    /// The bits of a number, or None for a text.
    pub(crate) fn bits(&self) -> Option<u64>
        ensures { BitsAre result (basic_tree self.now) }
    {
        match self {
            Basic::Bool(truth) => Some(u64::from(*truth)),
            Basic::Byte(number) => Some(u64::from(*number)),
            Basic::Int16(number) => Some(u64::from(number.cast_unsigned())),
            Basic::Uint16(number) => Some(u64::from(*number)),
            Basic::Int32(number) => Some(u64::from(number.cast_unsigned())),
            Basic::Uint32(number) => Some(u64::from(*number)),
            Basic::Int64(number) => Some(number.cast_unsigned()),
            Basic::Uint64(number) => Some(*number),
            Basic::HandleNo(number) => Some(u64::from(number.cast_unsigned())),
            Basic::DoubleBits(bytes) => Some(double_bits(*bytes)),
            Basic::Text(_) | Basic::ObjectPath(_) | Basic::Signature(_) => None,
        }
    }

    /// A text, or the empty one for a number.
    pub(crate) fn text(&self) -> &str
        ensures { TextIs result.now (basic_tree self.now) }
    {
        match self {
            Basic::Text(text) | Basic::ObjectPath(text) | Basic::Signature(text) => text.as_str(),
            _ => "",
        }
    }

    /// Whether both have the same type and value; doubles are compared by their bits.
    pub(crate) fn equal(&self, other: &Basic) -> bool
        ensures { IsTrue result ↔ (basic_tree self.now ≡ basic_tree other.now) }
    {
        self.type_text() == other.type_text()
            && self.bits() == other.bits()
            && self.text() == other.text()
    }

    /// A copy. It takes time linear in a text.
    pub(crate) fn try_copy(&self, alloc: Global) -> Result<Basic, AllocError>
        ensures { IfOk result (λ copy. basic_tree copy ≡ basic_tree self.now) }
    {
        Ok(match self {
            Basic::Bool(truth) => Basic::Bool(*truth),
            Basic::Byte(number) => Basic::Byte(*number),
            Basic::Int16(number) => Basic::Int16(*number),
            Basic::Uint16(number) => Basic::Uint16(*number),
            Basic::Int32(number) => Basic::Int32(*number),
            Basic::Uint32(number) => Basic::Uint32(*number),
            Basic::Int64(number) => Basic::Int64(*number),
            Basic::Uint64(number) => Basic::Uint64(*number),
            Basic::HandleNo(number) => Basic::HandleNo(*number),
            Basic::DoubleBits(bytes) => Basic::DoubleBits(*bytes),
            Basic::Text(text) => Basic::Text(String::from_str(alloc, text.as_str())?),
            Basic::ObjectPath(text) => Basic::ObjectPath(String::from_str(alloc, text.as_str())?),
            Basic::Signature(text) => Basic::Signature(String::from_str(alloc, text.as_str())?),
        })
    }

    /// Refuses a text that is no value of its type. It looks at each byte of a text.
    pub(crate) fn check(&self) -> Result<(), TreeFlaw>
        ensures { MatchResult result
            (λ _. IsValue (basic_tree self.now))
            (IsBasicFault (basic_tree self.now)) }
    {
        match self {
            Basic::Text(text) => check_nul(text.as_str()),
            Basic::ObjectPath(text) => {
                check_nul(text.as_str())?;
                if is_object_path(text.as_str()) {
                    Ok(())
                } else {
                    Err(TreeFlaw::BadObjectPath)
                }
            }
            Basic::Signature(text) => {
                check_nul(text.as_str())?;
                if is_signature(text.as_str()) {
                    Ok(())
                } else {
                    Err(TreeFlaw::BadSignature)
                }
            }
            _ => {
                let _bits = self.bits();
                Ok(())
            }
        }
    }
}

/// Refuses a text with a zero byte.
fn check_nul(text: &str) -> Result<(), TreeFlaw>
    ensures { MatchResult result
        (λ _. has_zero text.now ≡ false)
        (λ fault. (fault ≡ HasNul) × (has_zero text.now ≡ true)) }
{
    if text.as_bytes().contains(&0) {
        Err(TreeFlaw::HasNul)
    } else {
        Ok(())
    }
}

/// The bits of a double.
fn double_bits(bytes: [u8; 8]) -> u64
    ensures { (result ≡ number_in bytes) × (result < 256 ^ 8) }
{
    u64::from_le_bytes(bytes)
}
