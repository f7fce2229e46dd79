//! What literals are at a basic type (GLib, "GVariant Text Format", Numeric Types; Strings).
ghost use Rattle.std.specs.Prelude.{◌≡◌, ◌<◌, ◌≤◌, ◌^◌, ◌++◌, [], ◌∷◌, false, Some, None, Ok, Err, MatchResult, OnOk};
ghost use Rattle.gv_model.specs.Ty.{Ty.basic, Ty.array, Basic.boolean, Basic.byte as byte_type};
ghost use Rattle.gv_model.specs.Tree.{type_of, Tree.number, Tree.node};
ghost use Rattle.gv_model.specs.TextValues.{at_basic};
ghost use Rattle.gv_types.specs.TypeStr.{ty};
ghost use Rattle.gv_infer.specs.Building.{IsBuilt, IsOfType};
ghost use Rattle.gv_infer.specs.Leaves.{leaf_value, HasNoZero};
ghost use Rattle.gv_model.specs.Admits.{IsNumberType, IsTextType};
ghost use Rattle.gv_model.specs.Literals.{number_bits, integer_at, text_at, byte_string_trees};
ghost use Rattle.gv_types.specs.Classes.{basic_of};
ghost use Rattle.gv_tree.specs.Basics.{basic_tree, truth_bits};
ghost use Rattle.gv_tree.specs.Faults.{has_zero};
ghost use Rattle.gv_infer.specs.ValueFaults.{fault_of};
ghost use Rattle.gv_infer.specs.declared.fault.ValueFlaw.TheVariants.{OutOfRange};
ghost use Rattle.refused.specs.declared.Refused.TheVariants.{Fault};
ghost use Rattle.refused.specs.Faults.{OfFaultAlone};

use crate::containers::array;
use crate::fault::{ValueFault, ValueFlaw};
use gv_tree::{Basic, Tree, TreeFault, TreeFlaw};
use gv_types::{BasicType, Class, TypeStr};
use std::alloc::{AllocError, Global};

/// The number that an integer is at a number type. It is never wrapped.
fn number_at(of: BasicType, negative: bool, magnitude: u128) -> Result<Basic, ValueFault>
    requires { IsNumberType (basic (basic_of of)) }
    ensures { MatchResult result
        (λ value. integer_at (basic_of of) negative magnitude ≡ Ok (basic_tree value))
        (OfFaultAlone (λ f. integer_at (basic_of of) negative magnitude ≡ Err (fault_of f))) }
{
    Ok(match of {
        BasicType::Byte => Basic::Byte(unsigned(8, negative, magnitude)? as u8),
        BasicType::Int16 => Basic::Int16((signed(16, negative, magnitude)? as u16).cast_signed()),
        BasicType::Uint16 => Basic::Uint16(unsigned(16, negative, magnitude)? as u16),
        BasicType::Int32 => Basic::Int32((signed(32, negative, magnitude)? as u32).cast_signed()),
        BasicType::Uint32 => Basic::Uint32(unsigned(32, negative, magnitude)? as u32),
        BasicType::Int64 => Basic::Int64((signed(64, negative, magnitude)? as u64).cast_signed()),
        BasicType::Uint64 => Basic::Uint64(unsigned(64, negative, magnitude)? as u64),
        BasicType::Handle => Basic::HandleNo(
            (signed(32, negative, magnitude)? as u32).cast_signed(),
        ),
        BasicType::Double => return Err(ValueFault::Fault(ValueFlaw::DoubleText)),
        BasicType::Boolean | BasicType::Text | BasicType::ObjectPath | BasicType::Signature =>
            unreachable!(),
    })
}

/// The number, if it has at most so many bits and no minus sign.
fn unsigned(bits: u32, negative: bool, magnitude: u128) -> Result<u128, ValueFault>
    requires { bits ≤ 64 }
    ensures { MatchResult result
        (λ n. (number_bits None bits negative magnitude ≡ Some n) × (n < 2 ^ bits))
        (λ e. (number_bits None bits negative magnitude ≡ None) × (e ≡ Fault OutOfRange)) }
{
    if negative || magnitude >= 2u128.pow(bits) {
        return Err(ValueFault::Fault(ValueFlaw::OutOfRange));
    }
    Ok(magnitude)
}

/// The two's complement of the number, if it fits into so many bits.
fn signed(bits: u32, negative: bool, magnitude: u128) -> Result<u128, ValueFault>
    requires { (1 ≤ bits) × (bits ≤ 64) }
    ensures { MatchResult result
        (λ n. (number_bits (Some bits) 64 negative magnitude ≡ Some n) × (n < 2 ^ bits))
        (λ e. (number_bits (Some bits) 64 negative magnitude ≡ None) × (e ≡ Fault OutOfRange)) }
{
    let half = 2u128.pow(bits - 1);
    match negative {
        true if magnitude == 0 => Ok(0),
        true if magnitude <= half => Ok(2 * half - magnitude),
        false if magnitude < half => Ok(magnitude),
        _ => Err(ValueFault::Fault(ValueFlaw::OutOfRange)),
    }
}

/// A truth value, at the type `b`.
#[inline(never)]
pub(crate) fn truth_tree(alloc: Global, truth: bool) -> Result<Option<Tree>, ValueFault>
    ensures built { IsBuilt (Ok (number boolean (truth_bits truth))) result }
    ensures typed { IsOfType (basic boolean) result }
{
    leaf(alloc, Basic::Bool(truth))
}

/// An integer, at a number type.
#[inline(never)]
pub(crate) fn number_tree(
    alloc: Global,
    of: TypeStr<'_>,
    negative: bool,
    magnitude: u128,
) -> Result<Option<Tree>, ValueFault>
    requires { IsNumberType (ty of) }
    ensures built { IsBuilt (at_basic (λ k. integer_at k negative magnitude) (ty of.entry)) result }
    ensures typed { IsOfType (ty of.entry) result }
{
    match of.class() {
        Class::Basic(basic) => leaf(alloc, number_at(basic, negative, magnitude)?),
        _ => unreachable!(),
    }
}

/// A string, at the type of a string, an object path or a signature.
#[inline(never)]
pub(crate) fn text_tree(
    alloc: Global,
    of: TypeStr<'_>,
    text: &str,
) -> Result<Option<Tree>, ValueFault>
    requires fits { IsTextType (ty of) }
    requires plain { has_zero text.now ≡ false }
    ensures built { IsBuilt (at_basic (λ k. text_at k text.now) (ty of.entry)) result }
    ensures typed { IsOfType (ty of.entry) result }
{
    let text = String::from_str(alloc, text)?;
    match of.class() {
        Class::Basic(BasicType::ObjectPath) => leaf(alloc, Basic::ObjectPath(text)),
        Class::Basic(BasicType::Signature) => leaf(alloc, Basic::Signature(text)),
        _ => leaf(alloc, Basic::Text(text)),
    }
}

/// The bytes of a byte string and a zero byte, at the type `ay`.
#[inline(never)]
pub(crate) fn byte_string_at(
    alloc: Global,
    of: TypeStr<'_>,
    bytes: &[u8],
) -> Result<Option<Tree>, ValueFault>
    requires { ty of ≡ array (basic byte_type) }
    ensures built { IsBuilt (Ok (node (ty of.entry) (byte_string_trees bytes.now))) result }
    ensures typed { IsOfType (ty of.entry) result }
{
    let mut trees = Vec::with_capacity(alloc, bytes.len().saturating_add(1))?;
    for byte in bytes {
        push_byte(alloc, *byte, &mut trees)?;
    }
    push_byte(alloc, 0, &mut trees)?;
    array(alloc, of.element().unwrap(), Some(trees))
}

/// One byte more.
fn push_byte(alloc: Global, byte: u8, trees: &mut Vec<Tree>) -> Result<(), AllocError>
    ensures { OnOk result (trees.new.items ≡ trees.old.items ++ number byte_type byte ∷ []) }
{
    match Tree::basic(alloc, Basic::Byte(byte)) {
        Ok(tree) => Ok(trees.push(tree)?),
        Err(_) => unreachable!(),
    }
}

/// The tree of a basic value, if a text is what its type asks for.
fn leaf(alloc: Global, value: Basic) -> Result<Option<Tree>, ValueFault>
    requires { HasNoZero (basic_tree value) }
    ensures built { IsBuilt (leaf_value (basic_tree value)) result }
    ensures typed { IsOfType (type_of (basic_tree value)) result }
{
    match Tree::basic(alloc, value) {
        Ok(tree) => Ok(Some(tree)),
        Err(TreeFault::Fault(TreeFlaw::BadObjectPath)) => Err(ValueFault::Fault(
            ValueFlaw::BadObjectPath,
        )),
        Err(TreeFault::Fault(TreeFlaw::BadSignature)) => Err(ValueFault::Fault(
            ValueFlaw::BadSignature,
        )),
        Err(_) => unreachable!(),
    }
}
