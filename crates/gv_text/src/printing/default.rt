//! Values of no bytes as text. They are the defaults of their types (GVariant Specification, "Handling Non-Normal
//! Serialised Data"): 0, false, '', '/' for an object path, no element, Nothing, defaults in a tuple, `<()>` for a variant.
//!
//! A default is told by its type alone, so it is written in one walk along the letters of the type's text.
ghost use Rattle.std.specs.Prelude.{◌≡◌, ◌≤◌, ◌<◌, ◌++◌, true, false, length, drop, IfOk, OnOk, MatchOption, MatchResult, string_bytes};
ghost use Rattle.gv_model.specs.Ty.{Ty.variant};
ghost use Rattle.gv_model.specs.TypeText.{seen};
ghost use Rattle.gv_model.specs.Tree.{basic_default, default};
ghost use Rattle.gv_model.specs.Printed.{comma, text_of, holds_double};
ghost use Rattle.gv_types.specs.Classes.{basic_of, class_of};
ghost use Rattle.gv_types.specs.TypeStr.{ty};
ghost use Rattle.gv_types.specs.Members.{members_left};
ghost use Rattle.gv_types.specs.FirstTypes.{first_type, HasFirstType, IsAfterFirst};
ghost use Rattle.gv_types.specs.declared.class.Class.TheVariants.{Tuple, Entry};
ghost use Rattle.gv_text.specs.Printing.{IsLevelFault, Prints};
ghost use Rattle.gv_text.specs.Defaults.{default_in, defaults_left, AreFigures, AreLeft, AreLevelFault, IsEmptied, PrintsFirst, WriteRest, WritesJoined};

use super::array::brackets;
use super::basic::push_word;
use super::type_mark::push_type_mark;
use crate::print_fault::{PrintFault, PrintFlaw};
use gv_types::{BasicType, Class, Members, TypeStr};
use std::alloc::AllocError;

/// Writes the default of a type, which has no more than these levels.
pub(super) fn push_default(
    to: &mut String,
    of: TypeStr<'_>,
    levels: u8,
    annotated: bool,
    in_array: bool,
) -> Result<(), PrintFault>
    requires { 0 < levels }
    ensures { Prints result (default (ty of.entry)) levels annotated in_array (string_bytes to.old) (string_bytes to.new) }
{
    match of.class() {
        Class::Basic(basic) => push_basic_default(to, basic, annotated)?,
        Class::Array | Class::Maybe => push_emptied(to, of, annotated)?,
        _ => {
            push_first(to, of.as_str().as_bytes(), levels, annotated, in_array)?;
        }
    }
    Ok(())
}

/// Writes the defaults of the members that are left, each after the mark.
pub(super) fn push_rest(
    to: &mut String,
    members: Members<'_>,
    levels: u8,
    mark: &str,
    annotated: bool,
) -> Result<(), PrintFault>
    ensures { MatchResult result
        (λ _. WriteRest (defaults_left members.entry) levels mark.now annotated (string_bytes to.old) (string_bytes to.new))
        (AreLevelFault (defaults_left members.entry) levels) }
{
    let mut left = members;
    push_basics(to, &mut left, levels, mark, annotated)?;
    while let Some(member) = left.next() {
        if levels == 0 {
            return Err(PrintFault::Fault(PrintFlaw::TooLarge));
        }
        to.push_str(mark)?;
        push_default(to, member, levels, annotated, false)?;
        push_basics(to, &mut left, levels, mark, annotated)?;
    }
    Ok(())
}

/// Writes the defaults of the members of basic types that come next, each after the mark. It leaves them where the mark is no
/// comma, and where they are annotated.
fn push_basics(
    to: &mut String,
    members: &mut Members<'_>,
    levels: u8,
    mark: &str,
    annotated: bool,
) -> Result<(), PrintFault>
    ensures written { MatchResult result
        (λ _. AreLeft mark.now (defaults_left members.old) (defaults_left members.new) levels annotated (string_bytes to.old) (string_bytes to.new))
        (AreLevelFault (defaults_left members.old) levels) }
    ensures fewer { length (members_left members.new) ≤ length (members_left members.old) }
{
    if annotated || levels == 0 || mark != ", " {
        return Ok(());
    }
    while let Some(of) = members.next_basic() {
        push_basic_after(to, of)?;
    }
    Ok(())
}

/// Writes the default of the type at the start of the text, and answers what comes after the type.
#[cycle(defaults)]
fn push_first<'a>(
    to: &mut String,
    text: &'a [u8],
    levels: u8,
    annotated: bool,
    in_array: bool,
) -> Result<&'a [u8], PrintFault>
    requires { HasFirstType text.now }
    ensures { PrintsFirst result text.entry.now levels annotated in_array (string_bytes to.old) (string_bytes to.new) }
{
    if levels == 0 {
        return Err(PrintFault::Fault(PrintFlaw::TooLarge));
    }
    match Class::of_letter(text[0]).unwrap() {
        Class::Basic(of) => {
            push_basic_default(to, of, annotated)?;
            Ok(after_letter(text))
        }
        Class::Variant => {
            push_variant_default(to, levels)?;
            Ok(after_letter(text))
        }
        Class::Array | Class::Maybe => Ok(push_emptied_first(to, text, annotated)?),
        Class::Tuple => push_tuple_default(to, text, levels, annotated),
        Class::Entry => push_entry_default(to, text, levels, annotated, in_array),
    }
}

/// The text after its first letter.
fn after_letter(text: &[u8]) -> &[u8]
    requires { 0 < length text.now }
    ensures { result.now ≡ drop 1 text.entry.now }
{
    &text[1..]
}

/// Writes the default of the tuple at the start of the text, and answers what comes after the tuple.
#[cycle(defaults)]
fn push_tuple_default<'a>(
    to: &mut String,
    text: &'a [u8],
    levels: u8,
    annotated: bool,
) -> Result<&'a [u8], PrintFault>
    requires first_type { HasFirstType text.now }
    requires kind { class_of (first_type (seen text.now)) ≡ Tuple }
    requires some { 0 < levels }
    ensures { PrintsFirst result text.entry.now levels annotated false (string_bytes to.old) (string_bytes to.new) }
{
    to.push('(')?;
    let inside = after_letter(text);
    if inside[0] == b')' {
        to.push(')')?;
        return Ok(after_letter(inside));
    }
    let mut rest = push_first(to, inside, levels - 1, annotated, false)?;
    if rest[0] == b')' {
        to.push_str(",)")?;
        return Ok(after_letter(rest));
    }
    while rest[0] != b')' {
        rest = push_next(to, rest, levels - 1, annotated)?;
    }
    to.push(')')?;
    Ok(after_letter(rest))
}

/// Writes a comma and then the default of the type at the start of the text, and answers what comes after the type.
#[cycle(defaults)]
#[inline(always)]
fn push_next<'a>(
    to: &mut String,
    text: &'a [u8],
    levels: u8,
    annotated: bool,
) -> Result<&'a [u8], PrintFault>
    requires { HasFirstType text.now }
    ensures { PrintsFirst result text.entry.now levels annotated false (string_bytes to.old ++ comma) (string_bytes to.new) }
{
    match Class::of_letter(text[0]).unwrap() {
        Class::Basic(of) if !annotated && levels > 0 => {
            push_basic_after(to, of)?;
            Ok(after_letter(text))
        }
        _ => {
            to.push_str(", ")?;
            push_first(to, text, levels, annotated, false)
        }
    }
}

/// Writes the default of the entry at the start of the text, and answers what comes after the entry.
#[cycle(defaults)]
fn push_entry_default<'a>(
    to: &mut String,
    text: &'a [u8],
    levels: u8,
    annotated: bool,
    in_array: bool,
) -> Result<&'a [u8], PrintFault>
    requires first_type { HasFirstType text.now }
    requires kind { class_of (first_type (seen text.now)) ≡ Entry }
    requires some { 0 < levels }
    ensures { PrintsFirst result text.entry.now levels annotated in_array (string_bytes to.old) (string_bytes to.new) }
{
    if in_array {
        return push_pair(to, text, levels, ": ", annotated);
    }
    to.push('{')?;
    let rest = push_pair(to, text, levels, ", ", annotated)?;
    to.push('}')?;
    Ok(rest)
}

/// Writes the default key and value of the entry at the start of the text, with `mark` between them, and answers what
/// comes after the entry.
#[cycle(defaults)]
fn push_pair<'a>(
    to: &mut String,
    text: &'a [u8],
    levels: u8,
    mark: &str,
    annotated: bool,
) -> Result<&'a [u8], PrintFault>
    requires first_type { HasFirstType text.now }
    requires kind { class_of (first_type (seen text.now)) ≡ Entry }
    requires some { 0 < levels }
    ensures { MatchResult result
        (λ rest. IsAfterFirst text.entry.now rest.now
        × WritesJoined (default_in text.entry.now) levels mark.now annotated (string_bytes to.old) (string_bytes to.new))
        (IsLevelFault (default_in text.entry.now) levels) }
{
    let value = push_first(to, after_letter(text), levels - 1, annotated, false)?;
    to.push_str(mark)?;
    let rest = push_first(to, value, levels - 1, annotated, false)?;
    Ok(after_letter(rest))
}

/// Writes the default of the array or maybe at the start of the text, and answers what comes after its type.
fn push_emptied_first<'a>(
    to: &mut String,
    text: &'a [u8],
    annotated: bool,
) -> Result<&'a [u8], AllocError>
    requires first_type { HasFirstType text.now }
    requires kind { IsEmptied (first_type (seen text.now)) }
    ensures { IfOk result (λ rest. IsAfterFirst text.entry.now rest.now
        × (string_bytes to.new ≡ string_bytes to.old ++ text_of (default_in text.entry.now) annotated false)) }
{
    let (of, rest) = TypeStr::split_prefix(text).unwrap();
    push_emptied(to, of, annotated)?;
    Ok(rest)
}

/// Writes an array without elements, or Nothing, after its type if it is annotated.
fn push_emptied(to: &mut String, of: TypeStr<'_>, annotated: bool) -> Result<(), AllocError>
    requires { IsEmptied (ty of) }
    ensures { OnOk result (string_bytes to.new ≡ string_bytes to.old ++ text_of (default (ty of.entry)) annotated false) }
{
    if annotated {
        push_type_mark(to, of)?;
    }
    if let Class::Maybe = of.class() {
        return to.push_str("nothing");
    }
    let (left, right) = brackets(of);
    to.push(left)?;
    to.push(right)
}

/// Writes the default of a variant, which has two levels.
fn push_variant_default(to: &mut String, levels: u8) -> Result<(), PrintFault>
    ensures { Prints result (default variant) levels true false (string_bytes to.old) (string_bytes to.new) }
{
    if levels < 2 {
        return Err(PrintFault::Fault(PrintFlaw::TooLarge));
    }
    Ok(to.push_str("<()>")?)
}

/// Writes the default of a basic type, after the type's word if it is annotated.
fn push_basic_default(to: &mut String, of: BasicType, annotated: bool) -> Result<(), PrintFault>
    ensures { Prints result (basic_default (basic_of of)) 1 annotated false (string_bytes to.old) (string_bytes to.new) }
{
    let Some((figures, _)) = default_figures(of) else {
        return Err(PrintFault::Fault(PrintFlaw::DoubleText));
    };
    if annotated {
        push_word(to, of)?;
    }
    Ok(to.push_str(figures)?)
}

/// Writes a comma and then the default of a basic type, in one piece.
#[inline(always)]
fn push_basic_after(to: &mut String, of: BasicType) -> Result<(), PrintFault>
    ensures { Prints result (basic_default (basic_of of)) 1 false false (string_bytes to.old ++ comma) (string_bytes to.new) }
{
    let Some((_, after_comma)) = default_figures(of) else {
        return Err(PrintFault::Fault(PrintFlaw::DoubleText));
    };
    Ok(to.push_str(after_comma)?)
}

/// The text of a basic type's default, by itself and behind a comma, or None for a double.
#[inline(always)]
fn default_figures(of: BasicType) -> Option<(&'static str, &'static str)>
    ensures { MatchOption result (holds_double (basic_default (basic_of of)) ≡ true) (λ r. AreFigures (basic_of of) r.0.now r.1.now) }
{
    match of {
        BasicType::Boolean => Some(("false", ", false")),
        BasicType::Byte => Some(("0x00", ", 0x00")),
        BasicType::Text | BasicType::Signature => Some(("''", ", ''")),
        BasicType::ObjectPath => Some(("'/'", ", '/'")),
        BasicType::Double => None,
        _ => Some(("0", ", 0")),
    }
}
