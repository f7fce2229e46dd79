//! Alignments and sizes of types (GVariant Specification, "Alignment", "Fixed Size", "Framing Offsets").
ghost use Rattle.std.specs.Prelude.{◌≡◌, ◌<◌, ◌≤◌, ◌+◌, ◌^◌, None, IfSome, length, drop, option_and_then, option_map};
ghost use Rattle.std.specs.List.{list_any};
ghost use Rattle.gv_model.specs.Layout.{basic_size, or_one, alignment, fixed_size, padded, round_up, offset_width};
ghost use Rattle.gv_model.specs.Encode.{least_width};
ghost use Rattle.gv_model.specs.Limits.{limit};
ghost use Rattle.gv_model.specs.TypeText.{seen};
ghost use Rattle.gv_types.specs.Classes.{basic_of, class_of};
ghost use Rattle.gv_types.specs.declared.class.Class.TheVariants.{Tuple, Entry};
ghost use Rattle.gv_types.specs.FirstTypes.{HasFirstType, first_type};
ghost use Rattle.gv_types.specs.TypeStr.{ty};
ghost use Rattle.gv_layout.specs.TypesAt.{IsInfoAt};
ghost use Rattle.gv_layout.specs.Letters.{letter_alignment, is_aligned_letter, is_open_letter};

use gv_types::{BasicType, Class, TypeStr};

/// The number of bytes that the start of a value of this type is a multiple of: 1, 2, 4 or 8.
///
/// It is the greatest of the letters' in the type's text, which is looked at three times at most.
pub fn alignment(of: TypeStr<'_>) -> u8
    ensures { result ≡ alignment (ty of.entry) }
{
    let text = of.as_str().as_bytes();
    if has_aligned_letter(text, 8) {
        return 8;
    }
    if has_aligned_letter(text, 4) {
        return 4;
    }
    if has_aligned_letter(text, 2) {
        return 2;
    }
    1
}

/// Whether a letter of the text is of a type that is aligned to so many bytes, or to more.
fn has_aligned_letter(text: &[u8], to: u8) -> bool
    ensures { result ≡ list_any (is_aligned_letter to) text.now }
{
    text.iter().any(|letter| letter_alignment(*letter) >= to)
}

/// What the starts of values of a letter's type are multiples of, 1 at a bracket, `a` and `m`.
fn letter_alignment(letter: u8) -> u8
    ensures { result ≡ letter_alignment letter }
{
    match letter {
        b'd' | b't' | b'v' | b'x' => 8,
        b'h' | b'i' | b'u' => 4,
        b'n' | b'q' => 2,
        _ => 1,
    }
}

/// The number of bytes of each value of this type, or None where they differ in it.
///
/// It looks at the first letter of the type's text. Of a tuple or an entry that is not known to have none it looks at the letters
/// as far as to the first of a type that has none, and where there is none it walks the text once more.
#[inline(always)]
pub fn fixed_size(of: TypeStr<'_>) -> Option<usize>
    ensures { result ≡ fixed_size (ty of.entry) }
{
    if of.is_known_open() {
        return None;
    }
    match of.class() {
        Class::Basic(basic) => basic_info(basic).size,
        Class::Variant | Class::Array | Class::Maybe => None,
        Class::Tuple | Class::Entry if has_open_letter(of.as_str().as_bytes()) => None,
        Class::Tuple | Class::Entry => info_at(of.as_str().as_bytes()).info.size,
    }
}

/// Whether a letter of the text is of a type that has no fixed size.
fn has_open_letter(text: &[u8]) -> bool
    ensures { result ≡ list_any is_open_letter text.now }
{
    text.iter().any(|letter| is_open_letter(*letter))
}

/// Whether types that begin with this letter have no fixed size.
fn is_open_letter(letter: u8) -> bool
    ensures { result ≡ is_open_letter letter }
{
    matches!(letter, b'a' | b'g' | b'm' | b'o' | b's' | b'v')
}

/// The width in bytes of each framing offset of a container of this many bytes: 0, 1, 2, 4 or 8.
#[tactic(auto, unfolding(gv_model::specs::Layout::offset_width))]
pub fn offset_width(len: usize) -> u8
    ensures { result ≡ offset_width len }
{
    match len {
        0 => 0,
        1..=0xff => 1,
        0x100..=0xffff => 2,
        0x1_0000..=0xffff_ffff => 4,
        _ => 8,
    }
}

/// The least width that serves for so many framing offsets after a body of so many bytes.
#[tactic(auto, unfolding(gv_model::specs::Encode::least_width))]
pub fn least_width(body: usize, count: usize) -> usize
    requires room { body + count ≤ limit }
    ensures width { result ≡ least_width body count }
    ensures within { result ≤ 8 }
{
    if body + count <= 0xff {
        1
    } else if body + 2 * count <= 0xffff {
        2
    } else if body + 4 * count <= 0xffff_ffff {
        4
    } else {
        8
    }
}

/// What the starts of a type's values are multiples of, and how many bytes each value has, or None where they
/// differ in it.
#[derive(Clone, Copy, Debug, PartialEq, Eq)]
pub struct TypeInfo {
    pub alignment: u8,
    pub size: Option<usize>,
}

/// The layout of a type: its alignment and its size together.
///
/// Of a type that has no fixed size it looks at the letters alone. Of any other it walks the text once more.
#[inline(always)]
pub fn type_info(of: TypeStr<'_>) -> TypeInfo
    ensures alignment { result.alignment ≡ alignment (ty of.entry) }
    ensures size { result.size ≡ fixed_size (ty of.entry) }
{
    match of.class() {
        Class::Basic(basic) => basic_info(basic),
        Class::Variant | Class::Array | Class::Maybe => open_info(of),
        Class::Tuple | Class::Entry if has_open_letter(of.as_str().as_bytes()) => open_info(of),
        Class::Tuple | Class::Entry => info_at(of.as_str().as_bytes()).info,
    }
}

/// The layout of a type that has no fixed size.
fn open_info(of: TypeStr<'_>) -> TypeInfo
    requires { fixed_size (ty of) ≡ None }
    ensures alignment { result.alignment ≡ alignment (ty of.entry) }
    ensures size { result.size ≡ None }
{
    TypeInfo {
        alignment: alignment(of),
        size: None,
    }
}

/// The layout of a basic type: a number is aligned to its size, a text not at all.
fn basic_info(of: BasicType) -> TypeInfo
    ensures alignment { result.alignment ≡ or_one (basic_size (basic_of of)) }
    ensures size { result.size ≡ basic_size (basic_of of) }
{
    let size = of.size();
    TypeInfo {
        alignment: size.unwrap_or(1),
        size: size.map(usize::from),
    }
}

/// The layout of the type at the start of a text, and the text after the type.
#[derive(Clone, Copy, Debug)]
struct InfoAt<'a> {
    info: TypeInfo,
    rest: &'a [u8],
}

/// The layout of the type at the start of a text. It looks at each byte of the type once.
#[cycle(infos)]
fn info_at(text: &[u8]) -> InfoAt<'_>
    requires { HasFirstType text.now }
    ensures { IsInfoAt text.entry.now result.info.alignment result.info.size result.rest.now }
{
    match Class::of_letter(text[0]).unwrap() {
        Class::Basic(basic) => InfoAt {
            info: basic_info(basic),
            rest: after_letter(text),
        },
        Class::Variant | Class::Array | Class::Maybe => {
            let (of, rest) = TypeStr::split_prefix(text).unwrap();
            InfoAt {
                info: open_info(of),
                rest,
            }
        }
        Class::Tuple => tuple_at(text),
        Class::Entry => entry_at(text),
    }
}

/// The layout of the tuple at the start of a text: that of its members one after the other.
#[cycle(infos)]
fn tuple_at(text: &[u8]) -> InfoAt<'_>
    requires first_type { HasFirstType text.now }
    requires kind { class_of (first_type (seen text.now)) ≡ Tuple }
    ensures { IsInfoAt text.entry.now result.info.alignment result.info.size result.rest.now }
{
    let mut rest = after_letter(text);
    let mut alignment: u8 = 1;
    let mut end = Some(0);
    while rest[0] != b')' {
        let member = info_at(rest);
        alignment = alignment.max(member.info.alignment);
        end = end_after(end, member.info);
        rest = member.rest;
    }
    let size = padded(end, alignment);
    InfoAt {
        info: TypeInfo { alignment, size },
        rest: after_letter(rest),
    }
}

/// The layout of the entry at the start of a text: that of its key and its value one after the other.
#[cycle(infos)]
fn entry_at(text: &[u8]) -> InfoAt<'_>
    requires first_type { HasFirstType text.now }
    requires kind { class_of (first_type (seen text.now)) ≡ Entry }
    ensures { IsInfoAt text.entry.now result.info.alignment result.info.size result.rest.now }
{
    let key = info_at(after_letter(text));
    let value = info_at(key.rest);
    let alignment = key.info.alignment.max(value.info.alignment);
    let key_end = end_after(Some(0), key.info);
    let size = padded(end_after(key_end, value.info), alignment);
    InfoAt {
        info: TypeInfo { alignment, size },
        rest: after_letter(value.rest),
    }
}

/// The text after its first letter.
fn after_letter(text: &[u8]) -> &[u8]
    requires { 0 < length text.now }
    ensures { result.now ≡ drop 1 text.entry.now }
{
    &text[1..]
}

/// Where a member ends that comes after one that ends there, if both ends are known.
fn end_after(end: Option<usize>, member: TypeInfo) -> Option<usize>
    requires aligned { 0 < member.alignment }
    requires fits { IfSome end (λ p. IfSome member.size (λ s. p + s + member.alignment < 2 ^ 64)) }
    ensures { result ≡ option_and_then (λ p. option_map (λ s. round_up member.alignment p + s) member.size) end }
{
    let (end, size) = (end?, member.size?);
    Some(round_up(end, member.alignment) + size)
}

/// The size of members that end there, if their end is known: padded at the end, and one byte for none at all.
fn padded(end: Option<usize>, alignment: u8) -> Option<usize>
    requires aligned { 0 < alignment }
    requires fits { IfSome end (λ p. p + alignment < 2 ^ 64) }
    ensures { result ≡ padded alignment end }
{
    Some(round_up(end?, alignment).max(1))
}

/// Where a value of this type begins that comes after so many bytes: the first place from there on that is aligned for it.
///
/// At 0 any type is, so there it looks at no byte of the type's text.
pub fn aligned_after(end: usize, of: TypeStr<'_>) -> usize
    requires fits { end + 8 < 2 ^ 64 }
    ensures { result ≡ round_up (alignment (ty of.entry)) end }
{
    if end == 0 {
        return 0;
    }
    round_up(end, alignment(of))
}

/// The first multiple of an alignment from a place on.
#[tactic(auto, unfolding(gv_model::specs::Layout::round_up))]
pub fn round_up(place: usize, alignment: u8) -> usize
    requires aligned { 0 < alignment }
    requires fits { place + alignment < 2 ^ 64 }
    ensures rounded { result ≡ round_up alignment place }
    ensures near { (place ≤ result) × (result < place + alignment) }
{
    let alignment = usize::from(alignment);
    (place + (alignment - 1)) / alignment * alignment
}
