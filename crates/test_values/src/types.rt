//! Types by example: what each kind is made of, and which texts are object paths and signatures.
use crate::table::TableOf;
use gv_layout::fixed_size;
use gv_text::TypeText;
use gv_types::{BasicType, Class, Members, TypeStr, is_object_path, is_signature};
use std::alloc::Global;
use std::fmt::Write;
use std::test::Fail;
use test_rows::table;

/// Pushes the letters of the members of basic types, and the texts of the others, a space before each.
fn push_members(to: &mut String, of: TypeStr<'_>) -> Result<(), Fail> {
    let mut members = of.members();
    for _ in 0..of.as_str().len() {
        if let Some(of) = members.next_basic() {
            to.push_str(of.letter())?;
        } else if let Some(of) = members.next() {
            write!(to, " {}", of.as_str())?;
        }
    }
    Ok(())
}

/// Pushes the members of a type, then after a slash those of the first member, and so on.
fn push_descent(to: &mut String, outermost: TypeStr<'_>) -> Result<(), Fail> {
    let mut of = outermost;
    for _ in 0..6 {
        push_members(to, of)?;
        match of.members().next() {
            Some(member) => of = member,
            None => break,
        }
        to.push('/')?;
    }
    Ok(())
}

/// Pushes the letter of a basic type, its word and its size, and whether it is a number, and a text.
fn push_spelling(to: &mut String, of: BasicType) -> Result<(), Fail> {
    let (letter, keyword, size) = (of.letter(), of.keyword(), of.size());
    let (is_number, is_text) = (of.is_number(), of.is_text());
    write!(to, "{letter} {keyword} {size:?} {is_number} {is_text}")?;
    Ok(())
}

/// Pushes the class of a type, its element and its key; and after a colon what the basic type is, or the members.
fn push_parts(to: &mut String, of: TypeStr<'_>) -> Result<(), Fail> {
    let class = of.class();
    let element = of.element().map(TypeStr::as_str).unwrap_or("-");
    let key = of.key().map(TypeStr::as_str).unwrap_or("-");
    write!(to, "{class:?} {element} {key}:")?;
    match class {
        Class::Basic(of) => push_spelling(to, of),
        _ => push_descent(to, of),
    }
}

/// Whether the calls for one thing say the same of a type.
fn is_told_alike(of: TypeStr<'_>) -> bool {
    let (members, first) = (of.members(), of.as_str().as_bytes().first().copied());
    first.and_then(Class::of_letter) == Some(of.class())
        && of.is_basic() == matches!(of.class(), Class::Basic(_))
        && Members::is_empty(&members) == of.members().next().is_none()
}

/// The type at the start of the bytes, read once more by itself, and how many bytes follow it.
fn split(bytes: &[u8]) -> Option<(&str, usize)> {
    let (of, rest) = TypeStr::split_prefix(bytes)?;
    let whole = TypeStr::of_bytes(of.as_str().as_bytes())?;
    Some((whole.as_str(), rest.len()))
}

/// Pushes how many bytes follow the type at the start of the text, and its parts.
pub(crate) fn push_type(to: &mut String, text: &str) -> Result<(), Fail> {
    match (TypeStr::prefix_of(text), split(text.as_bytes())) {
        (Some(of), Some((cut, rest))) if of.as_str() == cut && is_told_alike(of) => {
            write!(to, "{rest} ")?;
            push_parts(to, of)
        }
        (None, None) => Ok(to.push_str("none")?),
        _ => Err(Fail::new("two calls differ")),
    }
}

/// Pushes 0, and the parts of the copy of a type as it is where it was read.
pub(crate) fn push_copied(alloc: Global, to: &mut String, text: &str) -> Result<(), Fail> {
    let copy = TypeText::copy(alloc, TypeStr::parse(text)?)?;
    to.push_str("0 ")?;
    push_parts(to, copy.as_type().as_read())
}

/// Whether the type is known to be open, and has this text.
fn is_open(of: TypeStr<'_>, text: &str) -> bool {
    of.is_known_open() && of.as_str() == text
}

/// Whether the first member is known to be open.
fn first_is_open(of: TypeStr<'_>) -> Option<bool> {
    of.members().next().map(TypeStr::is_known_open)
}

/// Whether a member inherits what is known of a type.
fn is_inherited(pair: TypeStr<'_>) -> bool {
    let first = pair.members().next().unwrap_or(pair);
    let open = match fixed_size(first) {
        None => first.as_open(),
        Some(_) => first,
    };
    is_open(open, "((as))")
        && is_open(open.as_read(), "((as))")
        && first_is_open(open) == Some(true)
        && first_is_open(first) == Some(false)
}

/// Tuples of one member, which lie in one another, are the last of these.
const TYPES: &str = r"
    b | 0 Basic(Boolean) - -:b boolean Some(1) false false
    y | 0 Basic(Byte) - -:y byte Some(1) true false
    n | 0 Basic(Int16) - -:n int16 Some(2) true false
    q | 0 Basic(Uint16) - -:q uint16 Some(2) true false
    i | 0 Basic(Int32) - -:i int32 Some(4) true false
    u | 0 Basic(Uint32) - -:u uint32 Some(4) true false
    x | 0 Basic(Int64) - -:x int64 Some(8) true false
    t | 0 Basic(Uint64) - -:t uint64 Some(8) true false
    h | 0 Basic(Handle) - -:h handle Some(4) true false
    d | 0 Basic(Double) - -:d double Some(8) true false
    s | 0 Basic(Text) - -:s string None false true
    o | 0 Basic(ObjectPath) - -:o objectpath None false true
    g | 0 Basic(Signature) - -:g signature None false true
    v | 0 Variant - -:
    as | 0 Array s -:
    aay | 0 Array ay -:
    a{sv} | 0 Array {sv} -:
    aa{sv} | 0 Array a{sv} -:
    mv | 0 Maybe v -:
    m(ii) | 0 Maybe (ii) -:
    () | 0 Tuple - -:
    (()) | 0 Tuple - -: ()/
    (ii) | 0 Tuple - -:ii/
    (ay) | 0 Tuple - -: ay/
    ((i)(sv)) | 0 Tuple - -: (i) (sv)/i/
    (a{ya(dx)}mmn()q) | 0 Tuple - -: a{ya(dx)} mmn ()q/
    (ybs(i)d) | 0 Tuple - -:ybs (i)d/
    (nqiuxthdog) | 0 Tuple - -:nqiuxthdog/
    {sv} | 0 Entry - s:s v/
    {gv} | 0 Entry - g:g v/
    {s(ybv)} | 0 Entry - s:s (ybv)/
    {g{oh}} | 0 Entry - g:g {oh}/
    (s) | 0 Tuple - -:s/
    ((i)) | 0 Tuple - -: (i)/i/
    (((s))) | 0 Tuple - -: ((s))/ (s)/s/
    (((()))) | 0 Tuple - -: ((()))/ (())/ ()/
    (((sy))) | 0 Tuple - -: ((sy))/ (sy)/sy/
    (((s)y)) | 0 Tuple - -: ((s)y)/ (s)y/s/
    (y((s))) | 0 Tuple - -:y ((s))/
    (((s)(y))) | 0 Tuple - -: ((s)(y))/ (s) (y)/s/
    ((a((s)))) | 0 Tuple - -: (a((s)))/ a((s))/
    (((v){sv})) | 0 Tuple - -: ((v){sv})/ (v) {sv}/ v/
";

const PREFIXES: &str = r"
    s | 0 Basic(Text) - -:s string None false true
    i | 0 Basic(Int32) - -:i int32 Some(4) true false
    a{sv}i | 1 Array {sv} -:
    a{sv}{} | 2 Array {sv} -:
    ayb'x' | 4 Array y -:
    (ss)( | 1 Tuple - -:ss/
    | none
    @{1: }i | none
    (s | none
    {vs} | none
";

#[test]
fn types_are_taken_apart(rt: HostRuntime) -> Result<(), Fail> {
    let alloc = rt.alloc();
    table(alloc, &mut TableOf::Type, TYPES)?;
    table(alloc, &mut TableOf::Type, PREFIXES)?;
    table(alloc, &mut TableOf::CopiedType, TYPES)?;
    let inherited = is_inherited(TypeStr::parse("(((as))y)")?);
    assert!(rt; inherited && split(b"a{sv}i\xff") == Some(("a{sv}", 2)));
    assert!(rt; Class::of_letter(b')').is_none() && Class::of_letter(b'r').is_none());
    assert!(rt; is_object_path("/a/b_9") && !is_object_path("/a\0"));
    assert!(rt; is_signature("v{yv}") && !is_signature("mi"));
    Ok(())
}
