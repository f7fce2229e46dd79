//! Views by example: what bytes are at basic types, what a key leads to, and what a variant holds.
use crate::table::TableOf;
use gv_types::TypeStr;
use gv_view::{View, held_in_variant, parts_are_lent, text_in, utf8_of};
use std::fmt::Write;
use std::test::Fail;
use test_rows::table;

/// The number that the one call for a view's type reads, and the first of several that read one.
fn number(of: View<'_>) -> Option<i128> {
    let bits = of.as_bool().map(i128::from).or(of.as_u8().map(i128::from));
    let narrow = of.as_i16().map(i128::from).or(of.as_u16().map(i128::from));
    let signed = of.as_i32().map(i128::from).or(of.as_i64().map(i128::from));
    let unsigned = of.as_u32().map(i128::from).or(of.as_u64().map(i128::from));
    let handle = of.as_handle().map(i128::from);
    bits.or(narrow).or(signed).or(unsigned).or(handle)
}

/// Pushes the number, the text, the bytes and the bits of a double that a view reads.
pub(crate) fn push_read(to: &mut String, of: View<'_>) -> Result<(), Fail> {
    let (number, text, bytes) = (number(of), of.as_str(), of.as_bytes());
    write!(
        to,
        "{number:?} {text:?} {bytes:?} {:?}",
        of.as_double_bits()
    )?;
    Ok(())
}

/// A double is its bits.
const READ: &str = r#"
    b 00 | Some(0) None None None
    b 01 | Some(1) None None None
    b 05 | Some(1) None None None
    b 01 00 | Some(0) None None None
    y ff | Some(255) None None None
    y | Some(0) None None None
    n 00 80 | Some(-32768) None None None
    n ff 7f | Some(32767) None None None
    n ff ff | Some(-1) None None None
    n 05 | Some(0) None None None
    q 00 00 | Some(0) None None None
    q ff ff | Some(65535) None None None
    q 01 02 | Some(513) None None None
    q 05 | Some(0) None None None
    i 00 00 00 80 | Some(-2147483648) None None None
    i ff ff ff 7f | Some(2147483647) None None None
    i 01 02 03 | Some(0) None None None
    i 05 | Some(0) None None None
    h ff ff ff ff | Some(-1) None None None
    h 01 02 03 | Some(0) None None None
    u 01 02 03 04 | Some(67305985) None None None
    u ff ff ff ff | Some(4294967295) None None None
    u 01 01 01 01 01 | Some(0) None None None
    x 00 00 00 00 00 00 00 80 | Some(-9223372036854775808) None None None
    x ff ff ff ff ff ff ff ff | Some(-1) None None None
    x 01 01 01 01 01 01 01 | Some(0) None None None
    t 01 02 03 04 05 06 07 08 | Some(578437695752307201) None None None
    t ff ff ff ff ff ff ff ff | Some(18446744073709551615) None None None
    t 01 01 01 01 01 01 01 01 01 | Some(0) None None None
    t 00 00 00 00 00 00 f0 '?' | Some(4607182418800017408) None None None
    d 00 00 00 00 00 00 f0 '?' | None None None Some([0, 0, 0, 0, 0, 0, 240, 63])
    d 00 00 00 00 00 00 f8 '?' | None None None Some([0, 0, 0, 0, 0, 0, 248, 63])
    d 01 01 01 01 01 01 01 01 01 | None None None Some([0, 0, 0, 0, 0, 0, 0, 0])
    s 'hi' 00 | None Some("hi") None None
    s c3 a9 00 | None Some("é") None None
    s | None Some("") None None
    s 'hi' | None Some("") None None
    s 'h' 00 'i' 00 | None Some("") None None
    s 'hi' 00 00 | None Some("") None None
    s ff 00 | None Some("") None None
    o '/a/b_9' 00 | None Some("/a/b_9") None None
    o 'a' 00 | None Some("/") None None
    o '/a' 00 '/b' 00 | None Some("/") None None
    o '/' ff 00 | None Some("/") None None
    o '/a' | None Some("/") None None
    g 'a{sv}' 00 | None Some("a{sv}") None None
    g 'asi' 00 | None Some("asi") None None
    g 'mi' 00 | None Some("") None None
    g 'i' 00 'i' 00 | None Some("") None None
    g | None Some("") None None
    ay 'hi' 00 | None None Some([104, 105, 0]) None
    ay 01 00 ff | None None Some([1, 0, 255]) None
    my 01 00 ff | None None None None
    aay 01 00 ff | None None None None
    ab 01 00 ff | None None None None
    y 01 00 ff | Some(0) None None None
    s 01 00 ff | None Some("") None None
    (y) 01 00 ff | None None None None
"#;

/// Pushes the text before the one zero byte of the view's bytes, and the text that they all are.
pub(crate) fn push_texts(to: &mut String, of: View<'_>) -> Result<(), Fail> {
    let (text, whole) = (text_in(of.bytes()), utf8_of(of.bytes()));
    write!(to, "{text:?} {whole:?}")?;
    Ok(())
}

const TEXTS: &str = r#"
    s 'hi' 00 | Some("hi") Some("hi\0")
    s 00 | Some("") Some("\0")
    s 'hi' | None Some("hi")
    s 'h' 00 'i' 00 | None Some("h\0i\0")
    s ff 00 | None None
    s c3 a9 | None Some("é")
    s c3 | None None
"#;

const PAIRS: &[u8] = b"a\0\0\0\x01\0\0\0\x02\0\0\0a\0\0\0\x02\0\0\0\x02\x09\x15";

const BYTES: &[u8] = b"a\0\x01\x02bc\0\x02\x03\x04\x09";

/// The number that a key leads to in bytes of this type.
fn keyed(of: &str, bytes: &[u8], key: &str) -> Option<i128> {
    let of = TypeStr::of_bytes(of.as_bytes())?;
    number(View::new(of, bytes).entry(key)?)
}

/// Whether a key leads to the first of its values in an array of pairs by texts, and nowhere at other types.
fn keys_are_right() -> bool {
    let rows = [
        ("a{si}", "a", Some(1)),
        ("a{si}", "b", None),
        ("a{si}", "", None),
        ("a{si}", "aa", None),
        ("a{is}", "a", None),
        ("a(si)", "a", None),
        ("as", "a", None),
        ("s", "a", None),
    ];
    let mut wrong = keyed("a{sy}", BYTES, "bc") != Some(2);
    for (of, key, wanted) in rows {
        wrong |= keyed(of, PAIRS, key) != wanted;
    }
    !wrong
}

/// Whether two views are of one type and the same bytes.
pub(crate) fn is_same(one: View<'_>, other: View<'_>) -> bool {
    one.type_str().as_str() == other.type_str().as_str() && one.bytes() == other.bytes()
}

/// The type and the bytes of what a variant of these bytes holds, where all calls say the same: `()` and none where they name no type.
fn held(bytes: &[u8]) -> Option<(&str, &[u8])> {
    let variant = View::new(TypeStr::of_bytes(b"v")?, bytes);
    let (child, walked) = (variant.child(0)?, variant.children().next()?);
    let held = held_in_variant(bytes).unwrap_or(child);
    if is_same(held, View::of_variant(bytes)) && is_same(held, child) && is_same(held, walked) {
        Some((held.type_str().as_str(), held.bytes()))
    } else {
        None
    }
}

#[test]
fn numbers_are_read_and_texts_are_lent(rt: HostRuntime) -> Result<(), Fail> {
    parts_are_lent();
    table(rt.alloc(), &mut TableOf::Read, READ)?;
    table(rt.alloc(), &mut TableOf::Texts, TEXTS)?;
    let (whole, short, none) = (held(b"\x05\0\0\0\0i"), held(b"\x05\0i"), held(b"i"));
    assert!(rt;
        whole == Some(("i", b"\x05\0\0\0".as_slice())) && short == Some(("i", b"\x05".as_slice()))
    );
    assert!(rt; none == Some(("()", b"".as_slice())) && held_in_variant(b"\x05\0ii").is_none());
    assert!(rt; held_in_variant(b"\x05\0i").and_then(number) == Some(0) && keys_are_right());
    Ok(())
}
