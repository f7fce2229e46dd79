//! Values as C reads them: by the letter of a type, as a text, and part by part; and values of texts.
use crate::table::TableOf;
use dconfdb_values::{DconfdbPart, child, lookup, n_children, number, text, value_of_text};
use std::alloc::Global;
use std::fmt::Write;
use std::test::Fail;
use test_rows::{bytes_of, table};

/// What a part is, as its type's text and its first byte.
fn head<'a>(part: Option<DconfdbPart<'a>>) -> Option<(&'a str, u8)> {
    let part = part?;
    Some((str::from_utf8(part.type_text).ok()?, *part.value.first()?))
}

/// Pushes the children at three indices, asked for one after the other, and how many of the first are known to be in order by then.
fn push_walk(to: &mut String, indices: &str, of: &[u8], bytes: &[u8]) -> Result<(), Fail> {
    let (first, others) = indices.split_once(' ').unwrap_or((indices, ""));
    let (second, third) = others.split_once(' ').unwrap_or((others, ""));
    let mut passed = 0;
    let found = head(child(of, bytes, first.parse()?, &mut passed));
    write!(to, "{:?} {};", found, passed)?;
    let found = head(child(of, bytes, second.parse()?, &mut passed));
    write!(to, "{:?} {};", found, passed)?;
    let found = head(child(of, bytes, third.parse()?, &mut passed));
    write!(to, "{:?} {};", found, passed)?;
    Ok(())
}

/// Pushes what is read of a type's bytes.
fn push_answer(to: &mut String, asked: &str, of: &[u8], bytes: &[u8]) -> Result<(), Fail> {
    let (asked, which) = asked.split_once(' ').unwrap_or((asked, ""));
    let letter = which.bytes().next().unwrap_or(0);
    match asked {
        "number" => write!(to, "{:?}", number(of, bytes, letter))?,
        "text" => write!(to, "{:?}", text(of, bytes))?,
        "children" => write!(to, "{}", n_children(of, bytes))?,
        "child" => push_walk(to, which, of, bytes)?,
        _ => write!(to, "{:?}", head(lookup(of, bytes, which)))?,
    }
    Ok(())
}

/// Pushes what is read of a type and the words of its bytes, which stand after what is asked.
pub(crate) fn push_typed(alloc: Global, to: &mut String, line: &str) -> Result<(), Fail> {
    let (asked, value) = line.split_once(": ").unwrap_or((line, ""));
    let (of, words) = value.split_once(' ').unwrap_or((value, ""));
    let bytes = bytes_of(alloc, words)?;
    push_answer(to, asked, of.as_bytes(), bytes.as_slice())
}

/// Three bytes are no `i`, so they are read as its default. Of two values of a key the first is found. An entry ends in the offset of
/// its key, and what is no path is read as `/`.
const TYPED: &str = r#"
    number b: b 05 | Some(1)
    number y: y ff | Some(255)
    number n: n ff ff | Some(65535)
    number q: q ff ff | Some(65535)
    number i: i ff ff ff ff | Some(4294967295)
    number u: u ff ff ff ff | Some(4294967295)
    number x: x ff ff ff ff ff ff ff ff | Some(18446744073709551615)
    number t: t 01 02 00 00 00 00 00 00 | Some(513)
    number d: d 00 00 00 00 00 00 f0 3f | Some(4607182418800017408)
    number i: h 03 00 00 00 | Some(3)
    number i: i ff ff ff | Some(0)
    number i: u ff ff ff ff | None
    number h: i ff ff ff ff | None
    number s: s 'a' 00 | None
    number i: ii ff ff ff ff ff ff ff ff | None
    number i:  ff ff ff ff ff ff ff ff | None
    text: s 'desk' 00 | Some("desk")
    text: o 'no' 20 'path' 00 | Some("/")
    text: g 'a{sv}' 00 | Some("a{sv}")
    text: s 'no' 20 'end' | Some("")
    text: as | None
    children: (yq) 07 00 09 00 | 2
    children: yq 07 00 09 00 | 0
    children: i 07 00 09 00 | 0
    child 0 1 2: (yq) 07 00 09 00 | Some(("y", 7)) 0;Some(("q", 9)) 0;None 0;
    child 0 1 2:  07 00 09 00 | None 0;None 0;None 0;
    child 0 1 0: v 05 00 'y' | Some(("y", 5)) 0;None 0;Some(("y", 5)) 0;
    child 1 0 2: ay 05 06 | Some(("y", 6)) 0;Some(("y", 5)) 0;None 0;
    child 0 1 2: as 'one' 00 'two' 00 'six' 00 04 08 0c | Some(("s", 111)) 1;Some(("s", 116)) 2;Some(("s", 115)) 3;
    child 2 0 3: as 'one' 00 'two' 00 'six' 00 04 08 0c | Some(("s", 115)) 3;Some(("s", 111)) 3;None 3;
    child 2 1 0: as 'one' 00 'two' 00 'six' 00 04 03 0c | None 1;None 1;Some(("s", 111)) 1;
    child 0 2 1: as 'one' 00 'two' 00 'six' 00 0d 08 0c | None 0;None 0;None 0;
    child 0 1 2: as 'one' 00 05 | None 0;None 0;None 0;
    key a: a{sy} 'a' 00 01 02 'b' 00 02 02 'a' 00 03 02 04 08 0c | Some(("y", 1))
    key b: a{sy} 'a' 00 01 02 'b' 00 02 02 'a' 00 03 02 04 08 0c | Some(("y", 2))
    key c: a{sy} 'a' 00 01 02 'b' 00 02 02 'a' 00 03 02 04 08 0c | None
    key a: ay 'a' 00 01 02 'b' 00 02 02 'a' 00 03 02 04 08 0c | None
    key /b: a{oy} '/b' 00 01 03 'no' 20 'path' 00 02 08 05 0f | Some(("y", 1))
    key /: a{oy} '/b' 00 01 03 'no' 20 'path' 00 02 08 05 0f | Some(("y", 2))
    key no path: a{oy} '/b' 00 01 03 'no' 20 'path' 00 02 08 05 0f | None
    key /b: ao '/b' 00 01 03 'no' 20 'path' 00 02 08 05 0f | None
"#;

/// Pushes the size of a text's value and its bytes, and those of its type after them; or the number of its fault, and its place. For
/// `NO_TEXT` stands a byte that is no UTF-8.
pub(crate) fn push_handed(alloc: Global, to: &mut String, text: &str) -> Result<(), Fail> {
    let bytes: &[u8] = match text {
        "NO_TEXT" => b"\xff",
        _ => text.as_bytes(),
    };
    match value_of_text(alloc, bytes) {
        Ok(value) => write!(to, "{} {:?}", value.size, value.block)?,
        Err(why) => {
            let place = why.place();
            write!(to, "{} at {}..{}", why.number(), place.start, place.end)?
        }
    }
    Ok(())
}

const HANDED: &str = r"
    NO_TEXT | 8 at 0..0
    5 | 4 [5, 0, 0, 0, 105]
    'desk' | 5 [100, 101, 115, 107, 0, 115]
    ['a', 'b'] | 6 [97, 0, 98, 0, 2, 4, 97, 115]
    @as [] | 0 [97, 115]
    <byte 7> | 3 [7, 0, 121, 118]
    1.5 | 19 at 0..3
    @d 5 | 19 at 0..0
    oops | 32 at 0..4
    [1, (2, | 33 at 4..5
    '\u12' | 34 at 1..5
    (1 2) | 35 at 3..4
    [1, 'a'] | 36 at 0..0
    [] | 37 at 0..0
    byte 256 | 38 at 0..0
    objectpath 'a' | 39 at 0..0
    signature 'a{vs}' | 40 at 0..0
";

#[test]
fn values_are_read_as_c_reads_them(rt: HostRuntime) -> Result<(), Fail> {
    let alloc = rt.alloc();
    table(alloc, &mut TableOf::Typed, TYPED)?;
    table(alloc, &mut TableOf::Handed, HANDED)
}
