//! How types are laid out, by example: alignments and sizes, the width of framing offsets, and
//! where the children of containers lie, also in bytes that are not in normal form.
use crate::table::TableOf;
use crate::views::is_same;
use gv_layout::{
    Place, aligned_after, alignment, fixed_size, is_true, least_width, member_bounds, n_children,
    number, offset_width, place_of, places, round_up, type_info,
};
use gv_types::{Class, Members, TypeStr};
use gv_view::View;
use std::fmt::Write;
use std::test::Fail;
use test_rows::table;

/// Pushes, of `u after 1`, the alignment and the size of `u`, and the place of its value behind
/// another's end.
pub(crate) fn push_layout(to: &mut String, text: &str) -> Result<(), Fail> {
    let Some((of, end)) = text.split_once(" after ") else {
        return Err(Fail::new("a line without an end"));
    };
    let of = TypeStr::parse(of)?;
    let end: u8 = end.parse()?;
    let (aligned, size, info) = (alignment(of), fixed_size(of), type_info(of));
    if (info.alignment, info.size) != (aligned, size) {
        return Err(Fail::new("two calls differ"));
    }
    let place = aligned_after(usize::from(end), of);
    write!(to, "{aligned} {size:?} {place}")?;
    Ok(())
}

const LAYOUTS: &str = r"
    b after 7 | 1 Some(1) 7
    n after 7 | 2 Some(2) 8
    u after 1 | 4 Some(4) 4
    u after 4 | 4 Some(4) 4
    h after 5 | 4 Some(4) 8
    d after 8 | 8 Some(8) 8
    s after 9 | 1 None 9
    v after 0 | 8 None 0
    as after 3 | 1 None 3
    ay after 0 | 1 None 0
    a(yx) after 3 | 8 None 8
    a(sx) after 1 | 8 None 8
    mmx after 17 | 8 None 24
    () after 3 | 1 Some(1) 3
    (y) after 5 | 1 Some(1) 5
    (yq) after 5 | 2 Some(4) 6
    (yu) after 2 | 4 Some(8) 4
    (uy) after 3 | 4 Some(8) 4
    (yyyyy) after 2 | 1 Some(5) 2
    (nqiuxthd) after 6 | 8 Some(48) 8
    (sx) after 12 | 8 None 16
    (ymu) after 6 | 4 None 8
    (()) after 7 | 1 Some(1) 7
    ((yq)u) after 9 | 4 Some(8) 12
    (y(yq)y) after 3 | 2 Some(8) 4
    (y(ys)u) after 10 | 4 None 12
    {yx} after 4 | 8 Some(16) 8
    {y()} after 11 | 1 Some(2) 11
    {y(yu)} after 13 | 4 Some(12) 16
    {sv} after 9 | 8 None 16
";

/// Whether so many bytes have offsets of this width, and the number is read from its eight bytes.
fn widths_are_right() -> bool {
    let rows: [(u64, u8); 10] = [
        (0, 0),
        (1, 1),
        (255, 1),
        (256, 2),
        (513, 2),
        (65_535, 2),
        (65_536, 4),
        (16_777_216, 4),
        (4_294_967_295, 4),
        (4_294_967_296, 8),
    ];
    let mut wrong = false;
    for (len, width) in rows {
        let read = number(&len.to_le_bytes());
        wrong |= read as u64 != len || offset_width(read) != width;
    }
    !wrong
}

/// Whether so many offsets after a body of so many bytes have this width: the least that reaches the end of both.
fn least_widths_are_right() -> bool {
    let rows: [(u32, u8, usize); 7] = [
        (0, 0, 1),
        (254, 1, 1),
        (255, 1, 2),
        (65_531, 2, 2),
        (65_532, 2, 4),
        (4_294_967_291, 1, 4),
        (4_294_967_292, 1, 8),
    ];
    let mut wrong = false;
    for (body, count, width) in rows {
        wrong |= least_width(body as usize, usize::from(count)) != width;
    }
    !wrong
}

/// The place that a walk gives for a child, where all calls say the same of it.
fn agreed<'a>(view: View<'a>, i: usize, walked: Option<Place<'a>>) -> Option<Place<'a>> {
    let (of, bytes) = (view.type_str(), view.bytes());
    if of.class() == Class::Variant || i >= n_children(of, bytes) {
        return None;
    }
    let (place, walked) = (place_of(of, bytes, i)?, walked?);
    if (walked.from, walked.to) == member_bounds(of, bytes, i) && place == walked {
        Some(place)
    } else {
        None
    }
}

/// Whether the child that a view's walk gives, and the one by its index, are of this place.
fn is_child<'a>(view: View<'a>, i: usize, walked: Option<View<'a>>, place: Place<'a>) -> bool {
    let bytes = view.bytes().get(place.from..place.to);
    match (view.child(i), walked, bytes) {
        (Some(child), Some(walked), Some(bytes)) => {
            let wanted = View::new(place.type_str, bytes);
            is_same(child, wanted) && is_same(walked, wanted)
        }
        _ => false,
    }
}

/// Pushes the number of a view's children, and their bounds and types in order, as `2:0..4 u;4..8 u;`. The calls of a view say the same.
pub(crate) fn push_places(to: &mut String, view: View<'_>) -> Result<(), Fail> {
    let (of, bytes) = (view.type_str(), view.bytes());
    let count = n_children(of, bytes);
    write!(to, "{count}:")?;
    if of.class() == Class::Variant {
        return Ok(());
    }
    let (mut walk, mut children) = (places(of, bytes), view.children());
    for i in 0..view.n_children() {
        match agreed(view, i, walk.next()) {
            Some(place) if is_child(view, i, children.next(), place) => {
                write!(
                    to,
                    "{}..{} {};",
                    place.from,
                    place.to,
                    place.type_str.as_str()
                )?
            }
            _ => return Err(Fail::new("two calls differ")),
        }
    }
    if walk.next().is_none() && children.next().is_none() {
        Ok(())
    } else {
        Err(Fail::new("a walk to more children"))
    }
}

/// A container that ends in one framing offset has one child, up to the offset: so it is in the last rows.
const PLACES: &str = r"
    v | 1:
    u 'abcd' | 0:
    au 01 00 00 00 02 00 00 00 | 2:0..4 u;4..8 u;
    au 01 00 00 00 02 00 00 | 0:
    as 'i' 00 'can' 00 'has' 00 'strings?' 00 02 06 0a 13 | 4:0..2 s;2..6 s;6..10 s;10..19 s;
    aay 01 02 03 03 01 03 | 3:0..3 ay;0..0 ay;0..0 ay;
    aay 00 | 1:0..0 ay;
    aay 02 | 0:
    aay 09 09 00 03 09 02 | 4:0..0 ay;0..0 ay;0..0 ay;0..0 ay;
    a(si) 'hi' 00 00 fe ff ff ff 03 00 00 00 'bye' 00 ff ff ff ff 04 09 15 | 2:0..9 (si);12..21 (si);
    mu 01 00 00 00 | 1:0..4 u;
    mu 01 00 00 00 00 | 0:
    ms 'hi' 00 00 | 1:0..3 s;
    ms 07 | 1:0..0 s;
    ms | 0:
    () 00 | 0:
    (yu) 01 00 00 00 02 00 00 00 | 2:0..1 y;4..8 u;
    (yu) 01 00 00 00 02 00 00 | 2:0..0 y;0..0 u;
    ((ys)as) 'ican' 00 'has' 00 'strings?' 00 04 0d 05 | 2:0..5 (ys);5..20 as;
    (ssss) 'a' 00 'b' 00 'c' 00 'd' 00 06 04 02 | 4:0..2 s;2..4 s;4..6 s;6..8 s;
    {si} 'a' 20 'key' 00 00 00 02 02 00 00 06 | 2:0..6 s;8..12 i;
    (ays) 61 62 00 04 | 2:0..0 ay;0..0 s;
    (ayu) 01 02 03 04 05 06 07 08 ff | 2:0..0 ay;0..0 u;
    (sss) 01 | 3:0..0 s;0..0 s;0..0 s;
    (ss) | 2:0..0 s;0..0 s;
    (yst) 01 00 01 | 3:0..1 y;1..1 s;0..0 t;
    (ysa{sv}) 01 'a' 00 03 | 3:0..1 y;1..3 s;0..0 a{sv};
    a{si} 'a' 00 00 00 01 00 00 00 02 00 00 00 'b' 00 00 00 02 00 00 00 02 09 15 | 2:0..9 {si};12..21 {si};
    as 'a' 00 'bc' 00 02 05 | 2:0..2 s;2..5 s;
    as 'a' 00 'bc' 00 02 09 | 0:
    s 'hi' 00 | 0:
    (ays) 01 02 03 'hi' 00 03 | 2:0..3 ay;3..6 s;
    (ays) 01 02 03 'hi' 00 08 | 2:0..0 ay;0..0 s;
    mi | 0:
    mi 05 00 00 00 | 1:0..4 i;
    aay @{254:00 }fe | 1:0..254 ay;
    aay @{254:00 }fe 00 | 1:0..254 ay;
    aay @{65533:00 }fd ff | 1:0..65533 ay;
    aay @{65532:00 }fc ff 00 00 | 1:0..65532 ay;
";

/// Whether the one type that is left is this.
fn is_one(left: Option<Members<'_>>, text: &str) -> bool {
    left.and_then(|mut left| left.next()).map(TypeStr::as_str) == Some(text)
}

/// Whether members are unplaced after the one that is out of order, and not before it.
fn is_unplaced_after(of: TypeStr<'_>, bytes: &[u8], text: &str) -> bool {
    if of.class() == Class::Variant {
        return false;
    }
    let (mut places, mut children) = (places(of, bytes), View::new(of, bytes).children());
    places.next();
    children.next();
    let kept = places.unplaced().is_none() && children.unplaced().is_none();
    places.next();
    children.next();
    kept && is_one(places.unplaced(), text) && is_one(children.unplaced(), text)
}

#[test]
fn children_lie_at_their_bounds(rt: HostRuntime) -> Result<(), Fail> {
    let alloc = rt.alloc();
    table(alloc, &mut TableOf::Layout, LAYOUTS)?;
    table(alloc, &mut TableOf::Places, PLACES)?;
    let unplaced = is_unplaced_after(TypeStr::parse("(ysas)")?, b"\x05\xff\xff", "as");
    assert!(rt; unplaced && widths_are_right() && least_widths_are_right());
    assert!(rt; number(b"\x01\x02") == 513 && is_true(b"\x02") && !is_true(b"\x00"));
    assert!(rt; (round_up(9, 8), round_up(8, 8), round_up(7, 1)) == (16, 8, 7));
    Ok(())
}
