//! Values and their bytes: which are written for a value, whether bytes are those, and how many steps it takes to tell.
use crate::table::TableOf;
use gv_build::{MAX_LEN, normal_form, serialise};
use gv_normal::{is_normal, is_normal_counted, is_normal_plain};
use gv_types::Steps;
use gv_view::{View, ViewFault};
use std::alloc::Global;
use std::fmt::Write;
use std::test::Fail;
use test_rows::table;

/// Whether both tests say this of the view's bytes, which are few.
pub(crate) fn both_tell(alloc: Global, view: View<'_>, normal: bool) -> Result<bool, Fail> {
    if view.bytes().len() > MAX_LEN {
        return Err(Fail::new("too many bytes to be told"));
    }
    Ok(is_normal_plain(alloc, view)? == normal && is_normal(view) == normal)
}

/// Whether the view's tree is written as these bytes.
fn is_written_as(alloc: Global, view: View<'_>, form: &[u8]) -> Result<bool, Fail> {
    let tree = view.to_tree(alloc)?;
    Ok(serialise(alloc, &tree)?.as_slice() == form)
}

/// Whether all calls say that these bytes are written for the view's value.
fn is_form(alloc: Global, view: View<'_>, form: &[u8]) -> Result<bool, Fail> {
    Ok(
        is_written_as(alloc, view, form)?
            && both_tell(alloc, view, view.bytes() == form)?
            && both_tell(alloc, View::new(view.type_str(), form), true)?,
    )
}

/// Pushes the bytes that are written for the view's value.
pub(crate) fn push_form(alloc: Global, to: &mut String, view: View<'_>) -> Result<(), Fail> {
    let form = normal_form(alloc, view)?;
    if !is_form(alloc, view, form.as_slice())? {
        return Err(Fail::new("two calls differ"));
    }
    write!(to, "{form:?}")?;
    Ok(())
}

/// Each eight bytes are a double. An offset past the end, or past the offsets, and a byte of
/// padding that is not zero are among these. The bytes of the others, from the first `b 01` on, are normal.
const FORMS: &str = r"
    s | [0]
    s 'a' | [0]
    s 'a' 00 'b' | [0]
    s 'a' 00 'b' 00 | [0]
    o 'a' 00 | [47, 0]
    g 'a' 00 | [0]
    b 02 | [1]
    b 05 | [1]
    d 00 00 00 00 00 00 f8 '?' | [0, 0, 0, 0, 0, 0, 248, 63]
    as 'a' 00 05 | []
    aay 09 00 | [0, 0]
    au 01 00 00 00 02 | []
    ai 01 00 02 | []
    ab 01 00 02 | [1, 0, 1]
    a(si) 'hi' 00 07 fe ff ff ff 03 00 00 00 'bye' 00 ff ff ff ff 04 09 15 | [104, 105, 0, 0, 254, 255, 255, 255, 3, 0, 0, 0, 98, 121, 101, 0, 255, 255, 255, 255, 4, 9, 21]
    a(xy) 05 00 00 00 00 00 00 00 05 00 00 00 00 00 00 01 | [5, 0, 0, 0, 0, 0, 0, 0, 5, 0, 0, 0, 0, 0, 0, 0]
    ms 'hi' 00 01 | [104, 105, 0, 0]
    () | [0]
    () 01 | [0]
    v | [0, 0, 40, 41]
    v 05 00 00 00 00 | [0, 0, 40, 41]
    b 01 | [1]
    y c8 | [200]
    y ab | [171]
    n fe ff | [254, 255]
    q fe ff | [254, 255]
    q 34 12 | [52, 18]
    i fe ff ff ff | [254, 255, 255, 255]
    i fa ff ff ff | [250, 255, 255, 255]
    u fe ff ff ff | [254, 255, 255, 255]
    u 78 56 34 12 | [120, 86, 52, 18]
    h fe ff ff ff | [254, 255, 255, 255]
    h 03 00 00 00 | [3, 0, 0, 0]
    x fe ff ff ff ff ff ff ff | [254, 255, 255, 255, 255, 255, 255, 255]
    x ff ff ff ff ff ff ff ff | [255, 255, 255, 255, 255, 255, 255, 255]
    t fe ff ff ff ff ff ff ff | [254, 255, 255, 255, 255, 255, 255, 255]
    t 08 07 06 05 04 03 02 01 | [8, 7, 6, 5, 4, 3, 2, 1]
    s 00 | [0]
    s 'hi' 00 | [104, 105, 0]
    s 'it' 27 's' 09 00 | [105, 116, 39, 115, 9, 0]
    o '/' 00 | [47, 0]
    o '/a' 00 | [47, 97, 0]
    g 'ai' 00 | [97, 105, 0]
    as 'a' 00 02 | [97, 0, 2]
    as 'a' 00 'bc' 00 02 05 | [97, 0, 98, 99, 0, 2, 5]
    as 'i' 00 'can' 00 'has' 00 'strings?' 00 02 06 0a 13 | [105, 0, 99, 97, 110, 0, 104, 97, 115, 0, 115, 116, 114, 105, 110, 103, 115, 63, 0, 2, 6, 10, 19]
    ay 'a' 00 | [97, 0]
    ab 01 00 01 | [1, 0, 1]
    ai 05 00 00 00 06 00 00 00 | [5, 0, 0, 0, 6, 0, 0, 0]
    ami 01 00 00 00 04 04 | [1, 0, 0, 0, 4, 4]
    a(si) 'hi' 00 00 fe ff ff ff 03 00 00 00 'bye' 00 ff ff ff ff 04 09 15 | [104, 105, 0, 0, 254, 255, 255, 255, 3, 0, 0, 0, 98, 121, 101, 0, 255, 255, 255, 255, 4, 9, 21]
    mi | []
    mi 05 00 00 00 | [5, 0, 0, 0]
    ms | []
    ms 'a' 00 00 | [97, 0, 0]
    ms 'hi' 00 00 | [104, 105, 0, 0]
    mms 00 | [0]
    () 00 | [0]
    (y) 05 | [5]
    (as) | []
    (iy) 05 00 00 00 06 00 00 00 | [5, 0, 0, 0, 6, 0, 0, 0]
    (yx) 05 00 00 00 00 00 00 00 05 00 00 00 00 00 00 00 | [5, 0, 0, 0, 0, 0, 0, 0, 5, 0, 0, 0, 0, 0, 0, 0]
    (si) 'hi' 00 00 05 00 00 00 03 | [104, 105, 0, 0, 5, 0, 0, 0, 3]
    (myv) 05 00 00 00 00 00 00 00 05 00 00 00 00 'i' 01 | [5, 0, 0, 0, 0, 0, 0, 0, 5, 0, 0, 0, 0, 105, 1]
    (ssys) 'a' 00 'bc' 00 09 00 05 02 | [97, 0, 98, 99, 0, 9, 0, 5, 2]
    ((ys)as) 'ican' 00 'has' 00 'strings?' 00 04 0d 05 | [105, 99, 97, 110, 0, 104, 97, 115, 0, 115, 116, 114, 105, 110, 103, 115, 63, 0, 4, 13, 5]
    {si} 'hi' 00 00 05 00 00 00 03 | [104, 105, 0, 0, 5, 0, 0, 0, 3]
    {sy} 'a' 00 07 02 | [97, 0, 7, 2]
    v 05 00 00 00 00 'i' | [5, 0, 0, 0, 0, 105]
";

/// Whether the view's few bytes are normal at its short type, and how many steps it takes to tell.
fn counted(view: View<'_>) -> Option<(bool, u128)> {
    if view.bytes().len() > 1000 || view.type_str().as_str().len() > 1000 {
        return None;
    }
    let mut steps = Steps::new();
    let normal = is_normal_counted(view, &mut steps);
    Some((normal, steps.count()))
}

/// Pushes whether the view's few bytes are normal, and how many steps it takes to tell: each value that is looked at is a step.
pub(crate) fn push_steps(to: &mut String, view: View<'_>) -> Result<(), Fail> {
    let counted = counted(view);
    write!(to, "{counted:?}")?;
    Ok(())
}

const STEPS: &str = r"
    as 'i' 00 'can' 00 'has' 00 'strings?' 00 02 06 0a 13 | Some((true, 5))
    ((ys)as) 'ican' 00 'has' 00 'strings?' 00 04 0d 05 | Some((true, 7))
    a(si) 'hi' 00 00 fe ff ff ff 03 00 00 00 'bye' 00 ff ff ff ff 04 09 15 | Some((true, 7))
    s 00 | Some((true, 1))
    b 01 | Some((true, 1))
    ab 01 00 01 | Some((true, 4))
    ai 05 00 00 00 06 00 00 00 | Some((true, 3))
    (yay) 01 02 03 | Some((true, 5))
    v 05 00 00 00 00 'i' | Some((true, 2))
";

/// How many levels and values a view's tree has, None if it is too large.
fn sums(alloc: Global, view: View<'_>) -> Result<Option<(u8, u64)>, Fail> {
    match view.to_tree(alloc) {
        Ok(tree) => Ok(Some((tree.depth(), tree.nodes()))),
        Err(ViewFault::Fault(_)) => Ok(None),
        Err(ViewFault::Memory) => Err(Fail::new("no memory")),
    }
}

/// Whether the view's bytes, if they are few, are told to be so in at most 6,510 steps. The tower has 61 bytes at a type of 22 letters,
/// and 6,510 is 62 times 61 and twice 22.
fn is_counted(view: View<'_>, normal: bool) -> bool {
    match counted(view) {
        Some((told, steps)) => told == normal && steps <= 6510,
        None => true,
    }
}

/// Pushes how many bytes a view has, whether they are normal, and its levels and values.
pub(crate) fn push_told(alloc: Global, to: &mut String, view: View<'_>) -> Result<(), Fail> {
    let (sums, normal) = (sums(alloc, view)?, is_normal(view));
    if view.is_too_large() != sums.is_none()
        || !is_counted(view, normal)
        || !both_tell(alloc, view, normal)?
    {
        return Err(Fail::new("two calls differ"));
    }
    write!(to, "{} {normal} {sums:?}", view.bytes().len())?;
    Ok(())
}

/// In the last but one each offset leads back to the beginning.
const TOLD: &str = r"
    as @{253:'x' }00 fe | 255 true Some((2, 2))
    as @{253:'x' }00 fe 00 | 256 false Some((2, 2))
    v 05 00 00 00 00 'i'@{126: 00 'v'} | 258 true Some((128, 128))
    v 05 00 00 00 00 'i'@{127: 00 'v'} | 260 false None
    v @{1000:01 }00 'ay'@{125: 00 'v'} | 1253 true Some((128, 1127))
    v @{1000:01 }00 'ay'@{126: 00 'v'} | 1255 false None
    as @{253:'a' }00 fe | 255 true Some((2, 2))
    as @{254:'a' }00 ff 00 | 257 true Some((2, 2))
    as @{65532:'a' }00 fd ff | 65535 true Some((2, 2))
    as @{65533:'a' }00 fe ff 00 00 | 65538 true Some((2, 2))
    @{127:a}i 01 00 00 00@{126: ~} | 130 true Some((128, 128))
    @{126:a}{ii} 01 00 00 00 02 00 00 00@{125: ~} | 133 true Some((128, 129))
    v 01 00 00 00 00 'mi'@{125: 00 'v'} | 257 true Some((128, 128))
    @{21:a}y 00 01 00 01 04 00 04 07 00 07 0a 00 0a 0d 00 0d 10 00 10 13 00 13 16 00 16 19 00 19 1c 00 1c 1f 00 1f 22 00 22 25 00 25 28 00 28 2b 00 2b 2e 00 2e 31 00 31 34 00 34 37 00 37 3a 00 3a | 61 false Some((22, 62))
    ay @{100001:01 } | 100001 true Some((2, 100002))
";

#[test]
fn bytes_have_a_normal_form(rt: HostRuntime) -> Result<(), Fail> {
    let alloc = rt.alloc();
    let mut steps = Steps::new();
    steps.tick();
    steps.tick();
    assert!(rt; steps.count() == 2);
    table(alloc, &mut TableOf::Form, FORMS)?;
    table(alloc, &mut TableOf::Steps, STEPS)?;
    table(alloc, &mut TableOf::Told, TOLD)
}
