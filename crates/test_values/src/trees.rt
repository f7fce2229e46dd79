//! Trees by example: each constructor, each of its refusals, and what trees tell of themselves.
use crate::samples::{value, view};
use crate::table::TableOf;
use gv_tree::{Basic, Tree, TreeFault, TreeFlaw};
use gv_types::TypeStr;
use std::alloc::Global;
use std::fmt::Write;
use std::test::Fail;
use test_rows::{bytes_of, table};

/// Pushes the type of a tree, its levels and its values, and its shape.
fn push_tree(to: &mut String, tree: &Tree) -> Result<(), Fail> {
    let (levels, values, shape) = (tree.depth(), tree.nodes(), tree.shape());
    write!(
        to,
        "{} {levels} {values} {shape:?}",
        tree.type_text().as_str()
    )?;
    Ok(())
}

/// Pushes what a tree tells, or why there is none.
fn push_made(to: &mut String, made: Result<Tree, TreeFault>) -> Result<(), Fail> {
    match made {
        Ok(tree) => push_tree(to, &tree),
        Err(fault) => Ok(write!(to, "{fault}")?),
    }
}

/// The values of a text's words.
fn values_of(alloc: Global, words: &str) -> Result<Vec<Tree>, Fail> {
    let mut values = Vec::new(alloc);
    for word in words.split_terminator(' ') {
        values.push(value(alloc, word)?)?;
    }
    Ok(values)
}

/// An entry of two children, or a variant of one.
fn entry_or_variant(alloc: Global, mut children: Vec<Tree>) -> Result<Tree, TreeFault> {
    match (children.pop(), children.pop()) {
        (Some(held), Some(key)) => Tree::entry(alloc, key, held),
        (Some(held), None) => Tree::variant(alloc, held),
        _ => Tree::tuple(alloc, children),
    }
}

/// A container that begins with this letter. Its element, if it has one, is at the start of the
/// other text.
fn made(alloc: Global, letter: &str, of: &str, mut children: Vec<Tree>) -> Result<Tree, TreeFault> {
    match (letter, TypeStr::prefix_of(of)) {
        ("a", Some(of)) => Tree::array(alloc, of, children),
        ("m", Some(of)) => Tree::maybe(alloc, of, children.pop()),
        ("(", None) => Tree::tuple(alloc, children),
        _ => entry_or_variant(alloc, children),
    }
}

/// Pushes the container of a letter and an element's type, as `as` or `(`, whose parts are the values of
/// the words after it.
pub(crate) fn push_container(alloc: Global, to: &mut String, text: &str) -> Result<(), Fail> {
    let (word, words) = text.split_once(' ').unwrap_or((text, ""));
    let Some((letter, of)) = word.split_at_checked(1) else {
        return Err(Fail::new("no container"));
    };
    push_made(to, made(alloc, letter, of, values_of(alloc, words)?))
}

const CONTAINERS: &str = r"
    ma{sv} | ma{sv} 1 1 Maybe(None)
    mi 5 | mi 2 2 Maybe(Some(Tree { type: i, .. }))
    as 'a' 'bc' | as 2 3 Array([Tree { type: s, .. }, Tree { type: s, .. }])
    aa{sv} | aa{sv} 1 1 Array([])
    ( 'hi' 5 | (si) 2 3 Tuple([Tree { type: s, .. }, Tree { type: i, .. }])
    ( | () 1 1 Tuple([])
    { 'hi' 5 | {si} 2 3 Entry(Tree { type: s, .. }, Tree { type: i, .. })
    v ('hi',5) | v 3 4 Variant(Tree { type: (si), .. })
    v {'hi',5} | v 3 4 Variant(Tree { type: {si}, .. })
    ai 5 'a' | WrongType at 1
    mi 'a' | WrongType at 0
    { <5> 5 | KeyNotBasic
    v @{126:<}5@{126:>} | v 128 128 Variant(Tree { type: v, .. })
    v @{127:<}5@{127:>} | TooDeep
    ( @{127:<}5@{127:>} | TooDeep
    { 5 @{127:<}5@{127:>} | TooDeep
    a@{127:a}i | TooDeep
    m@{127:a}i | TooDeep
";

/// The tuple of a tree and its copy.
fn doubled(alloc: Global, tree: Tree) -> Result<Tree, TreeFault> {
    let copy = tree.try_copy(alloc)?;
    Tree::tuple(alloc, Vec::from_array(alloc, [tree, copy])?)
}

/// Pushes how often an empty maybe of this type can be doubled, and why not once more. Each time its type's text has twice as many
/// bytes and two more, and 67,108,864 are the most.
pub(crate) fn push_doublings(alloc: Global, to: &mut String, text: &str) -> Result<(), Fail> {
    let mut tree = Tree::maybe(alloc, TypeStr::parse(text)?, None)?;
    for times in 0..20 {
        match doubled(alloc, tree) {
            Ok(twice) => tree = twice,
            Err(fault) => return Ok(write!(to, "{times} {fault}")?),
        }
    }
    Ok(())
}

/// The basic value of a letter and a text.
fn basic_value(alloc: Global, letter: &str, text: &str) -> Result<Basic, Fail> {
    let text = String::from_str(alloc, text)?;
    match letter {
        "s" => Ok(Basic::Text(text)),
        "o" => Ok(Basic::ObjectPath(text)),
        "g" => Ok(Basic::Signature(text)),
        _ => Ok(Basic::DoubleBits([0, 0, 0, 0, 0, 0, 0xf0, 0x3f])),
    }
}

/// Pushes the basic tree of a letter and the text after it; or why there is none.
pub(crate) fn push_basic(alloc: Global, to: &mut String, text: &str) -> Result<(), Fail> {
    let (letter, text) = text.split_once(' ').unwrap_or((text, ""));
    push_made(to, Tree::basic(alloc, basic_value(alloc, letter, text)?))
}

const BASICS: &str = "
    d | d 1 1 Basic(DoubleBits([0, 0, 0, 0, 0, 0, 240, 63]))
    s a | s 1 1 Basic(Text(\"a\"))
    s a\0 | HasNul
    s | s 1 1 Basic(Text(\"\"))
    o a | BadObjectPath
    o a\0 | HasNul
    o /a | o 1 1 Basic(ObjectPath(\"/a\"))
    g a{vs} | BadSignature
    g a\0 | HasNul
    g a{sv}i | g 1 1 Basic(Signature(\"a{sv}i\"))
";

/// The tree of a type and of the words of its bytes.
fn tree_of(alloc: Global, text: &str) -> Result<Tree, Fail> {
    let (of, words) = text.split_once(' ').unwrap_or((text, ""));
    let bytes = bytes_of(alloc, words)?;
    Ok(view(of, bytes.as_slice())?.to_tree(alloc)?)
}

/// Pushes what the tree of a type and of the words of its bytes tells.
pub(crate) fn push_read(alloc: Global, to: &mut String, text: &str) -> Result<(), Fail> {
    push_made(to, Ok(tree_of(alloc, text)?))
}

const TREES: &str = r#"
    b 01 | b 1 1 Basic(Bool(true))
    y 05 | y 1 1 Basic(Byte(5))
    n fe ff | n 1 1 Basic(Int16(-2))
    q 05 00 | q 1 1 Basic(Uint16(5))
    i fe ff ff ff | i 1 1 Basic(Int32(-2))
    u 05 00 00 00 | u 1 1 Basic(Uint32(5))
    x fe ff ff ff ff ff ff ff | x 1 1 Basic(Int64(-2))
    t 05 00 00 00 00 00 00 00 | t 1 1 Basic(Uint64(5))
    h 05 00 00 00 | h 1 1 Basic(HandleNo(5))
    d 00 00 00 00 00 00 f0 3f | d 1 1 Basic(DoubleBits([0, 0, 0, 0, 0, 0, 240, 63]))
    s 'a' 00 | s 1 1 Basic(Text("a"))
    o '/a' 00 | o 1 1 Basic(ObjectPath("/a"))
    g 'as' 00 | g 1 1 Basic(Signature("as"))
    my | my 1 1 Maybe(None)
    my 05 | my 2 2 Maybe(Some(Tree { type: y, .. }))
    ay 05 06 | ay 2 3 Array([Tree { type: y, .. }, Tree { type: y, .. }])
    (yy) 05 06 | (yy) 2 3 Tuple([Tree { type: y, .. }, Tree { type: y, .. }])
    {yy} 05 06 | {yy} 2 3 Entry(Tree { type: y, .. }, Tree { type: y, .. })
    v 05 00 'y' | v 2 2 Variant(Tree { type: y, .. })
"#;

/// Whether two trees are equal. Either way it is the same, and the first is equal to its copy.
fn are_equal(alloc: Global, one: &Tree, other: &Tree) -> Result<bool, Fail> {
    let equal = one.equal(other);
    if other.equal(one) == equal && one.try_copy(alloc)?.equal(one) {
        Ok(equal)
    } else {
        Err(Fail::new("a copy that is not equal"))
    }
}

/// Whether a tree is equal to the one of a text.
fn is_equal_to(alloc: Global, one: &Tree, other: &str) -> Result<bool, Fail> {
    let other = tree_of(alloc, other)?;
    are_equal(alloc, one, &other)
}

/// Pushes whether the trees of two texts, with ` and ` between them, are equal.
pub(crate) fn push_compared(alloc: Global, to: &mut String, line: &str) -> Result<(), Fail> {
    let Some((one, other)) = line.split_once(" and ") else {
        return Err(Fail::new("one tree alone"));
    };
    let one = tree_of(alloc, one)?;
    let equal = is_equal_to(alloc, &one, other)?;
    Ok(to.push_str(if equal { "true" } else { "false" })?)
}

/// A double that is no number, the zero with a sign, and arrays and maybes without a child, which
/// are equal where their types are, are among these.
const EQUALS: &str = r"
    d 01 00 00 00 00 00 f0 7f and d 01 00 00 00 00 00 f0 7f | true
    d 00 00 00 00 00 00 00 00 and d 00 00 00 00 00 00 00 80 | false
    i 05 00 00 00 and i 06 00 00 00 | false
    i 05 00 00 00 and u 05 00 00 00 | false
    i 05 00 00 00 and v 05 00 00 00 00 'i' | false
    s 'a' 00 and s 'b' 00 | false
    ai and ai | true
    ai and au | false
    mi 00 00 00 00 and mi | false
    as 'a' 00 'bc' 00 02 05 and as 'a' 00 'bc' 00 02 05 | true
    (si) 'hi' 00 00 05 00 00 00 03 and (si) 'hi' 00 00 05 00 00 00 03 | true
    (myv) 05 00 00 00 00 00 00 00 05 00 00 00 00 'i' 01 and (myv) 05 00 00 00 00 00 00 00 05 00 00 00 00 'i' 01 | true
";

#[test]
fn trees_are_made_or_refused(rt: HostRuntime) -> Result<(), Fail> {
    let alloc = rt.alloc();
    table(alloc, &mut TableOf::Container, CONTAINERS)?;
    table(alloc, &mut TableOf::Doublings, "(@{65533:y}) | 9 TooLarge")?;
    table(alloc, &mut TableOf::Basic, BASICS)?;
    table(alloc, &mut TableOf::Tree, TREES)?;
    table(alloc, &mut TableOf::Equal, EQUALS)?;
    let mut said = String::new(alloc);
    push_made(&mut said, Err(TreeFault::Fault(TreeFlaw::WrongType(12))))?;
    push_made(&mut said, Err(TreeFault::Memory))?;
    assert!(rt; said.as_str() == "WrongType at 12Memory");
    Ok(())
}
