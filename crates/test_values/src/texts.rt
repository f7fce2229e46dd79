//! Texts, read in steps: tokens and syntax, shown by their names; the type that a text has by itself, and its value at a type.
use crate::table::TableOf;
use gv_build::serialise;
use gv_infer::{type_of, value_at};
use gv_text::{Syntax, is_plain, parse, print, tokens};
use gv_tree::Tree;
use gv_types::TypeStr;
use gv_view::View;
use std::alloc::Global;
use std::fmt::Write;
use std::test::Fail;
use test_rows::table;

/// Pushes the tokens of a text, or its fault.
pub(crate) fn push_tokens(alloc: Global, to: &mut String, text: &str) -> Result<(), Fail> {
    match tokens(alloc, text) {
        Ok(found) => write!(to, "{found:?}")?,
        Err(fault) => write!(to, "{fault}")?,
    }
    Ok(())
}

/// Texts with a zero byte, which no keyfile and no command line has, are among these.
const TOKENS: &str = r#"
    ( | [Token { kind: Mark(OpenTuple), span: Span { start: 0, end: 1 } }]
    'a' | [Token { kind: Text("a"), span: Span { start: 0, end: 3 } }]
    b'a' | [Token { kind: ByteString([97]), span: Span { start: 0, end: 4 } }]
    -7 | [Token { kind: Integer { negative: true, magnitude: 7 }, span: Span { start: 0, end: 2 } }]
    @as | [Token { kind: Type(TypeText { text: "as" }), span: Span { start: 0, end: 3 } }]
    byte | [Token { kind: Word(Type(Byte)), span: Span { start: 0, end: 4 } }]
    : 2 | [Token { kind: Mark(Colon), span: Span { start: 0, end: 1 } }, Token { kind: Integer { negative: false, magnitude: 2 }, span: Span { start: 2, end: 3 } }]
"#;

const NULS: &str = "
    \0 | BadToken at 0..1
    'a\0' | BadToken at 2..3
    '\\\0' | BadToken at 2..3
    'a\\\0' | BadToken at 3..4
    '\\u12\0' | BadEscape at 1..5
    b'\0' | BadToken at 2..3
    b'\\\0' | BadToken at 3..4
";

fn syntax_of(alloc: Global, text: &str) -> Result<Syntax, Fail> {
    if text.len() > Syntax::MAX_TEXT_LEN {
        return Err(Fail::new("a text too long to be read"));
    }
    Ok(parse(alloc, text)?)
}

/// Pushes the syntax of a text, and what it is.
pub(crate) fn push_syntax(alloc: Global, to: &mut String, text: &str) -> Result<(), Fail> {
    let syntax = syntax_of(alloc, text)?;
    let kind = &syntax.root().kind;
    write!(to, "{syntax:?} {kind:?}")?;
    Ok(())
}

const SYNTAX: &str = r#"
    true | Syntax { root: SyntaxNode { .. } } Truth(true)
    -7 | Syntax { root: SyntaxNode { .. } } Integer { negative: true, magnitude: 7 }
    'a' | Syntax { root: SyntaxNode { .. } } Text("a")
    b'a' | Syntax { root: SyntaxNode { .. } } ByteString([97])
    [1] | Syntax { root: SyntaxNode { .. } } Array([SyntaxNode { .. }])
    (1, 2) | Syntax { root: SyntaxNode { .. } } Tuple([SyntaxNode { .. }, SyntaxNode { .. }])
    {1: 2} | Syntax { root: SyntaxNode { .. } } Dictionary([(SyntaxNode { .. }, SyntaxNode { .. })])
    {1, 2} | Syntax { root: SyntaxNode { .. } } Entry(SyntaxNode { .. }, SyntaxNode { .. })
    <1> | Syntax { root: SyntaxNode { .. } } Variant(SyntaxNode { .. })
    just 1 | Syntax { root: SyntaxNode { .. } } Just(SyntaxNode { .. })
    nothing | Syntax { root: SyntaxNode { .. } } Nothing
    @i 1 | Syntax { root: SyntaxNode { .. } } OfType(TypeText { text: "i" }, SyntaxNode { .. })
    byte 1 | Syntax { root: SyntaxNode { .. } } Keyword(Byte, SyntaxNode { .. })
"#;

/// Pushes the type that a syntax has by itself, if it has one.
fn push_own_type(alloc: Global, to: &mut String, syntax: &Syntax) -> Result<(), Fail> {
    match type_of(alloc, syntax) {
        Ok(of) => to.push_str(of.as_type().as_str())?,
        Err(_) => to.push('-')?,
    }
    Ok(to.push_str(": ")?)
}

/// Pushes the type of a value and its printed text.
fn push_value(alloc: Global, to: &mut String, tree: &Tree) -> Result<(), Fail> {
    let bytes = serialise(alloc, tree)?;
    let of = tree.type_text();
    let text = print(alloc, View::new(of, bytes.as_slice()))?;
    write!(to, "{of} {text}")?;
    Ok(())
}

/// Pushes the value of a syntax at this type, or its fault.
fn push_at(alloc: Global, to: &mut String, syntax: &Syntax, of: TypeStr<'_>) -> Result<(), Fail> {
    match value_at(alloc, syntax, of) {
        Ok(tree) => push_value(alloc, to, &tree),
        Err(fault) => Ok(write!(to, "{fault}")?),
    }
}

/// Pushes the own type of the text before ` at `, and its value at the type after it; or its fault.
pub(crate) fn push_value_at(alloc: Global, to: &mut String, line: &str) -> Result<(), Fail> {
    let Some((text, of)) = line.split_once(" at ") else {
        return Err(Fail::new("a line without a type"));
    };
    let syntax = syntax_of(alloc, text)?;
    push_own_type(alloc, to, &syntax)?;
    push_at(alloc, to, &syntax, TypeStr::parse(of)?)
}

/// The text of the last line is as long as one may be.
const VALUES: &str = r"
    true at b | b: b true
    true at mb | b: mb @mb true
    5 at i | i: i 5
    5 at y | i: y byte 0x05
    5 at mmy | i: mmy @mmy 0x05
    -1 at h | i: h handle -1
    -32768 at n | i: n int16 -32768
    -0 at x | i: x int64 0
    'a' at s | s: s 'a'
    '/a' at o | s: o objectpath '/a'
    '/a' at mo | s: mo @mo '/a'
    'as' at g | s: g signature 'as'
    b'a' at may | ay: may @may b'a'
    [1, 2] at at | ai: at [uint64 1, 2]
    [1, 2] at amx | ai: amx [@mx 1, 2]
    [] at as | -: as @as []
    (1, 'a', true) at (nsb) | (isb): (nsb) (int16 1, 'a', true)
    {} at a{sv} | -: a{sv} @a{sv} {}
    {1: 2} at a{yx} | a{ii}: a{yx} {byte 0x01: int64 2}
    {1, 'ai'} at {ng} | {is}: {ng} {int16 1, signature 'ai'}
    <010> at v | v: v <8>
    <010> at mv | v: mv @mv <8>
    just 5 at mu | mi: mu @mu 5
    nothing at mms | -: mms @mms nothing
    just nothing at mms | -: mms @mms just nothing
    @x 5 at x | x: x int64 5
    uint32 5 at u | u: u uint32 5
    5 at s | i: NoCommonType
    'a' at i | s: NoCommonType
    b'a' at as | ay: NoCommonType
    @i 1 at u | i: NoCommonType
    @i 1 at mi | i: NoCommonType
    uint32 1 at mu | u: NoCommonType
    just 5 at u | mi: NoCommonType
    nothing at i | -: NoCommonType
    (1, 2) at (i) | (ii): NoCommonType
    (1,) at (ii) | (i): NoCommonType
    {1, 2} at a{ii} | {ii}: NoCommonType
    <[]> at i | -: NoCommonType
    <[]> at v | -: Ambiguous
    (<[1, 'a']>, 3000000000) at (vi) | -: NoCommonType
    256 at y | i: OutOfRange
    -32769 at n | i: OutOfRange
    -0 at u | i: OutOfRange
    [1, 300] at ay | ai: OutOfRange
    'a' at o | s: BadObjectPath
    'a{vs}' at g | s: BadSignature
    5 at d | i: DoubleText
    ('a', 256) at (oy) | (si): BadObjectPath
    (256, 'a') at (yo) | (is): OutOfRange
    @d 5 at d | d: DoubleText
    @{16777215: }5 at i | i: i 5
";

/// Whether a text stands for itself in each of the two quotes.
fn is_plain_in(text: &str) -> (bool, bool) {
    let bytes = text.as_bytes();
    (is_plain(bytes, '\''), is_plain(bytes, '"'))
}

/// Printable ASCII stands for itself, but for the backslash and the quote in use (GLib, "GVariant Text Format", "Strings").
fn are_plain() -> bool {
    is_plain_in("plain text!") == (true, true)
        && is_plain_in("it's") == (false, true)
        && is_plain_in("say \"x\"") == (true, false)
        && is_plain_in("back\\slash") == (false, false)
        && is_plain_in("café") == (false, false)
}

#[test]
fn texts_are_read_in_steps(rt: HostRuntime) -> Result<(), Fail> {
    let alloc = rt.alloc();
    assert!(rt; Syntax::MAX_TEXT_LEN == 16_777_216 && are_plain());
    table(alloc, &mut TableOf::Tokens, TOKENS)?;
    table(alloc, &mut TableOf::Tokens, NULS)?;
    table(alloc, &mut TableOf::Syntax, SYNTAX)?;
    table(alloc, &mut TableOf::ValueAt, VALUES)
}
