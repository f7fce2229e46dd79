//! The tokens of a text (GLib, "GVariant Text Format").
ghost use Rattle.std.specs.Prelude.{◌≡◌};

use crate::type_text::TypeText;
use gv_types::BasicType;

/// Where something occurs in a text: its first byte and the first byte after it, counted from 0.
#[derive(Clone, Copy, Debug, PartialEq, Eq)]
pub struct Span {
    pub start: usize,
    pub end: usize,
}

/// A mark.
#[derive(Clone, Copy, Debug, PartialEq, Eq)]
pub enum Mark {
    /// `(`
    OpenTuple,
    /// `)`
    CloseTuple,
    /// `[`
    OpenArray,
    /// `]`
    CloseArray,
    /// `{`
    OpenBrace,
    /// `}`
    CloseBrace,
    /// `<`
    OpenVariant,
    /// `>`
    CloseVariant,
    /// `,`
    Comma,
    /// `:`
    Colon,
}

/// A word.
#[derive(Clone, Copy, Debug, PartialEq, Eq)]
pub enum Word {
    /// `true` or `false`.
    Truth(bool),
    /// `just`
    Just,
    /// `nothing`
    Nothing,
    /// `byte`, `uint32` and the like: the value that follows is of this type.
    Type(BasicType),
}

/// What a token is.
#[derive(Debug, Drop)]
pub enum TokenKind {
    Mark(Mark),
    /// A string: the text between its quotes, escapes taken out.
    Text(String),
    /// A byte string: the bytes between its quotes, escapes taken out, without the zero byte at the end.
    ByteString(Vec<u8>),
    /// An integer: whether it has a minus sign, and the number of its digits. 2^64 stands for every number from there on.
    Integer { negative: bool, magnitude: u128 },
    /// `@` and a type.
    Type(TypeText),
    Word(Word),
}

/// A token and where it is.
#[derive(Debug, Drop)]
pub struct Token {
    pub kind: TokenKind,
    pub span: Span,
}

impl Token {
    /// A token between two places.
    pub(crate) fn at(kind: TokenKind, start: usize, end: usize) -> Token
        ensures kind { result.kind ≡ kind }
        ensures span { (result.span.start ≡ start) × (result.span.end ≡ end) }
    {
        Token {
            kind,
            span: Span { start, end },
        }
    }
}
