//! The syntax tree of a text, and what it tells of itself.
ghost use Rattle.std.specs.Prelude.{◌≡◌, ◌≤◌};
ghost use Rattle.gv_model.specs.Syntax.{levels};
ghost use Rattle.gv_model.specs.Grammar.{text_bytes};

use crate::type_text::TypeText;
use gv_types::BasicType;
use std::fmt;
use std::marker::Model;

/// A part of a syntax tree: what it is, and the parts in it.
#[cycle(syntax)]
#[derive(Drop)]
pub struct SyntaxNode {
    pub kind: SyntaxKind,
}

/// What a part of a syntax tree is.
#[cycle(syntax)]
#[derive(Debug, Drop)]
pub enum SyntaxKind {
    /// `true` or `false`.
    Truth(bool),
    /// An integer: whether it has a minus sign, and the number of its digits. 2^64 stands for every number from there on.
    Integer { negative: bool, magnitude: u128 },
    /// A string: the text between its quotes, escapes taken out.
    Text(String),
    /// A byte string: the bytes between its quotes, escapes taken out, without the zero byte at the end.
    ByteString(Vec<u8>),
    /// `[..]`
    Array(Vec<SyntaxNode>),
    /// `(..)`
    Tuple(Vec<SyntaxNode>),
    /// `{k: v, ..}`
    Dictionary(Vec<(SyntaxNode, SyntaxNode)>),
    /// `{k, v}`
    Entry(Box<SyntaxNode>, Box<SyntaxNode>),
    /// `<..>`
    Variant(Box<SyntaxNode>),
    /// `just ..`
    Just(Box<SyntaxNode>),
    /// `nothing`
    Nothing,
    /// `@` and a type, and a value of that type.
    OfType(TypeText, Box<SyntaxNode>),
    /// A word like `byte` or `uint32`, and a value of that type.
    Keyword(BasicType, Box<SyntaxNode>),
}

impl Model for SyntaxNode {
    ghost use Rattle.gv_model.specs.Syntax.{Syntax as Shown};
    ghost use Rattle.gv_syntax.specs.SyntaxCodes.{coded_syntax};

    ghost Value = { Shown };

    ghost coded = { coded_syntax };

    ghost use Rattle.gv_model.specs.Syntax.{levels};
    ghost use Rattle.gv_syntax.specs.SyntaxNodes.{syntax_of};

    ghost view = { λ a. syntax_of a.kind };

    ghost size = { levels };

    ghost use Rattle.gv_syntax.specs.SyntaxFalls.{deep-le_levels};

    ghost size_decreases = { λ a h. deep-le_levels a.kind };
}

/// It shows none of its parts: there may be many. Its kind shows one level of them.
impl fmt::Debug for SyntaxNode {
    ghost use Rattle.std.specs.Prelude.{None};

    ghost debug_output = { λ _. None };

    fn fmt<W: fmt::Write>(&self, f: &mut fmt::Formatter<W>) -> fmt::Result {
        f.write_str("SyntaxNode { .. }")
    }
}

/// The syntax tree of a text: at most 128 levels, and of a text of at most 16 MiB.
#[derive(Debug, Drop)]
pub struct Syntax {
    root: SyntaxNode,
}

impl Model for Syntax {
    ghost use Rattle.gv_model.specs.Syntax.{Syntax as Shown};
    ghost use Rattle.gv_syntax.specs.SyntaxCodes.{coded_syntax};

    ghost Value = { Shown };

    ghost coded = { coded_syntax };

    ghost view = { λ a. a.root };

    ghost use Rattle.gv_syntax.specs.Parsed.{IsWithin};

    ghost invariant = { λ a. IsWithin a.root };
}

impl Syntax {
    ghost use Rattle.gv_syntax.specs.Parsed.{IsWithin};

    /// The most levels of a tree.
    pub const MAX_LEVELS: u8 = 128;

    /// The most bytes of a text that is read.
    pub const MAX_TEXT_LEN: usize = 16_777_216;

    /// The tree of a text.
    pub(crate) fn of(root: SyntaxNode) -> Syntax
        requires { IsWithin root }
        ensures { result ≡ root }
    {
        Syntax { root }
    }

    /// The whole tree.
    pub fn root(&self) -> &SyntaxNode
        ensures root { result.now ≡ self.now }
        ensures within { IsWithin self.now }
    {
        &self.root
    }
}
