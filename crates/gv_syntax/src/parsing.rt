//! Reading the syntax of a text (GLib, "GVariant Text Format", Syntax Summary): its tokens, and a value from them, by
//! recursive descent. Each token is looked at once and moved into the tree.
ghost use Rattle.std.specs.Prelude.{◌≡◌, ◌≤◌, ◌∷◌, length, IfOk, IfErr, MatchResult};
ghost use Rattle.gv_model.specs.Parsing.{IsTree};
ghost use Rattle.gv_syntax.specs.Parsed.{IsTextFault, IsTreeOf, IsGrammarFault};

mod braces;
mod marks;
mod sequence;
mod value;

use crate::fault::{TextCause, TextFault};
use crate::lexing::tokens;
use crate::syntax::{Syntax, SyntaxNode};
use crate::token::{Span, Token};
use marks::refused;
use std::alloc::Global;
use value::value;

/// The syntax tree of a text of at most 16 MiB.
///
/// It gives the text's first fault: those of its tokens come before those of its grammar. `Unexpected` is a token that
/// can't occur where it does, and the end of a text in which a value is missing; `Unclosed` is the innermost bracket that
/// is open at the end; `TooDeep` is the first token of a value that is 129 deep. It takes time linear in the text, and
/// calls itself at most 128 deep.
pub fn parse(alloc: Global, text: &str) -> Result<Syntax, TextFault>
    requires { length text.now ≤ 16777216 }
    ensures tree { IfOk result (IsTree text.now) }
    ensures fault { IfErr result (IsTextFault text.now) }
{
    let tokens = tokens(alloc, text)?;
    let root = tree(alloc, tokens, text.len())?;
    Ok(Syntax::of(root))
}

/// The tree of a text's tokens, the text being so long.
fn tree(alloc: Global, tokens: Vec<Token>, length: usize) -> Result<SyntaxNode, TextFault>
    ensures tree { IfOk result (IsTreeOf tokens.items) }
    ensures fault { IfErr result (IsGrammarFault length tokens.items) }
{
    let end = Span {
        start: length,
        end: length,
    };
    let mut rest = tokens.into_iter();
    let root = value(alloc, &mut rest, 1, refused(TextCause::Unexpected, end))?;
    match rest.next() {
        Some(token) => Err(refused(TextCause::Unexpected, token.span)),
        None => Ok(root),
    }
}
