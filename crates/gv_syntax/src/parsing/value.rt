//! Reading a value: its first token, and what follows in it.
ghost use Rattle.std.specs.Prelude.{◌≡◌, ◌≤◌, ◌∷◌, ◌↔◌, [], ℕ, IfOk, IfErr, IsSome, IsTrue};
ghost use Rattle.gv_model.specs.Tokens.Token.{mark as mark_token, word as word_token};
ghost use Rattle.gv_model.specs.GrammarFaults.{Want.a_value, Want.inside, begun_wants};
ghost use Rattle.gv_syntax.specs.ModelTokens.{token_of, mark_of, word_of};
ghost use Rattle.gv_syntax.specs.Expectations.{left, StopsWith, Stops, EndsValue, end_stage, wants_after};
ghost use Rattle.gv_syntax.specs.ParseSteps.{IsValue, IsValueBefore, IsAfter, BeginsValue};
ghost use Rattle.gv_syntax.specs.declared.token.Span.{Span};

use crate::fault::{TextCause, TextFault};
use crate::parsing::braces::braces;
use crate::parsing::marks::{expect, next, refused};
use crate::parsing::sequence::{elements, members};
use crate::syntax::{Syntax, SyntaxKind, SyntaxNode};
use crate::token::{Mark, Span, Token, TokenKind, Word};
use std::alloc::Global;
use std::vec::IntoIter;

/// The value at the start of the tokens, which is so deep; and the fault where the text ends in it outside a bracket.
#[cycle(parsing)]
pub(crate) fn value(
    alloc: Global,
    rest: &mut IntoIter<Token>,
    depth: u8,
    ended: TextFault,
) -> Result<SyntaxNode, TextFault>
    requires { depth ≤ 129 }
    ensures value { IfOk result (IsValue depth (left rest.old) (left rest.new)) }
    ensures fault { IfErr result (StopsWith ended (a_value depth ∷ []) (left rest.old)) }
{
    let first = next(rest, ended)?;
    value_from(alloc, first, rest, depth, ended)
}

/// The value at the start of the tokens, which is so deep, in a bracket that was opened there. It
/// takes the mark after it, too.
#[cycle(parsing)]
pub(crate) fn value_before(
    alloc: Global,
    rest: &mut IntoIter<Token>,
    depth: u8,
    mark: Mark,
    opened: Span,
) -> Result<SyntaxNode, TextFault>
    requires depth { depth ≤ 129 }
    requires ends { EndsValue mark }
    ensures value { IfOk result (IsValueBefore (mark_of mark) depth (left rest.old) (left rest.new)) }
    ensures fault { IfErr result (Stops (a_value depth ∷ inside (end_stage mark) depth opened ∷ []) (left rest.old)) }
{
    let value = value(alloc, rest, depth, refused(TextCause::Unclosed, opened))?;
    expect(rest, mark, opened).and(Ok(value))
}

/// The value that begins with that token.
#[cycle(parsing)]
pub(crate) fn value_from(
    alloc: Global,
    first: Token,
    rest: &mut IntoIter<Token>,
    depth: u8,
    ended: TextFault,
) -> Result<SyntaxNode, TextFault>
    requires { depth ≤ 129 }
    ensures value { IfOk result (IsValue depth (first ∷ left rest.old) (left rest.new)) }
    ensures fault { IfErr result (StopsWith ended (a_value depth ∷ []) (first ∷ left rest.old)) }
{
    check_begin(&first, depth)?;
    let kind = after_first(alloc, first, rest, depth, ended)?;
    Ok(SyntaxNode { kind })
}

/// That a value so deep may begin with the token.
fn check_begin(first: &Token, depth: u8) -> Result<(), TextFault>
    ensures { BeginsValue depth first.now result }
{
    if !begins_value(&first.kind) {
        return Err(refused(TextCause::Unexpected, first.span));
    }
    if depth > Syntax::MAX_LEVELS {
        return Err(refused(TextCause::TooDeep, first.span));
    }
    Ok(())
}

/// Whether values begin with the token.
fn begins_value(kind: &TokenKind) -> bool
    ensures { (d : ℕ) → (s : Span) → IsTrue result ↔ IsSome (begun_wants d s (token_of kind.now)) }
{
    match kind {
        TokenKind::Mark(mark) => match mark {
            Mark::OpenTuple | Mark::OpenArray | Mark::OpenBrace | Mark::OpenVariant => true,
            _ => false,
        },
        _ => true,
    }
}

/// What a value is whose first token that is.
#[cycle(parsing)]
fn after_first(
    alloc: Global,
    first: Token,
    rest: &mut IntoIter<Token>,
    depth: u8,
    ended: TextFault,
) -> Result<SyntaxKind, TextFault>
    requires depth { depth ≤ 128 }
    requires begins { IsSome (begun_wants depth first.span (token_of first.kind)) }
    ensures value { IfOk result (IsAfter depth first.span (token_of first.kind) (left rest.old) (left rest.new)) }
    ensures fault { IfErr result (StopsWith ended (wants_after depth first.span (token_of first.kind)) (left rest.old)) }
{
    match first.kind {
        TokenKind::Text(text) => Ok(SyntaxKind::Text(text)),
        TokenKind::ByteString(bytes) => Ok(SyntaxKind::ByteString(bytes)),
        TokenKind::Integer {
            negative,
            magnitude,
        } => Ok(SyntaxKind::Integer {
            negative,
            magnitude,
        }),
        TokenKind::Type(of) => {
            let inner = value(alloc, rest, depth + 1, ended)?;
            Ok(SyntaxKind::OfType(of, Box::new(alloc, inner)?))
        }
        TokenKind::Word(word) => after_word(alloc, word, rest, depth, ended),
        TokenKind::Mark(mark) => after_mark(alloc, mark, first.span, rest, depth),
    }
}

/// What a value so deep is that begins with the word.
#[cycle(parsing)]
fn after_word(
    alloc: Global,
    word: Word,
    rest: &mut IntoIter<Token>,
    depth: u8,
    ended: TextFault,
) -> Result<SyntaxKind, TextFault>
    requires { depth ≤ 128 }
    ensures value { (s : Span) → IfOk result (IsAfter depth s (word_token (word_of word)) (left rest.old) (left rest.new)) }
    ensures fault { (s : Span) → IfErr result (StopsWith ended (wants_after depth s (word_token (word_of word))) (left rest.old)) }
{
    match word {
        Word::Truth(truth) => Ok(SyntaxKind::Truth(truth)),
        Word::Nothing => Ok(SyntaxKind::Nothing),
        Word::Just => {
            let inner = value(alloc, rest, depth + 1, ended)?;
            Ok(SyntaxKind::Just(Box::new(alloc, inner)?))
        }
        Word::Type(of) => {
            let inner = value(alloc, rest, depth + 1, ended)?;
            Ok(SyntaxKind::Keyword(of, Box::new(alloc, inner)?))
        }
    }
}

/// What a value so deep is that begins with the mark there.
#[cycle(parsing)]
fn after_mark(
    alloc: Global,
    mark: Mark,
    opened: Span,
    rest: &mut IntoIter<Token>,
    depth: u8,
) -> Result<SyntaxKind, TextFault>
    requires depth { depth ≤ 128 }
    requires begins { IsSome (begun_wants depth opened (mark_token (mark_of mark))) }
    ensures value { IfOk result (IsAfter depth opened (mark_token (mark_of mark)) (left rest.old) (left rest.new)) }
    ensures fault { IfErr result (Stops (wants_after depth opened (mark_token (mark_of mark))) (left rest.old)) }
{
    match mark {
        Mark::OpenArray => Ok(SyntaxKind::Array(elements(alloc, rest, depth + 1, opened)?)),
        Mark::OpenTuple => Ok(SyntaxKind::Tuple(members(alloc, rest, depth + 1, opened)?)),
        Mark::OpenBrace => braces(alloc, rest, depth + 1, opened),
        Mark::OpenVariant => {
            let inner = value_before(alloc, rest, depth + 1, Mark::CloseVariant, opened)?;
            Ok(SyntaxKind::Variant(Box::new(alloc, inner)?))
        }
        _ => unreachable!(),
    }
}
