//! Reading what occurs in braces: a dictionary's pairs, or an entry by itself.
ghost use Rattle.std.specs.Prelude.{◌≡◌, ◌≤◌, ◌∷◌, [], IfOk, IfErr};
ghost use Rattle.gv_model.specs.GrammarFaults.{Stage.brace_start, Stage.lone_end, Stage.pair_more, Want.inside, Want.a_value};
ghost use Rattle.gv_syntax.specs.Expectations.{left, Stops};
ghost use Rattle.gv_syntax.specs.ParseSteps.{IsBraced, IsEntryAfter, ArePairs, HasPair};

use crate::fault::{TextCause, TextFault};
use crate::parsing::marks::{is_mark, more_follow, next, refused};
use crate::parsing::value::{value, value_before, value_from};
use crate::syntax::{SyntaxKind, SyntaxNode};
use crate::token::{Mark, Span, Token};
use std::alloc::Global;
use std::vec::IntoIter;

/// What the braces hold that were opened there, with parts that are so deep.
#[cycle(parsing)]
pub(crate) fn braces(
    alloc: Global,
    rest: &mut IntoIter<Token>,
    depth: u8,
    opened: Span,
) -> Result<SyntaxKind, TextFault>
    requires { depth ≤ 129 }
    ensures braced { IfOk result (IsBraced depth opened (left rest.old) (left rest.new)) }
    ensures fault { IfErr result (Stops (inside brace_start depth opened ∷ []) (left rest.old)) }
{
    let ended = refused(TextCause::Unclosed, opened);
    let first = next(rest, ended)?;
    if is_mark(&first, Mark::CloseBrace) {
        return Ok(SyntaxKind::Dictionary(Vec::new(alloc)));
    }
    let key = value_from(alloc, first, rest, depth, ended)?;
    // A `,` after the key makes it an entry, a `:` a dictionary.
    if more_follow(rest, Mark::Colon, opened)? {
        return entry_of(alloc, key, rest, depth, opened);
    }
    Ok(SyntaxKind::Dictionary(pairs(alloc, key, rest, depth, opened)?))
}

/// The entry by itself that was opened there, which has that key, whose `,` was read.
#[cycle(parsing)]
fn entry_of(
    alloc: Global,
    key: SyntaxNode,
    rest: &mut IntoIter<Token>,
    depth: u8,
    opened: Span,
) -> Result<SyntaxKind, TextFault>
    requires { depth ≤ 129 }
    ensures entry { IfOk result (IsEntryAfter key depth opened (left rest.old) (left rest.new)) }
    ensures fault { IfErr result (Stops (a_value depth ∷ inside lone_end depth opened ∷ []) (left rest.old)) }
{
    let key = Box::new(alloc, key)?;
    let value = value_before(alloc, rest, depth, Mark::CloseBrace, opened)?;
    Ok(SyntaxKind::Entry(key, Box::new(alloc, value)?))
}

/// The pairs of the dictionary that was opened there, the first of which has that key, whose `:` was read.
#[cycle(parsing)]
fn pairs(
    alloc: Global,
    first: SyntaxNode,
    rest: &mut IntoIter<Token>,
    depth: u8,
    opened: Span,
) -> Result<Vec<(SyntaxNode, SyntaxNode)>, TextFault>
    requires { depth ≤ 129 }
    ensures pairs { IfOk result (λ ps. ArePairs first depth opened (left rest.old) (left rest.new) ps.items) }
    ensures fault { IfErr result (Stops (a_value depth ∷ inside pair_more depth opened ∷ []) (left rest.old)) }
{
    let mut pairs = Vec::new(alloc);
    push_pair(alloc, &mut pairs, first, rest, depth, opened)?;
    while more_follow(rest, Mark::CloseBrace, opened)? {
        let key = value_before(alloc, rest, depth, Mark::Colon, opened)?;
        push_pair(alloc, &mut pairs, key, rest, depth, opened)?;
    }
    Ok(pairs)
}

/// Puts the pair of that key and the value that follows behind the others.
#[cycle(parsing)]
#[inline(always)]
fn push_pair(
    alloc: Global,
    pairs: &mut Vec<(SyntaxNode, SyntaxNode)>,
    key: SyntaxNode,
    rest: &mut IntoIter<Token>,
    depth: u8,
    opened: Span,
) -> Result<(), TextFault>
    requires { depth ≤ 129 }
    ensures pair { IfOk result (λ _. HasPair key depth (left rest.old) (left rest.new) pairs.old.items pairs.new.items) }
    ensures fault { IfErr result (Stops (a_value depth ∷ inside pair_more depth opened ∷ []) (left rest.old)) }
{
    let value = value(alloc, rest, depth, refused(TextCause::Unclosed, opened))?;
    Ok(pairs.push((key, value))?)
}
