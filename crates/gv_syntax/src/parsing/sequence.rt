//! Reading arrays and tuples: values with `,` between.
ghost use Rattle.std.specs.Prelude.{◌≡◌, ◌≤◌, ◌∷◌, [], IfOk, IfErr};
ghost use Rattle.gv_model.specs.GrammarFaults.{Stage.list_start, Stage.tuple_start, Want.inside, Want.a_value};
ghost use Rattle.gv_syntax.specs.ModelTokens.{mark_of};
ghost use Rattle.gv_syntax.specs.Expectations.{left, Stops, more_stage, ClosesValues};
ghost use Rattle.gv_syntax.specs.ParseSteps.{AreElements, AreMembers, AreMore};

use crate::fault::{TextCause, TextFault};
use crate::parsing::marks::{expect, is_mark, more_follow, next, refused};
use crate::parsing::value::{value, value_from};
use crate::syntax::SyntaxNode;
use crate::token::{Mark, Span, Token};
use std::alloc::Global;
use std::vec::IntoIter;

/// The elements of the array that was opened there, which are so deep.
#[cycle(parsing)]
pub(crate) fn elements(
    alloc: Global,
    rest: &mut IntoIter<Token>,
    depth: u8,
    opened: Span,
) -> Result<Vec<SyntaxNode>, TextFault>
    requires { depth ≤ 129 }
    ensures elements { IfOk result (λ xs. AreElements depth opened (left rest.old) (left rest.new) xs.items) }
    ensures fault { IfErr result (Stops (inside list_start depth opened ∷ []) (left rest.old)) }
{
    let none = Vec::new(alloc);
    let first = next(rest, refused(TextCause::Unclosed, opened))?;
    if is_mark(&first, Mark::CloseArray) {
        return Ok(none);
    }
    values_until(alloc, first, rest, depth, opened, Mark::CloseArray, none)
}

/// The members of the tuple that was opened there, which are so deep. A single one has a `,` after it.
#[cycle(parsing)]
pub(crate) fn members(
    alloc: Global,
    rest: &mut IntoIter<Token>,
    depth: u8,
    opened: Span,
) -> Result<Vec<SyntaxNode>, TextFault>
    requires { depth ≤ 129 }
    ensures members { IfOk result (λ xs. AreMembers depth opened (left rest.old) (left rest.new) xs.items) }
    ensures fault { IfErr result (Stops (inside tuple_start depth opened ∷ []) (left rest.old)) }
{
    let ended = refused(TextCause::Unclosed, opened);
    let first = next(rest, ended)?;
    if is_mark(&first, Mark::CloseTuple) {
        return Ok(Vec::new(alloc));
    }
    let mut members = Vec::new(alloc);
    members.push(value_from(alloc, first, rest, depth, ended)?)?;
    expect(rest, Mark::Comma, opened)?;
    let second = next(rest, ended)?;
    if is_mark(&second, Mark::CloseTuple) {
        return Ok(members);
    }
    values_until(
        alloc,
        second,
        rest,
        depth,
        opened,
        Mark::CloseTuple,
        members,
    )
}

/// The values, and after them those up to the mark that closes the bracket, the first of which begins with that token.
#[cycle(parsing)]
fn values_until(
    alloc: Global,
    first: Token,
    rest: &mut IntoIter<Token>,
    depth: u8,
    opened: Span,
    close: Mark,
    values: Vec<SyntaxNode>,
) -> Result<Vec<SyntaxNode>, TextFault>
    requires depth { depth ≤ 129 }
    requires closes { ClosesValues close }
    ensures values { IfOk result (λ xs. AreMore close depth opened (first ∷ left rest.old) (left rest.new) values.items xs.items) }
    ensures fault { IfErr result (Stops (a_value depth ∷ inside (more_stage close) depth opened ∷ []) (first ∷ left rest.old)) }
{
    let ended = refused(TextCause::Unclosed, opened);
    let mut values = values;
    values.push(value_from(alloc, first, rest, depth, ended)?)?;
    while more_follow(rest, close, opened)? {
        values.push(value(alloc, rest, depth, ended)?)?;
    }
    Ok(values)
}
