//! Taking tokens from the start of those that are left.
ghost use Rattle.std.specs.Prelude.{◌≡◌, ◌∷◌, [], ◌↔◌, IsTrue, MatchResult};
ghost use Rattle.gv_model.specs.Tokens.Token.{mark as mark_token};
ghost use Rattle.gv_syntax.specs.ModelTokens.{token_of, mark_of};
ghost use Rattle.gv_syntax.specs.Expectations.{left, TakesMark, TakesSeparator};
ghost use Rattle.refused.specs.declared.Refused.TheVariants.{Fault};

use crate::fault::{TextCause, TextFault, TextFlaw};
use crate::token::{Mark, Span, Token, TokenKind};
use std::vec::IntoIter;

/// The fault of a cause at a span.
pub(crate) fn refused(cause: TextCause, span: Span) -> TextFault
    ensures { result ≡ Fault (record { cause = cause; span = span }) }
{
    TextFault::Fault(TextFlaw { cause, span })
}

/// The next token, or that fault where there is none.
pub(crate) fn next(rest: &mut IntoIter<Token>, ended: TextFault) -> Result<Token, TextFault>
    ensures { MatchResult result (λ t. left rest.old ≡ t ∷ left rest.new) (λ f. (left rest.old ≡ []) × (f ≡ ended)) }
{
    match rest.next() {
        Some(token) => Ok(token),
        None => Err(ended),
    }
}

/// Whether the token is that mark.
pub(crate) fn is_mark(token: &Token, mark: Mark) -> bool
    ensures { IsTrue result ↔ (token_of token.now.kind ≡ mark_token (mark_of mark)) }
{
    match &token.kind {
        TokenKind::Mark(found) => *found == mark,
        _ => false,
    }
}

/// Takes that mark, in a bracket that was opened there.
pub(crate) fn expect(rest: &mut IntoIter<Token>, mark: Mark, opened: Span) -> Result<(), TextFault>
    ensures { TakesMark (mark_of mark) opened (left rest.old) (left rest.new) result }
{
    let token = next(rest, refused(TextCause::Unclosed, opened))?;
    if !is_mark(&token, mark) {
        return Err(refused(TextCause::Unexpected, token.span));
    }
    Ok(())
}

/// Takes a `,` or that other mark, in a bracket that was opened there: whether it was a `,`.
pub(crate) fn more_follow(
    rest: &mut IntoIter<Token>,
    other: Mark,
    opened: Span,
) -> Result<bool, TextFault>
    ensures { TakesSeparator (mark_of other) opened (left rest.old) (left rest.new) result }
{
    let token = next(rest, refused(TextCause::Unclosed, opened))?;
    if is_mark(&token, Mark::Comma) {
        return Ok(true);
    }
    if !is_mark(&token, other) {
        return Err(refused(TextCause::Unexpected, token.span));
    }
    Ok(false)
}
