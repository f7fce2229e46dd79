//! The tokens of a text, with blanks between (GLib, "GVariant Text Format").
ghost use Rattle.std.specs.Prelude.{◌≡◌, ◌≤◌, ◌<◌, ◌+◌, ◌^◌, suc, ℕ, List, ◌∷◌, true, false, drop, length, IfOk};
ghost use Rattle.std.specs.Prelude.{IfErr, IsTrue, get_or};
ghost use Rattle.gv_model.specs.Characters.{prefix_of, is_quote, is_word_byte};
ghost use Rattle.gv_model.specs.Numerals.{number_at, run_of};
ghost use Rattle.gv_model.specs.Words.{word_at};
ghost use Rattle.gv_model.specs.Strings.{quoted_token};
ghost use Rattle.gv_model.specs.Tokens.Token.{string_token, byte_string};
ghost use Rattle.gv_model.specs.Lexing.{token_at, token_by};
ghost use Rattle.gv_model.specs.Lexing.Start.{of_type, of_mark};
ghost use Rattle.gv_syntax.specs.ModelTokens.{AreTokens, IsTokenFault};
ghost use Rattle.gv_syntax.specs.LexSteps.{IsLexed, placed_as, quoted_at};

mod bytes;
mod mark;
mod numeral;
mod part;
mod quoted;
mod start;
mod word;

use crate::fault::{TextCause, TextFault, TextFlaw};
use crate::token::{Span, Token, TokenKind};
use crate::type_text::TypeText;
use bytes::ByteClass;
use gv_types::TypeStr;
use mark::{char_len, mark};
use numeral::{number, run_len};
use quoted::{bytes_between, text_between};
use start::Start;
use std::alloc::Global;
use word::word;

/// The tokens of a whole text, or its first fault.
///
/// A fault of the text is BadToken, Unclosed, BadEscape or DoubleText, and spans bytes of the text. It takes time and
/// memory linear in the text.
pub fn tokens(alloc: Global, text: &str) -> Result<Vec<Token>, TextFault>
    ensures tokens { IfOk result (λ ts. AreTokens text.now ts.items) }
    ensures fault { IfErr result (IsTokenFault text.now) }
{
    let bytes = text.as_bytes();
    let mut found = Vec::new(alloc);
    let mut at = 0;
    loop {
        at += ByteClass::Blank.prefix_len(&bytes[at..]);
        if at == bytes.len() {
            return Ok(found);
        }
        let token = token_at(alloc, text, at)?;
        at = token.span.end;
        found.push(token)?;
    }
}

/// The token that begins at a place.
fn token_at(alloc: Global, text: &str, at: usize) -> Result<Token, TextFault>
    requires { at < length text.now }
    ensures found { (c : ℕ) (cs : List ℕ) → drop at text.now ≡ c ∷ cs → IsLexed (token_at at c cs) result }
    ensures within { IfOk result (λ t. t.span.end ≤ length text.now) }
{
    let bytes = text.as_bytes();
    let rest = &bytes[at..];
    match Start::of(rest) {
        Start::OfText => text_token(alloc, text, at),
        Start::OfByteString => byte_string_token(alloc, bytes, at),
        Start::OfWord => word_token(rest, at),
        Start::OfNumber => number_token(rest, at),
        Start::OfType => type_token(alloc, text, at),
        Start::OfMark => mark_token(rest[0], at),
    }
}

/// The string whose first quote is at a place.
fn text_token(alloc: Global, text: &str, at: usize) -> Result<Token, TextFault>
    requires { (at < length text.now) × IsTrue (is_quote (get_or text.now at 0)) }
    ensures found { IsLexed (quoted_token string_token at (quoted_at false text.now at)) result }
    ensures within { IfOk result (λ t. t.span.end ≤ length text.now) }
{
    let (string, end) = text_between(alloc, text, at)?;
    Ok(Token::at(TokenKind::Text(string), at, end))
}

/// The byte string whose `b` is at a place.
fn byte_string_token(alloc: Global, text: &[u8], at: usize) -> Result<Token, TextFault>
    requires { (at + 1 < length text.now) × IsTrue (is_quote (get_or text.now (at + 1) 0)) }
    ensures found { IsLexed (quoted_token byte_string at (quoted_at true text.now (at + 1))) result }
    ensures within { IfOk result (λ t. t.span.end ≤ length text.now) }
{
    let (bytes, end) = bytes_between(alloc, text, at + 1)?;
    Ok(Token::at(TokenKind::ByteString(bytes), at, end))
}

/// The word at the start of the rest of a text, which begins at a place.
fn word_token(rest: &[u8], at: usize) -> Result<Token, TextFault>
    requires { at + length rest.now < 2 ^ 64 }
    ensures found { IsLexed (word_at at (prefix_of is_word_byte rest.now)) result }
    ensures within { IfOk result (λ t. t.span.end ≤ at + length rest.now) }
{
    let len = ByteClass::WordByte.prefix_len(rest);
    placed(word(&rest[..len]), at, at + len)
}

/// The number at the start of the rest of a text, which begins at a place.
fn number_token(rest: &[u8], at: usize) -> Result<Token, TextFault>
    requires { (0 < length rest.now) × (at + length rest.now < 2 ^ 64) }
    ensures found { (c : ℕ) (cs : List ℕ) → rest.now ≡ c ∷ cs → IsLexed (number_at at (run_of c cs)) result }
    ensures within { IfOk result (λ t. t.span.end ≤ at + length rest.now) }
{
    let len = run_len(rest);
    placed(number(&rest[..len]), at, at + len)
}

/// A token or a fault between two places.
fn placed(found: Result<TokenKind, TextCause>, start: usize, end: usize) -> Result<Token, TextFault>
    ensures found { IsLexed (placed_as found start end) result }
    ensures end { IfOk result (λ t. t.span.end ≡ end) }
{
    match found {
        Ok(kind) => Ok(Token::at(kind, start, end)),
        Err(cause) => Err(TextFlaw::at(cause, start, end)),
    }
}

/// The type that comes after the `@` at a place.
fn type_token(alloc: Global, text: &str, at: usize) -> Result<Token, TextFault>
    requires { (at < length text.now) × (get_or text.now at 0 ≡ 64) }
    ensures found { IsLexed (token_by of_type at 64 (drop (suc at) text.now)) result }
    ensures within { IfOk result (λ t. t.span.end ≤ length text.now) }
{
    match TypeStr::prefix_of(&text[at + 1..]) {
        Some(found) => {
            let end = at + 1 + found.as_str().len();
            Ok(Token::at(TokenKind::Type(TypeText::copy(alloc, found)?), at, end))
        }
        None => Err(TextFlaw::at(TextCause::BadToken, at, at + 1)),
    }
}

/// The mark that this byte is, at a place.
fn mark_token(c: u8, at: usize) -> Result<Token, TextFault>
    requires { at < 2 ^ 63 }
    ensures found { (cs : List ℕ) → IsLexed (token_by of_mark at c cs) result }
    ensures end { IfOk result (λ t. t.span.end ≡ suc at) }
{
    match mark(c) {
        Some(mark) => Ok(Token::at(TokenKind::Mark(mark), at, at + 1)),
        None => Err(TextFlaw::at(TextCause::BadToken, at, at + char_len(c))),
    }
}
