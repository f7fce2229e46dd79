//! Strings and byte strings, from their first quote to their last (GLib, "GVariant Text Format", Strings and
//! Bytestrings).
ghost use Rattle.std.specs.Prelude.{◌≡◌, ◌≤◌, ◌<◌, ◌++◌, ◌+◌, length, drop, get_or, true, false, Ok, IsTrue, IfOk};
ghost use Rattle.std.specs.Prelude.{OnOk, MatchResult, string_bytes};
ghost use Rattle.gv_model.specs.Characters.{prefix_of, is_quote};
ghost use Rattle.gv_syntax.specs.ByteClasses.{is_of};
ghost use Rattle.gv_syntax.specs.declared.lexing.bytes.ByteClass.TheVariants.{Plain};
ghost use Rattle.gv_syntax.specs.LexSteps.{quoted_at, IsFaultOf, char_bytes, byte_alone};
ghost use Rattle.std.specs.Str.{IsCharBoundary};

use crate::fault::{TextCause, TextFault, TextFlaw};
use crate::lexing::bytes::ByteClass;
use crate::lexing::part::{Part, byte_part, text_part};
use std::alloc::{AllocError, Global};

/// The string that begins with the quote at a place, and where it ends.
pub(crate) fn text_between(
    alloc: Global,
    text: &str,
    from: usize,
) -> Result<(String, usize), TextFault>
    requires { (from < length text.now) × IsTrue (is_quote (get_or text.now from 0)) }
    ensures found { MatchResult result
        (λ p. quoted_at false text.now from ≡ Ok (string_bytes p.0, p.1))
        (IsFaultOf (quoted_at false text.now from)) }
    ensures within { IfOk result (λ p. p.1 ≤ length text.now) }
{
    let bytes = text.as_bytes();
    let quote = bytes[from];
    let mut string = String::new(alloc);
    let mut at = from + 1;
    loop {
        at = push_plain(&mut string, text, at, quote)?;
        if at == bytes.len() {
            return Err(TextFlaw::at(TextCause::Unclosed, from, from + 1));
        }
        match text_part(&bytes[at..], quote) {
            Part::Char(meaning, len) => {
                push_char(&mut string, meaning)?;
                at += len;
            }
            Part::Closes => return Ok((string, at + 1)),
            Part::Faulty(cause, start, end) => {
                return Err(TextFlaw::at(cause, at + start, at + end));
            }
        }
    }
}

/// Writes what stands for itself from a place in the text on, and gives the place after it.
fn push_plain(string: &mut String, text: &str, at: usize, quote: u8) -> Result<usize, AllocError>
    requires quote { IsTrue (is_quote quote) }
    requires place { IsCharBoundary text.now at }
    ensures within { IfOk result (λ end. end ≤ length text.now) }
    ensures end { IfOk result (λ end.
        (end ≡ at + length (prefix_of (is_of (Plain quote)) (drop at text.now)))
        × (string_bytes string.new ≡ string_bytes string.old ++ prefix_of (is_of (Plain quote)) (drop at text.now))) }
{
    let end = at + ByteClass::Plain(quote).prefix_len(&text.as_bytes()[at..]);
    string.push_str(&text[at..end])?;
    Ok(end)
}

/// Writes a character, if there is one.
fn push_char(string: &mut String, c: Option<char>) -> Result<(), AllocError>
    ensures { OnOk result (string_bytes string.new ≡ string_bytes string.old ++ char_bytes c) }
{
    if let Some(c) = c {
        string.push(c)?;
    }
    Ok(())
}

/// Writes a byte, if there is one.
fn push_byte(bytes: &mut Vec<u8>, byte: Option<u8>) -> Result<(), AllocError>
    ensures { OnOk result (bytes.new.items ≡ bytes.old.items ++ byte_alone byte) }
{
    if let Some(byte) = byte {
        bytes.push(byte)?;
    }
    Ok(())
}

/// The byte string that begins with the quote at a place, and where it ends.
pub(crate) fn bytes_between(
    alloc: Global,
    text: &[u8],
    from: usize,
) -> Result<(Vec<u8>, usize), TextFault>
    requires { (from < length text.now) × IsTrue (is_quote (get_or text.now from 0)) }
    ensures found { MatchResult result
        (λ p. quoted_at true text.now from ≡ Ok (p.0.items, p.1))
        (IsFaultOf (quoted_at true text.now from)) }
    ensures within { IfOk result (λ p. p.1 ≤ length text.now) }
{
    let quote = text[from];
    let mut bytes = Vec::new(alloc);
    let mut at = from + 1;
    while at < text.len() {
        match byte_part(&text[at..], quote) {
            Part::Char(meaning, len) => {
                push_byte(&mut bytes, meaning)?;
                at += len;
            }
            Part::Closes => return Ok((bytes, at + 1)),
            Part::Faulty(cause, start, end) => {
                return Err(TextFlaw::at(cause, at + start, at + end));
            }
        }
    }
    Err(TextFlaw::at(TextCause::Unclosed, from, from + 1))
}
