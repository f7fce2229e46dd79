//! Plain literals, which are read at sight: a text that is what is printed for a value reads as that value.
#![tactic(auto, unfolding(gv_model::specs::Printed::text_of, gv_model::specs::Printed::holds_double, gv_model::specs::Tree::depth))]

ghost use Rattle.std.specs.Prelude.{◌≡◌, ◌≢◌, ◌≤◌, ◌-◌, IfOk, IfSome, IsTrue, Ok, decimal, get_or, length};
ghost use Rattle.gv_model.specs.Quoted.{quoted};
ghost use Rattle.gv_tree.specs.Basics.{basic_tree};
ghost use Rattle.gv_infer.specs.PrintedTexts.{IsPrintedFor};
ghost use Rattle.gv_infer.specs.Reads.{Reads};

use gv_syntax::is_plain;
use gv_tree::{Basic, Tree};
use std::alloc::{AllocError, Global};

/// The value of a truth value, of an `i` or a `u` that is printed so and has no minus sign, or of a string in `'` whose
/// characters stand for themselves. None says nothing of the text.
pub(crate) fn read_plain(alloc: Global, text: &str) -> Result<Option<Tree>, AllocError>
    ensures { IfOk result (λ found. IfSome found (λ v. Reads text.now (Ok v))) }
{
    match plain_value(alloc, text)? {
        Some(value) => Ok(Tree::basic(alloc, value).ok()),
        None => Ok(None),
    }
}

/// The value that the text is printed for, as its first byte promises.
fn plain_value(alloc: Global, text: &str) -> Result<Option<Basic>, AllocError>
    ensures { IfOk result (λ found. IfSome found (λ value. IsPrintedFor text.now (basic_tree value))) }
{
    match text.as_bytes().first() {
        Some(b'\'') => string(alloc, text),
        Some(b'0'..=b'9') => Ok(int32(text)),
        Some(b'u') => Ok(uint32(text)),
        Some(b't') if text == "true" => Ok(Some(Basic::Bool(true))),
        Some(b'f') if text == "false" => Ok(Some(Basic::Bool(false))),
        _ => Ok(None),
    }
}

/// A string in `'`.
fn string(alloc: Global, text: &str) -> Result<Option<Basic>, AllocError>
    ensures { IfOk result (λ found. IfSome found (λ value. IsPrintedFor text.now (basic_tree value))) }
{
    match between_quotes(text) {
        Some(inner) => Ok(Some(Basic::Text(String::from_str(alloc, inner)?))),
        None => Ok(None),
    }
}

/// What is between the `'`, if each character of it stands for itself.
fn between_quotes(text: &str) -> Option<&str>
    ensures { IfSome result (λ inner. quoted inner.now ≡ text.now) }
{
    if !is_in_quotes(text.as_bytes()) {
        return None;
    }
    let inner = text.get(1..text.len() - 1)?;
    if is_plain(inner.as_bytes(), '\'') {
        Some(inner)
    } else {
        None
    }
}

/// Whether the first byte and the last one are a `'`.
fn is_in_quotes(text: &[u8]) -> bool
    ensures len { IsTrue result → 2 ≤ length text.now }
    ensures first { IsTrue result → get_or text.now 0 0 ≡ 39 }
    ensures last { IsTrue result → get_or text.now (length text.now - 1) 0 ≡ 39 }
{
    matches!(text, [b'\'', .., b'\''])
}

/// A number of an `i` without a sign.
fn int32(text: &str) -> Option<Basic>
    ensures { IfSome result (λ value. IsPrintedFor text.now (basic_tree value)) }
{
    let number = i32::try_from(number(text)?).ok()?;
    Some(Basic::Int32(number))
}

/// A number of a `u` after its word.
fn uint32(text: &str) -> Option<Basic>
    ensures { IfSome result (λ value. IsPrintedFor text.now (basic_tree value)) }
{
    Some(Basic::Uint32(number(text.strip_prefix("uint32 ")?)?))
}

/// The number that these digits are printed for.
fn number(digits: &str) -> Option<u32>
    ensures { IfSome result (λ n. decimal n ≡ digits.now) }
{
    if !begins_as_printed(digits.as_bytes()) {
        return None;
    }
    u32::from_str_radix(digits, 10).ok()
}

/// Whether digits begin as those of a number that is printed: with no sign, and with a zero only where that is all.
fn begins_as_printed(digits: &[u8]) -> bool
    ensures plus { IsTrue result → get_or digits.now 0 0 ≢ 43 }
    ensures zero { IsTrue result → get_or digits.now 0 0 ≡ 48 → length digits.now ≡ 1 }
{
    matches!(digits, [b'1'..=b'9', ..] | [b'0'])
}
