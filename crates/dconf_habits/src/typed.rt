//! A negative number in place of a value.
ghost use Rattle.std.specs.Prelude.{◌≡◌, OnOk, map, string_bytes, vec_items, option_map};
ghost use Rattle.dconf_habits.specs.Typed.{ends_in_number, has_dashes, is_digit, is_negative, is_negative_if_any, is_write_if_any, with_dashes};

use std::alloc::{AllocError, Global};

/// Puts `--` before the value of `write` that is a negative number, so that it isn't taken for an option. Other lines stay as they are, and so
/// does one that has a `--`.
pub fn with_dashes(alloc: Global, words: &mut Vec<String>) -> Result<(), AllocError>
    ensures { OnOk result (map string_bytes (vec_items words.new) ≡ with_dashes (map string_bytes (vec_items words.old))) }
{
    if !ends_in_number(words.as_slice()) {
        return Ok(());
    }
    let dashes = String::from_str(alloc, "--")?;
    let last = words.len() - 1;
    words.insert(last, dashes)?;
    Ok(())
}

/// Whether the words are those of `write`, without a `--`, and the last one begins as a negative number.
fn ends_in_number(words: &[String]) -> bool
    ensures { result ≡ ends_in_number (map string_bytes words.now) }
{
    words.len() > 3
        && is_write_if_any(words.get(1))
        && is_negative_if_any(words.last())
        && !has_dashes(words)
}

fn is_write_if_any(word: Option<&String>) -> bool
    ensures { result ≡ is_write_if_any (option_map (λ w. string_bytes w.now) word.entry) }
{
    match word {
        Some(word) => word.as_str() == "write",
        None => false,
    }
}

fn is_negative_if_any(word: Option<&String>) -> bool
    ensures { result ≡ is_negative_if_any (option_map (λ w. string_bytes w.now) word.entry) }
{
    match word {
        Some(word) => is_negative(word.as_bytes()),
        None => false,
    }
}

fn has_dashes(words: &[String]) -> bool
    ensures { result ≡ has_dashes (map string_bytes words.now) }
{
    words.iter().any(|word| word.as_str() == "--")
}

/// Whether a word is a minus sign, a digit and whatever follows.
fn is_negative(word: &[u8]) -> bool
    ensures { result ≡ is_negative word.now }
{
    match word {
        [first, second, ..] => *first == b'-' && is_digit(*second),
        _ => false,
    }
}

fn is_digit(byte: u8) -> bool
    ensures { result ≡ is_digit byte }
{
    47 < byte && byte < 58
}
