//! The paths and the options among the words.
ghost use Rattle.std.specs.Prelude.{◌≡◌, Ok, Err, IfErr, IfOk, map, option_map, string_bytes};
ghost use Rattle.dconf_model.specs.Paths.{directory_fault, ends_with_slash, key_fault};
ghost use Rattle.dconf_path.specs.Faults.{path_fault_of};
ghost use Rattle.dconf_by_name.specs.Words.{a_path, behind_option, fault_as, first_path, has_option, only_path, why_of};

use crate::why::{Noun, Why};
use dconf_path::{DirPath, KeyPath, PathFault};

/// The path that comes first, and nothing behind it.
pub(crate) fn only_path<'a>(noun: Noun, words: &'a [String]) -> Result<&'a str, Why>
    ensures ok { IfOk result (λ path. only_path noun (map string_bytes words.entry.now) ≡ Ok path.now) }
    ensures err { IfErr result (λ why. only_path noun (map string_bytes words.entry.now) ≡ Err why) }
{
    let path = first_path(noun, words)?;
    match words {
        [_, _, ..] => Err(Why::TooMany),
        _ => Ok(path),
    }
}

/// The path that comes first.
pub(crate) fn first_path<'a>(noun: Noun, words: &'a [String]) -> Result<&'a str, Why>
    ensures ok { IfOk result (λ path. first_path noun (map string_bytes words.entry.now) ≡ Ok path.now) }
    ensures err { IfErr result (λ why. first_path noun (map string_bytes words.entry.now) ≡ Err why) }
{
    match words {
        [] => Err(Why::Missing(noun)),
        [word, ..] => a_path(noun, word.as_str()),
    }
}

/// The text itself, if it is a path of this kind.
fn a_path(noun: Noun, text: &str) -> Result<&str, Why>
    ensures ok { IfOk result (λ path. a_path noun text.entry.now ≡ Ok path.now) }
    ensures err { IfErr result (λ why. a_path noun text.entry.now ≡ Err why) }
{
    match why_of(noun, fault_as(noun, text)) {
        Some(why) => Err(why),
        None => Ok(text),
    }
}

/// The first fault of a text as a path of this kind.
fn fault_as(noun: Noun, text: &str) -> Option<PathFault>
    ensures { option_map path_fault_of result ≡ fault_as noun text.now }
{
    match noun {
        Noun::Key => key_fault(text),
        Noun::Dir => directory_fault(text),
        Noun::Path if is_directory(text) => directory_fault(text),
        Noun::Path => key_fault(text),
    }
}

fn key_fault(text: &str) -> Option<PathFault>
    ensures { option_map path_fault_of result ≡ key_fault text.now }
{
    match KeyPath::parse(text) {
        Ok(_) => None,
        Err(fault) => Some(fault),
    }
}

fn directory_fault(text: &str) -> Option<PathFault>
    ensures { option_map path_fault_of result ≡ directory_fault text.now }
{
    match DirPath::parse(text) {
        Ok(_) => None,
        Err(fault) => Some(fault),
    }
}

/// What dconf says of a fault.
fn why_of(noun: Noun, fault: Option<PathFault>) -> Option<Why>
    ensures { result ≡ why_of noun (option_map path_fault_of fault) }
{
    match fault {
        Some(PathFault::NotAbsolute) => Some(Why::NotAbsolute(noun)),
        Some(PathFault::DoubleSlash) => Some(Why::DoubleSlash(noun)),
        Some(PathFault::EndsInSlash) => Some(Why::EndsInSlash),
        Some(PathFault::NoEndSlash) => Some(Why::NoEndSlash),
        Some(PathFault::HasNul) => None,
        Some(PathFault::TooLong) => None,
        None => None,
    }
}

/// Whether a path is written as a directory's.
pub(crate) fn is_directory(path: &str) -> bool
    ensures { result ≡ ends_with_slash path.now }
{
    path.as_bytes().ends_with(b"/")
}

/// Whether the first word is this option.
pub(crate) fn has_option(option: &str, words: &[String]) -> bool
    ensures { result ≡ has_option option.now (map string_bytes words.now) }
{
    match words {
        [] => false,
        [word, ..] => word.as_str() == option,
    }
}

/// The words behind the option, if the first is that.
pub(crate) fn behind_option<'a>(option: &str, words: &'a [String]) -> &'a [String]
    ensures { map string_bytes result.now ≡ behind_option option.now (map string_bytes words.entry.now) }
{
    if !has_option(option, words) {
        return words;
    }
    match words {
        [] => words,
        [_, more @ ..] => more,
    }
}
