//! A line for each key that is seen otherwise.
ghost use Rattle.std.specs.Prelude.{◌≡◌, ◌≤◌, ◌++◌, IfOk, Some, map, option_map, string_bytes};
ghost use Rattle.gv_view.specs.Views.{value};
ghost use Rattle.dconf_model.specs.Explains.{told_value};
ghost use Rattle.dconf_model.specs.Layers.{all_paths};
ghost use Rattle.dconf_path.specs.Paths.{key_text};
ghost use Rattle.dconf_layers.specs.LayerSettings.{seen_in};
ghost use Rattle.dconf_differences.specs.Differing.{AreDiffering};
ghost use Rattle.dconf_compared.specs.Compared.{key_line, line_of, lines_of, lock_word, seen_text, told};

use dconf_differences::differing;
use dconf_layers::LentLayers;
use dconf_path::KeyPath;
use gv_text::{PrintFault, PrintFlaw, print};
use gv_view::View;
use std::alloc::{AllocError, Global};

/// The keys that are seen otherwise through the second layers than through the first, in the order of their bytes.
pub fn changed(
    alloc: Global,
    first: LentLayers<'_, '_>,
    second: LentLayers<'_, '_>,
) -> Result<Vec<String>, AllocError>
    ensures { IfOk result (λ paths. AreDiffering (seen_in first.entry) (seen_in second.entry)
        (all_paths (seen_in first.entry).layers ++ all_paths (seen_in second.entry).layers) (map string_bytes paths.items)) }
{
    let count = greater(first.layers.len(), second.layers.len());
    differing(alloc, first, second, count)
}

fn greater(a: usize, b: usize) -> usize
    ensures first { a ≤ result }
    ensures second { b ≤ result }
{
    if a < b { b } else { a }
}

/// A line for each of these keys, after `start`: what is seen through the first layers, and through the second.
pub(crate) fn key_lines(
    alloc: Global,
    start: &str,
    first: LentLayers<'_, '_>,
    second: LentLayers<'_, '_>,
    paths: &[String],
) -> Result<String, AllocError>
    ensures { IfOk result (λ text. string_bytes text ≡ lines_of start.now (seen_in first.entry) (seen_in second.entry) (map string_bytes paths.now)) }
{
    let mut text = String::new(alloc);
    for path in paths {
        let line = line_of(alloc, start, first, second, path.as_str())?;
        text.push_str(line.as_str())?;
    }
    Ok(text)
}

fn line_of(
    alloc: Global,
    start: &str,
    first: LentLayers<'_, '_>,
    second: LentLayers<'_, '_>,
    path: &str,
) -> Result<String, AllocError>
    ensures { IfOk result (λ line. string_bytes line ≡ line_of start.now (seen_in first.entry) (seen_in second.entry) path.now) }
{
    match KeyPath::parse(path) {
        Ok(key) => key_line(alloc, start, first, second, key),
        Err(_) => Ok(String::new(alloc)),
    }
}

fn key_line(
    alloc: Global,
    start: &str,
    first: LentLayers<'_, '_>,
    second: LentLayers<'_, '_>,
    key: KeyPath<'_>,
) -> Result<String, AllocError>
    ensures { IfOk result (λ line. string_bytes line ≡ key_line start.now (seen_in first.entry) (seen_in second.entry) (key_text key.entry)) }
{
    let before = seen_text(alloc, first, key)?;
    let after = seen_text(alloc, second, key)?;
    let path = key.as_str();
    format!(in alloc; "{start}{path}: {before} -> {after}\n")
}

/// What is seen at a key, and whether it is locked.
fn seen_text(
    alloc: Global,
    layers: LentLayers<'_, '_>,
    key: KeyPath<'_>,
) -> Result<String, AllocError>
    ensures { IfOk result (λ text. string_bytes text ≡ seen_text (seen_in layers.entry) (key_text key.entry)) }
{
    let value = told(alloc, layers.read(key))?;
    let lock = lock_word(layers.is_locked(key));
    format!(in alloc; "{value}{lock}")
}

fn lock_word(is_locked: bool) -> &'static str
    ensures { result.now ≡ lock_word is_locked }
{
    if is_locked { ", locked" } else { "" }
}

/// The text of a value that is seen, or why there is none.
fn told(alloc: Global, seen: Option<View<'_>>) -> Result<String, AllocError>
    ensures { IfOk result (λ text. string_bytes text ≡ told (option_map value seen.entry)) }
{
    match seen {
        Some(view) => text_of(alloc, view),
        None => String::from_str(alloc, "unset"),
    }
}

fn text_of(alloc: Global, view: View<'_>) -> Result<String, AllocError>
    ensures { IfOk result (λ text. string_bytes text ≡ told_value (Some (value view.entry))) }
{
    match print(alloc, view) {
        Ok(text) => Ok(text),
        Err(PrintFault::Fault(flaw)) => match flaw {
            PrintFlaw::TooLarge => String::from_str(alloc, "too large, not printed"),
            PrintFlaw::DoubleText => String::from_str(alloc, "a double, not printed"),
        },
        Err(PrintFault::Memory) => Err(AllocError),
    }
}
