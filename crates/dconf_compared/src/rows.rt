//! The rows of the keys that have another value, and a line for each key that has none any more.
ghost use Rattle.std.specs.Prelude.{◌≡◌, IfOk, codes, map, not, option_map, string_bytes};
ghost use Rattle.gv_view.specs.Views.{value};
ghost use Rattle.dconf_path.specs.Paths.{key_text};
ghost use Rattle.keyfile_core.specs.DumpRows.{AreBelow, setting_of};
ghost use Rattle.dconf_layers.specs.LayerSettings.{seen_in};
ghost use Rattle.dconf_differences.specs.Differing.{same_value};
ghost use Rattle.dconf_compared.specs.Compared.{is_gone, reset_line, resets_of, settings_anew, settings_anew_at, settings_at};
ghost use Rattle.dconf_compared.specs.Rows.{IsBelowRoot, settings_in};

use dconf_differences::show_same;
use dconf_layers::LentLayers;
use dconf_path::KeyPath;
use gv_text::{PrintFault, print};
use gv_view::View;
use std::alloc::{AllocError, Global};

/// A setting: the path of a key, and the text of its value.
pub(crate) type Row<'p> = (KeyPath<'p>, String);

/// The settings of those keys whose value through the second layers is another one, and has a text.
pub(crate) fn rows<'p>(
    alloc: Global,
    first: LentLayers<'_, '_>,
    second: LentLayers<'_, '_>,
    paths: &'p [String],
) -> Result<Vec<Row<'p>>, AllocError>
    ensures rows { IfOk result (λ rows. map setting_of rows.items ≡ settings_anew (seen_in first.entry) (seen_in second.entry) (map string_bytes paths.entry.now)) }
    ensures below { IfOk result (λ rows. AreBelow (codes "/") rows.items) }
{
    let mut rows = Vec::new(alloc);
    for path in paths {
        if let Some(row) = row(alloc, first, second, path.as_str())? {
            rows.push(row)?;
        }
    }
    Ok(rows)
}

fn row<'p>(
    alloc: Global,
    first: LentLayers<'_, '_>,
    second: LentLayers<'_, '_>,
    path: &'p str,
) -> Result<Option<Row<'p>>, AllocError>
    ensures row { IfOk result (λ row. settings_in (option_map setting_of row) ≡ settings_anew_at (seen_in first.entry) (seen_in second.entry) path.entry.now) }
    ensures below { IfOk result IsBelowRoot }
{
    let Ok(key) = KeyPath::parse(path) else {
        return Ok(None);
    };
    let after = second.read(key);
    if !is_other(alloc, first.read(key), after)? {
        return Ok(None);
    }
    row_of(alloc, key, after)
}

/// Whether another value is seen.
fn is_other(
    alloc: Global,
    before: Option<View<'_>>,
    after: Option<View<'_>>,
) -> Result<bool, AllocError>
    ensures { IfOk result (λ is. is ≡ not (same_value (option_map value before.entry) (option_map value after.entry))) }
{
    match (before, after) {
        (Some(before), Some(after)) => {
            let same = show_same(alloc, before, after)?;
            Ok(!same)
        }
        (None, None) => Ok(false),
        _ => Ok(true),
    }
}

/// The setting of a value that has a text.
fn row_of<'p>(
    alloc: Global,
    key: KeyPath<'p>,
    seen: Option<View<'_>>,
) -> Result<Option<Row<'p>>, AllocError>
    ensures row { IfOk result (λ row. settings_in (option_map setting_of row) ≡ settings_at (key_text key.entry) (option_map value seen.entry)) }
    ensures below { IfOk result IsBelowRoot }
{
    let Some(view) = seen else {
        return Ok(None);
    };
    match print(alloc, view) {
        Ok(text) => Ok(Some((key, text))),
        Err(PrintFault::Fault(_)) => Ok(None),
        Err(PrintFault::Memory) => Err(AllocError),
    }
}

/// A line for each of these keys that has a value through the first layers alone.
pub(crate) fn resets(
    alloc: Global,
    first: LentLayers<'_, '_>,
    second: LentLayers<'_, '_>,
    paths: &[String],
) -> Result<String, AllocError>
    ensures { IfOk result (λ text. string_bytes text ≡ resets_of (seen_in first.entry) (seen_in second.entry) (map string_bytes paths.now)) }
{
    let mut text = String::new(alloc);
    for path in paths {
        let line = reset_line(alloc, first, second, path.as_str())?;
        text.push_str(line.as_str())?;
    }
    Ok(text)
}

fn reset_line(
    alloc: Global,
    first: LentLayers<'_, '_>,
    second: LentLayers<'_, '_>,
    path: &str,
) -> Result<String, AllocError>
    ensures { IfOk result (λ line. string_bytes line ≡ reset_line (seen_in first.entry) (seen_in second.entry) path.now) }
{
    if is_gone(first, second, path) {
        return format!(in alloc; "# reset {path}\n");
    }
    Ok(String::new(alloc))
}

fn is_gone(first: LentLayers<'_, '_>, second: LentLayers<'_, '_>, path: &str) -> bool
    ensures { result ≡ is_gone (seen_in first.entry) (seen_in second.entry) path.now }
{
    match KeyPath::parse(path) {
        Ok(key) => first.read(key).is_some() && second.read(key).is_none(),
        Err(_) => false,
    }
}
