//! Rows written as a keyfile: the directory's own keys first, then group by group, in byte order.
ghost use Rattle.std.specs.Prelude.{◌≡◌, ◌++◌, ◌∷◌, [], None, Ok, Err, IfOk, IfErr, OnOk, map, option_map, string_bytes};
ghost use Rattle.refused.specs.Faults.{OfFault};
ghost use Rattle.dconf_model.specs.Keyfiles.{dumped, heading, heading_after, in_groups, text_after};
ghost use Rattle.dconf_path.specs.Paths.{directory_text};
ghost use Rattle.keyfile_core.specs.DumpRows.{AreAllBelow, AreBelow, dump_meant, setting_of};
ghost use Rattle.keyfile_core.specs.RowsFaults.{rows_fault_of};

use crate::dump_row::{DumpRow, rows_below};
use crate::groups::group_name;
use crate::rows_fault::RowsFault;
use crate::setting::AsSetting;
use dconf_path::{DirPath, KeyPath};
use std::alloc::{AllocError, Global};

/// Writes settings below a directory as a keyfile: each is a path and the text of its value, which is written as it is.
///
/// The paths start with the directory's. The text is empty where there are no settings, and `[/]` comes first where the directory
/// itself has keys. It reads back as the same settings where they have distinct paths and their texts stand on one line, without
/// blanks at their ends. The first row at fault is `BadGroup` or `BadKeyName`, as it could not be read again;
/// `Memory` may come at any row. It takes the time of sorting the rows.
pub fn write_rows(
    alloc: Global,
    settings: &[(KeyPath<'_>, String)],
    directory: DirPath<'_>,
) -> Result<String, RowsFault>
    requires { AreBelow (directory_text directory) settings.now }
    ensures text { IfOk result (λ text. dumped (directory_text directory.entry) (map setting_of settings.entry.now) ≡ Ok (string_bytes text)) }
    ensures fault { IfErr result (OfFault (λ fault. dumped (directory_text directory.entry) (map setting_of settings.entry.now) ≡ Err (rows_fault_of fault))) }
{
    write_settings(alloc, settings, directory)
}

/// As [`write_rows`], of settings in any form.
pub fn write_settings<S: AsSetting>(
    alloc: Global,
    settings: &[S],
    directory: DirPath<'_>,
) -> Result<String, RowsFault>
    requires { AreAllBelow S.setting (directory_text directory) settings.now }
    ensures text { IfOk result (λ text. dumped (directory_text directory.entry) (map S.setting settings.entry.now) ≡ Ok (string_bytes text)) }
    ensures fault { IfErr result (OfFault (λ fault. dumped (directory_text directory.entry) (map S.setting settings.entry.now) ≡ Err (rows_fault_of fault))) }
{
    let mut rows = rows_below(alloc, settings, directory.as_str())?;
    sort_rows(&mut rows)?;
    Ok(text_of(alloc, &rows)?)
}

/// Puts rows in the order of their groups, and in a group of their keys. Rows of one group keep their order.
fn sort_rows(rows: &mut Vec<DumpRow<'_>>) -> Result<(), AllocError>
    ensures { OnOk result (map dump_meant rows.new.items ≡ in_groups (map dump_meant rows.old.items)) }
{
    rows.sort_by_key(|row| (row.part, row.key))
}

/// The text of rows that are in order.
fn text_of(alloc: Global, rows: &[DumpRow<'_>]) -> Result<String, AllocError>
    ensures { IfOk result (λ text. string_bytes text ≡ text_after None (map dump_meant rows.entry.now)) }
{
    let mut text = String::new(alloc);
    let mut before = None;
    for row in rows {
        push_row(&mut text, before, row)?;
        before = Some(row.part);
    }
    Ok(text)
}

/// Appends a row, after the heading of its part where that begins.
fn push_row(text: &mut String, before: Option<&str>, row: &DumpRow<'_>) -> Result<(), AllocError>
    ensures { OnOk result (string_bytes text.new ≡ string_bytes text.old
        ++ (heading_after (option_map (λ part. part.now) before.entry) row.entry.now.part.now
        ++ (row.entry.now.key.now ++ 61 ∷ (row.entry.now.text.now ++ 10 ∷ [])))) }
{
    match before {
        Some(part) if part == row.part => {}
        Some(_) => {
            text.push_str("\n")?;
            push_heading(text, row.part)?;
        }
        None => push_heading(text, row.part)?,
    }
    text.push_str(row.key)?;
    text.push_str("=")?;
    text.push_str(row.text)?;
    text.push_str("\n")
}

/// Appends the line that names a group.
fn push_heading(text: &mut String, part: &str) -> Result<(), AllocError>
    ensures { OnOk result (string_bytes text.new ≡ string_bytes text.old ++ heading part.now) }
{
    text.push_str("[")?;
    text.push_str(group_name(part))?;
    text.push_str("]\n")
}
