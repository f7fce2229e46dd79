//! A row of a keyfile, put among settings: its path, and the bytes that are stored for its value.
ghost use Rattle.std.specs.Prelude.{◌≡◌, ◌≤◌, IfOk, IfErr, IfSome, OnOk, Err, codes, length, string_bytes};
ghost use Rattle.dconf_model.specs.Keyfiles.{path_of};
ghost use Rattle.dconf_model.specs.Lines.LineReading.{wrong};
ghost use Rattle.keyfile_core.specs.Rows.{row_meant};
ghost use Rattle.dconf_compile.specs.Added.{AddsRow, IsReadRow, IsStoredFor, row_compiled, text_compiled};
ghost use Rattle.dconf_compile.specs.CompileFaults.{cause_of};

use crate::fault::CompileCause;
use crate::value::value_of_text;
use dconf_path::MAX_PATH_LEN;
use gv_build::{BuildFault, variant_bytes};
use gvdb_write::MapBuilder;
use keyfile_core::Row;
use std::alloc::{AllocError, Global};

/// Puts a row's value among settings, in the place of the one that its path had.
pub(crate) fn add_row(
    alloc: Global,
    row: &Row<'_>,
    settings: &mut MapBuilder,
) -> Result<(), CompileCause>
    requires { IsReadRow (row_meant row.now) }
    ensures added { OnOk result (AddsRow (row_compiled (row_meant row.now)) settings.old settings.new) }
    ensures fault { IfErr result (λ cause. IfSome (cause_of cause) (λ c. row_compiled (row_meant row.now) ≡ wrong c)) }
{
    let path = path_of(alloc, "/", row)?;
    // The rules of keyfiles leave no other fault of a path.
    if path.len() > MAX_PATH_LEN {
        return Err(CompileCause::TooLong);
    }
    let value = stored(alloc, row.text)?;
    settings.insert_text(path, value)?;
    Ok(())
}

/// The path of a row's key below a directory.
pub(crate) fn path_of(alloc: Global, directory: &str, row: &Row<'_>) -> Result<String, AllocError>
    ensures { IfOk result (λ path. string_bytes path ≡ path_of directory.now (row_meant row.now)) }
{
    let len = directory
        .len()
        .saturating_add(row.group.len())
        .saturating_add(row.key.len());
    let mut path = String::with_capacity(alloc, len.saturating_add(1))?;
    path.push_str(directory)?;
    if row.group != "/" {
        path.push_str(row.group)?;
        path.push('/')?;
    }
    path.push_str(row.key)?;
    Ok(path)
}

/// The bytes that are stored for the value of a text.
fn stored(alloc: Global, text: &str) -> Result<Vec<u8>, CompileCause>
    requires { length text.now ≤ 16777216 }
    ensures bytes { IfOk result (λ bytes. IsStoredFor (text_compiled text.now) bytes.items) }
    ensures fault { IfErr result (λ cause. IfSome (cause_of cause) (λ c. text_compiled text.now ≡ Err c)) }
{
    let value = value_of_text(alloc, text)?;
    match variant_bytes(alloc, &value) {
        Ok(bytes) => Ok(bytes),
        Err(BuildFault::Fault(_)) => Err(CompileCause::TooLarge),
        Err(BuildFault::Memory) => Err(CompileCause::Memory),
    }
}
