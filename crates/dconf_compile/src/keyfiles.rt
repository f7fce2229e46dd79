//! Keyfiles, put among settings one after another.
ghost use Rattle.std.specs.Prelude.{◌≡◌, IfErr, IfSome, OnOk, Err, map};
ghost use Rattle.dconf_model.specs.Sources.{compiled, in_files};
ghost use Rattle.dconf_model.specs.Sources.File.{keyfile};
ghost use Rattle.dconf_compile.specs.Added.{AddsRows};
ghost use Rattle.dconf_compile.specs.CompileFaults.{StopsAt};
ghost use Rattle.dconf_compile.specs.LineStops.{line_fault_of};
ghost use Rattle.dconf_compile.specs.Sources.{numbered};

use crate::fault::{CompileFault, FileRef};
use crate::line_stop::LineStop;
use crate::order::Numbered;
use crate::rows::add_row;
use gvdb_write::MapBuilder;
use keyfile_core::read;
use std::alloc::Global;

/// Puts the rows of keyfiles among settings, those of a later one in the place of an earlier one's.
pub(crate) fn add_keyfiles(
    alloc: Global,
    files: &[Numbered<'_>],
    settings: &mut MapBuilder,
) -> Result<(), CompileFault>
    ensures added { OnOk result (AddsRows (in_files keyfile compiled (map numbered files.now)) settings.old settings.new) }
    ensures fault { IfErr result (StopsAt (in_files keyfile compiled (map numbered files.now))) }
{
    for file in files {
        if let Err(stop) = add_keyfile(alloc, file.source.bytes, settings) {
            let file = FileRef::Keyfile(file.number);
            return Err(CompileFault::at(file, stop.line, stop.cause));
        }
    }
    Ok(())
}

/// Puts the rows of a keyfile among settings, a later one in the place of an earlier one of its path.
fn add_keyfile(alloc: Global, bytes: &[u8], settings: &mut MapBuilder) -> Result<(), LineStop>
    ensures added { OnOk result (AddsRows (compiled bytes.now) settings.old settings.new) }
    ensures fault { IfErr result (λ stop. IfSome (line_fault_of stop) (λ fault. compiled bytes.now ≡ Err fault)) }
{
    let rows = read(alloc, bytes)?;
    for row in &rows {
        if let Err(cause) = add_row(alloc, row, settings) {
            return Err(LineStop {
                line: row.line,
                cause,
            });
        }
    }
    Ok(())
}
