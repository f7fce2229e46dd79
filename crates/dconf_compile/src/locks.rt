//! Lock files, put among settings one after another.
ghost use Rattle.std.specs.Prelude.{◌≡◌, IfErr, IfSome, OnOk, Err};
ghost use Rattle.std.specs.List.{enumerate_from};
ghost use Rattle.dconf_model.specs.Lines.{read_file};
ghost use Rattle.dconf_model.specs.Locks.{locks_in};
ghost use Rattle.dconf_model.specs.Sources.{in_files};
ghost use Rattle.dconf_model.specs.Sources.File.{lock_file};
ghost use Rattle.dconf_compile.specs.Added.{AddsLocks};
ghost use Rattle.dconf_compile.specs.CompileFaults.{StopsAt};
ghost use Rattle.dconf_compile.specs.LineStops.{line_fault_of};
ghost use Rattle.dconf_compile.specs.Sources.{sources_of};

use crate::fault::{CompileFault, FileRef};
use crate::line_stop::LineStop;
use crate::source::Source;
use dconf_path::{read_locks, settings_text};
use gvdb_write::MapBuilder;
use std::alloc::Global;

/// Puts the locks of lock files among settings.
pub(crate) fn add_lock_files(
    alloc: Global,
    files: &[Source<'_>],
    settings: &mut MapBuilder,
) -> Result<(), CompileFault>
    ensures added { OnOk result (AddsLocks (in_files lock_file (read_file locks_in) (enumerate_from 0 (sources_of files.now))) settings.old settings.new) }
    ensures fault { IfErr result (StopsAt (in_files lock_file (read_file locks_in) (enumerate_from 0 (sources_of files.now)))) }
{
    for (number, file) in files.iter().enumerate() {
        if let Err(stop) = add_lock_file(alloc, file.bytes, settings) {
            let file = FileRef::LockFile(number);
            return Err(CompileFault::at(file, stop.line, stop.cause));
        }
    }
    Ok(())
}

/// Puts the locks of a lock file among settings.
fn add_lock_file(alloc: Global, bytes: &[u8], settings: &mut MapBuilder) -> Result<(), LineStop>
    ensures added { OnOk result (AddsLocks (read_file locks_in bytes.now) settings.old settings.new) }
    ensures fault { IfErr result (λ stop. IfSome (line_fault_of stop) (λ fault. read_file locks_in bytes.now ≡ Err fault)) }
{
    add_locks(alloc, settings_text(bytes)?, settings)
}

/// Puts the locks of a text among settings.
fn add_locks(alloc: Global, text: &str, settings: &mut MapBuilder) -> Result<(), LineStop>
    ensures added { OnOk result (AddsLocks (locks_in text.now) settings.old settings.new) }
    ensures fault { IfErr result (λ stop. IfSome (line_fault_of stop) (λ fault. locks_in text.now ≡ Err fault)) }
{
    let locks = read_locks(alloc, text)?;
    for lock in &locks {
        settings.lock(lock.path)?;
    }
    Ok(())
}
