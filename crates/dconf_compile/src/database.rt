//! All files, compiled into a database.
ghost use Rattle.std.specs.Prelude.{◌≡◌, IfOk, IfErr, IfSome, None, Ok, Err};
ghost use Rattle.dconf_model.specs.Databases.{IsCompiled};
ghost use Rattle.dconf_compile.specs.CompileFaults.{StopsAt, fault_of, no_memory};
ghost use Rattle.dconf_compile.specs.Sources.{AreGivenBy, GiveLimitedValues, given_by, sources_of};

use crate::fault::{CompileCause, CompileFault};
use crate::keyfiles::add_keyfiles;
use crate::locks::add_lock_files;
use crate::order::{Numbered, first_file, in_order};
use crate::source::Source;
use gvdb_write::{Map, MapBuilder, TooBig, WriteFault, write};
use std::alloc::{AllocError, Global};

/// The bytes of the database that keyfiles and lock files give, or their first fault.
///
/// Keyfiles are taken in the byte order of their names, those of one name as they were handed in, and then lock files. Of
/// several rows of one path the last counts; each line is read, also where a later one counts. In one keyfile, what is wrong
/// with a line by itself (`TooBig`, `NotUtf8`, `BadLine`, `NoGroup`, `BadGroup`, `BadKeyName`) comes before what is wrong with
/// a value: `TooLong` of its path, `Value` of its text, `TooLarge`. A lock file is `TooBig`, `NotUtf8` or
/// `LockNotKey`. At last comes `TooBig` of the database, which is said of the first file that was taken, at line 0. `Memory` may
/// come at any growth.
pub fn compile(
    alloc: Global,
    files: &[Source<'_>],
    locks: &[Source<'_>],
) -> Result<Vec<u8>, CompileFault>
    ensures compiled { IfOk result (λ file. IsCompiled (sources_of files.entry.now) (sources_of locks.entry.now) (Ok file.items)) }
    ensures limited { IfOk result (λ file. GiveLimitedValues (sources_of files.entry.now) (sources_of locks.entry.now)) }
    ensures fault { IfErr result (λ e. IfSome (fault_of e) (λ fault. IsCompiled (sources_of files.entry.now) (sources_of locks.entry.now) (Err fault))) }
    ensures memory { IfErr result (λ e. fault_of e ≡ None → e ≡ no_memory) }
{
    let order = in_order(alloc, files)?;
    let settings = settings(alloc, &order, locks)?;
    match settings.write() {
        Ok(bytes) => Ok(bytes),
        Err(WriteFault::Fault(TooBig)) => Err(CompileFault::at(
            first_file(&order),
            0,
            CompileCause::TooBig,
        )),
        Err(WriteFault::Memory) => Err(CompileFault::from(AllocError)),
    }
}

/// The settings that keyfiles, in the order that they are taken in, and lock files give.
fn settings(
    alloc: Global,
    files: &[Numbered<'_>],
    locks: &[Source<'_>],
) -> Result<MapBuilder, CompileFault>
    ensures given { IfOk result (AreGivenBy (given_by files.now locks.now)) }
    ensures fault { IfErr result (StopsAt (given_by files.now locks.now)) }
{
    let mut given = MapBuilder::new(alloc);
    add_keyfiles(alloc, files, &mut given)?;
    add_lock_files(alloc, locks, &mut given)?;
    Ok(given)
}
