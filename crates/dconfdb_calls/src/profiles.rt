//! The databases that a profile names.
ghost use Rattle.std.specs.Prelude.{◌≡◌, Err, IfErr, IfOk, map};
ghost use Rattle.refused.specs.Faults.{OfFault};
ghost use Rattle.dconf_model.specs.Profiles.{databases_in};
ghost use Rattle.dconf_path.specs.Faults.{profile_fault_of};
ghost use Rattle.dconf_path.specs.Profiles.{database_of, kind_of};
ghost use Rattle.dconfdb_calls.specs.Named.{AreNamesIn, IsNoProfile, cause_number, kind_number, named, told};
ghost use Rattle.dconfdb_calls.specs.Numbers.{number_of};

use crate::fault::Fault;
use dconf_path::{Database, DatabaseKind, ProfileFault, ProfileFlaw, read_profile};
use std::alloc::{AllocFailed, Global};

/// A database of a profile: 0 the user's, 1 one of the system, 2 the file of a path; and its name,
/// lent from the text.
#[repr(C)]
#[derive(Clone, Copy)]
pub struct DconfdbName<'a> {
    pub kind: u32,
    pub name: &'a [u8],
}

/// Why a text is no profile, and the line at fault, counted from 1; 0 if no line is.
#[derive(Clone, Copy)]
pub struct BadProfile {
    pub fault: Fault,
    pub line: usize,
}

/// The databases that a profile's text names, at most 64.
///
/// `NotText` if the bytes are not UTF-8; `BadLine`, `ServiceDb`, `UserNotFirst` or `TooMany` for the
/// first line at fault; `Memory` if an allocation fails. It reads each line once.
pub fn profile_databases<'a>(
    alloc: Global,
    text: &'a [u8],
) -> Result<Vec<DconfdbName<'a>>, BadProfile>
    ensures names { IfOk result (λ names. AreNamesIn text.entry.now names.items) }
    ensures fault { IfErr result (λ e. IsNoProfile text.entry.now (number_of e.fault) e.line) }
{
    let Ok(text) = str::from_utf8(text) else {
        return Err(BadProfile {
            fault: Fault::NotText,
            line: 0,
        });
    };
    match named(alloc, text) {
        Ok(names) => Ok(names),
        Err(ProfileFault::Fault(flaw)) => Err(BadProfile {
            fault: fault_of(flaw),
            line: flaw.line(),
        }),
        Err(ProfileFault::Memory) => Err(BadProfile {
            fault: Fault::Memory,
            line: 0,
        }),
    }
}

/// The databases that a profile's text names.
pub(crate) fn named<'a>(alloc: Global, text: &'a str) -> Result<Vec<DconfdbName<'a>>, ProfileFault>
    ensures names { IfOk result (λ names. AreNamesIn text.entry.now names.items) }
    ensures fault { IfErr result (OfFault (λ flaw. databases_in text.entry.now ≡ Err (profile_fault_of flaw))) }
{
    let profile = read_profile(alloc, text)?;
    let names = names_of(alloc, profile.databases())?;
    Ok(names)
}

/// What C is told of databases.
fn names_of<'a>(
    alloc: Global,
    databases: &[Database<'a>],
) -> Result<Vec<DconfdbName<'a>>, AllocFailed<DconfdbName<'a>>>
    ensures { IfOk result (λ names. map told names.items ≡ map (λ d. named (database_of d)) databases.now) }
{
    let mut names = Vec::new(alloc);
    for database in databases {
        names.push(name_of(*database))?;
    }
    Ok(names)
}

/// What C is told of a database.
fn name_of(database: Database<'_>) -> DconfdbName<'_>
    ensures { told result ≡ named (database_of database.entry) }
{
    DconfdbName {
        kind: number_of(database.kind),
        name: database.name.as_bytes(),
    }
}

/// The fault of a profile.
pub(crate) fn fault_of(flaw: ProfileFlaw) -> Fault
    ensures { number_of result ≡ cause_number (profile_fault_of flaw).cause }
{
    match flaw {
        ProfileFlaw::BadLine(_) => Fault::BadLine,
        ProfileFlaw::ServiceDb(_) => Fault::ServiceDb,
        ProfileFlaw::UserNotFirst(_) => Fault::UserNotFirst,
        ProfileFlaw::TooMany(_) => Fault::TooMany,
    }
}

/// The number of a kind of database.
fn number_of(kind: DatabaseKind) -> u32
    ensures { result ≡ kind_number (kind_of kind) }
{
    match kind {
        DatabaseKind::User => 0,
        DatabaseKind::System => 1,
        DatabaseKind::File => 2,
    }
}
