//! Profiles: the databases of a store, one a line, the first one first. dconf(7), "Profiles".
//!
//! From `#` on a line is comment. Spaces, tabs and carriage returns at both ends are dropped, and a line that is empty
//! then says nothing. The user's database comes first or not at all.
ghost use Rattle.std.specs.List.{before_first};
ghost use Rattle.std.specs.Prelude.{◌≡◌, ◌==◌, is_some, length, nat_lt, map, option_map, Ok, Err, IfOk, IfErr};
ghost use Rattle.refused.specs.Faults.{OfFault};
ghost use Rattle.dconf_model.specs.Lines.LineReading.{found};
ghost use Rattle.dconf_model.specs.Profiles.{databases_in, entry_line, entry_of_line, is_name, database_line};
ghost use Rattle.dconf_path.specs.Faults.{profile_fault_of};
ghost use Rattle.dconf_path.specs.Profiles.{database_of, databases_of, named_in, reading_of, IsFaultAt};

use crate::line_fault::{ProfileFault, ProfileFlaw};
use std::alloc::Global;

/// How many databases a profile has at most.
pub const MAX_DATABASES: usize = 64;

/// The blanks that are dropped at both ends of a profile's line.
const BLANKS: [char; 3] = [' ', '\t', '\r'];

/// How a profile names a database, and whether it is the user's.
#[derive(Clone, Copy, Debug, PartialEq, Eq)]
pub enum DatabaseKind {
    /// The user's own, `user-db:NAME`.
    User,
    /// One of the system, `system-db:NAME`.
    System,
    /// The file of a path, `file-db:PATH`.
    File,
}

/// A database of a profile.
#[derive(Clone, Copy, Debug, PartialEq, Eq)]
pub struct Database<'a> {
    /// How the profile names it.
    pub kind: DatabaseKind,
    /// Its name, lent from the profile's text: not empty, without a zero byte, and without `/` unless it is a file's path.
    pub name: &'a str,
}

/// The databases of a profile, 64 at most.
#[derive(Debug, Drop)]
pub struct Profile<'a> {
    databases: Vec<Database<'a>>,
}

impl<'a> Profile<'a> {
    /// The databases in the profile's order, the first one first.
    pub fn databases(&self) -> &[Database<'a>]
        ensures { map database_of result.now ≡ databases_of self.now }
    {
        self.databases.as_slice()
    }
}

/// The profile that a text spells. A last line needs no line feed.
///
/// The first line at fault is refused, as [`ProfileFlaw`] says; `Memory` comes where a growth is refused. It looks at
/// each byte a fixed number of times, and takes memory for the databases alone.
pub fn read_profile<'a>(alloc: Global, text: &'a str) -> Result<Profile<'a>, ProfileFault>
    ensures found { IfOk result (λ profile. databases_in text.entry.now ≡ Ok (databases_of profile)) }
    ensures fault { IfErr result (OfFault (λ fault. databases_in text.entry.now ≡ Err (profile_fault_of fault))) }
{
    let mut databases = Vec::new(alloc);
    for (before, line) in text.split('\n').enumerate() {
        match read_entry(entry_of(line), databases.len(), before + 1) {
            Ok(Some(database)) => databases.push(database)?,
            Ok(None) => {}
            Err(flaw) => return Err(ProfileFault::Fault(flaw)),
        }
    }
    Ok(Profile { databases })
}

/// A line without its comment and the blanks at both ends.
fn entry_of(line: &str) -> &str
    ensures { result.now ≡ entry_of_line line.now }
{
    without_comment(line)
        .trim_end_matches(BLANKS)
        .trim_start_matches(BLANKS)
}

/// What stands before the first `#`.
fn without_comment(line: &str) -> &str
    ensures { result.now ≡ before_first (λ c. c == 35) line.now }
{
    match line.split_once('#') {
        Some((entry, _)) => entry,
        None => line,
    }
}

/// The database that a line names after so many others, if the line says anything.
fn read_entry<'a>(
    entry: &'a str,
    others: usize,
    line: usize,
) -> Result<Option<Database<'a>>, ProfileFlaw>
    ensures found { IfOk result (λ database. entry_line others entry.entry.now ≡ reading_of database) }
    ensures says { IfOk result (λ database. is_some database ≡ nat_lt 0 (length entry.entry.now)) }
    ensures fault { IfErr result (IsFaultAt line (entry_line others entry.entry.now)) }
{
    if entry.is_empty() {
        return Ok(None);
    }
    if entry.starts_with("service-db:") {
        return Err(ProfileFlaw::ServiceDb(line));
    }
    match database_in(entry) {
        Some(database) => Ok(Some(placed(database, others, line)?)),
        None => Err(ProfileFlaw::BadLine(line)),
    }
}

/// The database of a line that begins as a database's does, whatever its name.
fn database_in(entry: &str) -> Option<Database<'_>>
    ensures { option_map database_of result ≡ named_in entry.now }
{
    if let Some(name) = entry.strip_prefix("user-db:") {
        let kind = DatabaseKind::User;
        Some(Database { kind, name })
    } else if let Some(name) = entry.strip_prefix("system-db:") {
        let kind = DatabaseKind::System;
        Some(Database { kind, name })
    } else if let Some(name) = entry.strip_prefix("file-db:") {
        let kind = DatabaseKind::File;
        Some(Database { kind, name })
    } else {
        None
    }
}

/// A database after so many others, if it has a name and may stand there.
fn placed(database: Database<'_>, others: usize, line: usize) -> Result<Database<'_>, ProfileFlaw>
    ensures found { IfOk result (λ d. database_line others (database_of database.entry).kind (database_of database.entry).name ≡ found (database_of d)) }
    ensures fault { IfErr result (IsFaultAt line (database_line others (database_of database.entry).kind (database_of database.entry).name)) }
{
    if !has_name(database) {
        return Err(ProfileFlaw::BadLine(line));
    }
    if database.kind == DatabaseKind::User && others > 0 {
        return Err(ProfileFlaw::UserNotFirst(line));
    }
    if others >= MAX_DATABASES {
        return Err(ProfileFlaw::TooMany(line));
    }
    Ok(database)
}

/// Whether a database's name is one: not empty, without a zero byte, and without `/` unless it is a file's path.
fn has_name(database: Database<'_>) -> bool
    ensures { result ≡ is_name (database_of database.entry).kind (database_of database.entry).name }
{
    let name = database.name.as_bytes();
    let may_have_slash = database.kind == DatabaseKind::File;
    !name.is_empty() && !name.contains(&0) && (may_have_slash || !name.contains(&b'/'))
}
