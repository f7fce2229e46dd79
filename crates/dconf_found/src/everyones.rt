//! The profile of all users: its databases of the system are files beside it.
ghost use Rattle.std.specs.Prelude.{◌≡◌, ◌++◌, ◌∷◌, [], IfOk, OnOk, map, option_map, string_bytes, vec_items};
ghost use Rattle.dconf_path.specs.Profiles.{database_of};
ghost use Rattle.dconf_found.specs.Everyones.{IsEveryones, IsWritten, everyones_text, line_of};

use dconf_path::{Database, DatabaseKind, ProfileFault, read_profile, settings_text};
use dconf_places::{EVERYONES_FOLDER, end_of};
use std::alloc::{AllocError, Global};

/// The profile of all users, by the bytes of its file: each `system-db:NAME` is there `file-db:/etc/dconfdb/NAME.db`, so that a folder of a
/// user's can't take its place. One with a line at fault stays as it is.
pub(crate) fn everyones(alloc: Global, bytes: Vec<u8>) -> Result<Vec<u8>, AllocError>
    ensures { IfOk result (λ given. IsEveryones (vec_items bytes) (vec_items given)) }
{
    match written(alloc, &bytes)? {
        Some(text) => Ok(text.into_bytes()),
        None => Ok(bytes),
    }
}

/// The lines of a profile's databases, if it has no line at fault.
fn written(alloc: Global, bytes: &[u8]) -> Result<Option<String>, AllocError>
    ensures { IfOk result (λ text. IsWritten bytes.now (option_map string_bytes text)) }
{
    let text = match settings_text(bytes) {
        Ok(text) => text,
        Err(_) => return Ok(None),
    };
    match read_profile(alloc, text) {
        Ok(profile) => Ok(Some(lines_of(alloc, profile.databases())?)),
        Err(ProfileFault::Fault(_)) => Ok(None),
        Err(ProfileFault::Memory) => Err(AllocError),
    }
}

/// A line for each database.
fn lines_of(alloc: Global, databases: &[Database<'_>]) -> Result<String, AllocError>
    ensures { IfOk result (λ text. string_bytes text ≡ everyones_text (map database_of databases.now)) }
{
    let mut text = String::new(alloc);
    for database in databases {
        push_line(&mut text, *database)?;
    }
    Ok(text)
}

/// Adds the line of a database.
fn push_line(text: &mut String, database: Database<'_>) -> Result<(), AllocError>
    ensures { OnOk result (string_bytes text.new ≡ string_bytes text.old ++ line_of (database_of database.entry)) }
{
    let name = database.name;
    match database.kind {
        DatabaseKind::User => push_three(text, "user-db:", name, "\n"),
        DatabaseKind::System => {
            push_three(text, "file-db:", EVERYONES_FOLDER, "/")?;
            push_three(text, name, end_of(database.kind), "\n")
        }
        DatabaseKind::File => push_three(text, "file-db:", name, "\n"),
    }
}

/// Adds three texts.
fn push_three(text: &mut String, one: &str, two: &str, three: &str) -> Result<(), AllocError>
    ensures { OnOk result (string_bytes text.new ≡ string_bytes text.old ++ (one.now ++ (two.now ++ three.now))) }
{
    text.push_str(one)?;
    text.push_str(two)?;
    text.push_str(three)?;
    Ok(())
}
