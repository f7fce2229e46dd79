//! The file that a profile's line means.
ghost use Rattle.std.specs.Prelude.{◌≡◌, IfOk, string_bytes};
ghost use Rattle.dconf_model.specs.Profiles.{database_file};
ghost use Rattle.dconf_path.specs.Profiles.{database_of, kind_of};
ghost use Rattle.dconf_places.specs.Numbers.{kind_numbered};
ghost use Rattle.dconf_places.specs.Places.{database_path, folder_for, is_beside};
ghost use Rattle.dconf_places.specs.Told.{end_of, text_of};

use crate::parts::PathParts;
use dconf_path::{Database, DatabaseKind};
use std::alloc::{AllocError, Global};

/// The profile of all users, and the folder of it and of its databases of the system.
pub const EVERYONES_PROFILE: &str = "/etc/dconfdb/profile";

pub const EVERYONES_FOLDER: &str = "/etc/dconfdb";

/// The profile in a store's folder.
pub const OWN_PROFILE: &str = "profile";

/// The profile where there is no file of one.
pub const USERS_PROFILE: &str = "user-db:user";

/// The kind of a number: 0 the user's, 1 one of the system, and else the file of a path.
pub fn kind_of_number(number: u32) -> DatabaseKind
    ensures { kind_of result ≡ kind_numbered number }
{
    match number {
        0 => DatabaseKind::User,
        1 => DatabaseKind::System,
        _ => DatabaseKind::File,
    }
}

/// Whether the databases of the system that a profile names are beside it: it is the one of all users, and nobody gives the folder.
pub fn is_beside(profile: &[u8], is_given: bool) -> bool
    ensures { result ≡ is_beside profile.now is_given }
{
    profile == EVERYONES_PROFILE.as_bytes() && !is_given
}

/// The path of the file of a database of this name, by the path of the store's folder.
pub fn database_path<'a>(
    folder: &'a [u8],
    is_beside: bool,
    kind: DatabaseKind,
    name: &'a [u8],
) -> PathParts<'a>
    ensures { text_of result ≡ database_path folder.entry.now is_beside (record { kind = kind_of kind; name = name.entry.now }) }
{
    if name.starts_with(b"/") {
        return PathParts::of_two(b"", name);
    }
    PathParts {
        first: folder_for(folder, is_beside, kind),
        second: b"/",
        third: name,
        fourth: end_of(kind).as_bytes(),
    }
}

/// The folder in which a database's file is.
fn folder_for(folder: &[u8], is_beside: bool, kind: DatabaseKind) -> &[u8]
    ensures { result.now ≡ folder_for folder.now is_beside (kind_of kind) }
{
    match kind {
        DatabaseKind::System if is_beside => EVERYONES_FOLDER.as_bytes(),
        DatabaseKind::System => folder,
        DatabaseKind::User => folder,
        DatabaseKind::File => folder,
    }
}

/// What the name of a database's file ends in, behind the database's own.
pub fn end_of(kind: DatabaseKind) -> &'static str
    ensures { result.now ≡ end_of (kind_of kind) }
{
    match kind {
        DatabaseKind::User => ".user",
        DatabaseKind::System => ".db",
        DatabaseKind::File => "",
    }
}

/// The name of the file that holds a database: NAME.user of a user's, NAME.db of the system's, and PATH itself. The error is a failed allocation.
pub fn file_name(alloc: Global, database: Database<'_>) -> Result<String, AllocError>
    ensures { IfOk result (λ name. string_bytes name ≡ database_file (database_of database.entry)) }
{
    let (name, end) = (database.name, end_of(database.kind));
    format!(in alloc; "{name}{end}")
}
