//! The databases that the profile of a store names, for what is said of them.
use dconf_disk::{Folder, StdFolder};
use dconf_path::{Database, DatabaseKind};
use dconf_places::{EVERYONES_FOLDER, file_name, kind_of_number};
use dconf_surroundings::Found;
use dconfdb_calls::{DconfdbName, profile_databases};
use std::alloc::AllocError;
use std::fs;
use std::io::{self, ErrorKind};

/// A profile is read in so many bytes at most, and else it names nothing here.
const MOST_BYTES: usize = 16_777_216;

/// The bytes of a profile, if it is there and can be read.
fn profile_bytes(rt: &HostRuntime, profile: &str) -> Option<Vec<u8>> {
    let bytes = StdFolder::read_only(rt)
        .read(rt.alloc(), profile)
        .ok()
        .flatten()?;
    if bytes.len() > MOST_BYTES {
        return None;
    }
    Some(bytes)
}

/// The file of the first database, as it was asked for when the store was read.
pub(crate) fn first_file(rt: &HostRuntime, found: &Found) -> Result<Option<String>, AllocError> {
    let alloc = rt.alloc();
    let bytes = match &found.profile.made {
        Some(text) => Some(text.as_slice().to_vec(alloc)?),
        None => profile_bytes(rt, found.profile.path.as_str()),
    };
    let Some(bytes) = bytes else {
        return Ok(None);
    };
    let Ok(names) = profile_databases(alloc, &bytes) else {
        return Ok(None);
    };
    let Some(first) = names.first() else {
        return Ok(None);
    };
    let Some(first) = database_of(first) else {
        return Ok(None);
    };
    let file = file_name(alloc, first)?;
    if found.is_everyones() && matches!(first.kind, DatabaseKind::System) {
        return Ok(Some(format!(in alloc; "{EVERYONES_FOLDER}/{file}")?));
    }
    Ok(Some(file))
}

/// The database that a line names, if its name is a text.
fn database_of<'a>(named: &DconfdbName<'a>) -> Option<Database<'a>> {
    match str::from_utf8(named.name) {
        Ok(name) => Some(Database {
            kind: kind_of_number(named.kind),
            name,
        }),
        Err(_) => None,
    }
}

/// Says of each database of the system that the profile in a folder names, and that isn't beside it, that it is missing. `shown` is what the
/// folder is called.
pub(crate) fn warn_of_missing_ones(rt: &HostRuntime, folder: &str, shown: &str) -> io::Result<()> {
    let profile = format!(in rt.alloc(); "{folder}/profile")?;
    let Some(bytes) = profile_bytes(rt, profile.as_str()) else {
        return Ok(());
    };
    let Ok(names) = profile_databases(rt.alloc(), &bytes) else {
        return Ok(());
    };
    for database in &names {
        warn_if_missing(rt, folder, shown, database)?;
    }
    Ok(())
}

fn warn_if_missing(
    rt: &HostRuntime,
    folder: &str,
    shown: &str,
    database: &DconfdbName<'_>,
) -> io::Result<()> {
    let Some(database) = database_of(database) else {
        return Ok(());
    };
    if !matches!(database.kind, DatabaseKind::System) {
        return Ok(());
    }
    let (name, file) = (database.name, file_name(rt.alloc(), database)?);
    let path = format!(in rt.alloc(); "{folder}/{file}")?;
    match fs::metadata(rt, path.as_str()) {
        Err(error) if error.kind() == ErrorKind::NotFound => {
            eprintln!(rt;
                "warning: {shown}/profile names system-db:{name}, and there is no {shown}/{file}"
            )
        }
        _ => Ok(()),
    }
}
