//! `dump` of one database alone: that in a file, or the user's own.
use crate::answers::{answer, answer_in};
use crate::explain::{Given, explain};
use crate::messages::{REFUSED, refuse, refuse_for, refuse_memory, refuse_place};
use crate::runs::{run_at, warn};
use crate::session::Session;
use crate::stores::{found_folder, users_own};
use dconf_args::{Command, Place};
use dconf_cli::run;
use dconf_disk::{Folder, FolderFault, StdFolder};
use dconf_folders::MemoryFolder;
use dconf_layers::Layer;
use dconf_streams::file;
use dconf_surroundings::enter;
use std::alloc::{AllocError, Global};
use std::fs;
use std::io::{Read, Write};

/// The profile of a database alone, and its name there.
const PROFILE: &str = "profile";

const LINE: &[u8] = b"file-db:database\n";

const DATABASE: &str = "database";

const ROOT: &str = "/";

/// Runs a command where its store is, but for a `dump` of one database alone, and what is printed as JSON.
pub(crate) fn run_or_dump<I: Read, O: Write, E: Write>(
    rt: &HostRuntime,
    asked: Command,
    place: Place,
    is_json: bool,
    session: &mut Session<I, O, E>,
) -> u8 {
    if let Command::Dump {
        skip_doubles,
        directory,
        profile,
    } = &asked
    {
        if place.is_own {
            return match own(rt, profile.as_str(), place) {
                Ok(bytes) => dump(
                    rt,
                    bytes.as_deref(),
                    *skip_doubles,
                    directory.as_str(),
                    is_json,
                    session,
                ),
                Err(status) => status,
            };
        }
        // What ends in a slash is a directory of settings.
        let is_file = match fs::metadata(rt, directory.as_str()) {
            Ok(found) => found.is_file() && !directory.ends_with('/'),
            Err(_) => false,
        };
        if is_file {
            return match database(rt, directory.as_str()) {
                Ok(bytes) => dump(rt, Some(&bytes), *skip_doubles, ROOT, is_json, session),
                Err(status) => status,
            };
        }
    }
    if is_json {
        return answer(rt, asked, place, true);
    }
    run_at(rt, asked, place, session)
}

/// The bytes of a sound database; or else the status of the refusal, which is said.
fn database(rt: &HostRuntime, name: &str) -> Result<Vec<u8>, u8> {
    let bytes = match file(rt.alloc(), &mut StdFolder::read_only(rt), name) {
        Ok(bytes) => bytes,
        Err(refusal) => return Err(refuse_for(rt, &refusal)),
    };
    if let Err(fault) = Layer::open(Some(&bytes)) {
        refuse(rt, format_args!("BadDatabase {name}: {fault}"));
        return Err(REFUSED);
    }
    Ok(bytes)
}

/// The bytes of the user's own database, if there is one.
fn own(rt: &HostRuntime, profile: &str, place: Place) -> Result<Option<Vec<u8>>, u8> {
    if !place.is_users && place.folder.is_none() {
        return match users_own(rt.alloc(), &mut StdFolder::read_only(rt), profile) {
            Ok(bytes) => Ok(bytes),
            Err(refusal) => Err(refuse_for(rt, &refusal)),
        };
    }
    let found = match enter(rt, place, false) {
        Ok(found) => found,
        Err(fault) => return Err(refuse_place(rt, fault)),
    };
    let Ok(mut folder) = found_folder(rt, StdFolder::read_only(rt), &found) else {
        return Err(refuse_memory(rt));
    };
    match users_own(rt.alloc(), &mut folder, found.profile.path.as_str()) {
        Ok(bytes) => {
            // What can't be said changes no status here.
            let _ = warn(rt, folder.bad(), &found);
            Ok(bytes)
        }
        Err(refusal) => Err(refuse_for(rt, &refusal)),
    }
}

/// Dumps a database in a folder that has nothing else.
fn dump<I: Read, O: Write, E: Write>(
    rt: &HostRuntime,
    bytes: Option<&[u8]>,
    skip_doubles: bool,
    directory: &str,
    is_json: bool,
    session: &mut Session<I, O, E>,
) -> u8 {
    let alloc = rt.alloc();
    let Ok(mut folder) = folder_of(alloc, bytes) else {
        return refuse_memory(rt);
    };
    let directory: Result<String, AllocError> = String::from_str(alloc, directory);
    let profile: Result<String, AllocError> = String::from_str(alloc, PROFILE);
    let (Ok(directory), Ok(profile)) = (directory, profile) else {
        return refuse_memory(rt);
    };
    let command = Command::Dump {
        skip_doubles,
        directory,
        profile,
    };
    if is_json {
        return answer_in(rt, &command, true, &mut folder, None);
    }
    let given = Given::of(rt, &command);
    let status = run(
        alloc,
        command,
        &mut folder,
        &mut session.input,
        &mut session.out,
        &mut session.err,
    );
    if let Some(given) = &given {
        explain(rt, given, session.err.get_ref().text());
    }
    status
}

fn folder_of(alloc: Global, bytes: Option<&[u8]>) -> Result<MemoryFolder, FolderFault> {
    let mut folder = MemoryFolder::new(alloc);
    folder.create(alloc, PROFILE, 0)?;
    folder.append(PROFILE, LINE)?;
    if let Some(bytes) = bytes {
        folder.create(alloc, DATABASE, 0)?;
        folder.append(DATABASE, bytes)?;
    }
    Ok(folder)
}
