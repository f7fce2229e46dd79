//! `update [--force] [--dry-run] [FOLDER]`: the databases that are not what their sources say, each made by `compile`.
use crate::dry::say_made;
use crate::marks::{opened, set_invalid};
use crate::messages::{REFUSED, refuse, refuse_device, refuse_memory, refuse_place};
use crate::named::warn_of_missing_ones;
use crate::runs::run_in_turn;
use crate::session::Session;
use crate::sources::{Unread, is_folder, names_in, source_folder};
use command_words::SOURCES_END;
use dconf_args::{Command, Replaced, SourceFolder, updates};
use dconf_cli::{Counted, is_made};
use dconf_disk::StdFolder;
use dconf_habits::in_dconfs_place;
use dconf_homes::DATABASES_FOLDER;
use dconf_places::{EVERYONES_FOLDER, Given};
use dconf_surroundings::{NotFound, Surroundings};
use std::alloc::AllocError;
use std::io::ErrorKind;
use std::{env, fs};

/// How the databases of a folder are named.
#[derive(Clone, Copy)]
pub(crate) enum Naming {
    /// NAME.db, our own.
    Own,
    /// NAME, as dconf has it.
    InPlace,
}

/// Which of the databases of a folder are made.
#[derive(Clone, Copy)]
pub(crate) enum Making {
    /// Those that aren't made.
    Due,
    /// Each, whatever is there.
    Each,
    /// None: it is said which would be, or with `forces` of each what it is made of.
    Dry { forces: bool },
}

/// Makes the databases of a folder; if none is named, of the one for all users.
pub(crate) fn update(rt: &HostRuntime, folder: Option<String>, forces: bool, is_dry: bool) -> u8 {
    let making = match (is_dry, forces) {
        (true, _) => Making::Dry { forces },
        (false, true) => Making::Each,
        (false, false) => Making::Due,
    };
    match folder {
        Some(folder) => update_in(rt, folder.as_str(), Naming::Own, making),
        None => update_machines(rt, making, making),
    }
}

/// Makes those of the folder for all users: `dconfs` in dconf's places, if the machine has dconf's kind of store, and else `ours`.
pub(crate) fn update_machines(rt: &HostRuntime, dconfs: Making, ours: Making) -> u8 {
    let machine = Surroundings::of_machine(rt);
    match machine.and_then(|machine| machine.is_dconfs(Given::Nobody)) {
        Ok(true) => update_in(rt, DATABASES_FOLDER, Naming::InPlace, dconfs),
        Ok(false) => update_in(rt, EVERYONES_FOLDER, Naming::Own, ours),
        Err(fault) => refuse_place(rt, fault),
    }
}

/// Makes those of a folder.
pub(crate) fn update_in(rt: &HostRuntime, folder: &str, naming: Naming, making: Making) -> u8 {
    match env::set_current_dir(rt, folder) {
        Ok(()) => {
            let status = match names_in(rt, ".") {
                Ok(names) => update_each(rt, &names, naming, making),
                Err(Unread::Folder(_unread)) => refuse_device(rt, folder),
                Err(Unread::Memory) => refuse_memory(rt),
            };
            // A profile of our own kind is beside its databases of the system. What isn't made yet is no loss before it is.
            let warned = match (naming, making) {
                (_, Making::Dry { .. }) => Ok(()),
                (Naming::Own, _) => warn_of_missing_ones(rt, ".", folder),
                (Naming::InPlace, _) => Ok(()),
            };
            match warned {
                Ok(()) => status,
                Err(_) => REFUSED,
            }
        }
        Err(error) if error.kind() == ErrorKind::NotFound => {
            refuse(rt, format_args!("NoFile {folder}"));
            REFUSED
        }
        Err(_) => refuse_device(rt, folder),
    }
}

/// Makes those of the folders NAME.d with these names. A fault of one leaves the others.
fn update_each(rt: &HostRuntime, names: &[String], naming: Naming, making: Making) -> u8 {
    let mut status = 0;
    for name in names {
        if let Some(database) = name.as_str().strip_suffix(SOURCES_END)
            && !database.is_empty()
            && is_folder(rt, name.as_str())
        {
            status |= update_one(rt, name.as_str(), database, naming, making);
        }
    }
    status
}

/// Makes the database of this name of one folder.
fn update_one(rt: &HostRuntime, folder: &str, name: &str, naming: Naming, making: Making) -> u8 {
    match source_folder(rt, folder, name) {
        Ok(folder) => match command_of(rt, folder, naming) {
            Ok(Some(command)) => make(rt, command, naming, making),
            Ok(None) => 0,
            Err(_) => refuse_memory(rt),
        },
        Err(Unread::Folder(folder)) => refuse_device(rt, folder.as_str()),
        Err(Unread::Memory) => refuse_memory(rt),
    }
}

/// The command that makes a folder's database, unless it is hidden.
fn command_of(
    rt: &HostRuntime,
    folder: SourceFolder,
    naming: Naming,
) -> Result<Option<Command>, AllocError> {
    let alloc = rt.alloc();
    let name = String::from_str(alloc, folder.name.as_str())?;
    let Some(command) = updates(alloc, &[folder])?.pop() else {
        return Ok(None);
    };
    match naming {
        Naming::Own => Ok(Some(command)),
        Naming::InPlace => Ok(Some(in_dconfs_place(command, name))),
    }
}

fn make(rt: &HostRuntime, command: Command, naming: Naming, making: Making) -> u8 {
    match making {
        Making::Due => run_if_due(rt, command, naming),
        Making::Each => run_one(rt, command, naming),
        Making::Dry { forces } => say_made(rt, &command, forces),
    }
}

/// Runs a command, unless its file holds already what it would be given: then nothing is written, and nobody is told of a change.
///
/// No time is asked for: what was saved while a database was made, or has an older time, is told by what it says.
fn run_if_due(rt: &HostRuntime, command: Command, naming: Naming) -> u8 {
    if !has_file(rt, &command) {
        return run_one(rt, command, naming);
    }
    let mut folder = StdFolder::read_only(rt);
    let mut input = Counted::new(rt.stdin());
    match is_made(rt.alloc(), &command, &mut folder, &mut input) {
        Ok(true) => 0,
        Ok(false) => run_one(rt, command, naming),
        Err(_) => refuse_memory(rt),
    }
}

/// Runs a command in its turn. In dconf's places who has the replaced file mapped is told so.
fn run_one(rt: &HostRuntime, command: Command, naming: Naming) -> u8 {
    let replaced = match command.replaced() {
        Some(Replaced::File(name)) if matches!(naming, Naming::InPlace) => opened(rt, name),
        _ => None,
    };
    let mut session = Session::on(rt.alloc(), rt.stdin(), rt.stdout(), rt.stderr());
    let status = run_in_turn(rt, command, &mut session);
    if status == 0
        && let Some(replaced) = &replaced
    {
        set_invalid(replaced);
    }
    status
}

/// Whether a file has the name of the one that the command replaces. What is no regular file is not read: that may never end.
pub(crate) fn has_file(rt: &HostRuntime, command: &Command) -> bool {
    let Some(Replaced::File(name)) = command.replaced() else {
        return false;
    };
    match fs::metadata(rt, name) {
        Ok(found) => found.is_file(),
        Err(_) => false,
    }
}
