//! `update --dry-run`: what would be made, of which files, and which keys that changes. Nothing is written.
use crate::messages::refuse_for;
use crate::updates::has_file;
use dconf_args::Command;
use dconf_cli::Counted;
use dconf_commands::answered;
use dconf_compared::{alone, changes};
use dconf_disk::{Folder, StdFolder};
use dconf_engine::EngineFault;
use dconf_layers::LentLayers;
use dconf_streams::Answer;
use std::alloc::{AllocError, Global};
use std::io::{self, ErrorKind};

/// Says what a command would make, and gives the status: 1 if it would be refused.
pub(crate) fn say_made(rt: &HostRuntime, command: &Command, forces: bool) -> u8 {
    let mut folder = StdFolder::read_only(rt);
    let mut input = Counted::new(rt.stdin());
    match answered(rt.alloc(), command, &mut folder, &mut input) {
        Ok(Answer::Changed { file, bytes, .. }) => {
            let found = found(rt, command, file.as_str());
            match say_change(rt, command, found.as_deref(), &bytes, forces) {
                Ok(()) => 0,
                Err(_) => 1,
            }
        }
        Ok(Answer::Done(_)) => 0,
        Err(refusal) => refuse_for(rt, &refusal),
    }
}

/// The bytes of the file that would be replaced.
fn found(rt: &HostRuntime, command: &Command, file: &str) -> Option<Vec<u8>> {
    if !has_file(rt, command) {
        return None;
    }
    StdFolder::read_only(rt).read(rt.alloc(), file).ok()?
}

/// Says what a file would be given that holds `found`.
fn say_change(
    rt: &HostRuntime,
    command: &Command,
    found: Option<&[u8]>,
    made: &[u8],
    forces: bool,
) -> io::Result<()> {
    let Command::Compile {
        out,
        locks,
        keyfiles,
    } = command
    else {
        return Ok(());
    };
    let file = out.as_str();
    if !forces && found == Some(made) {
        return println!(rt; "{file}: stays as it is");
    }
    let sources = sources_of(rt.alloc(), keyfiles, locks)?;
    println!(rt; "{file}: is to be made of{sources}")?;
    say_keys(rt, found, made)
}

/// The files that a database is made of, a blank before each.
fn sources_of(alloc: Global, keyfiles: &[String], locks: &[String]) -> Result<String, AllocError> {
    let mut names = String::new(alloc);
    for file in keyfiles {
        names.push(' ')?;
        names.push_str(file.as_str())?;
    }
    for file in locks {
        names.push(' ')?;
        names.push_str(file.as_str())?;
    }
    if names.is_empty() {
        names.push_str(" no files")?;
    }
    Ok(names)
}

/// Says which keys and locks a database changes that takes the place of another. A bad one has none.
fn say_keys(rt: &HostRuntime, found: Option<&[u8]>, made: &[u8]) -> io::Result<()> {
    let alloc = rt.alloc();
    let before = match alone(alloc, found) {
        Ok(layers) => layers,
        Err(EngineFault::Fault(bad)) => {
            println!(rt; "  what is there is no sound database: {}", bad.1)?;
            Vec::new(alloc)
        }
        Err(EngineFault::Memory) => return Err(io::Error::from(ErrorKind::OutOfMemory)),
    };
    let Ok(after) = alone(alloc, Some(made)) else {
        return Err(io::Error::from(ErrorKind::OutOfMemory));
    };
    let text = changes(
        alloc,
        LentLayers::new(false, &before),
        LentLayers::new(false, &after),
    )?;
    print!(rt; "{}", text.as_str())
}
