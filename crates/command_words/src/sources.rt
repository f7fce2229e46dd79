//! Which databases `update` makes, and of which files.
ghost use Rattle.std.specs.Prelude.{◌≡◌, ◌++◌, IfOk, map, string_bytes, vec_items};
ghost use Rattle.dconf_model.specs.Updates.{compile_of, is_shown, sources_in, updates};
ghost use Rattle.command_words.specs.Commands.{command_of};
ghost use Rattle.command_words.specs.Updates.{folder_of};

use crate::commands::Command;
use dconf_path::{Database, DatabaseKind};
use dconf_places::file_name;
use std::alloc::{AllocError, Global};

/// What the name of a folder with sources ends in, behind that of the database.
pub const SOURCES_END: &str = ".d";

/// The folder NAME.d with the sources of the database NAME.db.
#[derive(Debug, Drop)]
pub struct SourceFolder {
    /// NAME alone.
    pub name: String,
    /// The names of the files in it.
    pub keyfiles: Vec<String>,
    /// Those of the files in its folder `locks`, if there is one.
    pub locks: Vec<String>,
}

/// The commands that make the databases, in the order of the folders. Hidden files and folders are left out.
///
/// It looks at each name once, and takes memory for the words of the commands. The only error is a failed allocation.
pub fn updates(alloc: Global, folders: &[SourceFolder]) -> Result<Vec<Command>, AllocError>
    ensures { IfOk result (λ commands. map command_of (vec_items commands) ≡ updates (map folder_of folders.now)) }
{
    let mut commands = Vec::new(alloc);
    for folder in folders {
        if is_shown(&folder.name) {
            commands.push(folder.compile(alloc)?)?;
        }
    }
    Ok(commands)
}

impl SourceFolder {
    /// The command that makes the database.
    fn compile(&self, alloc: Global) -> Result<Command, AllocError>
        ensures { IfOk result (λ command. command_of command ≡ compile_of (folder_of self.now)) }
    {
        let name = self.name.as_str();
        let kind = DatabaseKind::System;
        let made = Database { kind, name };
        let locks = format!(in alloc; "{name}{SOURCES_END}/locks/")?;
        let keyfiles = format!(in alloc; "{name}{SOURCES_END}/")?;
        Ok(Command::Compile {
            out: file_name(alloc, made)?,
            locks: sources_in(alloc, locks.as_str(), &self.locks)?,
            keyfiles: sources_in(alloc, keyfiles.as_str(), &self.keyfiles)?,
        })
    }
}

/// Whether a name is not hidden.
fn is_shown(name: &str) -> bool
    ensures { result ≡ is_shown name.now }
{
    !name.as_bytes().starts_with(b".")
}

/// The names of the files that are not hidden, each after this start.
fn sources_in(alloc: Global, start: &str, files: &[String]) -> Result<Vec<String>, AllocError>
    ensures { IfOk result (λ names. map string_bytes (vec_items names) ≡ sources_in start.now (map string_bytes files.now)) }
{
    let mut names = Vec::new(alloc);
    for file in files {
        if is_shown(file) {
            names.push(format!(in alloc; "{start}{file}")?)?;
        }
    }
    Ok(names)
}
