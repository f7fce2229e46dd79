//! The sources in the current folder, of which `update` makes databases.
use dconf_args::SourceFolder;
use std::alloc::AllocError;
use std::fs;
use std::io::{self, ErrorKind};

/// A folder that can't be read, or want of memory.
#[derive(Drop)]
pub(crate) enum Unread {
    Folder(String),
    Memory,
}

impl From<AllocError> for Unread {
    fn from(_: AllocError) -> Unread {
        Unread::Memory
    }
}

/// The names of a folder, in byte order.
pub(crate) fn names_in(rt: &HostRuntime, folder: &str) -> Result<Vec<String>, Unread> {
    match read_names(rt, folder) {
        Ok(names) => Ok(names),
        Err(error) if error.kind() == ErrorKind::OutOfMemory => Err(Unread::Memory),
        Err(_) => Err(Unread::Folder(String::from_str(rt.alloc(), folder)?)),
    }
}

fn read_names(rt: &HostRuntime, folder: &str) -> io::Result<Vec<String>> {
    let alloc = rt.alloc();
    let mut names = Vec::new(alloc);
    for entry in fs::read_dir(rt, folder)? {
        let entry = entry?;
        add(&mut names, String::from_str(alloc, entry.file_name())?)?;
    }
    names.sort()?;
    Ok(names)
}

fn add<T: Drop>(list: &mut Vec<T>, it: T) -> Result<(), AllocError> {
    list.push(it)?;
    Ok(())
}

/// Whether a folder has this name, or a link to one.
pub(crate) fn is_folder(rt: &HostRuntime, name: &str) -> bool {
    match fs::metadata(rt, name) {
        Ok(found) => found.is_dir(),
        Err(_) => false,
    }
}

/// The sources in a folder, of the database NAME.
pub(crate) fn source_folder(
    rt: &HostRuntime,
    folder: &str,
    name: &str,
) -> Result<SourceFolder, Unread> {
    let alloc = rt.alloc();
    let locks = format!(in alloc; "{folder}/locks")?;
    let keyfiles = files_in(rt, folder)?;
    let mut lock_files = Vec::new(alloc);
    if is_folder(rt, locks.as_str()) {
        lock_files = files_in(rt, locks.as_str())?;
    }
    Ok(SourceFolder {
        name: String::from_str(alloc, name)?,
        keyfiles,
        locks: lock_files,
    })
}

/// The names of the files in a folder, and of the links to files.
fn files_in(rt: &HostRuntime, folder: &str) -> Result<Vec<String>, Unread> {
    let alloc = rt.alloc();
    let mut files = Vec::new(alloc);
    for name in names_in(rt, folder)? {
        let path = format!(in alloc; "{folder}/{name}")?;
        // One that can't be looked at may be a file: `compile` says what is wrong with it.
        let is_file = match fs::metadata(rt, path.as_str()) {
            Ok(found) => found.is_file(),
            Err(_) => true,
        };
        if is_file {
            add(&mut files, name)?;
        }
    }
    Ok(files)
}
