//! The file that a new one replaces: its permission bits, which that one gets, and the other name that it keeps.
ghost use Rattle.std.specs.Prelude.{◌≡◌, ◌∷◌, IfOk, string_bytes};
ghost use Rattle.dconf_turn.specs.Jobs.{IsAside};
ghost use Rattle.dconf_folders.specs.SystemCalls.{given_mode};

use dconf_files::bits_for;
use dconf_folders::{Record, aside_name};
use std::alloc::{AllocError, Global};
use std::fs::{Metadata, OpenFile, OpenOptions, Permissions};
use std::io::ErrorKind;
use std::os::unix::fs::{MetadataExt, OpenOptionsExt, PermissionsExt};
use std::rt::Files;
use std::{fs, io};

/// Who may read, write and run a file: the owner, its group, all others.
const PERMISSION_BITS: u32 = 0o777;

/// The number of the call as it is noted, and of its answer.
const SET_MODE: u64 = 7;

const DONE: u64 = 1;

/// What the owner needs to fill a file and to sync it; a file with no other bits is open to its owner alone.
pub(crate) const READ_AND_WRITE: u32 = 0o600;

/// So many other names are tried.
const MOST_ASIDE: u32 = 999;

/// A file that a new one is to replace.
#[derive(Clone, Copy)]
pub(crate) struct Replacing {
    pub(crate) bits: u32,
    group: u32,
}

/// The file of this name, if there is one.
pub(crate) fn old_of<R: Files>(rt: &R, name: &str) -> io::Result<Option<Replacing>> {
    match fs::metadata(rt, name) {
        Ok(found) => Ok(Some(Replacing {
            bits: bits_of(&found),
            group: found.gid(),
        })),
        Err(error) if error.kind() == ErrorKind::NotFound => Ok(None),
        Err(error) => Err(error),
    }
}

/// Makes the name free. A folder gets another one.
pub(crate) fn make_room<R: Files>(alloc: Global, rt: &R, name: &str) -> io::Result<()> {
    match fs::remove_file(rt, name) {
        Ok(()) => Ok(()),
        Err(error) if error.kind() == ErrorKind::NotFound => Ok(()),
        Err(error) if error.kind() == ErrorKind::IsADirectory => move_aside(alloc, rt, name),
        Err(error) => Err(error),
    }
}

/// Gives a folder the first other name that is free.
fn move_aside<R: Files>(alloc: Global, rt: &R, name: &str) -> io::Result<()> {
    for n in 1..=MOST_ASIDE {
        let aside = aside_name(alloc, name, n)?;
        match fs::symlink_metadata(rt, aside.as_str()) {
            Ok(_) => {}
            Err(error) if error.kind() == ErrorKind::NotFound => {
                return fs::rename(rt, name, aside.as_str());
            }
            Err(error) => return Err(error),
        }
    }
    Err(io::Error::from(ErrorKind::AlreadyExists))
}

/// Gives the file of this name another one, too, the first that is free, and says which one was tried last.
pub(crate) fn link_aside<R: Files>(
    alloc: Global,
    rt: &R,
    name: &str,
) -> Result<(String, io::Result<()>), AllocError>
    ensures { IfOk result (λ it. IsAside name.now (string_bytes it.0)) }
{
    for n in 1..MOST_ASIDE {
        let aside = aside_name(alloc, name, n)?;
        match link_once(rt, name, aside.as_str()) {
            Err(error) if error.kind() == ErrorKind::AlreadyExists => {}
            answer => return Ok((aside, answer)),
        }
    }
    let aside = aside_name(alloc, name, MOST_ASIDE)?;
    let answer = link_once(rt, name, aside.as_str());
    Ok((aside, answer))
}

/// One that was killed may have left the other name.
fn link_once<R: Files>(rt: &R, name: &str, aside: &str) -> io::Result<()> {
    let Err(error) = fs::hard_link(rt, name, aside) else {
        return Ok(());
    };
    if error.kind() == ErrorKind::AlreadyExists && is_same(rt, name, aside) {
        return Ok(());
    }
    Err(error)
}

/// Whether both are names of one file.
fn is_same<R: Files>(rt: &R, one: &str, other: &str) -> bool {
    let found = (
        fs::symlink_metadata(rt, one),
        fs::symlink_metadata(rt, other),
    );
    match found {
        (Ok(one), Ok(other)) => one.dev() == other.dev() && one.ino() == other.ino(),
        _ => false,
    }
}

/// A new and empty file with these bits, less the umask. If it is not of the group of the file that it replaces, its group may do no more than everyone.
pub(crate) fn open_new<R: Files>(
    rt: &R,
    name: &str,
    bits: u32,
    old: Option<Replacing>,
) -> io::Result<R::File> {
    let mut options = OpenOptions::new();
    options.write(true).create_new(true).mode(bits);
    let file = options.open(rt, name)?;
    if let Some(old) = old {
        if old.group != file.metadata()?.gid() {
            file.set_permissions(Permissions::from_mode(bits_for(bits, false) | READ_AND_WRITE))?;
        }
    }
    Ok(file)
}

/// Gives an open file of this name these permission bits, if it replaces another.
pub(crate) fn keep_mode<F: OpenFile>(
    calls: &mut Record,
    file: &F,
    name: &str,
    bits: Option<u32>,
    old: Option<Replacing>,
) -> io::Result<()>
    ensures { calls.new.notes ≡ given_mode name.now ∷ calls.old.notes }
{
    calls.note(&[SET_MODE, DONE], name.as_bytes(), &[]);
    let (Some(bits), Some(old)) = (bits, old) else {
        return Ok(());
    };
    // No call here gives a file another group.
    let new = file.metadata()?;
    let bits = bits_for(bits, old.group == new.gid());
    if bits_of(&new) == bits {
        return Ok(());
    }
    file.set_permissions(Permissions::from_mode(bits))
}

/// The permission bits of a file.
fn bits_of(file: &Metadata) -> u32 {
    file.permissions().mode() & PERMISSION_BITS
}
