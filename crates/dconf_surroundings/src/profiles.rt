//! The profile of a store that is found, and what it says.
use crate::find::{NotFound, text};
use dconf_disk::{Folder, FolderFault, StdFolder};
use dconf_found::{InPlace, profile_in_place};
use dconf_homes::{MOST_DIRS, Place as Home, Sought, SoughtStep};
use dconf_places::{Found as Seen, Telling, USERS_PROFILE};
use std::alloc::AllocError;
use std::fs;
use std::io::ErrorKind;
use std::rt::Files;

/// So many profiles may be looked at: one in each folder of `$XDG_DATA_DIRS`, and those before them.
const MOST_LOOKS: usize = MOST_DIRS + 4;

/// A profile has at most so many bytes.
const MOST_BYTES: usize = 16_777_216;

/// The profile of a store.
#[derive(Drop)]
pub struct Profile {
    /// The whole path of its file, by which it is read.
    pub path: String,
    /// What it says, if that isn't read from the file.
    pub made: Option<Vec<u8>>,
    /// The user's database where dconf has it, by its NAME.
    pub user: Option<String>,
    /// What is told of it.
    pub told: Option<String>,
}

/// What a look at a file found, and what it holds, if that was read.
#[derive(Drop)]
struct Look {
    seen: Seen,
    bytes: Option<Vec<u8>>,
}

impl Look {
    fn of(seen: Seen) -> Look {
        Look { seen, bytes: None }
    }

    /// One that is too big is as good as unreadable.
    fn of_bytes(bytes: Vec<u8>) -> Look {
        if bytes.len() > MOST_BYTES {
            return Look::of(Seen::Unreadable);
        }
        Look {
            seen: Seen::There,
            bytes: Some(bytes),
        }
    }
}

/// The profile that counts, by looks at each that may.
pub(crate) fn profile_of<R: Files + AllocGlobal>(
    rt: &R,
    home: &Home<'_>,
) -> Result<Profile, NotFound> {
    let mut profile = Profile {
        path: String::new(rt.alloc()),
        made: None,
        user: None,
        told: None,
    };
    let mut sought = home.first();
    for _ in 0..MOST_LOOKS {
        let look = look_at(rt, home, sought, &mut profile)?;
        match home.step(sought, look.seen, is_lenient(sought)) {
            SoughtStep::Look(next) => sought = next,
            step => {
                says(rt, home, step, look, &mut profile)?;
                return Ok(profile);
            }
        }
    }
    Ok(profile)
}

/// Whether one that can't be read is passed over: one that is named by a word, or is of our own kind of store, is refused when it is read.
fn is_lenient(sought: Sought) -> bool {
    !matches!(sought, Sought::Ours(_))
}

/// A look at a profile that may count, and what is told of it.
fn look_at<R: Files + AllocGlobal>(
    rt: &R,
    home: &Home<'_>,
    sought: Sought,
    profile: &mut Profile,
) -> Result<Look, NotFound> {
    let Some(path) = home.path(sought) else {
        return Ok(Look::of(Seen::Missing));
    };
    profile.path = text(rt, path)?;
    let path = profile.path.as_str();
    let look = match sought {
        Sought::Ours(_) => Look::of(seen_of(rt, path)),
        _ => read_at(rt, path)?,
    };
    if let Telling::Kept = home.said_as(
        sought,
        look.seen,
        is_lenient(sought),
        profile.told.is_some(),
    ) {
        profile.told = Some(told_of(rt, home, look.seen, path)?);
    }
    Ok(look)
}

/// What is of this name; nobody knows it of one that can't be looked at.
fn seen_of<R: Files>(rt: &R, path: &str) -> Seen {
    match fs::exists(rt, path) {
        Ok(true) => Seen::There,
        Ok(false) => Seen::Missing,
        Err(_) => Seen::Unreadable,
    }
}

/// What is of this name, and holds. What isn't a file's own fault is nobody's to pass over.
fn read_at<R: Files + AllocGlobal>(rt: &R, path: &str) -> Result<Look, NotFound> {
    match fs::metadata(rt, path) {
        Ok(found) if found.is_file() => read(rt, path),
        Ok(_) => Ok(Look::of(Seen::Unreadable)),
        Err(error) => match error.kind() {
            ErrorKind::NotFound => Ok(Look::of(Seen::Missing)),
            ErrorKind::NotADirectory | ErrorKind::PermissionDenied => {
                Ok(Look::of(Seen::Unreadable))
            }
            ErrorKind::FilesystemLoop | ErrorKind::InvalidFilename => {
                Ok(Look::of(Seen::Unreadable))
            }
            ErrorKind::OutOfMemory => Err(NotFound::Memory),
            _ => Ok(Look::of(Seen::Unknown)),
        },
    }
}

fn read<R: Files + AllocGlobal>(rt: &R, path: &str) -> Result<Look, NotFound> {
    match StdFolder::read_only(rt).read(rt.alloc(), path) {
        Ok(Some(bytes)) => Ok(Look::of_bytes(bytes)),
        Ok(None) => Ok(Look::of(Seen::Missing)),
        Err(FolderFault::Memory) => Err(NotFound::Memory),
        Err(_) => Ok(Look::of(Seen::Unreadable)),
    }
}

/// Why one is not the profile, as it is told.
fn told_of<R: AllocGlobal>(
    rt: &R,
    home: &Home<'_>,
    seen: Seen,
    path: &str,
) -> Result<String, AllocError> {
    match seen {
        Seen::Missing => {
            let name = str::from_utf8(home.profile).unwrap_or(path);
            format!(in rt.alloc(); "there is no profile {name}, so the store has no database")
        }
        _ => format!(in rt.alloc(); "{path}: it can't be read, so it isn't the profile"),
    }
}

/// What the profile says that the looks came to.
fn says<R: Files + AllocGlobal>(
    rt: &R,
    home: &Home<'_>,
    step: SoughtStep,
    look: Look,
    profile: &mut Profile,
) -> Result<(), NotFound> {
    let bytes = match step {
        SoughtStep::UsersAlone => Some(USERS_PROFILE.as_bytes().to_vec(rt.alloc())?),
        SoughtStep::NoDatabase => Some(Vec::new(rt.alloc())),
        SoughtStep::Counts if home.is_dconfs => held(rt, look, profile.path.as_str())?,
        // It is read from its file, and that it can't be is said then.
        _ => None,
    };
    let Some(bytes) = bytes else {
        return Ok(());
    };
    if home.is_dconfs {
        let lines = profile_in_place(rt.alloc(), home, &bytes)?;
        return in_place(rt, lines, profile);
    }
    profile.made = Some(bytes);
    Ok(())
}

/// The bytes of a profile that is there, where they can be read.
fn held<R: Files + AllocGlobal>(
    rt: &R,
    look: Look,
    path: &str,
) -> Result<Option<Vec<u8>>, NotFound> {
    match look.bytes {
        Some(bytes) => Ok(Some(bytes)),
        None => Ok(read(rt, path)?.bytes),
    }
}

/// Takes what a profile's lines say in dconf's places; the first line that is passed over is told, unless something else is.
fn in_place<R: AllocGlobal>(rt: &R, lines: InPlace, profile: &mut Profile) -> Result<(), NotFound> {
    let InPlace { text, user, fault } = lines;
    if profile.told.is_none()
        && let Some(bad) = &fault
    {
        let told = passed_over(rt, profile.path.as_str(), bad.line, bad.fault.text())?;
        profile.told = Some(told);
    }
    profile.made = Some(text);
    profile.user = match user {
        Some(name) => match String::from_utf8(name) {
            Ok(name) => Some(name),
            Err(_) => return Err(NotFound::NotText),
        },
        None => None,
    };
    Ok(())
}

fn passed_over<R: AllocGlobal>(
    rt: &R,
    path: &str,
    line: usize,
    fault: &str,
) -> Result<String, AllocError> {
    format!(in rt.alloc(); "{path}:{line}: {fault}; the line is passed over")
}
