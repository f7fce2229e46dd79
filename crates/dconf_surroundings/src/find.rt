//! The store that `--user` or `--store` names, found as the library for C finds it.
ghost use Rattle.std.specs.Prelude.{◌≡◌, ◌&&◌, not, IfOk, false, is_some, option_map};
ghost use Rattle.std.specs.String.{string_bytes};
ghost use Rattle.dconf_found.specs.Renamed.{held_name, names_of};
ghost use Rattle.dconf_places.specs.Places.{is_beside};
ghost use Rattle.dconf_surroundings.specs.Names.{names_by, path_in};

use crate::profiles::{Profile, profile_of};
use crate::surroundings::{Surroundings, user_number};
use dconf_args::Place;
use dconf_found::{Renames, store_line};
use dconf_homes::{Around, Place as Home, Wanted};
use dconf_path::DatabaseKind;
use dconf_places::{Given, Location, PathParts, is_beside};
use std::alloc::AllocError;
use std::env::{self, Env};
use std::fs::DirBuilder;
use std::io::ErrorKind;
use std::os::unix::fs::DirBuilderExt;
use std::rt::Files;

/// A folder that is made is its user's alone.
const OWN: u32 = 0o700;

/// A store whose folder is the current one now.
#[derive(Drop)]
pub struct Found {
    /// Its absolute path.
    pub folder: String,
    pub profile: Profile,
    /// Whether there is a folder.
    pub has_folder: bool,
    /// Whether the folder was given by a word: then all its databases are there.
    pub is_given: bool,
    /// Whether it is dconf's kind.
    pub is_dconfs: bool,
    /// The flag of dconf's readers of the user's database; nothing where they have none.
    pub flag: String,
    /// What `explain` says of its kind.
    pub kind: String,
}

impl Found {
    /// Whether it was given by a word, and isn't there: then nothing in it is read.
    pub fn is_nowhere(&self) -> bool
        ensures { result ≡ (self.now.is_given && not self.now.has_folder) }
    {
        self.is_given && !self.has_folder
    }

    /// Whether the databases of the system that its profile names are beside that: it is the one of all users, and the folder the user's.
    pub fn is_everyones(&self) -> bool
        ensures { result ≡ (not self.now.is_dconfs && is_beside (string_bytes self.now.profile.path) self.now.is_given) }
    {
        !self.is_dconfs && is_beside(self.profile.path.as_bytes(), self.is_given)
    }

    /// The names of its files in the folder.
    pub fn names<R: AllocGlobal>(&self, rt: &R) -> Result<Renames, AllocError>
        ensures { IfOk result (λ it. names_of it ≡ names_by (option_map string_bytes self.now.profile.user)) }
    {
        match &self.profile.user {
            Some(user) => Renames::of_users(rt.alloc(), user.as_str()),
            None => Ok(Renames::none(rt.alloc())),
        }
    }

    /// The whole path of a file of this name.
    pub fn path<R: AllocGlobal>(&self, rt: &R, name: &str) -> Result<String, AllocError>
        ensures { IfOk result (λ path. string_bytes path ≡ path_in (string_bytes self.now.folder) (held_name (names_by (option_map string_bytes self.now.profile.user)) name.now)) }
    {
        let name = self.held(rt, name)?;
        if name.starts_with('/') {
            return Ok(name);
        }
        format!(in rt.alloc(); "{}/{}", self.folder.as_str(), name.as_str())
    }

    /// Its name in the folder.
    pub fn held<R: AllocGlobal>(&self, rt: &R, name: &str) -> Result<String, AllocError>
        ensures { IfOk result (λ held. string_bytes held ≡ held_name (names_by (option_map string_bytes self.now.profile.user)) name.now) }
    {
        let names = self.names(rt)?;
        String::from_str(rt.alloc(), names.held(name))
    }
}

/// Why there is none.
#[derive(Drop)]
pub enum NotFound {
    /// Both were given.
    Both,
    /// Nobody says where the user's folder is.
    NoFolder,
    /// Nobody knows which kind of store there is.
    Kind {
        /// The file that says it can't be read.
        is_unreadable: bool,
    },
    /// This folder can't be made, or can't be entered.
    Device(String),
    /// A variable of the environment is not UTF-8.
    NotText,
    Memory,
}

impl From<AllocError> for NotFound {
    fn from(_: AllocError) -> NotFound {
        NotFound::Memory
    }
}

/// Enters the folder that was asked for, and says which profile its store has. A folder that isn't there is made where
/// `makes` is set.
pub fn enter<R: Files + Env + AllocGlobal>(
    rt: &R,
    place: Place,
    makes: bool,
) -> Result<Found, NotFound>
    ensures one { IfOk result (λ found. (place.is_users && found.is_given) ≡ false) }
    ensures given { IfOk result (λ found. found.is_given ≡ is_some place.folder) }
{
    if place.is_users && place.folder.is_some() {
        return Err(NotFound::Both);
    }
    let surroundings = Surroundings::of(rt)?;
    let around = surroundings.around();
    let is_dconfs = surroundings.is_dconfs(given(&place))?;
    let Some(folder) = whole(rt, around.location(given(&place), Wanted::Folder))? else {
        return Err(NotFound::NoFolder);
    };
    // A name is relative to where the program was started.
    let named = named_profile(rt, &around, &place)?;
    let runtime = whole(rt, around.location(given(&place), Wanted::Runtime))?;
    let user = number_if(rt, is_dconfs)?;
    let has_folder = go_to(rt, folder.as_str(), makes)?;
    let home = Home {
        folder: folder.as_bytes(),
        named: bytes_of(&named),
        profile: surroundings.dconfs_profile(),
        runtime: bytes_of(&runtime),
        data_dirs: surroundings.data_dirs(),
        user: user.as_bytes(),
        is_given: place.folder.is_some(),
        is_dconfs,
        counts: around.environment.counts,
    };
    let profile = profile_of(rt, &home)?;
    Ok(Found {
        flag: flag_of(rt, &home, &profile)?,
        profile,
        has_folder,
        is_given: place.folder.is_some(),
        is_dconfs,
        kind: store_line(rt.alloc(), &around, given(&place))?,
        folder,
    })
}

fn bytes_of(path: &Option<String>) -> &[u8] {
    match path {
        Some(path) => path.as_bytes(),
        None => b"",
    }
}

/// The user's number, where the rules ask for it.
fn number_if<R: Files + AllocGlobal>(rt: &R, is_asked: bool) -> Result<String, NotFound> {
    if is_asked {
        user_number(rt)
    } else {
        Ok(String::new(rt.alloc()))
    }
}

/// The flag of dconf's readers of the user's database.
fn flag_of<R: AllocGlobal>(rt: &R, home: &Home<'_>, profile: &Profile) -> Result<String, NotFound> {
    match &profile.user {
        Some(user) => text(rt, home.flag(DatabaseKind::User, user.as_bytes())),
        None => Ok(String::new(rt.alloc())),
    }
}

/// Who gives the folder.
fn given(place: &Place) -> Given<'_> {
    match &place.folder {
        Some(folder) => Given::User(folder.as_bytes()),
        None => Given::Nobody,
    }
}

/// The whole path of the profile, if it is named by a word or by the environment.
fn named_profile<R: Env + AllocGlobal>(
    rt: &R,
    around: &Around<'_>,
    place: &Place,
) -> Result<Option<String>, NotFound> {
    match &place.profile {
        Some(file) => whole(rt, Location::of_path(file.as_bytes())),
        None => whole(rt, around.location(given(place), Wanted::Profile)),
    }
}

/// The whole path, if there is one. Nobody here knows the home that the system has for the user.
fn whole<R: Env + AllocGlobal>(rt: &R, location: Location<'_>) -> Result<Option<String>, NotFound> {
    let base = match location {
        Location::Current(_) => here(rt)?,
        _ => String::new(rt.alloc()),
    };
    match location.path(base.as_bytes()) {
        Some(path) => Ok(Some(text(rt, path)?)),
        None => Ok(None),
    }
}

/// The current folder.
fn here<R: Env + AllocGlobal>(rt: &R) -> Result<String, NotFound> {
    match env::current_dir(rt) {
        Ok(here) => Ok(String::from_str(rt.alloc(), here.as_str())?),
        Err(error) if error.kind() == ErrorKind::OutOfMemory => Err(NotFound::Memory),
        Err(_) => Err(device(rt, ".")),
    }
}

/// The path as a text.
pub(crate) fn text<R: AllocGlobal>(rt: &R, path: PathParts<'_>) -> Result<String, NotFound> {
    match String::from_utf8(path.text(rt.alloc())?) {
        Ok(path) => Ok(path),
        Err(_) => Err(NotFound::NotText),
    }
}

/// Enters a folder, and says whether it is there.
fn go_to<R: Files + Env + AllocGlobal>(
    rt: &R,
    folder: &str,
    makes: bool,
) -> Result<bool, NotFound> {
    match env::set_current_dir(rt, folder) {
        Ok(()) => Ok(true),
        Err(error) if error.kind() == ErrorKind::NotFound => {
            if !makes {
                return Ok(false);
            }
            make(rt, folder)?;
            Ok(true)
        }
        Err(_) => Err(device(rt, folder)),
    }
}

/// Makes a folder, and those above it that aren't there, and enters it.
fn make<R: Files + Env + AllocGlobal>(rt: &R, folder: &str) -> Result<(), NotFound> {
    let mut builder = DirBuilder::new();
    builder.recursive(true).mode(OWN);
    if builder.create(rt, folder).is_err() || env::set_current_dir(rt, folder).is_err() {
        return Err(device(rt, folder));
    }
    Ok(())
}

fn device<R: AllocGlobal>(rt: &R, folder: &str) -> NotFound {
    match String::from_str(rt.alloc(), folder) {
        Ok(folder) => NotFound::Device(folder),
        Err(_) => NotFound::Memory,
    }
}
