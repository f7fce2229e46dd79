//! Where the folder of a store is, and the profile that is named.
ghost use Rattle.std.specs.Prelude.{◌≡◌, option_map};
ghost use Rattle.dconf_places.specs.Numbers.{base_number, giver_numbered};
ghost use Rattle.dconf_places.specs.Places.{default_folder, folder_of, has_slash, path_at, profile_in, profile_of, spot_for, spot_of};
ghost use Rattle.dconf_places.specs.Told.{giver_of, spot_at, text_of, variables_of};

use crate::parts::PathParts;

/// What the environment says of a store. An empty variable counts as unset.
#[repr(C)]
#[derive(Clone, Copy)]
pub struct Environment<'a> {
    /// Whether the variables count: none does of a program that has more rights than whoever started it.
    pub counts: bool,
    /// `$DCONFDB_STORE`.
    pub store: &'a [u8],
    /// `$XDG_CONFIG_HOME`.
    pub config: &'a [u8],
    /// `$HOME`.
    pub home: &'a [u8],
    /// `$DCONFDB_PROFILE`.
    pub profile: &'a [u8],
}

/// Who gives the folder of a store.
#[derive(Clone, Copy)]
pub enum Given<'a> {
    /// Nobody: the environment names it.
    Nobody,
    /// A program that calls the library.
    Program(&'a [u8]),
    /// A user, by a word of a command.
    User(&'a [u8]),
}

impl<'a> Given<'a> {
    /// By a number: 0 nobody, 1 a program, and else a user.
    pub fn of_number(number: u32, folder: &'a [u8]) -> Given<'a>
        ensures { giver_of result ≡ giver_numbered number folder.entry.now }
    {
        match number {
            0 => Given::Nobody,
            1 => Given::Program(folder),
            _ => Given::User(folder),
        }
    }
}

/// A path, and where it begins.
#[derive(Clone, Copy)]
pub enum Location<'a> {
    /// In the root. The path is two texts, one after the other.
    Root(&'a [u8], &'a [u8]),
    /// In the folder in which the program runs.
    Current(&'a [u8]),
    /// In the home that the system has for the user.
    Home(&'a [u8]),
    /// There is none.
    Nowhere,
}

impl<'a> Location<'a> {
    /// That of a store's folder, or of the profile that is named.
    pub fn of(environment: &Environment<'a>, given: Given<'a>, is_profile: bool) -> Location<'a>
        ensures { spot_at result ≡ spot_for is_profile (variables_of environment.now) (giver_of given.entry) }
    {
        if is_profile {
            Location::of_profile(environment, given)
        } else {
            Location::of_folder(environment, given)
        }
    }

    /// That of a store's folder.
    pub fn of_folder(environment: &Environment<'a>, given: Given<'a>) -> Location<'a>
        ensures { spot_at result ≡ folder_of (variables_of environment.now) (giver_of given.entry) }
    {
        match given {
            Given::Nobody => Location::of_default_folder(environment),
            Given::Program(folder) => Location::of_path(folder),
            Given::User(folder) => Location::of_path(folder),
        }
    }

    /// That of the profile that the environment names, if it counts there.
    pub fn of_profile(environment: &Environment<'a>, given: Given<'a>) -> Location<'a>
        ensures { spot_at result ≡ profile_of (variables_of environment.now) (giver_of given.entry) }
    {
        match given {
            Given::Program(_) => Location::Nowhere,
            Given::Nobody => Location::of_named_profile(environment),
            Given::User(_) => Location::of_named_profile(environment),
        }
    }

    /// That of a path.
    pub fn of_path(path: &'a [u8]) -> Location<'a>
        ensures { spot_at result ≡ spot_of path.entry.now }
    {
        if path.starts_with(b"/") {
            Location::Root(path, b"")
        } else {
            Location::Current(path)
        }
    }

    fn of_default_folder(environment: &Environment<'a>) -> Location<'a>
        ensures { spot_at result ≡ default_folder (variables_of environment.now) }
    {
        if !environment.counts {
            return Location::Nowhere;
        }
        if !environment.store.is_empty() {
            return Location::of_path(environment.store);
        }
        if environment.config.starts_with(b"/") {
            return Location::Root(environment.config, b"/dconfdb");
        }
        if environment.home.starts_with(b"/") {
            return Location::Root(environment.home, b"/.config/dconfdb");
        }
        Location::Home(b".config/dconfdb")
    }

    fn of_named_profile(environment: &Environment<'a>) -> Location<'a>
        ensures { spot_at result ≡ profile_in (variables_of environment.now) }
    {
        let name = environment.profile;
        if !environment.counts || name.is_empty() {
            return Location::Nowhere;
        }
        if name.contains(&b'/') {
            return Location::of_path(name);
        }
        Location::Root(b"/etc/dconfdb/profiles/", name)
    }

    /// The number of where it begins: 0 the root, 1 the current folder, 2 the user's home, 3 nowhere.
    pub fn base_number(self) -> u32
        ensures { result ≡ base_number (spot_at self.entry) }
    {
        match self {
            Location::Root(_, _) => 0,
            Location::Current(_) => 1,
            Location::Home(_) => 2,
            Location::Nowhere => 3,
        }
    }

    /// The whole path, by that of the folder in which it begins. There is none if that is no whole path of a home.
    pub fn path(self, base: &'a [u8]) -> Option<PathParts<'a>>
        ensures { option_map text_of result ≡ path_at (spot_at self.entry) base.entry.now }
    {
        match self {
            Location::Root(start, end) => Some(PathParts::of_two(start, end)),
            Location::Current(path) => Some(PathParts::below(base, path)),
            Location::Home(path) if base.starts_with(b"/") => Some(PathParts::below(base, path)),
            Location::Home(_) => None,
            Location::Nowhere => None,
        }
    }
}
