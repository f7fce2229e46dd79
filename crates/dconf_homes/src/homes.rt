//! Which kind of store is found, where its folder is, and which file a line of its profile means.
ghost use Rattle.std.specs.Prelude.{◌≡◌, codes};
ghost use Rattle.dconf_model.specs.Profiles.{is_user};
ghost use Rattle.dconf_path.specs.Profiles.{kind_of};
ghost use Rattle.dconf_places.specs.Places.{default_folder};
ghost use Rattle.dconf_places.specs.Told.{giver_of, spot_at, text_of, variables_of};
ghost use Rattle.dconf_homes.specs.Homes.{config_folder, dconfs_folder, dconfs_path, dconfs_spot, file_in, flag_in, found_kind, is_word, kind_for, machine_kind, minds_environment, minds_machine, own_spot, runtime_folder, spot_in};
ghost use Rattle.dconf_homes.specs.Numbers.{kind_number, kind_step, what_numbered};
ghost use Rattle.dconf_homes.specs.Told.{home_of, store_kind_of, surroundings_of, what_of};

use dconf_path::DatabaseKind;
use dconf_places::{Environment, Given, Location, PathParts, database_path, is_beside};

/// Where dconf has its databases of the system, and their sources.
pub const DATABASES_FOLDER: &str = "/etc/dconf/db";

/// What is around a program that looks for its store.
#[repr(C)]
#[derive(Clone, Copy)]
pub struct Around<'a> {
    pub environment: Environment<'a>,
    /// `$XDG_RUNTIME_DIR`.
    pub runtime: &'a [u8],
    /// `$XDG_CACHE_HOME`.
    pub cache: &'a [u8],
    /// What `/etc/dconfdb/store` says; nothing if there is no such file.
    pub machine: &'a [u8],
    /// Whether it couldn't be read.
    pub is_unreadable: bool,
}

/// Which kind of store it finds.
#[derive(Clone, Copy)]
pub enum FoundKind {
    /// Our own: a folder that has all.
    Own,
    /// dconf's: each part is where dconf has it.
    Dconfs,
    /// Nobody knows.
    Unknown,
}

impl FoundKind {
    /// Its number: 0 our own, 1 dconf's, 2 nobody knows.
    pub fn number(self) -> u32
        ensures { result ≡ kind_number (store_kind_of self) }
    {
        match self {
            FoundKind::Own => 0,
            FoundKind::Dconfs => 1,
            FoundKind::Unknown => 2,
        }
    }
}

/// What is asked for.
#[derive(Clone, Copy)]
pub enum Wanted {
    /// The store's folder.
    Folder,
    /// The profile that the environment names.
    Profile,
    /// The user's runtime folder, of dconf's kind.
    Runtime,
}

impl Wanted {
    /// By a number: 0 the folder, 1 the profile, and else the runtime folder.
    pub fn of_number(number: u32) -> Wanted
        ensures { what_of result ≡ what_numbered number }
    {
        match number {
            0 => Wanted::Folder,
            1 => Wanted::Profile,
            _ => Wanted::Runtime,
        }
    }
}

impl<'a> Around<'a> {
    /// Which kind of store whoever gives its folder finds.
    pub fn kind(&self, given: Given<'a>) -> FoundKind
        ensures { store_kind_of result ≡ kind_for (surroundings_of self.now) (giver_of given.entry) }
    {
        match given {
            Given::Nobody => self.found_kind(),
            Given::Program(_) => FoundKind::Own,
            Given::User(_) => FoundKind::Own,
        }
    }

    /// The same by a number, or what is asked first: known is nothing so far (0), the environment (1), or that and what the machine's file says (else).
    /// 0 our own, 1 dconf's, 2 nobody knows, 3 the environment is asked, 4 the machine's file is read.
    pub fn kind_step(&self, given: Given<'a>, known: u32) -> u32
        ensures { result ≡ kind_step (surroundings_of self.now) (giver_of given.entry) known }
    {
        if known == 0 && minds_environment(given) {
            3
        } else if known < 2 && self.minds_machine(given) {
            4
        } else {
            self.kind(given).number()
        }
    }

    fn minds_machine(&self, given: Given<'a>) -> bool
        ensures { result ≡ minds_machine (surroundings_of self.now) (giver_of given.entry) }
    {
        match given {
            Given::Nobody => self.environment.counts && self.environment.store.is_empty(),
            Given::Program(_) => false,
            Given::User(_) => false,
        }
    }

    fn found_kind(&self) -> FoundKind
        ensures { store_kind_of result ≡ found_kind (surroundings_of self.now) }
    {
        if !self.environment.counts || !self.environment.store.is_empty() {
            FoundKind::Own
        } else {
            machine_kind(self.machine, self.is_unreadable)
        }
    }

    /// Where the store's folder is, or the profile that is named, or the runtime folder.
    pub fn location(&self, given: Given<'a>, wanted: Wanted) -> Location<'a>
        ensures { spot_at result ≡ spot_in (what_of wanted) (surroundings_of self.now) (giver_of given.entry) }
    {
        match self.kind(given) {
            FoundKind::Own => own_location(&self.environment, given, wanted),
            FoundKind::Dconfs => self.dconfs_location(wanted),
            FoundKind::Unknown => Location::Nowhere,
        }
    }

    fn dconfs_location(&self, wanted: Wanted) -> Location<'a>
        ensures { spot_at result ≡ dconfs_spot (what_of wanted) (surroundings_of self.now) }
    {
        match wanted {
            Wanted::Folder => config_folder(&self.environment),
            Wanted::Profile => Location::Nowhere,
            Wanted::Runtime => self.runtime_folder(),
        }
    }

    fn runtime_folder(&self) -> Location<'a>
        ensures { spot_at result ≡ runtime_folder (surroundings_of self.now) }
    {
        let home = self.environment.home;
        if self.runtime.starts_with(b"/") {
            Location::Root(self.runtime, b"")
        } else if self.cache.starts_with(b"/") {
            Location::Root(self.cache, b"")
        } else if home.starts_with(b"/") {
            Location::Root(home, b"/.cache")
        } else {
            Location::Home(b".cache")
        }
    }
}

fn minds_environment(given: Given<'_>) -> bool
    ensures { result ≡ minds_environment (giver_of given.entry) }
{
    match given {
        Given::Nobody => true,
        Given::Program(_) => false,
        Given::User(_) => true,
    }
}

/// By the one word of the machine's file.
fn machine_kind(text: &[u8], is_unreadable: bool) -> FoundKind
    ensures { store_kind_of result ≡ machine_kind text.now is_unreadable }
{
    if is_unreadable {
        FoundKind::Unknown
    } else if text.is_empty() || is_ours(text) {
        FoundKind::Own
    } else if is_dconfs(text) {
        FoundKind::Dconfs
    } else {
        FoundKind::Unknown
    }
}

fn is_ours(text: &[u8]) -> bool
    ensures { result ≡ is_word text.now (codes "dconfdb") }
{
    text == "dconfdb".as_bytes() || text == "dconfdb\n".as_bytes()
}

fn is_dconfs(text: &[u8]) -> bool
    ensures { result ≡ is_word text.now (codes "dconf") }
{
    text == "dconf".as_bytes() || text == "dconf\n".as_bytes()
}

fn own_location<'a>(environment: &Environment<'a>, given: Given<'a>, wanted: Wanted) -> Location<'a>
    ensures { spot_at result ≡ own_spot (what_of wanted) (variables_of environment.now) (giver_of given.entry) }
{
    match wanted {
        Wanted::Folder => Location::of_folder(environment, given),
        Wanted::Profile => Location::of_profile(environment, given),
        Wanted::Runtime => Location::Nowhere,
    }
}

fn config_folder<'a>(environment: &Environment<'a>) -> Location<'a>
    ensures { spot_at result ≡ config_folder (variables_of environment.now) }
{
    if environment.config.starts_with(b"/") {
        Location::Root(environment.config, b"/dconf")
    } else if environment.home.starts_with(b"/") {
        Location::Root(environment.home, b"/.config/dconf")
    } else {
        Location::Home(b".config/dconf")
    }
}

/// Whether a database of this kind is the user's, which can be changed.
pub fn is_users(kind: DatabaseKind) -> bool
    ensures { result ≡ is_user (kind_of kind) }
{
    matches!(kind, DatabaseKind::User)
}

/// Where a store is, once it was found. What there is none of is empty.
#[repr(C)]
#[derive(Clone, Copy)]
pub struct Place<'a> {
    /// The whole path of its folder.
    pub folder: &'a [u8],
    /// The whole path of the profile that a program names, or the environment of our own kind of store.
    pub named: &'a [u8],
    /// `$DCONF_PROFILE`.
    pub profile: &'a [u8],
    /// The whole path of the user's runtime folder.
    pub runtime: &'a [u8],
    /// `$XDG_DATA_DIRS`.
    pub data_dirs: &'a [u8],
    /// The user's number, in decimal digits.
    pub user: &'a [u8],
    /// Whether the folder was given.
    pub is_given: bool,
    /// Whether it is dconf's kind.
    pub is_dconfs: bool,
    /// Whether the environment counts: what `profile` and `data_dirs` say is nothing to a program that has more rights than whoever started it.
    pub counts: bool,
}

impl<'a> Place<'a> {
    /// The path of the file of a line of this profile.
    pub fn file(&self, profile: &[u8], kind: DatabaseKind, name: &'a [u8]) -> PathParts<'a>
        ensures { text_of result ≡ file_in (home_of self.now) profile.now (record { kind = kind_of kind; name = name.entry.now }) }
    {
        if self.is_dconfs {
            dconfs_path(self.folder, kind, name)
        } else {
            database_path(self.folder, is_beside(profile, self.is_given), kind, name)
        }
    }

    /// The path of the flag of dconf's readers of a database; empty where there are none. Who replaces its file sets it then.
    pub fn flag(&self, kind: DatabaseKind, name: &'a [u8]) -> PathParts<'a>
        ensures { text_of result ≡ flag_in (home_of self.now) (record { kind = kind_of kind; name = name.entry.now }) }
    {
        if self.is_dconfs && is_users(kind) && !self.runtime.is_empty() {
            PathParts {
                first: b"",
                second: self.runtime,
                third: b"/dconf/",
                fourth: name,
            }
        } else {
            PathParts {
                first: b"",
                second: b"",
                third: b"",
                fourth: b"",
            }
        }
    }
}

fn dconfs_path<'a>(folder: &'a [u8], kind: DatabaseKind, name: &'a [u8]) -> PathParts<'a>
    ensures { text_of result ≡ dconfs_path folder.entry.now (record { kind = kind_of kind; name = name.entry.now }) }
{
    if name.starts_with(b"/") {
        PathParts {
            first: b"",
            second: b"",
            third: b"",
            fourth: name,
        }
    } else {
        PathParts {
            first: b"",
            second: dconfs_folder(folder, kind),
            third: b"/",
            fourth: name,
        }
    }
}

fn dconfs_folder(folder: &[u8], kind: DatabaseKind) -> &[u8]
    ensures { result.now ≡ dconfs_folder folder.now (kind_of kind) }
{
    match kind {
        DatabaseKind::System => DATABASES_FOLDER.as_bytes(),
        DatabaseKind::User => folder,
        DatabaseKind::File => folder,
    }
}
