//! What the environment and the system say of a store, to who finds it.
ghost use Rattle.std.specs.Prelude.{◌≡◌, [], IfErr, IfOk, vec_items};
ghost use Rattle.dconf_places.specs.Told.{giver_of};
ghost use Rattle.dconf_homes.specs.Homes.{kind_for};
ghost use Rattle.dconf_homes.specs.Homes.StoreKind.{unknown};
ghost use Rattle.dconf_homes.specs.Told.{surroundings_of};
ghost use Rattle.dconf_surroundings.specs.Known.{kind_if, known_to, no_variables};

use crate::find::NotFound;
use dconf_disk::{Folder, FolderFault, StdFolder};
use dconf_found::MACHINE_FILE;
use dconf_homes::{Around, FoundKind};
use dconf_places::{Environment, Given};
use std::env::{Env, FillError};
use std::fs;
use std::os::unix::fs::MetadataExt;
use std::rt::Files;

/// A variable mostly has at most so many bytes, and never more than the second of these: Linux has none that is longer.
const FEW: usize = 512;

const MANY: usize = 131_072;

/// Its owner is the user: the toolchain has no call that says who that is.
const OWN_PROCESS: &str = "/proc/self";

#[derive(Drop)]
pub struct Surroundings {
    variables: Variables,
    machine: Machine,
}

impl Surroundings {
    pub(crate) fn of<R: Files + Env + AllocGlobal>(rt: &R) -> Result<Surroundings, NotFound> {
        Ok(Surroundings {
            variables: Variables::of(rt)?,
            machine: Machine::of(rt)?,
        })
    }

    /// Those of the machine alone.
    pub fn of_machine<R: Files + AllocGlobal>(rt: &R) -> Result<Surroundings, NotFound>
        ensures alone { IfOk result (λ it. (known_to it).variables ≡ no_variables) }
    {
        Ok(Surroundings {
            variables: Variables::none(rt),
            machine: Machine::of(rt)?,
        })
    }

    /// As the rules have them. The variables count: where they don't, the launcher hands none on.
    pub(crate) fn around(&self) -> Around<'_>
        ensures { surroundings_of result ≡ known_to self.now }
    {
        Around {
            environment: Environment {
                counts: true,
                store: self.variables.store.as_slice(),
                config: self.variables.config.as_slice(),
                home: self.variables.home.as_slice(),
                profile: self.variables.profile.as_slice(),
            },
            runtime: self.variables.runtime.as_slice(),
            cache: self.variables.cache.as_slice(),
            machine: self.machine.text.as_slice(),
            is_unreadable: self.machine.is_unreadable,
        }
    }

    /// Whether the store is dconf's kind, if anybody knows.
    pub fn is_dconfs(&self, given: Given<'_>) -> Result<bool, NotFound>
        ensures kind { IfOk result (λ it. kind_for (known_to self.now) (giver_of given.entry) ≡ kind_if it) }
        ensures unknown { IfErr result (λ _. kind_for (known_to self.now) (giver_of given.entry) ≡ unknown) }
    {
        match self.around().kind(given) {
            FoundKind::Own => Ok(false),
            FoundKind::Dconfs => Ok(true),
            FoundKind::Unknown => Err(NotFound::Kind {
                is_unreadable: self.machine.is_unreadable,
            }),
        }
    }

    /// `$DCONF_PROFILE`.
    pub(crate) fn dconfs_profile(&self) -> &[u8] {
        self.variables.dconfs_profile.as_slice()
    }

    /// `$XDG_DATA_DIRS`.
    pub(crate) fn data_dirs(&self) -> &[u8] {
        self.variables.data_dirs.as_slice()
    }
}

/// The variables of the environment. One that isn't set is empty.
#[derive(Drop)]
struct Variables {
    store: Vec<u8>,
    config: Vec<u8>,
    home: Vec<u8>,
    profile: Vec<u8>,
    runtime: Vec<u8>,
    cache: Vec<u8>,
    dconfs_profile: Vec<u8>,
    data_dirs: Vec<u8>,
}

impl Variables {
    fn of<R: Env + AllocGlobal>(rt: &R) -> Result<Variables, NotFound> {
        Ok(Variables {
            store: variable(rt, "DCONFDB_STORE")?,
            config: variable(rt, "XDG_CONFIG_HOME")?,
            home: variable(rt, "HOME")?,
            profile: variable(rt, "DCONFDB_PROFILE")?,
            runtime: variable(rt, "XDG_RUNTIME_DIR")?,
            cache: variable(rt, "XDG_CACHE_HOME")?,
            dconfs_profile: variable(rt, "DCONF_PROFILE")?,
            data_dirs: variable(rt, "XDG_DATA_DIRS")?,
        })
    }

    fn none<R: AllocGlobal>(rt: &R) -> Variables
        ensures store { vec_items result.store ≡ [] }
        ensures config { vec_items result.config ≡ [] }
        ensures home { vec_items result.home ≡ [] }
        ensures profile { vec_items result.profile ≡ [] }
    {
        let alloc = rt.alloc();
        Variables {
            store: Vec::new(alloc),
            config: Vec::new(alloc),
            home: Vec::new(alloc),
            profile: Vec::new(alloc),
            runtime: Vec::new(alloc),
            cache: Vec::new(alloc),
            dconfs_profile: Vec::new(alloc),
            data_dirs: Vec::new(alloc),
        }
    }
}

/// The bytes of a variable of the environment, or none if it isn't set.
fn variable<R: Env + AllocGlobal>(rt: &R, name: &str) -> Result<Vec<u8>, NotFound> {
    let alloc = rt.alloc();
    let mut few = [0; FEW];
    match rt.var(name, &mut few) {
        Ok(len) => Ok(few[..len].to_vec(alloc)?),
        Err(FillError::NotPresent) => Ok(Vec::new(alloc)),
        Err(FillError::TooLong) => long_variable(rt, name),
    }
}

fn long_variable<R: Env + AllocGlobal>(rt: &R, name: &str) -> Result<Vec<u8>, NotFound> {
    let mut many = vec![in rt.alloc(); 0; MANY]?;
    match rt.var(name, &mut many) {
        Ok(len) => {
            many.truncate(len);
            Ok(many)
        }
        Err(_) => Err(NotFound::NotText),
    }
}

/// What the machine's file says of its kind of store.
#[derive(Drop)]
struct Machine {
    text: Vec<u8>,
    is_unreadable: bool,
}

impl Machine {
    fn of<R: Files + AllocGlobal>(rt: &R) -> Result<Machine, NotFound> {
        let alloc = rt.alloc();
        match StdFolder::read_only(rt).read(alloc, MACHINE_FILE) {
            Ok(Some(text)) => Ok(Machine {
                text,
                is_unreadable: false,
            }),
            Ok(None) => Ok(Machine {
                text: Vec::new(alloc),
                is_unreadable: false,
            }),
            Err(FolderFault::Memory) => Err(NotFound::Memory),
            Err(_) => Ok(Machine {
                text: Vec::new(alloc),
                is_unreadable: true,
            }),
        }
    }
}

/// The user's number, in decimal digits.
pub(crate) fn user_number<R: Files + AllocGlobal>(rt: &R) -> Result<String, NotFound> {
    match fs::metadata(rt, OWN_PROCESS) {
        Ok(process) => Ok(format!(in rt.alloc(); "{}", process.uid())?),
        Err(_) => Err(NotFound::Device(String::from_str(rt.alloc(), OWN_PROCESS)?)),
    }
}
