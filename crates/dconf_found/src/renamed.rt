//! A folder of which the user's database has a file of another name.
ghost use Rattle.std.specs.Prelude.{◌≡◌, IfOk};
ghost use Rattle.dconf_found.specs.Renamed.{held_name, names_of, no_names, swapped, users_names};

use dconf_folders::{Folder, FolderFault, Old};
use dconf_path::{Database, DatabaseKind};
use dconf_places::{end_of, file_name};
use std::alloc::{AllocError, Global};

/// The names that a file has for who reads the folder, and those that it has in it.
#[derive(Drop)]
pub struct Renames {
    shown: String,
    held: String,
    shown_new: String,
    held_new: String,
}

impl Renames {
    /// Each file has one name.
    pub fn none(alloc: Global) -> Renames
        ensures { names_of result ≡ no_names }
    {
        Renames {
            shown: String::new(alloc),
            held: String::new(alloc),
            shown_new: String::new(alloc),
            held_new: String::new(alloc),
        }
    }

    /// The database `user-db:NAME`, which is NAME.user in a folder of our own kind, is NAME. So is the file that is to take its place.
    pub fn of_users(alloc: Global, name: &str) -> Result<Renames, AllocError>
        ensures { IfOk result (λ it. names_of it ≡ users_names name.now) }
    {
        let kind = DatabaseKind::User;
        let end = end_of(kind);
        Ok(Renames {
            shown: file_name(alloc, Database { kind, name })?,
            held: String::from_str(alloc, name)?,
            shown_new: format!(in alloc; "{name}{end}.new")?,
            held_new: format!(in alloc; "{name}.new")?,
        })
    }

    /// The name in the folder of what has this name for who reads it. Any other that is meant by that is then shown by the one that it hides.
    pub fn held<'a>(&'a self, name: &'a str) -> &'a str
        ensures { result.now ≡ held_name (names_of self.now) name.now }
    {
        let name = swapped(self.shown.as_str(), self.held.as_str(), name);
        swapped(self.shown_new.as_str(), self.held_new.as_str(), name)
    }
}

/// The other one of two names, or else the name itself.
fn swapped<'a>(one: &'a str, other: &'a str, name: &'a str) -> &'a str
    ensures { result.now ≡ swapped one.now other.now name.now }
{
    if name == one {
        other
    } else if name == other {
        one
    } else {
        name
    }
}

/// The files of a folder by other names.
///
/// To its clauses it is a folder to which the same was done under those names.
#[derive(Drop)]
pub struct RenamedFolder<F> {
    inner: F,
    names: Renames,
}

impl<F: Folder> RenamedFolder<F> {
    ghost use Rattle.dconf_found.specs.Renamed.{names_in, renamed_inner};

    pub fn new(inner: F, names: Renames) -> RenamedFolder<F>
        ensures inner { renamed_inner result ≡ inner }
        ensures names { names_in result ≡ names_of names }
    {
        RenamedFolder { inner, names }
    }
}

impl<F: Folder> Folder for RenamedFolder<F> {
    ghost use Rattle.dconf_found.specs.Renamed.{IsRenamed, renamed_inner};

    ghost past = { IsRenamed F.past };

    ghost honest = { λ folder. F.honest (renamed_inner folder) };

    ghost holds_turn = { λ folder. F.holds_turn (renamed_inner folder) };

    ghost failed = { λ folder. F.failed (renamed_inner folder) };

    ghost hides = { F.hides };

    fn failures(&self) -> u64 {
        self.inner.failures()
    }

    fn read(&mut self, alloc: Global, name: &str) -> Result<Option<Vec<u8>>, FolderFault> {
        self.inner.read(alloc, self.names.held(name))
    }

    fn take_turn(&mut self) -> Result<(), FolderFault> {
        self.inner.take_turn()
    }

    fn look(&mut self, name: &str) -> Result<Old, FolderFault> {
        self.inner.look(self.names.held(name))
    }

    fn create(&mut self, alloc: Global, name: &str, bits: u32) -> Result<(), FolderFault> {
        self.inner.create(alloc, self.names.held(name), bits)
    }

    fn append(&mut self, name: &str, bytes: &[u8]) -> Result<(), FolderFault> {
        self.inner.append(self.names.held(name), bytes)
    }

    fn sync(&mut self, name: &str, bits: Option<u32>) -> Result<(), FolderFault> {
        self.inner.sync(self.names.held(name), bits)
    }

    fn set_aside(&mut self, alloc: Global, name: &str) -> Result<(), FolderFault> {
        self.inner.set_aside(alloc, self.names.held(name))
    }

    fn rename(&mut self, from: &str, to: &str) -> Result<(), FolderFault> {
        self.inner
            .rename(self.names.held(from), self.names.held(to))
    }

    fn remove(&mut self, name: &str) -> bool {
        self.inner.remove(self.names.held(name))
    }

    fn sync_folder(&mut self) -> Result<(), FolderFault> {
        self.inner.sync_folder()
    }
}
