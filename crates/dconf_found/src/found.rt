//! A folder in which bad databases count as what can be saved of them.
ghost use Rattle.std.specs.Prelude.{◌≡◌, ◌⊎◌, ◌≤◌, [], List, IfOk, IfSome, IsErrOf, IsSomeAnd, IsTrue, None, OnErr, OnOk, Some, false, length, option_map, string_bytes, true, vec_items};
ghost use Rattle.dconf_model.specs.Folders.{Event, read_content};
ghost use Rattle.dconf_model.specs.Reads.{IsOverSize};
ghost use Rattle.dconf_folders.specs.Asides.{IsReplaced, IsSetAside};
ghost use Rattle.dconf_folders.specs.Failures.{HasCause};
ghost use Rattle.dconf_found.specs.FoundFolders.{is_bad, losses};

use crate::bad::BadDatabase;
use crate::lookup::{Lookup, look_up};
use dconf_folders::{Folder, FolderFault, LARGEST_FILE, Old, Record};
use std::alloc::Global;

/// What the owner of a new file needs.
const READ_AND_WRITE: u32 = 0o600;

/// The folder of a store, with the profile that was found for it, for one run of a command: it is read, and then a file is replaced.
///
/// Its profile is read as it is. Of any other file that is read, that counts which [`counted`](crate::counted) says. All other calls are
/// the inner folder's, but that only the file that was made last is written, synced and renamed, and that none is read once one was
/// asked for: what fails so is a fault of the device, and asks nothing of the inner folder.
///
/// To its clauses it is a folder of files that hold what counts of the inner folder's, whatever that is: it is honest as long as the inner
/// one is, and its reads gave what such a folder holds.
#[derive(Drop)]
pub struct FoundFolder<F> {
    inner: F,
    alloc: Global,
    lookup: Lookup,
    bad: Vec<BadDatabase>,
    /// What its reads gave, for clauses alone.
    log: Record,
    /// What was done before to the inner folder, for clauses alone.
    before: Record,
    failures: u64,
    /// Whether a call that writes was asked for.
    is_written: bool,
    /// The file that it made last, as long as that name is its.
    own: Option<String>,
}

impl<F: Folder> FoundFolder<F> {
    ghost use Rattle.dconf_found.specs.FoundFolders.{agrees, failures_of, inner_of, lookup_of, lost_of};

    /// The folder `inner`, with the profile in the file `profile`, or the one that was `made`, which is read by that name. If it is that of
    /// all users its databases of the system are files beside it.
    pub fn new(
        alloc: Global,
        inner: F,
        profile: String,
        made: Option<Vec<u8>>,
        is_everyones: bool,
        has_folder: bool,
    ) -> FoundFolder<F>
        ensures inner { inner_of result ≡ inner }
        ensures lookup { lookup_of result ≡ record { profile = profile; made = made; is_everyones = is_everyones; has_folder = has_folder } }
        ensures lost { lost_of result ≡ [] }
        ensures agrees { agrees result ≡ true }
        ensures failures { failures_of result ≡ 0 }
    {
        FoundFolder {
            inner,
            alloc,
            lookup: Lookup {
                profile,
                made,
                is_everyones,
                has_folder,
            },
            bad: Vec::new(alloc),
            log: Record::new(),
            before: Record::new(),
            failures: 0,
            is_written: false,
            own: None,
        }
    }

    /// The databases that were bad, in the order in which they were read.
    pub fn bad(&self) -> &[BadDatabase]
        ensures { losses result.now ≡ lost_of self.now }
    {
        &self.bad
    }
}

/// The answer, whose fault is counted.
fn with_count<T: Drop>(failures: &mut u64, answer: Result<T, FolderFault>) -> Result<T, FolderFault>
    ensures same { result ≡ answer }
    ensures cause { HasCause failures.old failures.new result }
{
    if matches!(&answer, Err(FolderFault::Device)) {
        *failures = failures.saturating_add(1);
    }
    answer
}

/// The name of a file, if that was made.
fn if_made(made: &Result<(), FolderFault>, own: String) -> Option<String>
    ensures made { OnOk made.now (result ≡ Some own) }
    ensures fault { OnErr made.now (result ≡ None) }
{
    if made.is_ok() { Some(own) } else { None }
}

/// Whether this is the name.
fn is_name(own: &Option<String>, name: &str) -> bool
    ensures { IsTrue result → IsSomeAnd own.now (λ it. string_bytes it ≡ name.now) }
{
    match own {
        Some(it) => it.as_str() == name,
        None => false,
    }
}

/// Whether something is lost of a database of this name.
fn is_bad(bad: &[BadDatabase], name: &str) -> bool
    ensures { result ≡ is_bad (losses bad.now) name.now }
{
    bad.iter().any(|it| it.name.as_str() == name)
}

/// What has the name of a database, which is to be set aside if it is bad. The owner of the new file may read and write it.
fn if_bad(old: Old, is_bad: bool) -> Old
    ensures aside { IsSetAside result → IsSetAside old ⊎ (is_bad ≡ true) }
    ensures stays { IsReplaced result → is_bad ≡ false }
{
    match old {
        Old::Absent => Old::Absent,
        Old::Bits(bits) if is_bad => Old::SetAside(bits | READ_AND_WRITE),
        Old::Bits(bits) => Old::Bits(bits),
        Old::SetAside(bits) => Old::SetAside(bits),
    }
}

impl<F: Folder> Folder for FoundFolder<F> {
    ghost use Rattle.std.specs.Prelude.{◌&&◌};
    ghost use Rattle.dconf_found.specs.FoundFolders.{IsPast, agrees, failures_of, inner_of, lookup_of, lost_of, IsLookedUp, IsTooBigAt};

    ghost past = { IsPast F.past };

    ghost honest = { λ folder. F.honest (inner_of folder) && agrees folder };

    ghost holds_turn = { λ folder. F.holds_turn (inner_of folder) };

    ghost failed = { λ folder. failures_of folder };

    ghost hides = { true };

    fn failures(&self) -> u64 {
        self.failures
    }

    /// What counts of the file. Once a call that writes was asked for it fails.
    fn read(&mut self, alloc: Global, name: &str) -> Result<Option<Vec<u8>>, FolderFault>
        ensures past { (es : List Event) → IsPast F.past self.old es → IsPast F.past self.new es }
        ensures bytes { IsTrue (F.honest (inner_of self.new) && agrees self.new) → (es : List Event) → IsPast F.past self.old es → IfOk result (λ found. option_map (λ v. v.items) found ≡ read_content es name.now) }
        ensures size { IfOk result (λ found. IfSome found (λ v. length v.items ≤ LARGEST_FILE)) }
        ensures too_big { IsTrue (F.honest (inner_of self.new) && agrees self.new) → (es : List Event) → IsPast F.past self.old es → IsErrOf result FolderFault.TooBig → IsOverSize (read_content es name.now) }
        ensures honest { IsTrue (F.honest (inner_of self.new) && agrees self.new) → IsTrue (F.honest (inner_of self.old) && agrees self.old) }
        ensures turn { F.holds_turn (inner_of self.new) ≡ F.holds_turn (inner_of self.old) }
        ensures cause { HasCause (failures_of self.old) (failures_of self.new) result }
        // What it gives is what counts of the inner folder's file.
        ensures gives { IsTrue (F.honest (inner_of self.new)) → (es : List Event) → F.past (inner_of self.old) es → IfOk result (λ found.
            IsLookedUp (lookup_of self.old) name.now (read_content es name.now) (option_map vec_items found) (lost_of self.old) (lost_of self.new)) }
        ensures gives_none { IsTrue (F.honest (inner_of self.new)) → (es : List Event) → F.past (inner_of self.old) es → IsErrOf result FolderFault.TooBig →
            IsTooBigAt (lookup_of self.old) name.now (read_content es name.now) }
        ensures fault { OnErr result (lost_of self.new ≡ lost_of self.old) }
    {
        if self.is_written {
            return with_count(&mut self.failures, Err(FolderFault::Device));
        }
        let found = look_up(alloc, &mut self.inner, &self.lookup, &mut self.bad, name);
        self.log.note_read(name, &found);
        with_count(&mut self.failures, found)
    }

    fn take_turn(&mut self) -> Result<(), FolderFault> {
        let taken = self.inner.take_turn();
        with_count(&mut self.failures, taken)
    }

    /// A database that was bad when it was read is to be set aside.
    fn look(&mut self, name: &str) -> Result<Old, FolderFault>
        ensures past { (es : List Event) → IsPast F.past self.old es → IsPast F.past self.new es }
        ensures honest { IsTrue (F.honest (inner_of self.new) && agrees self.new) → IsTrue (F.honest (inner_of self.old) && agrees self.old) }
        ensures turn { F.holds_turn (inner_of self.new) ≡ F.holds_turn (inner_of self.old) }
        ensures only { OnErr result (IsErrOf result FolderFault.Device) }
        ensures cause { HasCause (failures_of self.old) (failures_of self.new) result }
        // A bad one is never replaced without; and where the inner folder asks for nothing, only a bad one is set aside.
        ensures aside { IfOk result (λ old. IsSetAside old → (F.hides ≡ true) ⊎ (is_bad (lost_of self.old) name.now ≡ true)) }
        ensures stays { IfOk result (λ old. IsReplaced old → is_bad (lost_of self.old) name.now ≡ false) }
    {
        let is_bad = is_bad(&self.bad, name);
        let found = match self.inner.look(name) {
            Ok(old) => Ok(if_bad(old, is_bad)),
            Err(fault) => Err(fault),
        };
        with_count(&mut self.failures, found)
    }

    fn create(&mut self, alloc: Global, name: &str, bits: u32) -> Result<(), FolderFault> {
        self.is_written = true;
        self.own = None;
        let Ok(own) = String::from_str(self.alloc, name) else {
            return with_count(&mut self.failures, Err(FolderFault::Device));
        };
        let made = self.inner.create(alloc, name, bits);
        self.own = if_made(&made, own);
        with_count(&mut self.failures, made)
    }

    fn append(&mut self, name: &str, bytes: &[u8]) -> Result<(), FolderFault> {
        self.is_written = true;
        if !is_name(&self.own, name) {
            return with_count(&mut self.failures, Err(FolderFault::Device));
        }
        let appended = self.inner.append(name, bytes);
        with_count(&mut self.failures, appended)
    }

    fn sync(&mut self, name: &str, bits: Option<u32>) -> Result<(), FolderFault> {
        self.is_written = true;
        if !is_name(&self.own, name) {
            return with_count(&mut self.failures, Err(FolderFault::Device));
        }
        let synced = self.inner.sync(name, bits);
        with_count(&mut self.failures, synced)
    }

    /// Its other name is in the inner folder alone.
    fn set_aside(&mut self, alloc: Global, name: &str) -> Result<(), FolderFault> {
        self.is_written = true;
        let done = self.inner.set_aside(alloc, name);
        with_count(&mut self.failures, done)
    }

    fn rename(&mut self, from: &str, to: &str) -> Result<(), FolderFault> {
        self.is_written = true;
        let is_own = is_name(&self.own, from);
        self.own = None;
        if !is_own {
            return with_count(&mut self.failures, Err(FolderFault::Device));
        }
        let renamed = self.inner.rename(from, to);
        with_count(&mut self.failures, renamed)
    }

    fn remove(&mut self, name: &str) -> bool {
        self.is_written = true;
        self.own = None;
        self.inner.remove(name)
    }

    fn sync_folder(&mut self) -> Result<(), FolderFault> {
        self.is_written = true;
        let synced = self.inner.sync_folder();
        with_count(&mut self.failures, synced)
    }
}
