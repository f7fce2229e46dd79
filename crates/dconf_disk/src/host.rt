//! The current folder of the host.
ghost use Rattle.std.specs.Prelude.{◌≡◌, ◌<◌, ◌≤◌, None, IfSome, IfOk, IsOk, ◌↔◌, IsTrue, IsErrOf, ◌∷◌, OnOk, OnErr, true, false, length, option_map};
ghost use Rattle.dconf_folders.specs.Asides.{IsSetAside};
ghost use Rattle.dconf_folders.specs.Failures.{HasCause};
ghost use Rattle.dconf_folders.specs.SystemCalls.{given_mode, made, removed, renamed, synced, with_its_folder};

use crate::flag::set_flag;
use crate::lock::FolderLock;
use crate::modes::{READ_AND_WRITE, Replacing, keep_mode, link_aside, make_room, old_of, open_new};
use crate::reading::read_opened;
use dconf_folders::{Folder, FolderFault, LARGEST_FILE, Old, Record, folder_of};
use std::alloc::Global;
use std::fs::{OpenFile, OpenOptions};
use std::io::Write;
use std::rt::Files;
use std::{fmt, fs, io};

// The calls that write as they are noted, and their answers.

const CREATE: u64 = 1;

const APPEND: u64 = 2;

const SYNC: u64 = 3;

const RENAME: u64 = 4;

const REMOVE: u64 = 5;

const SYNC_FOLDER: u64 = 6;

const LINK: u64 = 7;

const FAILED: u64 = 0;

const DONE: u64 = 1;

/// The files of the current folder, by `rt`.
///
/// It notes each call and its answer, for clauses alone: that costs nothing. So its past is what was done before its first call,
/// which is any, and what it noted; and it is honest as long as each answer is true of that. That it makes the call that it notes is to be read
/// below, and that the host keeps what a folder is stays to be believed.
///
/// A name may lead into another folder, by the host's rules for a path. `sync_folder` syncs the current folder; a rename into
/// another one syncs that one itself, so its `Device` may come when the file has its name already. `create` removes a file of
/// that name first, and gives a folder another name. A file that `replace` puts in the place of another has its permission bits, and is at no time open to
/// more users than it; a new one has those of 0666 that the process's umask leaves, or of 0600 in a private turn. Each call is a few calls of the host;
/// `read` asks for the file's length, and takes that much memory once.
#[derive(Drop)]
pub struct StdFolder<R> {
    rt: R,
    failures: u64,
    can_write: bool,
    /// A file that replaces none is open to its owner alone.
    is_private: bool,
    log: Record,
    /// The calls of the system that make those up, as far as their order matters.
    calls: Record,
    /// The file that was looked at last, and is to be replaced.
    replaced: Option<Replacing>,
    /// The flag of those who read the file that is replaced.
    flag: Option<String>,
    /// It is held as long as the folder is.
    _lock: Option<FolderLock>,
}

/// It shows nothing of the host.
impl<R> fmt::Debug for StdFolder<R> {
    ghost debug_output = { λ _. None };

    fn fmt<W: fmt::Write>(&self, f: &mut fmt::Formatter<W>) -> fmt::Result {
        f.write_str("StdFolder { .. }")
    }
}

impl<R: Files> StdFolder<R> {
    ghost use Rattle.dconf_model.specs.Folders.{read_content};
    ghost use Rattle.dconf_model.specs.Reads.{IsOverSize};
    ghost use Rattle.dconf_folders.specs.Notes.{after_failure, can_be_done, event_noted};
    ghost use Rattle.dconf_disk.specs.StdFolders.{failures_of, can_write, events_of, fate_of, is_honest};

    /// The current folder, whose files are replaced by the turn that this lock is, with no failure yet. The lock is taken before the first
    /// read so, and given back with the folder, after the last call. It asks nothing of the host, so it can't fail.
    pub fn in_turn(rt: R, lock: FolderLock) -> StdFolder<R>
        ensures failures { failures_of result ≡ 0 }
        ensures writes { can_write result ≡ true }
        ensures honest { IsTrue (is_honest result) }
    {
        StdFolder {
            rt,
            failures: 0,
            can_write: true,
            is_private: false,
            log: Record::new(),
            calls: Record::new(),
            replaced: None,
            flag: None,
            _lock: Some(lock),
        }
    }

    /// The same, but that a file that takes no other's place is open to its owner alone.
    pub fn in_private_turn(rt: R, lock: FolderLock) -> StdFolder<R>
        ensures failures { failures_of result ≡ 0 }
        ensures writes { can_write result ≡ true }
        ensures honest { IsTrue (is_honest result) }
    {
        let mut folder = StdFolder::in_turn(rt, lock);
        folder.is_private = true;
        folder
    }

    /// The current folder, in which no file can be made or renamed: each such call is a fault of the device, and asks nothing
    /// of the host. It has no failure yet, and can't fail.
    pub fn read_only(rt: R) -> StdFolder<R>
        ensures failures { failures_of result ≡ 0 }
        ensures writes { can_write result ≡ false }
        ensures honest { IsTrue (is_honest result) }
    {
        StdFolder {
            rt,
            failures: 0,
            can_write: false,
            is_private: false,
            log: Record::new(),
            calls: Record::new(),
            replaced: None,
            flag: None,
            _lock: None,
        }
    }

    /// The same folder, which sets this flag once a file has got its name, or may have got it.
    pub fn with_flag(mut self, flag: String) -> StdFolder<R>
        ensures failures { failures_of result ≡ failures_of self }
        ensures writes { can_write result ≡ can_write self }
        ensures events { events_of result ≡ events_of self }
        ensures honest { is_honest result ≡ is_honest self }
    {
        self.flag = Some(flag);
        self
    }

    /// The answer of a call, whose fault is counted.
    fn counted<T: Drop>(&mut self, answer: Result<T, FolderFault>) -> Result<T, FolderFault>
        ensures same { result ≡ answer }
        ensures log { self.new.log ≡ self.old.log }
        ensures turn { can_write self.new ≡ can_write self.old }
        ensures cause { HasCause (failures_of self.old) (failures_of self.new) result }
    {
        if matches!(&answer, Err(FolderFault::Device)) {
            self.failures = self.failures.saturating_add(1);
        }
        answer
    }

    /// Reads the file of this name, and notes what that gave.
    fn read_noted(&mut self, alloc: Global, name: &str) -> Result<Option<Vec<u8>>, FolderFault>
        ensures events { events_of self.new ≡ events_of self.old }
        ensures honest { IsTrue (is_honest self.new) → IsTrue (is_honest self.old) }
        ensures bytes { IsTrue (is_honest self.new) → IfOk result (λ found. option_map (λ v. v.items) found ≡ read_content (events_of self.old) name.now) }
        ensures size { IfOk result (λ found. IfSome found (λ v. length v.items ≤ LARGEST_FILE)) }
        ensures too_big { IsTrue (is_honest self.new) → IsErrOf result FolderFault.TooBig → IsOverSize (read_content (events_of self.old) name.now) }
        ensures turn { can_write self.new ≡ can_write self.old }
        ensures failures { failures_of self.new ≡ failures_of self.old }
    {
        let found = read_opened(alloc, fs::open(&self.rt, name));
        self.log.note_read(name, &found);
        found
    }

    /// The answer of a writing call, which is noted, and counted where it is a fault.
    fn noted(
        &mut self,
        call: u64,
        name: &str,
        more: &[u8],
        answer: io::Result<()>,
    ) -> Result<(), FolderFault>
        requires { 0 < call }
        ensures ok { OnOk result (events_of self.new ≡ event_noted call name.now more.now ∷ events_of self.old) }
        ensures err { OnErr result (events_of self.new ≡ after_failure (fate_of self.old) (event_noted call name.now more.now) (events_of self.old)) }
        ensures honest { IsTrue (is_honest self.new) → IsTrue (is_honest self.old) }
        ensures can { IsTrue (is_honest self.new) → OnOk result (can_be_done (event_noted call name.now more.now) (events_of self.old) ≡ true) }
        ensures turn { can_write self.new ≡ can_write self.old }
        ensures only { OnErr result (IsErrOf result FolderFault.Device) }
        ensures cause { HasCause (failures_of self.old) (failures_of self.new) result }
    {
        let answer = written(answer);
        match answer {
            Ok(()) => self.log.note(&[call, DONE], name.as_bytes(), more),
            Err(_) => self.log.note(&[call, FAILED], name.as_bytes(), more),
        }
        self.counted(answer)
    }
}

impl<R: Files> Folder for StdFolder<R> {
    ghost use Rattle.dconf_disk.specs.StdFolders.{failures_of, can_write, events_of, is_honest};

    // What it noted. No clause says what was done before its first call, or what becomes of a call that fails.
    ghost past = { λ f es. es ≡ events_of f };

    ghost honest = { is_honest };

    ghost holds_turn = { can_write };

    ghost failed = { failures_of };

    ghost hides = { false };

    fn failures(&self) -> u64 {
        self.failures
    }

    fn read(&mut self, alloc: Global, name: &str) -> Result<Option<Vec<u8>>, FolderFault> {
        let found = self.read_noted(alloc, name);
        self.counted(found)
    }

    fn take_turn(&mut self) -> Result<(), FolderFault> {
        if self.can_write {
            return Ok(());
        }
        self.counted(Err(FolderFault::Device))
    }

    /// It doesn't know what a file is for, so it asks for none to be set aside.
    fn look(&mut self, name: &str) -> Result<Old, FolderFault> {
        match old_of(&self.rt, name) {
            Ok(old) => {
                self.replaced = old;
                Ok(bits_of_new(old, self.is_private))
            }
            Err(_) => self.counted(Err(FolderFault::Device)),
        }
    }

    fn create(&mut self, alloc: Global, name: &str, bits: u32) -> Result<(), FolderFault> {
        if !self.can_write {
            return self.counted(Err(FolderFault::Device));
        }
        let answer = make_new(alloc, &self.rt, &mut self.calls, name, bits, self.replaced);
        self.noted(CREATE, name, &[], answer)
    }

    fn append(&mut self, name: &str, bytes: &[u8]) -> Result<(), FolderFault> {
        if !self.can_write {
            return self.counted(Err(FolderFault::Device));
        }
        let answer = append_to(&self.rt, name, bytes);
        self.noted(APPEND, name, bytes, answer)
    }

    fn sync(&mut self, name: &str, bits: Option<u32>) -> Result<(), FolderFault> {
        if !self.can_write {
            return self.counted(Err(FolderFault::Device));
        }
        let answer = sync_file(&self.rt, &mut self.calls, name, bits, self.replaced);
        self.noted(SYNC, name, &[], answer)
    }

    fn set_aside(&mut self, alloc: Global, name: &str) -> Result<(), FolderFault> {
        if !self.can_write {
            return self.counted(Err(FolderFault::Device));
        }
        let Ok((aside, answer)) = link_aside(alloc, &self.rt, name) else {
            return self.counted(Err(FolderFault::Device));
        };
        self.noted(LINK, name, aside.as_bytes(), answer)
    }

    fn rename(&mut self, from: &str, to: &str) -> Result<(), FolderFault> {
        if !self.can_write {
            return self.counted(Err(FolderFault::Device));
        }
        let answer = rename_to(&self.rt, &mut self.calls, from, to);
        // Those who read it look again, and that is all.
        if let Some(flag) = &self.flag {
            set_flag(&self.rt, flag.as_str());
        }
        self.noted(RENAME, from, to.as_bytes(), answer)
    }

    fn remove(&mut self, name: &str) -> bool {
        if !self.can_write {
            return false;
        }
        let removed = fs::remove_file(&self.rt, name).is_ok();
        if removed {
            self.log.note(&[REMOVE, DONE], name.as_bytes(), &[]);
        } else {
            self.log.note(&[REMOVE, FAILED], name.as_bytes(), &[]);
        }
        removed
    }

    fn sync_folder(&mut self) -> Result<(), FolderFault> {
        if !self.can_write {
            return self.counted(Err(FolderFault::Device));
        }
        let answer = sync_at(&self.rt, &mut self.calls, ".");
        self.noted(SYNC_FOLDER, "", &[], answer)
    }
}

/// The permission bits of the file that replaces this one, if there is one.
fn bits_of_new(old: Option<Replacing>, is_private: bool) -> Old
    ensures { IsSetAside result → ⊥ }
{
    match old {
        Some(old) => Old::Bits(old.bits),
        None if is_private => Old::Bits(READ_AND_WRITE),
        None => Old::Absent,
    }
}

/// A new file, in the place of any other: one of that name may have another name, too, so it is not written over. A folder of that name is none of
/// ours, and gets another name.
fn make_new<R: Files>(
    alloc: Global,
    rt: &R,
    calls: &mut Record,
    name: &str,
    bits: u32,
    old: Option<Replacing>,
) -> io::Result<()>
    ensures { OnOk result (calls.new.notes ≡ made name.now ∷ removed name.now ∷ calls.old.notes) }
{
    calls.note(&[REMOVE, DONE], name.as_bytes(), &[]);
    make_room(alloc, rt, name)?;
    calls.note(&[CREATE, DONE], name.as_bytes(), &[]);
    let _file = open_new(rt, name, bits, old)?;
    Ok(())
}

fn append_to<R: Files>(rt: &R, name: &str, bytes: &[u8]) -> io::Result<()> {
    let mut file = OpenOptions::new().append(true).open(rt, name)?;
    file.write_all(bytes)
}

/// A file's bytes. One that is to take another's place has that one's permission bits before, so that they are on the disk with them.
fn sync_file<R: Files>(
    rt: &R,
    calls: &mut Record,
    name: &str,
    bits: Option<u32>,
    old: Option<Replacing>,
) -> io::Result<()>
    ensures { OnOk result (calls.new.notes ≡ synced name.now ∷ given_mode name.now ∷ calls.old.notes) }
{
    let file = fs::open(rt, name)?;
    keep_mode(calls, &file, name, bits, old)?;
    calls.note(&[SYNC, DONE], name.as_bytes(), &[]);
    file.sync_all()
}

/// A folder's names.
fn sync_at<R: Files>(rt: &R, calls: &mut Record, name: &str) -> io::Result<()>
    ensures { OnOk result (calls.new.notes ≡ synced name.now ∷ calls.old.notes) }
{
    calls.note(&[SYNC, DONE], name.as_bytes(), &[]);
    fs::open(rt, name)?.sync_all()
}

/// `sync_folder` syncs the current folder alone, so the names of any other are synced here.
fn rename_to<R: Files>(rt: &R, calls: &mut Record, from: &str, to: &str) -> io::Result<()>
    ensures { OnOk result (calls.new.notes ≡ with_its_folder to.now (renamed from.now to.now ∷ calls.old.notes)) }
{
    calls.note(&[RENAME, DONE], from.as_bytes(), to.as_bytes());
    fs::rename(rt, from, to)?;
    let folder = folder_of(to);
    if folder == "." {
        return Ok(());
    }
    sync_at(rt, calls, folder)
}

/// A writing call's answer: whatever fails is the device.
fn written(answer: io::Result<()>) -> Result<(), FolderFault>
    ensures done { IsOk result ↔ IsOk answer }
    ensures only { OnErr result (IsErrOf result FolderFault.Device) }
{
    match answer {
        Ok(()) => Ok(()),
        Err(_) => Err(FolderFault::Device),
    }
}
