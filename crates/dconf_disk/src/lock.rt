//! The lock by which the programs that replace files in a folder take turns.
ghost use Rattle.std.specs.Prelude.{◌≡◌, Some};

use dconf_files::lock_bits;
use dconf_verdicts::{Standing, name_synced};
use dconf_waits::{LockWait, WaitAnswer, WaitEnd, WaitStep};
use std::alloc::{AllocError, Global};
use std::error::Error;
use std::fs::{File, Metadata, OpenOptions, Permissions, TryLockError};
use std::io::ErrorKind;
use std::os::unix::fs::{MetadataExt, OpenOptionsExt, PermissionsExt, fchown};
use std::rt::{Clock, Files};
use std::thread::sleep;
use std::time::{Duration, Instant};
use std::{fmt, fs, io};

/// The file that is locked, in the folder of those that are replaced.
const LOCK: &str = "/.lock";

/// The folder above one, by that one's path.
const ABOVE: &str = "/..";

const EIO: u32 = 5;

/// Reading and writing for the file's owner.
const READ_AND_WRITE: u32 = 0o600;

/// Who may read, write and run a file.
const PERMISSION_BITS: u32 = 0o777;

/// How many milliseconds a program waits for its turn, at most.
const LONGEST_WAIT: u32 = 10_000;

/// How many microseconds it waits between two tries. Others may wait in the kernel, which hands the lock on to them within some
/// tens of microseconds: who tries seldom hardly ever meets such a moment.
const PAUSE: u64 = 200;

/// More steps than the longest wait has: its tries and pauses, five of each in a millisecond, the first try, and the end.
const MOST_STEPS: u32 = 10 * LONGEST_WAIT + 2;

const SECOND: u64 = 1_000;

/// How often the file may be made or removed by others while it is being opened.
const MOST_OPENINGS: u32 = 100;

/// One program's turn to replace files in a folder. It ends when this is dropped, or the program ends, however it does.
///
/// It is the kernel's lock (Linux, `flock`, exclusive) on the file `.lock` of that folder, which is made where it is missing, and
/// stays. Whoever may write in the folder may open it, and nobody else: so no other can hold it. Whoever locks it takes turns with
/// this program. It binds nobody else, and no reader needs it: a renamed file is the old one or the new one, whole.
#[derive(Drop)]
pub struct FolderLock {
    _folder: File,
    _lock: File,
}

/// Why a turn could not be had.
#[derive(Debug, Drop)]
pub enum LockFault {
    /// Others had it for all of ten seconds.
    Busy,
    /// The file can't be opened or made, or is a link, a pipe or a folder; or its file system has no such lock, or the clock failed.
    Device(io::Error),
    /// No memory is left for the file's name.
    Memory,
}

impl fmt::Display for LockFault {
    ghost use Rattle.dconf_disk.specs.LockFaults.{lock_fault_text};

    ghost output = { λ fault. Some (lock_fault_text fault) };

    fn fmt<W: fmt::Write>(&self, f: &mut fmt::Formatter<W>) -> fmt::Result {
        f.write_str(match self {
            LockFault::Busy => "Busy",
            LockFault::Device(_) => "Device",
            LockFault::Memory => "Memory",
        })
    }
}

impl Error for LockFault {}

impl From<io::Error> for LockFault {
    fn from(error: io::Error) -> LockFault {
        LockFault::Device(error)
    }
}

impl From<AllocError> for LockFault {
    fn from(_error: AllocError) -> LockFault {
        LockFault::Memory
    }
}

impl FolderLock {
    /// Takes the lock of the folder of this path; that of a file's name is [`folder_of`](crate::folder_of) it.
    ///
    /// It tries five thousand times a second, for ten seconds at most; the first try comes at once. `Busy` comes after the last one,
    /// and `Device` as soon as the host answers an error. What it costs, beside the wait, is a few calls of the host a try. Who makes the
    /// file brings the folder's own name to the disk first.
    pub fn take<R: Files<File = File> + Clock>(
        rt: &R,
        alloc: Global,
        folder: &str,
    ) -> Result<FolderLock, LockFault> {
        let (name, above) = (below(alloc, folder, LOCK)?, below(alloc, folder, ABOVE)?);
        let paths = Paths {
            folder,
            lock: name.as_str(),
            above: above.as_str(),
        };
        // Where the program has no stdin, stdout or stderr, the first file that is opened is in its place. A folder can be neither read
        // nor written; from the lock's file an input would be empty, and an output would be lost in it.
        let opened = fs::open(rt, folder)?;
        let mut lock = open_lock(rt, paths)?;
        let began = Instant::now(rt)?;
        let mut wait = LockWait::begin(LONGEST_WAIT);
        for _ in 0..MOST_STEPS {
            match wait.next() {
                WaitStep::Try => {
                    let answer = try_once(rt, &mut lock, paths, &began)?;
                    wait.answered(answer);
                }
                WaitStep::Pause => {
                    sleep(rt, Duration::from_micros(PAUSE));
                    wait.answered(WaitAnswer::Got);
                }
                WaitStep::Done(WaitEnd::Had) => {
                    return Ok(FolderLock {
                        _folder: opened,
                        _lock: lock,
                    });
                }
                WaitStep::Done(_) => return Err(LockFault::Busy),
            }
        }
        Err(LockFault::Busy)
    }
}

/// The folder, the lock's file in it, and the folder above.
#[derive(Clone, Copy)]
struct Paths<'a> {
    folder: &'a str,
    lock: &'a str,
    above: &'a str,
}

fn below(alloc: Global, folder: &str, name: &str) -> Result<String, AllocError> {
    format!(in alloc; "{folder}{name}")
}

/// Tries to take the lock. Where its name is another file's by now, that is the one to be tried next.
fn try_once<R: Files<File = File> + Clock>(
    rt: &R,
    lock: &mut File,
    paths: Paths<'_>,
    began: &Instant,
) -> Result<WaitAnswer, LockFault> {
    match lock.try_lock() {
        Ok(()) if is_named(rt, lock, paths.lock)? => Ok(WaitAnswer::Got),
        Ok(()) => {
            *lock = open_lock(rt, paths)?;
            Ok(WaitAnswer::Moved(passed(rt, began)?))
        }
        Err(TryLockError::Error(error)) => Err(LockFault::Device(error)),
        Err(TryLockError::WouldBlock) => Ok(WaitAnswer::Taken(passed(rt, began)?)),
    }
}

/// How many milliseconds have passed, to the second below.
fn passed<R: Clock>(rt: &R, began: &Instant) -> io::Result<u64> {
    Ok(began.elapsed(rt)?.as_secs().saturating_mul(SECOND))
}

/// The lock's file, opened. It is made where it is missing. A folder that can't be opened can't be synced, so it isn't locked.
fn open_lock<R: Files<File = File>>(rt: &R, paths: Paths<'_>) -> io::Result<File> {
    let folder = fs::open(rt, paths.folder)?.metadata()?;
    for _ in 0..MOST_OPENINGS {
        match open_old(rt, paths.lock) {
            Err(error) if error.kind() == ErrorKind::NotFound => {}
            answer => return answer,
        }
        sync_name(rt, paths.above)?;
        match make_new(rt, &folder, paths.lock) {
            Err(error) if error.kind() == ErrorKind::AlreadyExists => {}
            answer => return answer,
        }
    }
    Err(io::Error::from(ErrorKind::NotFound))
}

/// Brings the folder's own name to the disk, by the folder above it: whoever made it may have been killed before that.
fn sync_name<R: Files<File = File>>(rt: &R, above: &str) -> io::Result<()> {
    match sync(rt, above) {
        Err(error) if is_fault(&error) => Err(error),
        _ => Ok(()),
    }
}

fn sync<R: Files<File = File>>(rt: &R, folder: &str) -> io::Result<()> {
    fs::open(rt, folder)?.sync_all()
}

fn is_fault(error: &io::Error) -> bool {
    let errno = error.raw_os_error().map_or(EIO, i32::unsigned_abs);
    matches!(name_synced(errno), Standing::Fault(_))
}

/// Opened to be written, so that a network file system can lock it. What is no file is not opened.
fn open_old<R: Files<File = File>>(rt: &R, name: &str) -> io::Result<File> {
    if !fs::symlink_metadata(rt, name)?.is_file() {
        return Err(io::Error::from(ErrorKind::InvalidInput));
    }
    OpenOptions::new().read(true).write(true).open(rt, name)
}

/// A new file, which whoever may write in the folder may open, and nobody else.
fn make_new<R: Files<File = File>>(rt: &R, above: &Metadata, name: &str) -> io::Result<File> {
    let mut options = OpenOptions::new();
    options
        .read(true)
        .write(true)
        .create_new(true)
        .mode(READ_AND_WRITE);
    let lock = options.open(rt, name)?;
    hand_over(&lock, above)?;
    Ok(lock)
}

/// Gives a new file the folder's owner and group, as far as this user may, and opens it to those who may write in the folder.
/// Some file systems know no owners and bits: there it stays as it is.
fn hand_over(lock: &File, above: &Metadata) -> io::Result<()> {
    let made = lock.metadata()?;
    if made.uid() != above.uid() {
        let _ = fchown(lock, Some(above.uid()), None);
    }
    if made.gid() != above.gid() {
        let _ = fchown(lock, None, Some(above.gid()));
    }
    let now = lock.metadata()?;
    let bits = lock_bits(above.mode(), now.gid() == above.gid());
    if now.mode() & PERMISSION_BITS != bits {
        let _ = lock.set_permissions(Permissions::from_mode(bits));
    }
    Ok(())
}

/// Whether the name still stands for the file: after a wait it may be another one's, as the folder's name may.
fn is_named<R: Files<File = File>>(rt: &R, lock: &File, name: &str) -> io::Result<bool> {
    let held = lock.metadata()?;
    match fs::symlink_metadata(rt, name) {
        Ok(found) => Ok(found.dev() == held.dev() && found.ino() == held.ino()),
        Err(error) if error.kind() == ErrorKind::NotFound => Ok(false),
        Err(error) => Err(error),
    }
}
