//! A try to take the lock of a folder: what is done next.
ghost use Rattle.std.specs.Prelude.{◌≡◌, false};
ghost use Rattle.dconf_waits.specs.Takings.{above_seen, begun, by_names, by_old, by_removal, failed, file_made, folder_made, folder_opened, forked, is_for_others, listed, locked, missing, moved, opened_anew, over, taken, to, unmade};
ghost use Rattle.dconf_verdicts.specs.declared.standing.Purpose.TheVariants.{HoldLock, Look, OpenLock};
ghost use Rattle.dconf_verdicts.specs.Standings.{standing_of};

use dconf_files::lock_bits;
use dconf_verdicts::{Purpose, Seen, Standing, standing_of};

/// How often the file is opened anew, as others made it meanwhile, but for the last time; and how often, after a pause, as another thread forked, or had
/// forks heeded.
const BEFORE_LAST_OPENING: u32 = 99;

const BEFORE_LAST_FORK: u32 = 9;

/// Its owner alone may read and write it.
const READ_AND_WRITE: u32 = 0o600;

const ENOENT: u32 = 2;

const EAGAIN: u32 = 11;

const EEXIST: u32 = 17;

// The tasks, which the caller carries out:
/// to open the folder, after what was opened before is closed, unless another thread is about to have forks heeded (EAGAIN);
const OPEN_FOLDER: u32 = 1;
/// to make it;
const MAKE_FOLDER: u32 = 2;
/// to open what has the lock's name in it;
const OPEN_OLD: u32 = 3;
/// to bring its name to the disk, and look at it;
const LOOK_ABOVE: u32 = 4;
/// to make a file that has no name, and then the lock's;
const MAKE_UNNAMED: u32 = 5;
/// or another name first;
const MAKE_RENAMED: u32 = 6;
/// or the lock's at once;
const MAKE_OWN: u32 = 7;
/// to list it for whoever forks;
const LIST: u32 = 8;
/// to lock it;
const LOCK: u32 = 9;
/// to look at its names;
const LOOK: u32 = 10;
/// to take the lock's name from it;
const TAKE_NAME: u32 = 11;
/// to wait for a moment: another thread forks, or is about to have forks heeded.
const PAUSE: u32 = 12;
// It is over:
/// it is had;
const HAD: u32 = 13;
/// it isn't, and what is open stays for the next try;
const NOT_YET: u32 = 14;
/// it isn't, and what is open is to be closed.
const NOT_HAD: u32 = 15;

// Which call was the last, as a wait has it.
const BY_LOCKING: u32 = 1;

const BY_NAMES: u32 = 2;

const BY_OPENING: u32 = 3;

/// A try, as its caller owns it: all zero at first. Nobody but this call writes its fields.
#[repr(C)]
#[derive(Clone, Copy)]
pub struct TakingRecord {
    /// What is to be done next: 1 open the folder, 2 make it, 3 open what has the lock's name, 4 bring the folder's name to the disk and look at it, 5 make a file that has no
    /// name at first, 6 one that has another name at first, 7 one by its name, 8 list it, 9 lock it, 10 look at its names, 11 take its name, 12 wait for a
    /// moment; or it is over: 13 it is had, 14 others have it, 15 it isn't had, and what is open is to be closed.
    pub task: u32,
    /// Which call was the last, once it is over, as [`WaitRecord::answered`](crate::WaitRecord::answered) has it,
    pub tried: u32,
    /// and its errno, or 0.
    pub fault: u32,
    openings: u32,
    forks: u32,
    has_made: bool,
    is_again: bool,
}

impl TakingRecord {
    /// A try that begins with whatever is answered.
    pub fn new() -> TakingRecord
        ensures { result ≡ record { task = 0; tried = 0; fault = 0; openings = 0; forks = 0; has_made = false; is_again = false } }
    {
        TakingRecord {
            task: 0,
            tried: 0,
            fault: 0,
            openings: 0,
            forks: 0,
            has_made: false,
            is_again: false,
        }
    }

    /// Takes what the host says of what was done. One that is over begins anew, by any answer, with what is open if others have the lock. Whoever may make
    /// nothing (`may_make`) takes the lock that is there, or none.
    pub fn answered(&mut self, seen: &Seen)
        ensures { self.new ≡ taken self.old seen.now }
    {
        *self = match self.task {
            OPEN_FOLDER => self.folder_opened(seen.may_make, seen.fault),
            MAKE_FOLDER => self.folder_made(seen.fault),
            OPEN_OLD => self.by_old(seen.may_make, standing_of(Purpose::OpenLock, seen)),
            LOOK_ABOVE => self.above_seen(seen),
            MAKE_UNNAMED | MAKE_RENAMED | MAKE_OWN => self.file_made(seen.fault),
            LIST => self.listed(seen.fault),
            LOCK => self.locked(seen.fault),
            LOOK => self.by_names(standing_of(Purpose::HoldLock, seen)),
            TAKE_NAME => self.by_removal(standing_of(Purpose::Look, seen)),
            PAUSE => self.to(OPEN_FOLDER),
            NOT_YET => self.begun().to(LOCK),
            _ => self.begun(),
        };
    }

    fn folder_opened(self, may_make: bool, errno: u32) -> TakingRecord
        ensures { result ≡ folder_opened self may_make errno }
    {
        match errno {
            0 => TakingRecord {
                task: OPEN_OLD,
                openings: 0,
                ..self
            },
            EAGAIN => self.forked(),
            errno => self.missing(may_make, errno),
        }
    }

    fn folder_made(self, errno: u32) -> TakingRecord
        ensures { result ≡ folder_made self errno }
    {
        if errno == 0 {
            TakingRecord {
                task: OPEN_FOLDER,
                has_made: true,
                ..self
            }
        } else {
            self.over(NOT_HAD, BY_OPENING, errno)
        }
    }

    fn by_old(self, may_make: bool, standing: Standing) -> TakingRecord
        ensures { result ≡ by_old self may_make standing }
    {
        match standing {
            Standing::Good => self.to(LIST),
            Standing::Fault(errno) => self.missing(may_make, errno),
            Standing::Nothing | Standing::Map | Standing::Head | Standing::Other => {
                self.unmade(may_make)
            }
        }
    }

    fn unmade(self, may_make: bool) -> TakingRecord
        ensures { result ≡ unmade self may_make }
    {
        if may_make {
            self.to(LOOK_ABOVE)
        } else {
            self.over(NOT_HAD, BY_OPENING, ENOENT)
        }
    }

    fn above_seen(self, seen: &Seen) -> TakingRecord
        ensures { result ≡ above_seen self seen.now }
    {
        if seen.fault != 0 {
            self.failed(seen.fault)
        } else if is_for_others(seen) {
            self.to(MAKE_UNNAMED)
        } else {
            self.to(MAKE_OWN)
        }
    }

    fn file_made(self, errno: u32) -> TakingRecord
        ensures { result ≡ file_made self errno }
    {
        match errno {
            0 => self.to(LIST),
            EEXIST => self.opened_anew(),
            _ if self.task == MAKE_UNNAMED => self.to(MAKE_RENAMED),
            _ if self.task == MAKE_RENAMED => self.to(MAKE_OWN),
            errno => self.failed(errno),
        }
    }

    fn opened_anew(self) -> TakingRecord
        ensures { result ≡ opened_anew self }
    {
        if self.openings < BEFORE_LAST_OPENING {
            TakingRecord {
                task: OPEN_OLD,
                openings: self.openings + 1,
                ..self
            }
        } else {
            self.over(NOT_HAD, BY_OPENING, EEXIST)
        }
    }

    fn listed(self, errno: u32) -> TakingRecord
        ensures { result ≡ listed self errno }
    {
        if errno == 0 {
            self.to(LOCK)
        } else {
            self.forked()
        }
    }

    fn forked(self) -> TakingRecord
        ensures { result ≡ forked self }
    {
        if self.forks < BEFORE_LAST_FORK {
            TakingRecord {
                task: PAUSE,
                forks: self.forks + 1,
                ..self
            }
        } else {
            self.over(NOT_HAD, BY_LOCKING, EAGAIN)
        }
    }

    fn locked(self, errno: u32) -> TakingRecord
        ensures { result ≡ locked self errno }
    {
        if errno == 0 {
            self.to(LOOK)
        } else {
            self.over(NOT_YET, BY_LOCKING, errno)
        }
    }

    fn by_names(self, standing: Standing) -> TakingRecord
        ensures { result ≡ by_names self standing }
    {
        match standing {
            Standing::Good => self.over(HAD, BY_LOCKING, 0),
            Standing::Other => self.to(TAKE_NAME),
            Standing::Nothing | Standing::Map | Standing::Head | Standing::Fault(_) => self.moved(),
        }
    }

    fn by_removal(self, standing: Standing) -> TakingRecord
        ensures { result ≡ by_removal self standing }
    {
        match standing {
            Standing::Fault(errno) => self.over(NOT_HAD, BY_NAMES, errno),
            Standing::Good | Standing::Nothing | Standing::Map | Standing::Head | Standing::Other =>
                self.moved(),
        }
    }

    fn moved(self) -> TakingRecord
        ensures { result ≡ moved self }
    {
        if self.is_again {
            return self.over(NOT_HAD, BY_NAMES, 0);
        }
        TakingRecord {
            is_again: true,
            ..self.begun()
        }
    }

    fn missing(self, may_make: bool, errno: u32) -> TakingRecord
        ensures { result ≡ missing self may_make errno }
    {
        if may_make {
            self.failed(errno)
        } else {
            self.over(NOT_HAD, BY_OPENING, errno)
        }
    }

    fn failed(self, errno: u32) -> TakingRecord
        ensures { result ≡ failed self errno }
    {
        if errno == ENOENT && !self.has_made {
            self.to(MAKE_FOLDER)
        } else {
            self.over(NOT_HAD, BY_OPENING, errno)
        }
    }

    fn begun(self) -> TakingRecord
        ensures { result ≡ begun self }
    {
        TakingRecord {
            task: OPEN_FOLDER,
            openings: 0,
            forks: 0,
            has_made: false,
            is_again: false,
            ..self
        }
    }

    fn to(self, task: u32) -> TakingRecord
        ensures { result ≡ to self task }
    {
        TakingRecord { task, ..self }
    }

    fn over(self, task: u32, tried: u32, fault: u32) -> TakingRecord
        ensures { result ≡ over self task tried fault }
    {
        TakingRecord {
            task,
            tried,
            fault,
            ..self
        }
    }
}

fn is_for_others(folder: &Seen) -> bool
    ensures { result ≡ is_for_others folder.now }
{
    folder.is_root && folder.user != 0 || lock_bits(folder.mode, true) != READ_AND_WRITE
}
