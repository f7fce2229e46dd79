//! What becomes of what has a name, or is open, by what the host says of it.
ghost use Rattle.std.specs.Prelude.{◌≡◌};
ghost use Rattle.dconf_verdicts.specs.declared.standing.Standing.TheVariants as Standing;
ghost use Rattle.dconf_verdicts.specs.Standings.{fault_of_mode, is_no_file, is_regular, lock_held, lock_opened, looked, opened, purpose_of, standing_fault, standing_number, standing_of, taken, taken_sized};

use crate::names::{
    exchanged, moved_aside, name_given, named_anew, place_taken, room_made, set_aside,
};
use crate::ways::{entered, folder_opened, followed, link_read, made, made_in, name_synced};

/// Whatever is larger is mapped, or only its head is read at first. A small file costs less to read than to map.
const SMALL: u64 = 65536;

const ENOENT: u32 = 2;

const EISDIR: u32 = 21;

const EINVAL: u32 = 22;

const EOVERFLOW: u32 = 75;

/// What the host says of it.
#[repr(C)]
#[derive(Clone, Copy)]
pub struct Seen {
    /// The errno by which it could not be done, or looked at; 0: it was.
    pub fault: u32,
    /// Its kind and its permission bits.
    pub mode: u32,
    /// Whose it is.
    pub user: u32,
    /// How many names it has.
    pub links: u64,
    pub size: u64,
    /// A file of more bytes isn't read.
    pub most: u64,
    /// How many links were followed on the way, or how many names were tried before this one.
    pub tried: u64,
    /// It may be mapped.
    pub may_map: bool,
    /// Its head may say that the rest isn't wanted.
    pub may_stop: bool,
    /// The name still stands for what is open; or what has the name is the same file.
    pub is_named: bool,
    /// The path of the folder that it is in leads elsewhere by now.
    pub is_moved: bool,
    /// Root asks.
    pub is_root: bool,
    /// What is missing may be made.
    pub may_make: bool,
}

/// What for it is asked.
#[derive(Clone, Copy)]
pub enum Purpose {
    /// Something is to be there, or not.
    Look,
    /// A file, by its name, is to be opened and read.
    Open,
    /// An open file is to be read.
    Take,
    /// A folder's lock was opened.
    OpenLock,
    /// It is locked.
    HoldLock,
    /// A link is to be followed that is in this folder.
    Follow,
    /// What had the new file's name was removed.
    MakeRoom,
    /// A file got another name, if that is free, or changed places with what has the other one.
    Exchange,
    /// A folder was made.
    Make,
    /// It got its name, if that was free.
    GiveName,
    /// The same, or it took the place of an empty folder.
    TakePlace,
    /// A file got another name, too, the next of those that are tried.
    SetAside,
    /// A folder got such a name in the place of its own.
    MoveAside,
    /// Something was made by such a name.
    MakeNamed,
    /// A folder on the way was opened.
    Enter,
    /// What is no folder is to be read as a link.
    ReadLink,
    /// A folder is to be made in this one.
    MakeIn,
    /// A folder was opened by its path.
    OpenFolder,
    /// A folder's name was brought to the disk, by the folder above it.
    SyncName,
}

/// What becomes of it.
#[derive(Clone, Copy)]
pub enum Standing {
    /// It is as it is to be: it is read, or the lock is had, or the link is followed.
    Good,
    /// Nothing is there that counts: no file, or no bytes, or no lock by that name any more; or nothing has to be made.
    Nothing,
    /// It is mapped.
    Map,
    /// Its head is read, and then the rest, if it is wanted.
    Head,
    /// It is done in another way: what has the name loses it, or gets another one.
    Other,
    /// It fails by that errno.
    Fault(u32),
}

/// What becomes of it. Each has one answer.
pub fn standing_of(purpose: Purpose, seen: &Seen) -> Standing
    ensures { result ≡ standing_of purpose seen.now }
{
    match purpose {
        Purpose::Look => looked(seen.fault),
        Purpose::Open => opened(seen),
        Purpose::Take => taken(seen),
        Purpose::OpenLock => lock_opened(seen),
        Purpose::HoldLock => lock_held(seen),
        Purpose::Follow => followed(seen),
        Purpose::MakeRoom => room_made(seen.fault),
        Purpose::Exchange => exchanged(seen.fault),
        Purpose::Make => made(seen.fault),
        Purpose::GiveName => name_given(seen.fault),
        Purpose::TakePlace => place_taken(seen.fault),
        Purpose::SetAside => set_aside(seen),
        Purpose::MoveAside => moved_aside(seen),
        Purpose::MakeNamed => named_anew(seen),
        Purpose::Enter => entered(seen),
        Purpose::ReadLink => link_read(seen),
        Purpose::MakeIn => made_in(seen),
        Purpose::OpenFolder => folder_opened(seen),
        Purpose::SyncName => name_synced(seen.fault),
    }
}

/// The same in numbers. Purposes: 0 look, 1 open, 2 take, 3 open a lock, 4 hold it, 5 follow, 6 make room, 7 exchange, 8 make, 9 give the
/// name, 10 take a place, 11 set aside, 12 move aside, 13 make by a name, 14 enter, 15 read a link, 16 make in it, 17 open a folder, else bring its name to the disk. Answers: 0 good, 1 nothing, 2 map, 3 head, 4 another way, 5 a fault; and the fault's errno, or 0.
pub fn standing_numbers(purpose: u32, seen: &Seen) -> (u32, u32)
    ensures number { result.0 ≡ standing_number (standing_of (purpose_of purpose) seen.now) }
    ensures fault { result.1 ≡ standing_fault (standing_of (purpose_of purpose) seen.now) }
{
    match standing_of(purpose_of(purpose), seen) {
        Standing::Good => (0, 0),
        Standing::Nothing => (1, 0),
        Standing::Map => (2, 0),
        Standing::Head => (3, 0),
        Standing::Other => (4, 0),
        Standing::Fault(errno) => (5, errno),
    }
}

fn looked(errno: u32) -> Standing
    ensures { result ≡ looked errno }
{
    match errno {
        0 => Standing::Good,
        ENOENT => Standing::Nothing,
        errno => Standing::Fault(errno),
    }
}

fn opened(seen: &Seen) -> Standing
    ensures { result ≡ opened seen.now }
{
    if seen.fault != 0 || is_regular(seen.mode) {
        Standing::Good
    } else {
        Standing::Fault(fault_of_mode(seen.mode))
    }
}

fn taken(seen: &Seen) -> Standing
    ensures { result ≡ taken seen.now }
{
    if seen.fault != 0 {
        return Standing::Fault(seen.fault);
    }
    if is_regular(seen.mode) {
        taken_sized(seen)
    } else {
        Standing::Fault(fault_of_mode(seen.mode))
    }
}

fn taken_sized(seen: &Seen) -> Standing
    ensures { result ≡ taken_sized seen.now }
{
    if seen.size > seen.most {
        return Standing::Fault(EOVERFLOW);
    }
    if seen.size == 0 {
        return Standing::Nothing;
    }
    if seen.size <= SMALL {
        return Standing::Good;
    }
    if seen.may_map {
        Standing::Map
    } else if seen.may_stop {
        Standing::Head
    } else {
        Standing::Good
    }
}

fn lock_opened(seen: &Seen) -> Standing
    ensures { result ≡ lock_opened seen.now }
{
    if seen.fault != 0 && !is_no_file(seen.fault) {
        return looked(seen.fault);
    }
    if seen.fault == 0 && is_regular(seen.mode) {
        Standing::Good
    } else {
        Standing::Fault(EINVAL)
    }
}

fn lock_held(seen: &Seen) -> Standing
    ensures { result ≡ lock_held seen.now }
{
    if seen.fault != 0 || (seen.is_moved || !seen.is_named) {
        Standing::Nothing
    } else if seen.links > 1 {
        Standing::Other
    } else {
        Standing::Good
    }
}

/// ELOOP, EISDIR and ENXIO.
fn is_no_file(errno: u32) -> bool
    ensures { result ≡ is_no_file errno }
{
    errno == 40 || errno == 21 || errno == 6
}

fn is_regular(mode: u32) -> bool
    ensures { result ≡ is_regular mode }
{
    mode / 4096 % 16 == 8
}

fn fault_of_mode(mode: u32) -> u32
    ensures { result ≡ fault_of_mode mode }
{
    if mode / 4096 % 16 == 4 {
        EISDIR
    } else {
        EINVAL
    }
}

fn purpose_of(number: u32) -> Purpose
    ensures { result ≡ purpose_of number }
{
    match number {
        0 => Purpose::Look,
        1 => Purpose::Open,
        2 => Purpose::Take,
        3 => Purpose::OpenLock,
        4 => Purpose::HoldLock,
        5 => Purpose::Follow,
        6 => Purpose::MakeRoom,
        7 => Purpose::Exchange,
        8 => Purpose::Make,
        9 => Purpose::GiveName,
        10 => Purpose::TakePlace,
        11 => Purpose::SetAside,
        12 => Purpose::MoveAside,
        13 => Purpose::MakeNamed,
        14 => Purpose::Enter,
        15 => Purpose::ReadLink,
        16 => Purpose::MakeIn,
        17 => Purpose::OpenFolder,
        _ => Purpose::SyncName,
    }
}
