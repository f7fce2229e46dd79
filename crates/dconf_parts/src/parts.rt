//! What was made of a file, beside what the file is now.
ghost use Rattle.std.specs.Prelude.{◌≡◌};
ghost use Rattle.dconf_files.specs.Stamps.{is_same_time};
ghost use Rattle.dconf_parts.specs.Parts.{as_tried, beside, beside_number, by_stat, has_same_fault, is_as_read, is_one_file, known_after, known_as, newest, placed, purpose_of, read, same_if};

use dconf_files::{FileStamp, FileTime, Sameness, same_file};

/// What for it is asked.
#[derive(Clone, Copy, Debug, PartialEq, Eq)]
pub enum Purpose {
    /// To keep what was made of it, without reading it.
    Keep,
    /// The same, once it was read.
    Take,
    /// To say whether it is the newest.
    Tell,
    /// To know whether it is the file of a change that was perhaps made.
    Try,
}

/// What it is.
#[derive(Clone, Copy, Debug, PartialEq, Eq)]
pub enum Likeness {
    /// It is the same.
    Same,
    /// It is another one, or may be.
    Other,
    /// It is the same if it may still be read: it is held, and something of it changed that isn't its content.
    IfReadable,
}

/// What is known of it.
#[repr(C)]
#[derive(Clone, Copy)]
pub struct DconfdbPartSeen {
    /// When the reading of what was made of it began, or earlier: nanoseconds since 1970.
    pub opened: u64,
    /// The errno by which it can't be looked at now; 0: it can.
    pub fault: u32,
    /// What was wrong with the file: zeros, if nothing was, or if it no longer has its name.
    pub code: u32,
    pub errnum: u32,
    /// Why it can't be read now: zeros, if it can.
    pub read_code: u32,
    pub read_errnum: u32,
    /// The file has been open or mapped since then.
    pub is_held: bool,
    /// The bytes that were read now are those of which it was made.
    pub has_bytes: bool,
}

/// What a file is, of which that was made, by what the host said of it then and says now.
pub fn beside(
    purpose: Purpose,
    old: &FileStamp,
    now: &FileStamp,
    seen: &DconfdbPartSeen,
) -> Likeness
    ensures { result ≡ beside purpose old.now now.now seen.now }
{
    if seen.fault != 0 {
        return Likeness::Other;
    }
    match purpose {
        Purpose::Keep => by_stat(old, now, seen),
        Purpose::Take => read(old, now, seen),
        Purpose::Tell => newest(old, now, seen),
        Purpose::Try => as_tried(old, now, seen),
    }
}

/// The same in numbers. Purposes: 0 keep, 1 take, 2 tell, else try. Answers: 0 the same, 1 another, 2 the same if it may be read.
pub fn beside_number(purpose: u32, old: &FileStamp, now: &FileStamp, seen: &DconfdbPartSeen) -> u32
    ensures { result ≡ beside_number (beside (purpose_of purpose) old.now now.now seen.now) }
{
    match beside(purpose_of(purpose), old, now, seen) {
        Likeness::Same => 0,
        Likeness::Other => 1,
        Likeness::IfReadable => 2,
    }
}

/// By what a file that is the same if it may be read is known from then on: it may, or not.
pub fn known_after(old: &FileStamp, now: &FileStamp, may_be_read: bool) -> FileStamp
    ensures { result ≡ known_after old.now now.now may_be_read }
{
    if may_be_read {
        known_as(old, now)
    } else {
        *old
    }
}

/// What changed of it isn't asked of again until more does.
fn known_as(old: &FileStamp, now: &FileStamp) -> FileStamp
    ensures { result ≡ known_as old.now now.now }
{
    FileStamp {
        touched: now.touched,
        ..*old
    }
}

/// What has the time and all else of before is the same; what is held, whatever became of its owner and its names, if it may be read.
fn by_stat(old: &FileStamp, now: &FileStamp, seen: &DconfdbPartSeen) -> Likeness
    ensures { result ≡ by_stat old.now now.now seen.now }
{
    match same_file(old, now, seen.opened, seen.is_held) {
        Sameness::Same if is_same_time(old.touched, now.touched) => Likeness::Same,
        Sameness::Same => Likeness::IfReadable,
        Sameness::Other => Likeness::Other,
        Sameness::Unsure => Likeness::Other,
    }
}

/// A file may be replaced by one that is alike in all that the host says: so what was read counts, too.
fn read(old: &FileStamp, now: &FileStamp, seen: &DconfdbPartSeen) -> Likeness
    ensures { result ≡ read old.now now.now seen.now }
{
    match same_file(old, now, seen.opened, seen.is_held) {
        Sameness::Other => Likeness::Other,
        Sameness::Same | Sameness::Unsure => same_if(is_as_read(seen)),
    }
}

fn newest(old: &FileStamp, now: &FileStamp, seen: &DconfdbPartSeen) -> Likeness
    ensures { result ≡ newest old.now now.now seen.now }
{
    match same_file(old, now, seen.opened, seen.is_held) {
        Sameness::Other => Likeness::Other,
        Sameness::Same | Sameness::Unsure => Likeness::Same,
    }
}

fn as_tried(old: &FileStamp, now: &FileStamp, seen: &DconfdbPartSeen) -> Likeness
    ensures { result ≡ as_tried old.now now.now seen.now }
{
    same_if(is_one_file(old, now) && seen.has_bytes)
}

fn same_if(is: bool) -> Likeness
    ensures { result ≡ same_if is }
{
    if is { Likeness::Same } else { Likeness::Other }
}

/// The same bytes were read, or the same fault was met.
fn is_as_read(seen: &DconfdbPartSeen) -> bool
    ensures { result ≡ is_as_read seen.now }
{
    if seen.read_code == 0 {
        seen.code == 0 && seen.has_bytes
    } else {
        has_same_fault(seen)
    }
}

fn has_same_fault(seen: &DconfdbPartSeen) -> bool
    ensures { result ≡ has_same_fault seen.now }
{
    seen.code == seen.read_code && seen.errnum == seen.read_errnum
}

/// The state of a file that was made, once it was given its name: of what has that name now, if that is the file. Another one may have it by now, or
/// none; then it is as it was made.
pub fn placed(made: &FileStamp, named: &FileStamp) -> FileStamp
    ensures { result ≡ placed made.now named.now }
{
    if is_one_file(made, named) {
        *named
    } else {
        *made
    }
}

/// Whether both are one file, whatever changed of it.
pub fn is_one_file(old: &FileStamp, now: &FileStamp) -> bool
    ensures { result ≡ is_one_file old.now now.now }
{
    old.is_there && now.is_there && old.device == now.device && old.inode == now.inode
}

fn is_same_time(old: FileTime, now: FileTime) -> bool
    ensures { result ≡ is_same_time old now }
{
    old.nanoseconds == now.nanoseconds && old.seconds == now.seconds
}

fn purpose_of(number: u32) -> Purpose
    ensures { result ≡ purpose_of number }
{
    match number {
        0 => Purpose::Keep,
        1 => Purpose::Take,
        2 => Purpose::Tell,
        _ => Purpose::Try,
    }
}
