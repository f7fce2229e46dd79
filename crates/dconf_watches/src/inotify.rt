//! The numbers of inotify and of stat: what is asked for, what is told, and what stands at a name.
ghost use Rattle.std.specs.Prelude.{◌≡◌};
ghost use Rattle.dconf_watches.specs.Inotify.{asked_of, asked_of_file, event_in, found_by, has, is_file_missed, seen_by};

use crate::event::Event;
use crate::name::{Found, NameWatch};

const IN_ATTRIB: u32 = 0x4;

const IN_CLOSE_WRITE: u32 = 0x8;

const IN_MOVED_FROM: u32 = 0x40;

const IN_MOVED_TO: u32 = 0x80;

const IN_CREATE: u32 = 0x100;

const IN_DELETE: u32 = 0x200;

const IN_DELETE_SELF: u32 = 0x400;

const IN_MOVE_SELF: u32 = 0x800;

const IN_UNMOUNT: u32 = 0x2000;

const IN_Q_OVERFLOW: u32 = 0x4000;

const ENOENT: u32 = 2;

const EACCES: u32 = 13;

const S_IFMT: u32 = 0o170000;

const S_IFDIR: u32 = 0o040000;

const S_IFREG: u32 = 0o100000;

const S_IFLNK: u32 = 0o120000;

/// What a mask says that happened.
pub fn event_in(mask: u32) -> Event
    ensures { result ≡ event_in mask }
{
    if has(mask, IN_UNMOUNT + IN_Q_OVERFLOW) {
        Event::Lost
    } else if has(mask, IN_MOVED_FROM + IN_DELETE) {
        Event::Went
    } else if has(mask, IN_CREATE) {
        Event::Made
    } else if has(mask, IN_MOVED_TO) {
        Event::Came
    } else if has(mask, IN_CLOSE_WRITE) {
        Event::Written
    } else if has(mask, IN_ATTRIB) {
        Event::Access
    } else if has(mask, IN_DELETE_SELF + IN_MOVE_SELF) {
        Event::Gone
    } else {
        Event::Other
    }
}

/// Whether the mask has one of these bits.
fn has(mask: u32, bits: u32) -> bool
    ensures { result ≡ has mask bits }
{
    mask & bits != 0
}

/// What inotify is asked for of the folder.
pub fn asked_of(watch: NameWatch) -> u32
    ensures { result ≡ asked_of watch }
{
    match watch {
        NameWatch::Nothing => 0,
        NameWatch::Itself => IN_DELETE_SELF + IN_MOVE_SELF,
        NameWatch::Passage => IN_MOVED_FROM + IN_MOVED_TO + IN_CREATE + IN_DELETE,
        NameWatch::Own => IN_ATTRIB + IN_MOVED_FROM + IN_MOVED_TO + IN_DELETE,
        NameWatch::Awaited => {
            IN_ATTRIB + IN_CLOSE_WRITE + IN_MOVED_FROM + IN_MOVED_TO + IN_CREATE + IN_DELETE
        }
    }
}

/// What it is asked for of what stands at the name itself: of a folder nothing.
pub fn asked_of_file(watch: NameWatch, found: Found) -> u32
    ensures { result ≡ asked_of_file watch found }
{
    match (watch, found) {
        (NameWatch::Own, Found::File) => IN_CLOSE_WRITE,
        (NameWatch::Own, Found::Other) => IN_CLOSE_WRITE,
        _ => 0,
    }
}

/// Whether something is missed if that can't be watched, by the errno; 0 is none. What went is told of by its folder, and what we may not read no look could
/// read.
pub fn is_file_missed(fault: u32) -> bool
    ensures { result ≡ is_file_missed fault }
{
    fault != 0 && fault != ENOENT && fault != EACCES
}

/// What stands at a name, by the mode of the file and how many names it has. A mode without a kind is none's.
pub fn found_by(mode: u32, links: u64) -> Found
    ensures { result ≡ found_by mode links }
{
    match mode & S_IFMT {
        0 => Found::Missing,
        S_IFLNK => Found::Link,
        S_IFDIR => Found::Folder,
        S_IFREG if links == 1 => Found::File,
        _ => Found::Other,
    }
}

/// The same where it may be that it can't be seen, or not where a link leads.
pub fn seen_by(is_unseen: bool, mode: u32, links: u64) -> Found
    ensures { result ≡ seen_by is_unseen mode links }
{
    if is_unseen {
        Found::Unseen
    } else {
        found_by(mode, links)
    }
}
