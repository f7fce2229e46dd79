//! Whether a file is the one that was read, or of which something was made, and how a new one becomes whose it is to be.
ghost use Rattle.std.specs.Prelude.{◌≡◌};
ghost use Rattle.dconf_files.specs.Handings.{handed_after, handing_number, handing_value, what_of};
ghost use Rattle.dconf_files.specs.Stamps.{sameness_number, sameness_of};
ghost use Rattle.dconf_parts.specs.Moving.{is_cut, moved, moved_number, moved_to};
ghost use Rattle.dconf_parts.specs.Parts.{beside, beside_number, is_one_file, known_after, placed, purpose_of};
ghost use Rattle.dconf_parts.specs.Several.{among, sameness_from};
ghost use Rattle.dconf_parts.specs.Sizes.{is_mapped, kind_of, largest};

use dconf_files::{FileStamp, MadeFile, handing_numbers, sameness_number};
use dconf_parts::{
    DconfdbPartSeen, among_number, beside_number, is_cut, is_one_file, known_after, largest_number,
    moved_number, moved_to, placed,
};

/// Whether a file is the one that was read from that moment on: 0 it is, 1 it is another one or has
/// changed, 2 it may have. `is_held`: it has been open or mapped since.
#[unsafe(no_mangle)]
pub extern "C" fn dconfdb_same_file(
    old: &FileStamp,
    now: &FileStamp,
    opened: u64,
    is_held: bool,
) -> u32
    ensures { result ≡ sameness_number (sameness_of old.now now.now opened is_held) }
{
    sameness_number(old, now, opened, is_held)
}

/// What is known of several files, by what is known of those before and of one more: 0 each is the one that was read, 1 one is another one, 2 one may
/// be. Before the first it is 0.
#[unsafe(no_mangle)]
pub extern "C" fn dconfdb_same_among(before: u32, is: u32) -> u32
    ensures { result ≡ sameness_number (among (sameness_from before) (sameness_from is)) }
{
    among_number(before, is)
}

/// What a file is, of which something was made, by what the host said of it then and says now. The numbers are those of
/// [`beside_number`](dconf_parts::beside_number).
#[unsafe(no_mangle)]
pub extern "C" fn dconfdb_beside(
    purpose: u32,
    old: &FileStamp,
    now: &FileStamp,
    seen: &DconfdbPartSeen,
) -> u32
    ensures { result ≡ beside_number (beside (purpose_of purpose) old.now now.now seen.now) }
{
    beside_number(purpose, old, now, seen)
}

/// By what a file that is the same if it may be read is known from then on; and whether it is, as it may be read or not.
#[unsafe(no_mangle)]
pub extern "C" fn dconfdb_known_after(
    old: &FileStamp,
    now: &FileStamp,
    may_be_read: bool,
    known: &mut FileStamp,
) -> bool
    ensures is { result ≡ may_be_read }
    ensures known { known.new ≡ known_after old.now now.now may_be_read }
{
    *known = known_after(old, now, may_be_read);
    may_be_read
}

/// Whether both are one file, whatever changed of it.
#[unsafe(no_mangle)]
pub extern "C" fn dconfdb_is_one_file(one: &FileStamp, other: &FileStamp) -> bool
    ensures { result ≡ is_one_file one.now other.now }
{
    is_one_file(one, other)
}

/// The state of a file that was made, once it was given its name, by what has that name now.
#[unsafe(no_mangle)]
pub extern "C" fn dconfdb_placed(named: &FileStamp, made: &mut FileStamp)
    ensures { made.new ≡ placed made.old named.now }
{
    *made = placed(made, named);
}

/// How many bytes a file may have that is read: 0 the one that says which kind of store the machine has, 1 a profile, 2 a site's database, else the
/// user's; and whether it is mapped, if it is large.
#[unsafe(no_mangle)]
pub extern "C" fn dconfdb_largest(kind: u32, may_map: &mut bool) -> u64
    ensures largest { result ≡ largest (kind_of kind) }
    ensures mapped { may_map.new ≡ is_mapped (kind_of kind) }
{
    let (most, is_mapped) = largest_number(kind);
    *may_map = is_mapped;
    most
}

/// Takes what a call answered that reads or writes: how many bytes, or its errno. `at` of those that are wanted were moved before, and then were now.
/// 0: another call is made, 1 all were moved, 2 there are no more, or there is no room, 3 it failed.
#[unsafe(no_mangle)]
pub extern "C" fn dconfdb_moved(wanted: usize, at: &mut usize, errno: u32, count: usize) -> u32
    ensures next { result ≡ moved_number (moved wanted at.old errno count) }
    ensures at { at.new ≡ moved_to wanted at.old errno count }
{
    let next = moved_number(wanted, *at, errno, count);
    *at = moved_to(wanted, *at, errno, count);
    next
}

/// Whether a file is cut off behind so many bytes, which were written from its start on: `stood` were in it before, or more than any file has where nobody
/// knows.
#[unsafe(no_mangle)]
pub extern "C" fn dconfdb_is_cut(stood: usize, written: usize) -> bool
    ensures { result ≡ is_cut stood written }
{
    is_cut(stood, written)
}

/// What comes next with what was just made: what 0 a lock, 1 a file, else a folder, once that was done: 0 nothing, 1 it was made, 2 it got its user,
/// 3 its group, 4 both, 5 its bits, by its errno, or 0. The same numbers; or it is over: 6 done, 7 failed. And the bits, or the errno.
#[unsafe(no_mangle)]
pub extern "C" fn dconfdb_handing_after(
    what: u32,
    done: u32,
    errno: u32,
    file: &MadeFile,
    number: &mut u32,
) -> u32
    ensures step { result ≡ handing_number (handed_after (what_of what) done errno file.now) }
    ensures number { number.new ≡ handing_value (handed_after (what_of what) done errno file.now) }
{
    let (step, value) = handing_numbers(what, done, errno, file);
    *number = value;
    step
}
