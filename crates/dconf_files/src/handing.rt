//! What is done with something that was just made, until it is whose it is to be.
ghost use Rattle.std.specs.Prelude.{◌≡◌};
ghost use Rattle.dconf_files.specs.declared.handing.Handing.TheVariants as Handing;
ghost use Rattle.dconf_files.specs.declared.handing.MadeWhat.TheVariants as MadeWhat;
ghost use Rattle.dconf_files.specs.Handings.{bits_given, bits_of, first_of, grouped, handed_after, handing_number, handing_value, has_group_first, is_theirs, made_of, once_given, once_made, what_of};

use crate::lock::lock_bits;
use crate::owner::{NewFile, bits_for};

/// Reading and writing for its owner alone; and all rights.
const READ_AND_WRITE: u32 = 0o600;

const ALL_OF_OWNER: u32 = 0o700;

const ROOT: u32 = 0;

const EACCES: u32 = 13;

/// What was made.
#[derive(Clone, Copy)]
pub enum MadeWhat {
    /// The lock of a folder, whose owner's and group's it is to be. Some hosts know no owners and bits: what fails is passed over.
    Lock,
    /// A file that takes another's place.
    File,
    /// A folder, which root makes in another's.
    Folder,
}

/// What is known of it.
#[repr(C)]
#[derive(Clone, Copy)]
pub struct MadeFile {
    /// Whose it is to be, and its bits; of a lock and a folder, whose the folder above is, and the bits of that.
    pub wanted: NewFile,
    /// Whose it is, and its bits; before it is made, who makes it.
    pub made: NewFile,
    /// The group of the folder above.
    pub above: u32,
    /// That folder hands its group on to what is made in it. Some hosts do so in each folder.
    pub gives_group: bool,
    /// Root makes it.
    pub is_root: bool,
    /// It is on the device of the folder above,
    pub is_beside: bool,
    /// and nothing is in it.
    pub is_empty: bool,
}

/// What comes next.
#[derive(Clone, Copy)]
pub enum Handing {
    /// It is made with these bits, and looked at.
    Make(u32),
    /// It gets its user,
    User,
    /// its group,
    Group,
    /// or both at once,
    Both,
    /// and these bits.
    Bits(u32),
    /// It is over: it is as it can be.
    Done,
    /// It is over: that fault.
    Failed(u32),
}

/// What comes next, once that was done: 0 nothing, 1 it was made and looked at, 2 it got its user, 3 its group, 4 both, 5 its bits; each by its
/// errno, or 0.
pub fn handed_after(what: MadeWhat, done: u32, errno: u32, file: &MadeFile) -> Handing
    ensures { result ≡ handed_after what done errno file.now }
{
    match done {
        0 => Handing::Make(first_of(what, file)),
        1 => once_made(what, errno, file),
        2 if errno != 0 => Handing::Done,
        2 => grouped(what, file),
        3 => bits_given(what, errno == 0, file),
        _ => once_given(what, done, errno, file),
    }
}

/// The same in numbers. What: 0 a lock, 1 a file, else a folder. Steps: 1 make, 2 user, 3 group, 4 both, 5 bits, 6 done, 7 failed; and the bits, or
/// the errno.
pub fn handing_numbers(what: u32, done: u32, errno: u32, file: &MadeFile) -> (u32, u32)
    ensures number { result.0 ≡ handing_number (handed_after (what_of what) done errno file.now) }
    ensures value { result.1 ≡ handing_value (handed_after (what_of what) done errno file.now) }
{
    match handed_after(what_of(what), done, errno, file) {
        Handing::Make(bits) => (1, bits),
        Handing::User => (2, 0),
        Handing::Group => (3, 0),
        Handing::Both => (4, 0),
        Handing::Bits(bits) => (5, bits),
        Handing::Done => (6, 0),
        Handing::Failed(errno) => (7, errno),
    }
}

fn first_of(what: MadeWhat, file: &MadeFile) -> u32
    ensures { result ≡ first_of what file.now }
{
    match what {
        MadeWhat::Lock => READ_AND_WRITE,
        MadeWhat::File => bits_for(file.wanted.bits, has_group_first(file)),
        MadeWhat::Folder => ALL_OF_OWNER,
    }
}

/// Whether it has its group as soon as it is made.
fn has_group_first(file: &MadeFile) -> bool
    ensures { result ≡ has_group_first file.now }
{
    file.above == file.wanted.group && (file.gives_group || file.made.group == file.wanted.group)
}

fn once_made(what: MadeWhat, errno: u32, file: &MadeFile) -> Handing
    ensures { result ≡ once_made what errno file.now }
{
    match what {
        MadeWhat::Lock if errno != 0 => Handing::Done,
        MadeWhat::Lock if file.is_root && file.made.user != file.wanted.user => Handing::User,
        MadeWhat::Lock => grouped(what, file),
        MadeWhat::File | MadeWhat::Folder if errno != 0 => Handing::Failed(errno),
        MadeWhat::File | MadeWhat::Folder => made_of(what, file),
    }
}

fn made_of(what: MadeWhat, file: &MadeFile) -> Handing
    ensures { result ≡ made_of what file.now }
{
    match what {
        MadeWhat::Folder if file.made.user == ROOT && file.is_beside && file.is_empty => {
            Handing::Both
        }
        MadeWhat::Folder => Handing::Failed(EACCES),
        MadeWhat::Lock | MadeWhat::File if !file.is_root => grouped(what, file),
        MadeWhat::Lock | MadeWhat::File if is_theirs(file) => bits_given(what, true, file),
        MadeWhat::Lock | MadeWhat::File => Handing::Both,
    }
}

fn is_theirs(file: &MadeFile) -> bool
    ensures { result ≡ is_theirs file.now }
{
    file.made.user == file.wanted.user && file.made.group == file.wanted.group
}

fn grouped(what: MadeWhat, file: &MadeFile) -> Handing
    ensures { result ≡ grouped what file.now }
{
    if file.made.group == file.wanted.group {
        bits_given(what, true, file)
    } else {
        Handing::Group
    }
}

fn bits_given(what: MadeWhat, has_group: bool, file: &MadeFile) -> Handing
    ensures { result ≡ bits_given what has_group file.now }
{
    let bits = bits_of(what, has_group, file.wanted.bits);
    if file.made.bits == bits {
        Handing::Done
    } else {
        Handing::Bits(bits)
    }
}

fn bits_of(what: MadeWhat, has_group: bool, bits: u32) -> u32
    ensures { result ≡ bits_of what has_group bits }
{
    match what {
        MadeWhat::Lock => lock_bits(bits, has_group),
        MadeWhat::File | MadeWhat::Folder => bits_for(bits, has_group),
    }
}

/// Both, or the bits.
fn once_given(what: MadeWhat, done: u32, errno: u32, file: &MadeFile) -> Handing
    ensures { result ≡ once_given what done errno file.now }
{
    match what {
        MadeWhat::Lock => Handing::Done,
        MadeWhat::File | MadeWhat::Folder if errno != 0 => Handing::Failed(errno),
        MadeWhat::File if done == 4 => bits_given(what, true, file),
        MadeWhat::File | MadeWhat::Folder => Handing::Done,
    }
}

fn what_of(number: u32) -> MadeWhat
    ensures { result ≡ what_of number }
{
    match number {
        0 => MadeWhat::Lock,
        1 => MadeWhat::File,
        _ => MadeWhat::Folder,
    }
}
