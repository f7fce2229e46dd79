//! What a fault of the host means to who reads a file, or changes it: whether it is the file's own, or passes.
ghost use Rattle.std.specs.Prelude.{◌≡◌};
ghost use Rattle.std.specs.Prelude.{if◌then◌else◌};
ghost use Rattle.dconf_verdicts.specs.declared.faults.FaultClass.TheVariants as FaultClass;
ghost use Rattle.dconf_verdicts.specs.Faults.{by_class, class_of, fault_of, is_files_own, verdict_number, verdict_of};

use crate::errnos::kind_of;

/// What a host says of a call that failed.
#[derive(Clone, Copy)]
pub enum FaultKind {
    /// The caller has no right to it.
    Rights,
    /// The file system can only be read.
    ReadOnly,
    /// Something else has the name, or one above it, or the name can't be one.
    Name,
    /// It is no regular file, or is too large to be one.
    Kind,
    /// Its bytes on the disk are damaged.
    Damage,
    /// The process or the host has no more of something: descriptors, memory, locks.
    Scarce,
    /// It was interrupted, or a server asks for another try.
    Moment,
    /// There is no room left.
    Full,
    /// The disk fails.
    Disk,
    /// Nothing has the name.
    Missing,
    /// The file system can't do that.
    Unsupported,
    /// It would have to wait.
    Wait,
    /// All else.
    Other,
}

/// What comes of it.
#[derive(Clone, Copy)]
pub enum FaultClass {
    /// It is the file's own, and stays until somebody mends the file or its place: what is read counts as what can be had of it, and
    /// a change is refused.
    Own,
    /// It passes in a moment, mostly: it is tried again.
    Soon,
    /// It may pass, if only when there is room again or the disk answers: it is tried again.
    Later,
}

/// The class of a fault of who reads a file, or who changes one. Each has one.
pub fn class_of(kind: FaultKind, changes: bool) -> FaultClass
    ensures { result ≡ class_of kind changes }
{
    match kind {
        FaultKind::Rights | FaultKind::Name => FaultClass::Own,
        FaultKind::ReadOnly => own_if(changes),
        FaultKind::Kind | FaultKind::Damage => own_if(!changes),
        FaultKind::Scarce | FaultKind::Moment | FaultKind::Wait => FaultClass::Soon,
        FaultKind::Full | FaultKind::Disk | FaultKind::Other => FaultClass::Later,
        FaultKind::Missing | FaultKind::Unsupported => FaultClass::Later,
    }
}

/// Why a change was not made.
#[derive(Clone, Copy)]
pub enum ChangeFault {
    /// A key is locked, or there is no database that could be written.
    Locked,
    /// An edit can't be made: its path, its type or its value is a bad one, or too large.
    Unfit,
    /// The file would have over 4 GiB with it.
    TooLarge,
    /// The host failed so.
    Host(FaultKind),
    /// No memory is left.
    Memory,
    /// Others write, or it is none of these.
    Busy,
}

/// What becomes of what was not made.
#[derive(Clone, Copy)]
pub enum Verdict {
    /// Each edit of a key that may not be written, with its change: it is refused, or left out.
    Locked,
    /// The same of all edits, since nobody who has these rights may write there.
    Closed,
    /// The change of the edit that can't be made is refused.
    Unfit,
    /// The newest change that sets something is refused.
    TooLarge,
    /// Nothing is refused, and all goes on waiting, mostly for a moment.
    Soon,
    /// The same, but it may last.
    Later,
}

/// What becomes of a change that was not made. Only what stays so refuses anything: not a full disk, and no want of descriptors or
/// memory.
pub fn verdict_of(fault: ChangeFault) -> Verdict
    ensures { result ≡ verdict_of fault }
{
    match fault {
        ChangeFault::Locked => Verdict::Locked,
        ChangeFault::Unfit => Verdict::Unfit,
        ChangeFault::TooLarge => Verdict::TooLarge,
        ChangeFault::Host(kind) => by_class(class_of(kind, true)),
        ChangeFault::Memory => Verdict::Soon,
        ChangeFault::Busy => Verdict::Later,
    }
}

/// The same in numbers, by the code that the library's header has for what a change failed by, and its errno: 1 locked, 2 unfit, 3 later,
/// 4 closed, 5 too large, 6 soon. They are answers to a queue (`dconf_steps`).
pub fn verdict_number(code: u32, errno: u32) -> u32
    ensures { result ≡ verdict_number (verdict_of (fault_of code errno)) }
{
    match verdict_of(fault_of(code, errno)) {
        Verdict::Locked => 1,
        Verdict::Unfit => 2,
        Verdict::Later => 3,
        Verdict::Closed => 4,
        Verdict::TooLarge => 5,
        Verdict::Soon => 6,
    }
}

fn by_class(class: FaultClass) -> Verdict
    ensures { result ≡ by_class class }
{
    match class {
        FaultClass::Own => Verdict::Closed,
        FaultClass::Soon => Verdict::Soon,
        FaultClass::Later => Verdict::Later,
    }
}

fn fault_of(code: u32, errno: u32) -> ChangeFault
    ensures { result ≡ fault_of code errno }
{
    match code {
        15 | 16 => ChangeFault::Locked,
        13 | 14 | 17 | 20 => ChangeFault::Unfit,
        18 => ChangeFault::TooLarge,
        64 => ChangeFault::Host(kind_of(errno)),
        1 => ChangeFault::Memory,
        _ => ChangeFault::Busy,
    }
}

fn own_if(is: bool) -> FaultClass
    ensures { result ≡ (if is then FaultClass.Own else FaultClass.Later) }
{
    if is {
        FaultClass::Own
    } else {
        FaultClass::Later
    }
}

/// Whether a fault of who reads a file is the file's own.
pub fn is_files_own(kind: FaultKind) -> bool
    ensures { result ≡ is_files_own kind }
{
    matches!(class_of(kind, false), FaultClass::Own)
}
