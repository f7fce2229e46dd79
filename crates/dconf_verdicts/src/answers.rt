//! What a fault means to a call of which it may mean another thing than that the change failed.
ghost use Rattle.std.specs.Prelude.{◌≡◌};
ghost use Rattle.dconf_verdicts.specs.declared.answers.FaultAnswer.TheVariants as FaultAnswer;
ghost use Rattle.dconf_verdicts.specs.Answers.{answer_number, answer_of, by_class, call_of, placing, setting_aside};
ghost use Rattle.dconf_verdicts.specs.Errnos.{kind_of};

use crate::errnos::kind_of;
use crate::faults::{FaultClass, FaultKind, class_of};

/// Which call of the host failed.
#[derive(Clone, Copy)]
pub enum FileCall {
    /// It opens a file to read it, without a wait.
    Open,
    /// It locks a file, without a wait.
    Lock,
    /// It gives what has the name another name, too.
    SetAside,
    /// It gives the new file the name.
    Place,
}

/// What comes of it.
#[derive(Clone, Copy)]
pub enum FaultAnswer {
    /// As [`FaultClass`] has them, of who reads a file if it was to be opened, and else of who changes one.
    Own,
    Soon,
    Later,
    /// Another program has a lease on the file, and was asked to give it back: that is waited for.
    Leased,
    /// Others have the lock: it is waited for.
    Taken,
    /// What has the name can have no other one beside it: both files change places.
    Nameless,
    /// Nothing has the name: nothing is set aside.
    Nothing,
    /// The host may have done it all the same: nobody knows which file has the name.
    Unsure,
}

/// What comes of a fault of that call. Each has one answer.
pub fn answer_of(call: FileCall, kind: FaultKind) -> FaultAnswer
    ensures { result ≡ answer_of call kind }
{
    match (call, kind) {
        (FileCall::Open, FaultKind::Wait) => FaultAnswer::Leased,
        (FileCall::Open, kind) => by_class(kind, false),
        (FileCall::Lock, FaultKind::Wait) => FaultAnswer::Taken,
        (FileCall::Lock, kind) => by_class(kind, true),
        (FileCall::SetAside, kind) => setting_aside(kind),
        (FileCall::Place, kind) => placing(kind),
    }
}

/// The same in numbers, by the errno. Calls: 0 open, 1 lock, 2 set aside, else place. Answers: 0 own, 1 soon, 2 later, 3 leased, 4 taken, 5 nameless, 6 nothing, 7 unsure.
pub fn answer_number(call: u32, errno: u32) -> u32
    ensures { result ≡ answer_number (answer_of (call_of call) (kind_of errno)) }
{
    match answer_of(call_of(call), kind_of(errno)) {
        FaultAnswer::Own => 0,
        FaultAnswer::Soon => 1,
        FaultAnswer::Later => 2,
        FaultAnswer::Leased => 3,
        FaultAnswer::Taken => 4,
        FaultAnswer::Nameless => 5,
        FaultAnswer::Nothing => 6,
        FaultAnswer::Unsure => 7,
    }
}

fn by_class(kind: FaultKind, changes: bool) -> FaultAnswer
    ensures { result ≡ by_class kind changes }
{
    match class_of(kind, changes) {
        FaultClass::Own => FaultAnswer::Own,
        FaultClass::Soon => FaultAnswer::Soon,
        FaultClass::Later => FaultAnswer::Later,
    }
}

fn setting_aside(kind: FaultKind) -> FaultAnswer
    ensures { result ≡ setting_aside kind }
{
    match kind {
        FaultKind::Rights | FaultKind::Unsupported => FaultAnswer::Nameless,
        FaultKind::Missing => FaultAnswer::Nothing,
        kind => by_class(kind, true),
    }
}

/// A host that says one of the others has done nothing.
fn placing(kind: FaultKind) -> FaultAnswer
    ensures { result ≡ placing kind }
{
    match kind {
        FaultKind::Disk | FaultKind::Damage => FaultAnswer::Unsure,
        FaultKind::Moment | FaultKind::Wait | FaultKind::Other => FaultAnswer::Unsure,
        kind => by_class(kind, true),
    }
}

fn call_of(number: u32) -> FileCall
    ensures { result ≡ call_of number }
{
    match number {
        0 => FileCall::Open,
        1 => FileCall::Lock,
        2 => FileCall::SetAside,
        _ => FileCall::Place,
    }
}
