//! What comes of a call that gives the old file another name, or the new one the old one's; and how the old one is looked at before.
ghost use Rattle.std.specs.Prelude.{◌≡◌};
ghost use Rattle.dconf_making.specs.Renamings.{beside, new_look, placed, renamed_of, set_aside, unmoved};

use dconf_files::{FileOwner, NewFile, NewOwner, OldFile, owner_and_bits};
use dconf_verdicts::{FaultAnswer, FileCall, answer_of, kind_of};

/// The bits that a turn is told more where the old file is set aside.
const IS_ASIDE: u32 = 512;

/// What comes of it.
#[repr(C)]
#[derive(Clone, Copy)]
pub struct Renamed {
    /// The errno by which the step failed, or 0.
    pub fault: u32,
    /// What has the name can have no other one beside it.
    pub is_nameless: bool,
    /// The old file has the other name.
    pub is_aside: bool,
    /// The other name is the new file's still, and goes.
    pub goes: bool,
}

/// What comes of a call by its errno, or 0: by which the old file gets another name, too; or (`places`) by which the new one, which has that other
/// name, and the old one change places.
pub fn renamed_of(places: bool, errno: u32) -> Renamed
    ensures { result ≡ renamed_of places errno }
{
    if errno == 0 {
        return Renamed {
            fault: 0,
            is_nameless: false,
            is_aside: true,
            goes: false,
        };
    }
    if places {
        placed(errno)
    } else {
        set_aside(errno)
    }
}

/// It goes on where nothing has the name, and where what has it can have no other one: both files change places then.
fn set_aside(errno: u32) -> Renamed
    ensures { result ≡ set_aside errno }
{
    match answer_of(FileCall::SetAside, kind_of(errno)) {
        FaultAnswer::Nameless => unmoved(0, true, false),
        FaultAnswer::Nothing => unmoved(0, false, false),
        _ => unmoved(errno, false, false),
    }
}

/// Where nobody knows which file has the other name, it stays.
fn placed(errno: u32) -> Renamed
    ensures { result ≡ placed errno }
{
    match answer_of(FileCall::Place, kind_of(errno)) {
        FaultAnswer::Unsure => unmoved(errno, false, false),
        _ => unmoved(errno, false, true),
    }
}

fn unmoved(fault: u32, is_nameless: bool, goes: bool) -> Renamed
    ensures { result ≡ unmoved fault is_nameless goes }
{
    Renamed {
        fault,
        is_nameless,
        is_aside: false,
        goes,
    }
}

/// How the old file was looked at, and whose the new one is.
#[derive(Clone, Copy)]
pub enum NewLook {
    /// What has the name is a link, and isn't set aside: it is looked at where that leads.
    Follow,
    /// As [`owner_and_bits`] has it. Of a file that takes the place of one that is set aside a turn is told 512 bits more.
    Is(NewOwner),
}

/// Whose the new file is, by what has the name, of which a link is not followed at first. `is_bad`: something was wrong with it, so that it is set aside,
/// be it a link.
pub fn new_look(old: &OldFile, above: FileOwner, is_root: bool, is_bad: bool) -> NewLook
    ensures { result ≡ new_look old.now above is_root is_bad }
{
    if old.is_there && old.is_link && !is_bad {
        return NewLook::Follow;
    }
    let owner = owner_and_bits(old, above, is_root, is_bad);
    if is_bad {
        NewLook::Is(beside(owner))
    } else {
        NewLook::Is(owner)
    }
}

fn beside(owner: NewOwner) -> NewOwner
    ensures { result ≡ beside owner }
{
    match owner {
        NewOwner::Given(new) => NewOwner::Given(NewFile {
            bits: new.bits % IS_ASIDE + IS_ASIDE,
            ..new
        }),
        owner => owner,
    }
}
