//! Names that files get: which may be taken by others, and are then tried anew, or given in another way.
ghost use Rattle.std.specs.Prelude.{◌≡◌};
ghost use Rattle.dconf_verdicts.specs.declared.standing.Standing.TheVariants as Standing;
ghost use Rattle.dconf_verdicts.specs.Standings.{exchanged, moved_aside, name_given, named_anew, next_name, place_taken, room_made, set_aside};

use crate::standing::{Seen, Standing};

/// How many of the names NAME~1 to NAME~999 come before the last one.
const BEFORE_LAST_ASIDE: u64 = 998;

/// How many come before the last of those by which something is made that gets its own later.
const BEFORE_LAST_NAME: u64 = 99;

const ENOENT: u32 = 2;

const EEXIST: u32 = 17;

const EISDIR: u32 = 21;

const EINVAL: u32 = 22;

const EOPNOTSUPP: u32 = 95;

pub(crate) fn room_made(errno: u32) -> Standing
    ensures { result ≡ room_made errno }
{
    match errno {
        0 | ENOENT => Standing::Good,
        EISDIR => Standing::Other,
        errno => Standing::Fault(errno),
    }
}

pub(crate) fn exchanged(errno: u32) -> Standing
    ensures { result ≡ exchanged errno }
{
    match errno {
        0 => Standing::Good,
        EINVAL => Standing::Fault(EOPNOTSUPP),
        errno => Standing::Fault(errno),
    }
}

/// EINVAL and ENOSYS say that the host knows no such call.
pub(crate) fn name_given(errno: u32) -> Standing
    ensures { result ≡ name_given errno }
{
    match errno {
        0 => Standing::Good,
        22 | 38 => Standing::Other,
        errno => Standing::Fault(errno),
    }
}

/// ENOTEMPTY.
pub(crate) fn place_taken(errno: u32) -> Standing
    ensures { result ≡ place_taken errno }
{
    match errno {
        0 => Standing::Good,
        39 => Standing::Fault(EEXIST),
        errno => Standing::Fault(errno),
    }
}

/// A name that is taken by the same file is one that a turn which failed has left.
pub(crate) fn set_aside(seen: &Seen) -> Standing
    ensures { result ≡ set_aside seen.now }
{
    if seen.fault == EEXIST && seen.is_named {
        Standing::Good
    } else {
        next_name(seen.fault, seen.tried, BEFORE_LAST_ASIDE)
    }
}

pub(crate) fn moved_aside(seen: &Seen) -> Standing
    ensures { result ≡ moved_aside seen.now }
{
    next_name(seen.fault, seen.tried, BEFORE_LAST_ASIDE)
}

pub(crate) fn named_anew(seen: &Seen) -> Standing
    ensures { result ≡ named_anew seen.now }
{
    next_name(seen.fault, seen.tried, BEFORE_LAST_NAME)
}

/// Where a name is taken, before which so many were, the next one is tried, if it isn't the last.
fn next_name(errno: u32, tried: u64, last: u64) -> Standing
    ensures { result ≡ next_name errno tried last }
{
    match errno {
        0 => Standing::Good,
        EEXIST if tried < last => Standing::Other,
        errno => Standing::Fault(errno),
    }
}
