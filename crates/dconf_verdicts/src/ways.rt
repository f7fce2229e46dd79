//! Folders on the way to a file: which are entered, and which links are followed.
ghost use Rattle.std.specs.Prelude.{◌≡◌};
ghost use Rattle.dconf_verdicts.specs.declared.standing.Standing.TheVariants as Standing;
ghost use Rattle.dconf_verdicts.specs.Standings.{entered, folder_opened, followed, is_link, is_roots_alone, link_read, made, made_in, name_synced};

use crate::standing::{Seen, Standing};

/// So many links are followed on a way, as the host itself does.
const MOST_LINKS: u64 = 40;

const EPERM: u32 = 1;

const ENOENT: u32 = 2;

const EACCES: u32 = 13;

const EEXIST: u32 = 17;

const ENOTDIR: u32 = 20;

const EINVAL: u32 = 22;

const EROFS: u32 = 30;

const ENOSYS: u32 = 38;

const ELOOP: u32 = 40;

const EOPNOTSUPP: u32 = 95;

pub(crate) fn followed(seen: &Seen) -> Standing
    ensures { result ≡ followed seen.now }
{
    if seen.is_root && !(seen.fault == 0 && is_roots_alone(seen)) {
        return Standing::Fault(EACCES);
    }
    if seen.tried < MOST_LINKS {
        Standing::Good
    } else {
        Standing::Fault(ELOOP)
    }
}

pub(crate) fn entered(seen: &Seen) -> Standing
    ensures { result ≡ entered seen.now }
{
    match seen.fault {
        0 => Standing::Good,
        ENOENT if seen.may_make && seen.tried == 0 => Standing::Nothing,
        ENOTDIR => Standing::Other,
        errno => Standing::Fault(errno),
    }
}

pub(crate) fn link_read(seen: &Seen) -> Standing
    ensures { result ≡ link_read seen.now }
{
    if seen.fault != 0 {
        return Standing::Fault(seen.fault);
    }
    if is_link(seen.mode) {
        Standing::Good
    } else {
        Standing::Fault(ENOTDIR)
    }
}

pub(crate) fn made_in(seen: &Seen) -> Standing
    ensures { result ≡ made_in seen.now }
{
    if seen.fault != 0 {
        return Standing::Fault(seen.fault);
    }
    if seen.is_root && seen.user != 0 {
        Standing::Other
    } else {
        Standing::Good
    }
}

pub(crate) fn made(errno: u32) -> Standing
    ensures { result ≡ made errno }
{
    match errno {
        0 => Standing::Good,
        EEXIST => Standing::Nothing,
        errno => Standing::Fault(errno),
    }
}

/// What becomes of a folder whose name was to be brought to the disk, by the folder above it, with that errno, or 0.
pub fn name_synced(errno: u32) -> Standing
    ensures { result ≡ name_synced errno }
{
    match errno {
        0 => Standing::Good,
        EPERM | EACCES | EINVAL | EROFS | ENOSYS | EOPNOTSUPP => Standing::Nothing,
        errno => Standing::Fault(errno),
    }
}

pub(crate) fn folder_opened(seen: &Seen) -> Standing
    ensures { result ≡ folder_opened seen.now }
{
    if seen.is_root {
        return if seen.fault == 0 && seen.is_named {
            Standing::Good
        } else {
            Standing::Other
        };
    }
    if seen.fault == 0 {
        Standing::Good
    } else {
        Standing::Fault(seen.fault)
    }
}

fn is_link(mode: u32) -> bool
    ensures { result ≡ is_link mode }
{
    mode / 4096 % 16 == 10
}

fn is_roots_alone(folder: &Seen) -> bool
    ensures { result ≡ is_roots_alone folder.now }
{
    folder.user == 0 && folder.mode / 16 % 2 == 0 && folder.mode / 2 % 2 == 0
}
