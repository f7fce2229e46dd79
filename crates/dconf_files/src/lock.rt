//! Who may take the lock of a folder.
ghost use Rattle.std.specs.Prelude.{◌≡◌};
ghost use Rattle.dconf_files.specs.Locks.{lock_bits, writers};

/// What its owner needs to lock a file and to note in it.
const READ_AND_WRITE: u32 = 0o600;

/// The same of a group, and of all others.
const OF_GROUP: u32 = 0o60;

const OF_OTHERS: u32 = 0o6;

/// The permission bits of a lock's file that was just made, by those of its folder, of which it has the group or another one. Whoever may
/// write in the folder may take the lock; but a group whose file it isn't is open to that only if all may.
pub fn lock_bits(folder: u32, has_group: bool) -> u32
    ensures { result ≡ lock_bits folder has_group }
{
    let all = writers(folder % 8);
    let group = if has_group {
        writers(folder / 8 % 8)
    } else {
        all
    };
    READ_AND_WRITE + group * OF_GROUP + all * OF_OTHERS
}

/// 1 if the right to write is one of these, and else 0.
fn writers(rights: u32) -> u32
    ensures { result ≡ writers rights }
{
    rights / 2 % 2
}
