//! Whose a file is that takes another's place, and its permission bits.
ghost use Rattle.std.specs.Prelude.{◌≡◌, ◌%◌};
ghost use Rattle.dconf_files.specs.Owners.{bits_for, first_bits, given, new_bits, owner_of};

/// The numbers of permission bits.
const ALL_BITS: u32 = 0o1000;

/// What the owner needs to fill a file and to sync it.
const READ_AND_WRITE: u32 = 0o600;

/// The user number of root.
const ROOT: u32 = 0;

/// What stands under the name, as the host says. A link counts as such only if what stands there is to be set aside.
#[repr(C)]
#[derive(Clone, Copy)]
pub struct OldFile {
    pub user: u32,
    pub group: u32,
    pub bits: u32,
    pub is_there: bool,
    pub is_regular: bool,
    pub is_link: bool,
    /// It is the very file that was read.
    pub is_read: bool,
}

/// Whose something is.
#[repr(C)]
#[derive(Clone, Copy)]
pub struct FileOwner {
    pub user: u32,
    pub group: u32,
}

/// The new file. Only root can give it its user. Whoever can't give it its group gives it the bits that [`bits_for`] says.
#[repr(C)]
#[derive(Clone, Copy)]
pub struct NewFile {
    pub user: u32,
    pub group: u32,
    pub bits: u32,
}

/// What becomes of the new file.
#[derive(Clone, Copy)]
pub enum NewOwner {
    Given(NewFile),
    /// It is not made: root would give it to whom it was not read from.
    Refused,
    /// What was read is another file's by now: it is to be read again.
    Again,
}

/// Whose the new file is, and its permission bits: those of the old one, if that is a regular file; else its owner alone may read and write
/// it. Where nothing stands it is the folder's owner's.
///
/// `keeps`: what stands there is set aside. That may not even be readable; then the new one's owner may read and write it all the same.
pub fn owner_and_bits(old: &OldFile, above: FileOwner, is_root: bool, keeps: bool) -> NewOwner
    ensures { result ≡ owner_of old.now above is_root keeps }
{
    if !old.is_there {
        return given(above.user, above.group, READ_AND_WRITE);
    }
    if is_root && keeps && old.is_link {
        return if old.user == ROOT {
            given(old.user, old.group, new_bits(old, keeps))
        } else {
            NewOwner::Refused
        };
    }
    if is_root && !old.is_read {
        return NewOwner::Again;
    }
    given(old.user, old.group, new_bits(old, keeps))
}

/// The bits of a file that is to have these once it has its group, while it has that or another one. Whoever is of the other group, and
/// whoever is of neither, may do what both of these might.
#[tactic(auto, using(crate::proofs::OwnerLaws::and_small))]
pub fn bits_for(bits: u32, has_group: bool) -> u32
    ensures { result ≡ bits_for bits has_group }
{
    let bits = bits % ALL_BITS;
    if has_group {
        return bits;
    }
    let both = (bits / 8 % 8) & (bits % 8);
    bits / 64 * 64 + both * 8 + both
}

fn given(user: u32, group: u32, bits: u32) -> NewOwner
    ensures { result ≡ given user group bits }
{
    NewOwner::Given(NewFile { user, group, bits })
}

fn new_bits(old: &OldFile, keeps: bool) -> u32
    ensures { result ≡ new_bits old.now keeps }
{
    if !old.is_regular {
        return READ_AND_WRITE;
    }
    if keeps {
        readable(old.bits % ALL_BITS)
    } else {
        old.bits % ALL_BITS
    }
}

/// Its owner may read and write it, too.
fn readable(bits: u32) -> u32
    ensures { result ≡ first_bits (bits % 512) }
{
    let bits = bits % ALL_BITS;
    ((bits / 64) | 6) % 8 * 64 + bits % 64
}
