//! Whether a file was left as it is, by records that anybody may have written.
ghost use Rattle.std.specs.Prelude.{◌≡◌, length};
ghost use Rattle.dconf_left.specs.Left.{left_state, records, state_in, state_number, state_of};

use crate::files::{LeftFile, RECORD_LEN, is_synced_in};
use dconf_files::FileStamp;

/// What is noted of a file as it is.
#[derive(Clone, Copy)]
pub enum LeftState {
    /// Nobody who noted left it so.
    Unknown,
    /// One did; whether it is on the disk was not known.
    Left,
    /// One did, and it was on the disk.
    Synced,
}

/// Whether the file of a name was left as it is, by the first record of that file. It looks at each record once at
/// most, and none of a file that isn't there.
pub fn left_state(left: &[u8], name: &[u8], file: &FileStamp) -> LeftState
    ensures { result ≡ left_state left.now name.now file.now }
{
    if file.is_there {
        state_of(&LeftFile::of(name, file), left)
    } else {
        LeftState::Unknown
    }
}

/// The same as a number: 0 nobody left it so, 1 one did, 2 it was on the disk.
pub fn state_number(left: &[u8], name: &[u8], file: &FileStamp) -> u32
    ensures { result ≡ state_number (left_state left.now name.now file.now) }
{
    match left_state(left, name, file) {
        LeftState::Unknown => 0,
        LeftState::Left => 1,
        LeftState::Synced => 2,
    }
}

#[inline(always)]
fn state_of(file: &LeftFile, left: &[u8]) -> LeftState
    ensures { result ≡ state_of file.now (records left.now) }
{
    let (records, _) = left.as_chunks::<RECORD_LEN>();
    for entry in records {
        if file.is_in(entry) {
            return state_in(entry);
        }
    }
    LeftState::Unknown
}

/// What a record says of its file.
#[inline(always)]
fn state_in(entry: &[u8]) -> LeftState
    requires { length entry.now ≡ 56 }
    ensures { result ≡ state_in entry.now }
{
    if is_synced_in(entry) {
        LeftState::Synced
    } else {
        LeftState::Left
    }
}
