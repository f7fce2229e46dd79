//! A file that is left, put in front of the others.
ghost use Rattle.std.specs.Prelude.{◌≡◌, ◌≤◌, ◌<◌, ◌++◌, length, drop, take};
ghost use Rattle.dconf_left.specs.Left.{joined, others, records, with_left};

use crate::files::{LeftFile, RECORD_LEN};
use dconf_files::FileStamp;

/// Puts the file of a name in front of those that were left, as it is left now, if it is there; of all at most so many
/// stay. Says how many bytes that takes: they stand at the start of the room, and what is behind them stays. A room that
/// is too short for them stays as it was. It looks at one record.
pub fn with_left(
    left: &[u8],
    name: &[u8],
    file: &FileStamp,
    is_synced: bool,
    most: usize,
    room: &mut [u8],
) -> usize
    ensures count { result ≡ length (with_left left.now name.now file.now is_synced most) }
    ensures fits { let all = with_left left.now name.now file.now is_synced most in length all ≤ length room.old → room.new ≡ all ++ drop (length all) room.old }
    ensures short { length room.old < length (with_left left.now name.now file.now is_synced most) → room.new ≡ room.old }
{
    if most == 0 || !file.is_there {
        return put(newest(left, most), room);
    }
    let file = LeftFile::of(name, file);
    let kept = newest(others(&file, left), most - 1);
    let len = RECORD_LEN + kept.len();
    if len <= room.len() {
        let (front, rest) = room.split_at_mut(RECORD_LEN);
        file.write(is_synced, front);
        put(kept, rest);
    }
    len
}

/// Copies bytes to the start of the room, if that has so many; and says how many they are.
#[inline(always)]
fn put(bytes: &[u8], room: &mut [u8]) -> usize
    ensures count { result ≡ length bytes.now }
    ensures fits { length bytes.now ≤ length room.old → room.new ≡ bytes.now ++ drop (length bytes.now) room.old }
    ensures short { length room.old < length bytes.now → room.new ≡ room.old }
{
    if bytes.len() <= room.len() {
        let (front, _) = room.split_at_mut(bytes.len());
        front.copy_from_slice(bytes);
    }
    bytes.len()
}

/// The newest records, at most so many.
#[inline(always)]
fn newest(left: &[u8], most: usize) -> &[u8]
    ensures { result.now ≡ joined (take most (records left.now)) }
{
    let count = most.min(left.len() / RECORD_LEN);
    let (front, _) = left.split_at(count * RECORD_LEN);
    front
}

/// All records but the newest, if that is of the same file.
#[inline(always)]
fn others<'a>(file: &LeftFile, left: &'a [u8]) -> &'a [u8]
    ensures { records result.now ≡ others file.now (records left.now) }
{
    if left.len() < RECORD_LEN {
        return left;
    }
    let (first, rest) = left.split_at(RECORD_LEN);
    if file.is_in(first) { rest } else { left }
}
