//! Which paths were set last: what is overtaken, and what is noted.
ghost use Rattle.std.specs.Prelude.{◌≡◌, ◌≢◌, ◌++◌, List, length, map};
ghost use Rattle.std.specs.List.{filter};
ghost use Rattle.dconf_times.specs.Leaving.{is_late, is_left};
ghost use Rattle.dconf_times.specs.Moments.{time_of_moment};
ghost use Rattle.dconf_times.specs.Noted.{AreNoted};
ghost use Rattle.dconf_times.specs.Resets.{moment_beside};
ghost use Rattle.dconf_times.specs.Room.{AreNewest};
ghost use Rattle.dconf_times.specs.Seeing.{is_unnoted, seen_of, stays_beside};
ghost use Rattle.dconf_times.specs.Times.{latest_of, note_of};
ghost use Rattle.dconf_times.specs.declared.times.DconfdbTime.{DconfdbTime};
ghost use Rattle.dconf_left.specs.Changes.{changed_at};
ghost use Rattle.dconf_left.specs.Left.{with_left};
ghost use Rattle.dconf_notes.specs.Records.{IsHandedOut, file_bytes, noted_of};
ghost use Rattle.dconf_notes.specs.Turned.{IsTurnRead, turn_notes};
ghost use Rattle.dconfdb_calls.specs.Given.{HandsOut};

use crate::open::DconfdbText;
use dconf_files::FileStamp;
use dconf_left::{MOST_LEFT, changed_at};
use dconf_notes::{
    MOST_BYTES, MOST_SET_BYTES, MOST_SET_NOTES, TurnLeaves, turn_read, turn_written,
};
use dconf_times::{
    DconfdbAsked, DconfdbSeen, DconfdbTime, latest_of, leave_out, moment_beside, note_made,
    note_seen, time_of_moment,
};
use dconfdb_calls::{Fault, hand_out};
use std::alloc::Global;

/// Which edits are left out: those that are overtaken, by the notes and by what was seen, and all that
/// are of a change with one. They are handed out as `dconfdb_list` does. Else the number of a fault,
/// and nothing changes.
#[unsafe(no_mangle)]
pub extern "C" fn dconfdb_leave_out(
    alloc: Global,
    notes: &[DconfdbTime<'_>],
    seen: &[DconfdbSeen<'_>],
    edits: &[DconfdbAsked<'_>],
    now: u64,
    room: &mut [bool],
    len: &mut usize,
) -> u32
    ensures done { result ≡ 0 → HandsOut (map (is_left (is_late now (map note_of notes.now) (map seen_of seen.now)) edits.now) edits.now) room.old room.new len.new }
    ensures refused { result ≢ 0 → result ≡ 1 }
    ensures kept { result ≢ 0 → (room.new ≡ room.old) × (len.new ≡ len.old) }
{
    match leave_out(alloc, notes, seen, edits, now) {
        Ok(left) => {
            *len = hand_out(left.as_slice(), room);
            0
        }
        Err(_) => Fault::Memory.number(),
    }
}

/// The notes with a guess for each path that was seen to be changed without one, as many as the room
/// has: of each path the latest. They are handed out as `dconfdb_list` does. Else the number of a
/// fault, and nothing changes.
#[unsafe(no_mangle)]
pub extern "C" fn dconfdb_note_seen<'a>(
    alloc: Global,
    notes: &[DconfdbTime<'a>],
    seen: &[DconfdbSeen<'a>],
    now: u64,
    room: &mut [DconfdbTime<'a>],
    len: &mut usize,
) -> u32
    ensures done { result ≡ 0 → (kept : List DconfdbTime)
        × AreNoted now (length room.old) (map note_of notes.now ++ map note_of (map (λ s. s.time) (filter (is_unnoted notes.now) seen.now))) (map note_of kept)
        × HandsOut kept room.old room.new len.new }
    ensures refused { result ≢ 0 → result ≡ 1 }
    ensures kept { result ≢ 0 → (room.new ≡ room.old) × (len.new ≡ len.old) }
{
    match note_seen(alloc, notes, seen, now, room.len()) {
        Ok(kept) => {
            *len = hand_out(kept.as_slice(), room);
            0
        }
        Err(_) => Fault::Memory.number(),
    }
}

/// The notes with those of edits that were made, as `dconfdb_note_seen` gives them: a guess of such a
/// path goes. `latest` is when the latest of them was made, or 0.
#[unsafe(no_mangle)]
pub extern "C" fn dconfdb_note_made<'a>(
    alloc: Global,
    notes: &[DconfdbTime<'a>],
    made: &[DconfdbTime<'a>],
    now: u64,
    room: &mut [DconfdbTime<'a>],
    len: &mut usize,
    latest: &mut u64,
) -> u32
    ensures done { result ≡ 0 → (kept : List DconfdbTime)
        × AreNoted now (length room.old) (map note_of (filter (stays_beside made.now) notes.now) ++ map note_of made.now) (map note_of kept)
        × HandsOut kept room.old room.new len.new }
    ensures latest { result ≡ 0 → latest.new ≡ latest_of (map note_of made.now) }
    ensures refused { result ≢ 0 → result ≡ 1 }
    ensures kept { result ≢ 0 → (room.new ≡ room.old) × (len.new ≡ len.old) × (latest.new ≡ latest.old) }
{
    match note_made(alloc, notes, made, now, room.len()) {
        Ok(kept) => {
            *len = hand_out(kept.as_slice(), room);
            *latest = latest_of(made);
            0
        }
        Err(_) => Fault::Memory.number(),
    }
}

/// The moment in which a change of these edits counts as made that was asked for in this one, beside the edits that are written with it, of
/// which the resets of directories matter. It is the same, or the turn's, which is the last of all, if the change resets a directory, or sets
/// something in one that is reset with it.
#[unsafe(no_mangle)]
pub extern "C" fn dconfdb_moment_beside(
    change: &[DconfdbTime<'_>],
    others: &[DconfdbTime<'_>],
    moment: u64,
) -> u64
    ensures { result ≡ moment_beside (map note_of change.now) (map note_of others.now) moment }
{
    moment_beside(change, others, moment)
}

/// The time of what was asked for in a moment, by a clock that nobody sets: it is `now` by the clock of
/// the day, and `boot` by that one; the program noted `noted` last, or 0.
#[unsafe(no_mangle)]
pub extern "C" fn dconfdb_time_of_moment(now: u64, boot: u64, moment: u64, noted: u64) -> u64
    ensures { result ≡ time_of_moment now boot moment noted }
{
    time_of_moment(now, boot, moment, noted)
}

/// The time that stands for when a file was changed that nobody noted: by what the host says of it, or, where it is gone, of its folder.
#[unsafe(no_mangle)]
pub extern "C" fn dconfdb_time_of_file(file: &FileStamp, folder: &FileStamp) -> u64
    ensures { result ≡ changed_at file.now folder.now }
{
    changed_at(file, folder)
}

/// What a turn noted in a file of these bytes: what was set is handed out as `dconfdb_list` does, and `left` has the records of the files that were
/// left. There is none where the bytes are no such file's, or not whole, or more than [`MOST_BYTES`]. Else the number of a fault, and nothing changes.
#[unsafe(no_mangle)]
pub extern "C" fn dconfdb_notes_read<'a>(
    alloc: Global,
    bytes: &'a [u8],
    left: &mut DconfdbText<'a>,
    room: &mut [DconfdbTime<'a>],
    len: &mut usize,
) -> u32
    ensures done { result ≡ 0 → (set : List DconfdbTime) × IsTurnRead MOST_BYTES bytes.now left.new.text.now (map noted_of set) × HandsOut set room.old room.new len.new }
    ensures refused { result ≢ 0 → result ≡ 1 }
    ensures kept { result ≢ 0 → (room.new ≡ room.old) × (len.new ≡ len.old) × (left.new ≡ left.old) }
{
    match turn_read(alloc, bytes) {
        Ok(read) => {
            *left = DconfdbText { text: read.left };
            *len = hand_out(read.set.as_slice(), room);
            0
        }
        Err(_) => Fault::Memory.number(),
    }
}

/// The bytes of a file of what a turn notes: of itself, in that moment and at that time; of the files that were left, with that of a name in
/// front, as it is left now; and of what was set, the newest notes, at most [`MOST_SET_NOTES`], which take [`MOST_SET_BYTES`]: the oldest go, and one
/// note says of all paths that they were set by the time of the latest of these. They are handed out as `dconfdb_list` does. Else the number of
/// a fault, and nothing changes.
#[unsafe(no_mangle)]
pub extern "C" fn dconfdb_notes_written(
    alloc: Global,
    notes: &[DconfdbTime<'_>],
    moment: u64,
    time: u64,
    left: &[u8],
    name: &[u8],
    file: &FileStamp,
    is_synced: bool,
    room: &mut [u8],
    len: &mut usize,
) -> u32
    ensures done { result ≡ 0 → (kept : List DconfdbTime) × AreNewest MOST_SET_NOTES MOST_SET_BYTES notes.now kept
        × IsHandedOut (file_bytes (turn_notes moment time (with_left left.now name.now file.now is_synced MOST_LEFT) (map noted_of kept))) room.old room.new len.new }
    ensures refused { result ≢ 0 → result ≡ 1 }
    ensures kept { result ≢ 0 → (room.new ≡ room.old) × (len.new ≡ len.old) }
{
    let turn = TurnLeaves {
        moment,
        time,
        left,
        name,
        file: *file,
        is_synced,
    };
    match turn_written(alloc, notes, &turn, room) {
        Ok(n) => {
            *len = n;
            0
        }
        Err(_) => Fault::Memory.number(),
    }
}
