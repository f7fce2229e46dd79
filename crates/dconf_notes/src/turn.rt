//! What a turn notes in a file that programs share, and what the next one reads there.
ghost use Rattle.std.specs.Prelude.{◌≡◌, [], List, IfOk, IsErr, drop, map};
ghost use Rattle.dconf_left.specs.Left.{with_left};
ghost use Rattle.dconf_times.specs.Room.{AreNewest};
ghost use Rattle.dconf_times.specs.declared.times.DconfdbTime.{DconfdbTime};
ghost use Rattle.dconf_notes.specs.Records.{IsHandedOut, file_bytes, noted_of};
ghost use Rattle.dconf_notes.specs.Turned.{IsTurnRead, first_path, left_in, left_note, set_in, turn_note, turn_notes};

use crate::reading::notes_read;
use crate::writing::notes_written;
use crate::{MOST_BYTES, MOST_SET_BYTES, MOST_SET_NOTES};
use dconf_files::FileStamp;
use dconf_left::{MOST_LEFT, with_left};
use dconf_times::{DconfdbTime, newest};
use std::alloc::{AllocError, Global};

/// What a turn noted.
#[derive(Drop)]
pub struct TurnRead<'a> {
    /// The records of the files that were left.
    pub left: &'a [u8],
    /// What was set.
    pub set: Vec<DconfdbTime<'a>>,
}

/// The file that a turn leaves, and when.
#[derive(Clone, Copy)]
pub struct TurnLeaves<'a> {
    /// The turn's moment, by a clock that nobody sets, and which time that is.
    pub moment: u64,
    pub time: u64,
    /// The records of the files that were left before.
    pub left: &'a [u8],
    /// The file's name, and what the host says of it.
    pub name: &'a [u8],
    pub file: FileStamp,
    /// It is on the disk.
    pub is_synced: bool,
}

/// What a turn noted in a file of these bytes. Where they are no such file's, or more than [`MOST_BYTES`], that is nothing.
///
/// The paths are lent from the bytes. The only error is a failed allocation. It looks at each record once.
pub fn turn_read<'a>(alloc: Global, bytes: &'a [u8]) -> Result<TurnRead<'a>, AllocError>
    ensures { IfOk result (λ read. IsTurnRead MOST_BYTES bytes.now read.left.now (map noted_of read.set.items)) }
{
    if bytes.len() > MOST_BYTES {
        return Ok(nothing_read(alloc));
    }
    match notes_read(alloc, bytes)? {
        Some(notes) => Ok(TurnRead {
            left: left_in(notes.as_slice()),
            set: Vec::from_slice(alloc, set_in(notes.as_slice()))?,
        }),
        None => Ok(nothing_read(alloc)),
    }
}

fn nothing_read<'a>(alloc: Global) -> TurnRead<'a>
    ensures left { result.left.now ≡ [] }
    ensures set { result.set.items ≡ [] }
{
    TurnRead {
        left: &[],
        set: Vec::new(alloc),
    }
}

/// The records of files in the notes of a turn.
fn left_in<'a>(notes: &[DconfdbTime<'a>]) -> &'a [u8]
    ensures { result.now ≡ left_in (map noted_of notes.now) }
{
    match notes.split_first() {
        Some((turn, more)) if turn.value != 0 => first_path(more),
        _ => &[],
    }
}

fn first_path<'a>(notes: &[DconfdbTime<'a>]) -> &'a [u8]
    ensures { result.now ≡ first_path (map noted_of notes.now) }
{
    match notes.split_first() {
        Some((note, _)) => note.path,
        None => &[],
    }
}

/// What was set, of the notes of a turn.
fn set_in<'n, 'a>(notes: &'n [DconfdbTime<'a>]) -> &'n [DconfdbTime<'a>]
    ensures { map noted_of result.now ≡ set_in (map noted_of notes.now) }
{
    match notes.split_first() {
        Some((turn, more)) => behind(turn.value, more),
        None => notes,
    }
}

/// Those behind so many.
fn behind<'n, 'a>(count: u64, notes: &'n [DconfdbTime<'a>]) -> &'n [DconfdbTime<'a>]
    ensures { result.now ≡ drop count notes.now }
{
    let (_, rest) = notes.split_at(count.min(notes.len() as u64) as usize);
    rest
}

/// Writes what a turn notes to the start of the room, if that has so many bytes; what is behind them stays. Says how many they are.
///
/// Of what was set the newest notes are kept, as [`newest`] has them, and of the files that were left [`MOST_LEFT`]. The only error is a failed
/// allocation, or more bytes than can be counted.
pub fn turn_written(
    alloc: Global,
    notes: &[DconfdbTime<'_>],
    turn: &TurnLeaves<'_>,
    room: &mut [u8],
) -> Result<usize, AllocError>
    ensures done { IfOk result (λ n. (kept : List DconfdbTime) × AreNewest MOST_SET_NOTES MOST_SET_BYTES notes.now kept
        × IsHandedOut (file_bytes (turn_notes turn.now.moment turn.now.time (with_left turn.now.left.now turn.now.name.now turn.now.file turn.now.is_synced MOST_LEFT) (map noted_of kept))) room.old room.new n) }
    ensures kept { IsErr result → room.new ≡ room.old }
{
    let kept = newest(alloc, notes, MOST_SET_NOTES, MOST_SET_BYTES)?;
    let left = left_by(alloc, turn)?;
    let all = all_notes(alloc, turn, left.as_slice(), kept.as_slice())?;
    notes_written(all.as_slice(), room)
}

/// The records of the files that are left by then. They mostly are as long as those of before, which are copied: nothing is cleared that is written
/// anyway.
fn left_by(alloc: Global, turn: &TurnLeaves<'_>) -> Result<Vec<u8>, AllocError>
    ensures { IfOk result (λ left. left.items ≡ with_left turn.now.left.now turn.now.name.now turn.now.file turn.now.is_synced MOST_LEFT) }
{
    let TurnLeaves {
        left,
        name,
        file,
        is_synced,
        ..
    } = *turn;
    let len = with_left(left, name, &file, is_synced, MOST_LEFT, &mut []);
    let mut records = Vec::with_capacity(alloc, len.max(left.len()))?;
    records.extend_from_slice(left)?;
    records.resize(len, 0)?;
    with_left(left, name, &file, is_synced, MOST_LEFT, &mut records);
    Ok(records)
}

/// That of the turn, that of the files, and those of what was set.
fn all_notes<'a>(
    alloc: Global,
    turn: &TurnLeaves<'_>,
    left: &'a [u8],
    set: &[DconfdbTime<'a>],
) -> Result<Vec<DconfdbTime<'a>>, AllocError>
    ensures { IfOk result (λ all. map noted_of all.items ≡ turn_notes turn.now.moment turn.now.time left.now (map noted_of set.now)) }
{
    let mut all = Vec::with_capacity(alloc, set.len().saturating_add(2))?;
    all.push(turn_note(turn.moment))?;
    all.push(left_note(turn.time, left))?;
    all.extend_from_slice(set)?;
    Ok(all)
}

fn turn_note<'a>(moment: u64) -> DconfdbTime<'a>
    ensures { noted_of result ≡ turn_note moment }
{
    DconfdbTime {
        path: &[],
        when: moment,
        value: 1,
    }
}

fn left_note<'a>(now: u64, left: &'a [u8]) -> DconfdbTime<'a>
    ensures { noted_of result ≡ left_note now left.now }
{
    DconfdbTime {
        path: left,
        when: now,
        value: 0,
    }
}
