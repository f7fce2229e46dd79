//! Notes as the bytes of a file.
ghost use Rattle.std.specs.Prelude.{◌≡◌, ◌+◌, ◌≤◌, ◌++◌, length, map, drop, IfOk, IsErr};
ghost use Rattle.gv_model.specs.Encode.{number_bytes};
ghost use Rattle.dconf_notes.specs.Records.{IsHandedOut, file_bytes, noted_of, record_bytes, records_bytes, title};

use crate::reading::{NUMBER_LEN, NUMBERS_LEN, TITLE};
use byteorder::{ByteOrder, LittleEndian};
use dconf_times::DconfdbTime;
use std::alloc::AllocError;

/// How many bytes stand around the records.
const FRAME_LEN: usize = 24;

/// Writes the bytes of a file of these notes, of which the first is of the turn, to the start of the room, if it has so
/// many; what is behind them stays. Says how many they are.
///
/// The only error is more bytes than can be counted. It looks at each note twice.
pub fn notes_written(notes: &[DconfdbTime<'_>], room: &mut [u8]) -> Result<usize, AllocError>
    ensures done { IfOk result (IsHandedOut (file_bytes (map noted_of notes.now)) room.old room.new) }
    ensures kept { IsErr result → room.new ≡ room.old }
{
    let len = len_of(notes)?;
    put_if_fits(notes, len, room);
    Ok(len)
}

/// How many bytes their file has.
fn len_of(notes: &[DconfdbTime<'_>]) -> Result<usize, AllocError>
    ensures { IfOk result (λ n. n ≡ length (file_bytes (map noted_of notes.now))) }
{
    if notes.is_empty() {
        return Ok(0);
    }
    let mut len = FRAME_LEN;
    for note in notes {
        len = len_with(len, note)?;
    }
    Ok(len)
}

/// So many bytes and those of a record.
fn len_with(len: usize, note: &DconfdbTime<'_>) -> Result<usize, AllocError>
    ensures { IfOk result (λ n. n ≡ len + length (record_bytes (noted_of note.now))) }
{
    match len.checked_add(NUMBERS_LEN + note.path.len()) {
        Some(more) => Ok(more),
        None => Err(AllocError),
    }
}

/// Writes their bytes, of which there are so many, if there is room.
fn put_if_fits(notes: &[DconfdbTime<'_>], len: usize, room: &mut [u8])
    requires { len ≡ length (file_bytes (map noted_of notes.now)) }
    ensures { IsHandedOut (file_bytes (map noted_of notes.now)) room.old room.new len }
{
    if len > room.len() {
        return;
    }
    if let Some(head) = notes.first() {
        put_file(notes, head.when, room);
    }
}

/// Writes the title, the records, and a moment.
fn put_file(notes: &[DconfdbTime<'_>], moment: u64, room: &mut [u8])
    requires { 24 + length (records_bytes (map noted_of notes.now)) ≤ length room.old }
    ensures { let bytes = title ++ (records_bytes (map noted_of notes.now) ++ number_bytes 8 moment) in room.new ≡ bytes ++ drop (length bytes) room.old }
{
    let (front, rest) = room.split_at_mut(TITLE.len());
    front.copy_from_slice(TITLE);
    let at = put_records(notes, rest);
    let (_, end) = rest.split_at_mut(at);
    put_number(moment, end);
}

/// Writes records, and says how many bytes they have.
fn put_records(notes: &[DconfdbTime<'_>], room: &mut [u8]) -> usize
    requires { length (records_bytes (map noted_of notes.now)) ≤ length room.old }
    ensures len { result ≡ length (records_bytes (map noted_of notes.now)) }
    ensures put { room.new ≡ records_bytes (map noted_of notes.now) ++ drop result room.old }
{
    let mut at = 0;
    for note in notes {
        let (_, rest) = room.split_at_mut(at);
        at += put_record(note, rest);
    }
    at
}

/// Writes a record, and says how many bytes it has.
fn put_record(note: &DconfdbTime<'_>, room: &mut [u8]) -> usize
    requires { length (record_bytes (noted_of note.now)) ≤ length room.old }
    ensures len { result ≡ length (record_bytes (noted_of note.now)) }
    ensures put { room.new ≡ record_bytes (noted_of note.now) ++ drop result room.old }
{
    let len = NUMBERS_LEN + note.path.len();
    let (when, rest) = room.split_at_mut(NUMBER_LEN);
    let (value, rest) = rest.split_at_mut(NUMBER_LEN);
    let (path_len, rest) = rest.split_at_mut(NUMBER_LEN);
    let (path, _) = rest.split_at_mut(note.path.len());
    put_number(note.when, when);
    put_number(note.value, value);
    put_number(note.path.len() as u64, path_len);
    path.copy_from_slice(note.path);
    len
}

/// Writes a number in eight bytes.
fn put_number(number: u64, room: &mut [u8])
    requires { 8 ≤ length room.old }
    ensures { room.new ≡ number_bytes 8 number ++ drop 8 room.old }
{
    LittleEndian::write_u64(room, number);
}
