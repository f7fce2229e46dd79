//! Notes that are read from a file's bytes.
ghost use Rattle.std.specs.Prelude.{◌≡◌, ◌↔◌, ◌++◌, ◌≤◌, ℕ, List, [], length, map, IfOk, IfSome, IsTrue, None};
ghost use Rattle.gv_model.specs.Encode.{number_bytes};
ghost use Rattle.dconf_notes.specs.Records.{Noted, IsFile, IsHeaded, IsOf, file_bytes, noted_of, record_bytes, records_bytes, title};

use byteorder::{ByteOrder, LittleEndian};
use dconf_times::DconfdbTime;
use std::alloc::{AllocError, Global};

/// What each file of notes begins with.
pub(crate) const TITLE: &[u8] = b"dconfdb times 2\n";

/// How many bytes a number takes, and how many stand in front of a record's path.
pub(crate) const NUMBER_LEN: usize = 8;

pub(crate) const NUMBERS_LEN: usize = 24;

/// The notes that a file's bytes are: the first is of the turn in which they were written. `None`:
/// they are no such file's, or not whole.
///
/// The paths are lent from the bytes. The only error is a failed allocation. It looks at each record
/// once.
pub fn notes_read<'a>(
    alloc: Global,
    bytes: &'a [u8],
) -> Result<Option<Vec<DconfdbTime<'a>>>, AllocError>
    // These are the bytes of those notes,
    ensures whole { IfOk result (λ notes. IfSome notes (λ read. IsFile bytes.now (map noted_of read.items))) }
    // and without an answer they are those of none.
    ensures none { IfOk result (λ notes. notes ≡ None → (others : List Noted) → IsFile bytes.now others → ⊥) }
{
    let rest = match untitled(bytes) {
        Some(rest) => rest,
        None => return Ok(None),
    };
    match records_read(alloc, rest)? {
        Some((notes, end)) => Ok(headed(notes, end)),
        None => Ok(None),
    }
}

/// What comes after the title.
fn untitled<'a>(bytes: &'a [u8]) -> Option<&'a [u8]>
    ensures some { IfSome result (λ rest. bytes.now ≡ title ++ rest.now) }
    ensures none { result ≡ None → (rest : List ℕ) → bytes.now ≡ title ++ rest → ⊥ }
{
    if bytes.len() < TITLE.len() {
        return None;
    }
    let (front, rest) = bytes.split_at(TITLE.len());
    if front == TITLE { Some(rest) } else { None }
}

/// The records before the last eight bytes, and those.
fn records_read<'a>(
    alloc: Global,
    bytes: &'a [u8],
) -> Result<Option<(Vec<DconfdbTime<'a>>, &'a [u8])>, AllocError>
    ensures some { IfOk result (λ read. IfSome read (λ r. (bytes.now ≡ records_bytes (map noted_of r.0.items) ++ r.1.now) × (length r.1.now ≡ 8))) }
    ensures none { IfOk result (λ read. read ≡ None → (notes : List Noted) (end : List ℕ) → length end ≡ 8 → bytes.now ≡ records_bytes notes ++ end → ⊥) }
{
    let mut notes = Vec::with_capacity(alloc, bytes.len() / NUMBERS_LEN)?;
    let mut rest = bytes;
    while rest.len() > NUMBER_LEN {
        match record_read(rest) {
            Some((note, more)) => {
                notes.push(note)?;
                rest = more;
            }
            None => return Ok(None),
        }
    }
    if rest.len() < NUMBER_LEN {
        return Ok(None);
    }
    Ok(Some((notes, rest)))
}

/// The first record, and what comes after it.
fn record_read<'a>(bytes: &'a [u8]) -> Option<(DconfdbTime<'a>, &'a [u8])>
    ensures some { IfSome result (λ r. bytes.now ≡ record_bytes (noted_of r.0) ++ r.1.now) }
    ensures none { result ≡ None → (note : Noted) (more : List ℕ) → bytes.now ≡ record_bytes note ++ more → ⊥ }
{
    if bytes.len() < NUMBERS_LEN {
        return None;
    }
    let (when, rest) = bytes.split_at(NUMBER_LEN);
    let (value, rest) = rest.split_at(NUMBER_LEN);
    let (len, rest) = rest.split_at(NUMBER_LEN);
    let len = number(len);
    if len > rest.len() as u64 {
        return None;
    }
    let (path, more) = rest.split_at(len as usize);
    let note = DconfdbTime {
        path,
        when: number(when),
        value: number(value),
    };
    Some((note, more))
}

/// The number in eight bytes.
fn number(bytes: &[u8]) -> u64
    requires { length bytes.now ≡ 8 }
    ensures { number_bytes 8 result ≡ bytes.now }
{
    LittleEndian::read_u64(bytes)
}

/// The notes, if their first is of a turn, and ends with its moment.
fn headed<'a>(notes: Vec<DconfdbTime<'a>>, end: &[u8]) -> Option<Vec<DconfdbTime<'a>>>
    requires { length end.now ≡ 8 }
    ensures some { IfSome result (λ read. (read.items ≡ notes.entry.items) × IsFile (title ++ (records_bytes (map noted_of notes.entry.items) ++ end.now)) (map noted_of notes.entry.items)) }
    ensures none { result ≡ None → (title ++ (records_bytes (map noted_of notes.entry.items) ++ end.now) ≡ file_bytes (map noted_of notes.entry.items)) → IsHeaded (map noted_of notes.entry.items) → ⊥ }
{
    if is_headed(notes.as_slice(), number(end)) {
        Some(notes)
    } else {
        None
    }
}

/// Whether the first is of a turn of that moment, and there are as many more as it says at least.
fn is_headed(notes: &[DconfdbTime<'_>], moment: u64) -> bool
    ensures { IsTrue result ↔ (IsHeaded (map noted_of notes.now) × IsOf moment (map noted_of notes.now)) }
{
    match notes.split_first() {
        Some((head, more)) => is_head(head, more.len(), moment),
        None => false,
    }
}

/// Whether it is of a turn of that moment, before so many more.
fn is_head(head: &DconfdbTime<'_>, more: usize, moment: u64) -> bool
    ensures { IsTrue result ↔ ((head.now.path.now ≡ []) × (head.now.value ≤ more) × (head.now.when ≡ moment)) }
{
    head.path.is_empty() && head.value <= more as u64 && head.when == moment
}
