//! Where notes are too many.
ghost use Rattle.std.specs.Prelude.{◌≡◌, IfOk, codes, filter, nat_le};
ghost use Rattle.dconf_times.specs.Room.{AreNewest, IsLeast, bytes_of, has_room, is_since, notes_bytes};

use crate::times::DconfdbTime;
use std::alloc::{AllocError, Global};

/// How many bytes stand in front of a note's path.
const NUMBERS: usize = 24;

/// How many bytes the note that stands for others takes.
const ONE: usize = 25;

/// The path above that of each database's keys.
const ROOT: &[u8] = b"/";

/// The newest notes: as many as there may be, and as there is room for in bytes.
///
/// The oldest go, and one note says of all paths that they were set by the time of the latest of
/// these. The only error is a failed allocation. If they are too many, it looks at each note 64 times.
pub fn newest<'a>(
    alloc: Global,
    notes: &[DconfdbTime<'a>],
    most: usize,
    most_bytes: usize,
) -> Result<Vec<DconfdbTime<'a>>, AllocError>
    ensures { IfOk result (λ kept. AreNewest most most_bytes notes.now kept.items) }
{
    if has_room(notes, most, most_bytes) {
        return Vec::from_slice(alloc, notes);
    }
    let when = least(
        alloc,
        notes,
        most.saturating_sub(1),
        most_bytes.saturating_sub(ONE),
    )?;
    let mut kept = later(alloc, notes, when)?;
    kept.push(all_by(when))?;
    Ok(kept)
}

/// One that says of all paths that they were set by then.
fn all_by<'a>(when: u64) -> DconfdbTime<'a>
    ensures root { result.path.now ≡ codes "/" }
    ensures when { result.when ≡ when }
    ensures number { result.value ≡ 1 }
{
    DconfdbTime {
        path: ROOT,
        when,
        value: 1,
    }
}

/// The least time so that there is room for all that are later.
fn least(
    alloc: Global,
    notes: &[DconfdbTime<'_>],
    most: usize,
    most_bytes: usize,
) -> Result<u64, AllocError>
    ensures { IfOk result (IsLeast most most_bytes notes.now) }
{
    let mut low = 0;
    let mut high = u64::MAX;
    while low < high {
        let middle = low + (high - low) / 2;
        let kept = later(alloc, notes, middle)?;
        if has_room(kept.as_slice(), most, most_bytes) {
            high = middle;
        } else {
            low = middle + 1;
        }
    }
    Ok(high)
}

/// Those that are later.
fn later<'a>(
    alloc: Global,
    notes: &[DconfdbTime<'a>],
    when: u64,
) -> Result<Vec<DconfdbTime<'a>>, AllocError>
    ensures { IfOk result (λ kept. kept.items ≡ filter (is_since when) notes.now) }
{
    let mut kept = Vec::new(alloc);
    for note in notes {
        if note.when > when {
            kept.push(*note)?;
        }
    }
    Ok(kept)
}

fn has_room(notes: &[DconfdbTime<'_>], most: usize, most_bytes: usize) -> bool
    ensures { result ≡ has_room most most_bytes notes.now }
{
    notes.len() <= most && have_room(notes, most_bytes)
}

/// Whether they take no more bytes than that.
#[tactic(auto, using(crate::proofs::RoomLaws::too_long, crate::proofs::RoomLaws::taken))]
fn have_room(notes: &[DconfdbTime<'_>], most_bytes: usize) -> bool
    ensures { result ≡ nat_le (notes_bytes notes.now) most_bytes }
{
    let mut left = most_bytes;
    for note in notes {
        let taken = note.taken();
        if left < taken {
            return false;
        }
        left -= taken;
    }
    true
}

impl DconfdbTime<'_> {
    /// How many bytes it takes.
    fn taken(&self) -> usize
        ensures { result ≡ bytes_of self.now }
    {
        NUMBERS + self.path.len()
    }
}
