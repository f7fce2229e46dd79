//! What others changed without a note.
ghost use Rattle.std.specs.Prelude.{◌≡◌, ◌++◌, IfOk, filter, map};
ghost use Rattle.std.specs.List.{list_any};
ghost use Rattle.dconf_times.specs.Noted.{AreNoted};
ghost use Rattle.dconf_times.specs.Seeing.{is_later_there, is_left_by, is_made_at, is_unnoted, stays_beside};
ghost use Rattle.dconf_times.specs.Times.{note_of};

use crate::leaving::is_guess;
use crate::notes::note_times;
use crate::times::{DconfdbTime, covers};
use std::alloc::{AllocError, Global};

/// A path at which a file differs from the one that was seen before: when it was written, which is
/// the guess of when the path was set, and a number for what is there.
#[repr(C)]
#[derive(Clone, Copy)]
pub struct DconfdbSeen<'a> {
    pub time: DconfdbTime<'a>,
    /// Whoever left the file noted what was changed in it.
    pub is_noted: bool,
}

/// The notes with a guess for each path that was changed without one: as [`note_times`] gives them.
///
/// What the latest note of a path says was left there keeps its time. The only error is a failed allocation. It compares
/// each of `seen` with each note twice at most, and once more for each that says the same.
pub fn note_seen<'a>(
    alloc: Global,
    notes: &[DconfdbTime<'a>],
    seen: &[DconfdbSeen<'a>],
    now: u64,
    most: usize,
) -> Result<Vec<DconfdbTime<'a>>, AllocError>
    ensures { IfOk result (λ kept. AreNoted now most (map note_of notes.now ++ map note_of (map (λ s. s.time) (filter (is_unnoted notes.now) seen.now))) (map note_of kept.items)) }
{
    let guesses = guesses_of(alloc, notes, seen)?;
    note_times(alloc, notes, guesses.as_slice(), now, most)
}

/// The notes with those of edits that were made, as [`note_times`] gives them: a guess of such a path
/// goes, be it later.
///
/// The only error is a failed allocation. It compares each of `made` with each note twice at most.
pub fn note_made<'a>(
    alloc: Global,
    notes: &[DconfdbTime<'a>],
    made: &[DconfdbTime<'a>],
    now: u64,
    most: usize,
) -> Result<Vec<DconfdbTime<'a>>, AllocError>
    ensures { IfOk result (λ kept. AreNoted now most (map note_of (filter (stays_beside made.now) notes.now) ++ map note_of made.now) (map note_of kept.items)) }
{
    let rest = beside(alloc, notes, made)?;
    note_times(alloc, rest.as_slice(), made, now, most)
}

/// What was changed without a note.
fn guesses_of<'a>(
    alloc: Global,
    notes: &[DconfdbTime<'a>],
    seen: &[DconfdbSeen<'a>],
) -> Result<Vec<DconfdbTime<'a>>, AllocError>
    ensures { IfOk result (λ guesses. guesses.items ≡ map (λ s. s.time) (filter (is_unnoted notes.now) seen.now)) }
{
    let mut guesses = Vec::new(alloc);
    for one in seen {
        if one.is_unnoted(notes) {
            guesses.push(one.time)?;
        }
    }
    Ok(guesses)
}

/// The notes without guesses of what was made.
fn beside<'a>(
    alloc: Global,
    notes: &[DconfdbTime<'a>],
    made: &[DconfdbTime<'a>],
) -> Result<Vec<DconfdbTime<'a>>, AllocError>
    ensures { IfOk result (λ rest. rest.items ≡ filter (stays_beside made.now) notes.now) }
{
    let mut rest = Vec::with_capacity(alloc, notes.len())?;
    for note in notes {
        if note.stays_beside(made) {
            rest.push(*note)?;
        }
    }
    Ok(rest)
}

impl DconfdbSeen<'_> {
    fn is_unnoted(&self, notes: &[DconfdbTime<'_>]) -> bool
        ensures { result ≡ is_unnoted notes.now self.now }
    {
        !self.is_noted && !self.is_left(notes)
    }

    /// Whether a note says that this was left there.
    fn is_left(&self, notes: &[DconfdbTime<'_>]) -> bool
        ensures { result ≡ list_any (is_left_by notes.now self.now) notes.now }
    {
        for note in notes {
            if self.is_left_by(notes, note) {
                return true;
            }
        }
        false
    }

    /// Whether that note says it, and no later one is of the path, or of a directory above it.
    fn is_left_by(&self, notes: &[DconfdbTime<'_>], note: &DconfdbTime<'_>) -> bool
        ensures { result ≡ is_left_by notes.now self.now note.now }
    {
        (covers(note.path, self.time.path) && note.value == self.time.value)
            && !note.has_later(notes, self.time.path)
    }
}

impl DconfdbTime<'_> {
    /// Whether a later note is of a path, or of a directory above it.
    fn has_later(&self, notes: &[DconfdbTime<'_>], path: &[u8]) -> bool
        ensures { result ≡ list_any (is_later_there path.now self.now) notes.now }
    {
        for other in notes {
            if covers(other.path, path) && self.when < other.when {
                return true;
            }
        }
        false
    }

    fn stays_beside(&self, made: &[DconfdbTime<'_>]) -> bool
        ensures { result ≡ stays_beside made.now self.now }
    {
        !(is_guess(self.when) && self.is_made(made))
    }

    /// Whether its path is among these.
    fn is_made(&self, made: &[DconfdbTime<'_>]) -> bool
        ensures { result ≡ list_any (is_made_at self.now) made.now }
    {
        for one in made {
            if one.path == self.path {
                return true;
            }
        }
        false
    }
}
