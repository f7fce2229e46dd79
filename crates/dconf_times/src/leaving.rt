//! Which edits are left out, since others set their paths later.
ghost use Rattle.std.specs.Prelude.{◌≡◌, ◌==◌, IfOk, filter, map};
ghost use Rattle.std.specs.List.{list_any};
ghost use Rattle.dconf_times.specs.Leaving.{has_seen, is_as_before, is_guess, is_late, is_left, overtakes};
ghost use Rattle.dconf_times.specs.Seeing.{seen_of};
ghost use Rattle.dconf_times.specs.Times.{note_of};

use crate::seeing::DconfdbSeen;
use crate::times::{DconfdbTime, covers};
use std::alloc::{AllocError, Global};

/// An edit that is to be written, and what its program knows of its path.
#[repr(C)]
#[derive(Clone, Copy)]
pub struct DconfdbAsked<'a> {
    /// As it is noted.
    pub path: &'a [u8],
    /// When it was asked for.
    pub when: u64,
    /// The number of its change: the edits of one are made together.
    pub change: usize,
    /// Numbers for what was there when the program looked before, and for what is there now.
    pub was: u64,
    pub is: u64,
    /// The program's last write may have left what it says, and it is there.
    pub is_own: bool,
    /// The program looked before the edit was asked for.
    pub has_looked: bool,
}

/// Which edits are left out: those that are overtaken, and all that are of a change with one.
///
/// An edit is overtaken where a note says that its path, or a directory above it, was set later; but
/// not by the guess of a time, where its program knows better: it looked before the edit was asked for, the
/// same is there, and none of the changes that it has `seen` is later. The only error is a failed
/// allocation. It looks at each note once for an edit.
pub fn leave_out(
    alloc: Global,
    notes: &[DconfdbTime<'_>],
    seen: &[DconfdbSeen<'_>],
    edits: &[DconfdbAsked<'_>],
    now: u64,
) -> Result<Vec<bool>, AllocError>
    ensures { IfOk result (λ left. left.items ≡ map (is_left (is_late now (map note_of notes.now) (map seen_of seen.now)) edits.now) edits.now) }
{
    let late = late_changes(alloc, notes, seen, edits, now)?;
    of_changes(alloc, edits, late.as_slice())
}

/// The numbers of the changes of which an edit is overtaken.
fn late_changes(
    alloc: Global,
    notes: &[DconfdbTime<'_>],
    seen: &[DconfdbSeen<'_>],
    edits: &[DconfdbAsked<'_>],
    now: u64,
) -> Result<Vec<usize>, AllocError>
    ensures { IfOk result (λ late. late.items ≡ map (λ e. e.change) (filter (is_late now (map note_of notes.now) (map seen_of seen.now)) edits.now)) }
{
    let mut late = Vec::new(alloc);
    for edit in edits {
        if edit.is_late(notes, seen, now) {
            late.push(edit.change)?;
        }
    }
    Ok(late)
}

/// Which edits are of one of these changes.
fn of_changes(
    alloc: Global,
    edits: &[DconfdbAsked<'_>],
    numbers: &[usize],
) -> Result<Vec<bool>, AllocError>
    ensures { IfOk result (λ are. are.items ≡ map (λ e. list_any (λ n. n == e.change) numbers.now) edits.now) }
{
    let mut are = Vec::with_capacity(alloc, edits.len())?;
    for edit in edits {
        are.push(has(numbers, edit.change))?;
    }
    Ok(are)
}

/// Whether a number is among these.
fn has(numbers: &[usize], number: usize) -> bool
    ensures { result ≡ list_any (λ n. n == number) numbers.now }
{
    for n in numbers {
        if *n == number {
            return true;
        }
    }
    false
}

impl DconfdbAsked<'_> {
    /// Whether the program looked before the edit was asked for, and the same is there.
    fn is_as_before(&self) -> bool
        ensures { result ≡ is_as_before self.now }
    {
        self.has_looked && self.was == self.is
    }

    /// Whether others have set its path since.
    fn is_late(&self, notes: &[DconfdbTime<'_>], seen: &[DconfdbSeen<'_>], now: u64) -> bool
        ensures { result ≡ is_late now (map note_of notes.now) (map seen_of seen.now) self.now }
    {
        if self.is_own {
            return false;
        }
        let knows_better = self.is_as_before() && !self.has_seen(seen);
        self.is_overtaken(notes, knows_better, now)
    }

    fn is_overtaken(&self, notes: &[DconfdbTime<'_>], knows_better: bool, now: u64) -> bool
        ensures { result ≡ list_any (overtakes now knows_better self.now) (map note_of notes.now) }
    {
        for note in notes {
            if self.is_overtaken_by(note, knows_better, now) {
                return true;
            }
        }
        false
    }

    fn is_overtaken_by(&self, note: &DconfdbTime<'_>, knows_better: bool, now: u64) -> bool
        ensures { result ≡ overtakes now knows_better self.now (note_of note.now) }
    {
        if !(note.when <= now && covers(note.path, self.path) && note.when > self.when) {
            return false;
        }
        !(is_guess(note.when) && note.path == self.path && knows_better)
    }

    /// Whether a change of the path was seen that is later.
    fn has_seen(&self, seen: &[DconfdbSeen<'_>]) -> bool
        ensures { result ≡ has_seen (map seen_of seen.now) self.now }
    {
        for one in seen {
            if one.time.path == self.path && one.time.when > self.when {
                return true;
            }
        }
        false
    }
}

/// Whether a time is a guess.
pub(crate) fn is_guess(when: u64) -> bool
    ensures { result ≡ is_guess when }
{
    when % 2 == 1
}
