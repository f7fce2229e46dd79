//! A list of calls and their answers that clauses alone read.
ghost use Rattle.std.specs.Prelude.{◌≡◌, ◌∷◌, ℕ, List, IfOk, IsErrOf, IsTrue, option_map, slice_index, true};
ghost use Rattle.std.specs.Borrow.{ftrue};
ghost use Rattle.dconf_folders.specs.Notes.{Note, events_noted, is_honest};

use crate::FolderFault;
use std::marker::{Model, PhantomData};

// A read as it is noted, and what it gave.

const READ: u64 = 0;

const NO_FILE: u64 = 0;

const HOLDS: u64 = 1;

const OVER_SIZE: u64 = 2;

/// The calls of a host's folder, the last first, and what becomes of those that fail. It takes no memory, and noting no time.
///
/// What is noted of the time before the first call no clause says, nor what becomes of a call that fails: so what is proved holds
/// whatever the folder held, and however a failed call went.
#[derive(Drop)]
pub struct Record {
    marker: PhantomData<u8>,
    pub ghost notes: { List Note },
    pub ghost fates: { List ℕ },
}

impl Model for Record {
    ghost also_owns = { λ _. ftrue };
}

impl Record {
    ghost use Rattle.dconf_model.specs.Folders.{read_content};
    ghost use Rattle.dconf_model.specs.Reads.{IsOverSize};

    /// One of a folder that held whatever it did.
    pub fn new() -> Record
        ensures { is_honest result.fates result.notes ≡ true }
    {
        Record {
            marker: PhantomData,
        }
    }

    /// Notes a call and its answer, by two numbers, with a name, and bytes or another name.
    pub fn note(&mut self, _numbers: &[u64], _name: &[u8], _more: &[u8])
        ensures { (self.new.notes ≡ (slice_index _numbers.now 0, slice_index _numbers.now 1, _name.now, _more.now) ∷ self.old.notes)
            × (self.new.fates ≡ self.old.fates) }
    {}

    /// Notes what a read of this name gave.
    pub fn note_read(&mut self, name: &str, found: &Result<Option<Vec<u8>>, FolderFault>)
        ensures events { events_noted self.new.fates self.new.notes ≡ events_noted self.old.fates self.old.notes }
        ensures honest { IsTrue (is_honest self.new.fates self.new.notes) → IsTrue (is_honest self.old.fates self.old.notes) }
        ensures bytes { IsTrue (is_honest self.new.fates self.new.notes) → IfOk found.now (λ it. option_map (λ v. v.items) it ≡ read_content (events_noted self.old.fates self.old.notes) name.now) }
        ensures too_big { IsTrue (is_honest self.new.fates self.new.notes) → IsErrOf found.now FolderFault.TooBig → IsOverSize (read_content (events_noted self.old.fates self.old.notes) name.now) }
    {
        match found {
            Ok(Some(bytes)) => self.note(&[READ, HOLDS], name.as_bytes(), bytes),
            Ok(None) => self.note(&[READ, NO_FILE], name.as_bytes(), &[]),
            Err(FolderFault::TooBig) => self.note(&[READ, OVER_SIZE], name.as_bytes(), &[]),
            Err(FolderFault::Device) => {}
            Err(FolderFault::Memory) => {}
        }
    }
}
