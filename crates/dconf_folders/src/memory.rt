//! A folder in memory, whose device fails when it is told to.
ghost use Rattle.std.specs.Prelude.{◌≡◌, ◌⊎◌, ◌≤◌, ◌-◌, ◌↔◌, [], ◌∷◌, true, false, string_bytes, List, None, IfOk, IfSome, IsSome, IsTrue, OnOk, OnErr, IsErrOf, option_map, length};
ghost use Rattle.dconf_model.specs.Folders.{Event, read_content};
ghost use Rattle.dconf_model.specs.Folders.Event.{rename, touch};
ghost use Rattle.dconf_model.specs.Reads.{IsOverSize};
ghost use Rattle.dconf_folders.specs.Asides.{is_free_for};
ghost use Rattle.dconf_folders.specs.Failures.{HasCause, failed_by};
ghost use Rattle.dconf_folders.specs.MemoryFolders.{event_of, events_of, IsPast, failures_of, failing_call};

use crate::calls::{Call, append_call, content, file_of, is_none_or, link_call, push, rename_call};
use crate::{Folder, FolderFault, LARGEST_FILE, Old, aside_name};
use std::alloc::Global;

/// More than the other names of one file that are tried.
const MOST_ASIDE: u32 = 1000;

/// A folder in memory, which is the record of the calls that were made on it.
///
/// A growth that is refused to a writing call is a fault of its device. Each call goes back through the calls before it: it takes
/// time by their number, `read` by its square, and `crash` by its cube.
#[derive(Drop)]
pub struct MemoryFolder {
    pub(crate) alloc: Global,
    pub(crate) calls: Vec<Call>,
    failures: u64,
    /// The call that fails, counted from the next one as 1. 0 is none.
    fails_in: u64,
}

impl MemoryFolder {
    /// An empty folder, whose calls all succeed. It takes no memory, so it can't fail.
    pub fn new(alloc: Global) -> Self
        ensures past { IsPast result [] }
        ensures failures { failures_of result ≡ 0 }
        ensures succeeds { failing_call result ≡ 0 }
    {
        MemoryFolder {
            alloc,
            calls: Vec::new(alloc),
            failures: 0,
            fails_in: 0,
        }
    }

    /// Has the k-th call from now on fail, once, those of `failures` not counted; the next call is 1. With 0 none does.
    pub fn fail_at(&mut self, k: u64)
        ensures calls { self.new.calls ≡ self.old.calls }
        ensures failures { failures_of self.new ≡ failures_of self.old }
        ensures fails { failing_call self.new ≡ k }
    {
        self.fails_in = k;
    }

    /// Counts a fault of the device.
    fn fault(&mut self) -> FolderFault
        ensures calls { self.new.calls ≡ self.old.calls }
        ensures failing { self.new.fails_in ≡ self.old.fails_in }
        ensures cause { HasCause self.old.failures self.new.failures (failed_by result) }
        ensures only { result ≡ FolderFault.Device }
    {
        self.failures = self.failures.saturating_add(1);
        FolderFault::Device
    }

    /// Whether this call is the one that is to fail.
    fn is_failing(&mut self) -> bool
        ensures is { (result ≡ true) ↔ (self.old.fails_in ≡ 1) }
        ensures counts { self.new.fails_in ≡ self.old.fails_in - 1 }
        ensures calls { self.new.calls ≡ self.old.calls }
        ensures failures { self.new.failures ≡ self.old.failures }
    {
        let fails = self.fails_in == 1;
        self.fails_in = self.fails_in.saturating_sub(1);
        fails
    }

    /// Notes a call, unless it is to fail or there is no memory for it. `None` is one that has no file, or no memory.
    #[tactic(auto, using(crate::proofs::CallLemmas::events_of_push))]
    fn note(&mut self, call: Option<Call>) -> Result<(), FolderFault>
        ensures ok { OnOk result (IfSome call (λ k. events_of self.new.calls.items ≡ event_of k ∷ events_of self.old.calls.items)) }
        ensures had { OnOk result (IsSome call) }
        ensures err { OnErr result (self.new.calls.items ≡ self.old.calls.items) }
        ensures fails { self.old.fails_in ≡ 1 → IsErrOf result FolderFault.Device }
        ensures counts { self.new.fails_in ≡ self.old.fails_in - 1 }
        ensures cause { HasCause self.old.failures self.new.failures result }
        ensures only { OnErr result (IsErrOf result FolderFault.Device) }
    {
        if self.is_failing() {
            return Err(self.fault());
        }
        let Some(call) = call else {
            return Err(self.fault());
        };
        if self.calls.push(call).is_err() {
            return Err(self.fault());
        }
        Ok(())
    }

    /// Notes that an append or a sync failed, if there is memory for it.
    #[tactic(auto, using(crate::proofs::CallLemmas::events_of_push))]
    fn touch(&mut self, name: &str)
        ensures events { (events_of self.new.calls.items ≡ touch name.now ∷ events_of self.old.calls.items) ⊎ (events_of self.new.calls.items ≡ events_of self.old.calls.items) }
        ensures failures { self.new.failures ≡ self.old.failures }
        ensures failing { self.new.fails_in ≡ self.old.fails_in }
    {
        if let Ok(name) = String::from_str(self.alloc, name) {
            let _noted = self.calls.push(Call::Touch(name)).is_ok();
        }
    }

    /// Notes a rename that was done though it failed, if there is memory for it.
    #[tactic(auto, using(crate::proofs::CallLemmas::events_of_push))]
    fn rename_though_it_failed(&mut self, from: &str, to: &str)
        ensures events { (events_of self.new.calls.items ≡ rename from.now to.now ∷ events_of self.old.calls.items) ⊎ (events_of self.new.calls.items ≡ events_of self.old.calls.items) }
        ensures failures { self.new.failures ≡ self.old.failures }
        ensures failing { self.new.fails_in ≡ self.old.fails_in }
    {
        if let Some(call) = rename_call(self.alloc, from, to) {
            let _noted = self.calls.push(call).is_ok();
        }
    }

    fn is_there(&self, name: &str) -> bool
        ensures { result ≡ true → (es : List Event) → IsPast self.now es → read_content es name.now ≡ None → ⊥ }
    {
        file_of(&self.calls, name).is_some()
    }

    fn is_free_for(&self, name: &str, aside: &str) -> bool
        ensures { result ≡ true → (es : List Event) → IsPast self.now es → IsTrue (is_free_for name.now aside.now es) }
    {
        is_none_or(file_of(&self.calls, name), file_of(&self.calls, aside))
    }

    /// Another name for what is set aside, that no other file has, if there is memory for it.
    fn free_name(&self, name: &str) -> Option<String>
        ensures { IfSome result (λ aside. (es : List Event) → IsPast self.now es → IsTrue (is_free_for name.now (string_bytes aside) es)) }
    {
        for n in 1..MOST_ASIDE {
            let aside = aside_name(self.alloc, name, n).ok()?;
            if self.is_free_for(name, aside.as_str()) {
                return Some(aside);
            }
        }
        None
    }
}

impl Folder for MemoryFolder {
    ghost past = { λ m es. IsPast m es };

    ghost honest = { λ _. true };

    ghost holds_turn = { λ _. true };

    ghost failed = { λ m. failures_of m };

    ghost hides = { false };

    fn failures(&self) -> u64 {
        self.failures
    }

    /// The call that was told to fail does, before it looks for the file.
    fn read(&mut self, alloc: Global, name: &str) -> Result<Option<Vec<u8>>, FolderFault>
        ensures past { (es : List Event) → IsPast self.old es → IsPast self.new es }
        ensures bytes { (es : List Event) → IsPast self.old es → IfOk result (λ found. option_map (λ v. v.items) found ≡ read_content es name.now) }
        ensures size { IfOk result (λ found. IfSome found (λ v. length v.items ≤ LARGEST_FILE)) }
        ensures too_big { (es : List Event) → IsPast self.old es → IsErrOf result FolderFault.TooBig → IsOverSize (read_content es name.now) }
        ensures cause { HasCause (failures_of self.old) (failures_of self.new) result }
        ensures fails { IsErrOf result FolderFault.Device ↔ (failing_call self.old ≡ 1) }
        ensures counts { failing_call self.new ≡ failing_call self.old - 1 }
    {
        if self.is_failing() {
            return Err(self.fault());
        }
        let Some(file) = file_of(&self.calls, name) else {
            return Ok(None);
        };
        let bytes = content(alloc, &self.calls, file)?;
        if bytes.len() as u64 > LARGEST_FILE {
            return Err(FolderFault::TooBig);
        }
        Ok(Some(bytes))
    }

    fn take_turn(&mut self) -> Result<(), FolderFault> {
        Ok(())
    }

    /// It keeps no permission bits.
    fn look(&mut self, _name: &str) -> Result<Old, FolderFault> {
        Ok(Old::Absent)
    }

    fn create(&mut self, _alloc: Global, name: &str, _bits: u32) -> Result<(), FolderFault> {
        self.note(String::from_str(self.alloc, name).ok().map(Call::Create))
    }

    fn append(&mut self, name: &str, bytes: &[u8]) -> Result<(), FolderFault> {
        if !self.is_there(name) {
            return self.note(None);
        }
        let noted = self.note(append_call(self.alloc, name, bytes));
        if noted.is_err() {
            self.touch(name);
        }
        noted
    }

    fn sync(&mut self, name: &str, _bits: Option<u32>) -> Result<(), FolderFault> {
        if !self.is_there(name) {
            return self.note(None);
        }
        let noted = self.note(String::from_str(self.alloc, name).ok().map(Call::Sync));
        if noted.is_err() {
            self.touch(name);
        }
        noted
    }

    fn set_aside(&mut self, _alloc: Global, name: &str) -> Result<(), FolderFault> {
        if !self.is_there(name) {
            return self.note(None);
        }
        let Some(aside) = self.free_name(name) else {
            return self.note(None);
        };
        self.note(link_call(self.alloc, name, aside.as_str()))
    }

    /// One that fails is done all the same, so that a crash leaves either.
    fn rename(&mut self, from: &str, to: &str) -> Result<(), FolderFault> {
        if !self.is_there(from) {
            return self.note(None);
        }
        let noted = self.note(rename_call(self.alloc, from, to));
        if noted.is_err() {
            self.rename_though_it_failed(from, to);
        }
        noted
    }

    fn remove(&mut self, name: &str) -> bool {
        if self.is_failing() {
            return false;
        }
        let Ok(name) = String::from_str(self.alloc, name) else {
            return false;
        };
        push(&mut self.calls, Call::Remove(name)).is_ok()
    }

    fn sync_folder(&mut self) -> Result<(), FolderFault> {
        self.note(Some(Call::SyncFolder))
    }
}
