//! A crash of a folder in memory: one of its outcomes, picked by a number.
//!
//! The number is used up by one choice after another, so each outcome has a number, and that of a small folder is small.
ghost use Rattle.std.specs.Prelude.{◌≡◌, ◌<◌, ◌%◌, ◌/◌, ◌∷◌, true, List, IfOk, OnOk, OnErr, IsErrOf};
ghost use Rattle.dconf_model.specs.Folders.{Event, StoodFor, IsLeft, is_synced, content};
ghost use Rattle.dconf_model.specs.Folders.Event.{create, append, sync};
ghost use Rattle.dconf_folders.specs.MemoryFolders.{events_of, IsPast, failures_of, failing_call};
ghost use Rattle.dconf_folders.specs.Crashes.{AreMadeAgain};

use crate::calls::{Call, content, file_of, files_made, is_synced, push, was_named};
use crate::{FolderFault, MemoryFolder};
use std::alloc::{AllocError, Global};

/// The digits that a byte, or the end of the bytes, is picked by.
const BYTE_OR_END: u64 = 257;

/// How many such digits a number has at most.
const MOST_DIGITS: usize = 8;

impl MemoryFolder {
    /// Leaves one outcome of a crash, picked by the number, which is settled then. It is no call of the device: `fail_at` doesn't
    /// count it, and it counts no failure.
    ///
    /// `Memory` comes where a growth is refused, and then the folder stays as it was. `Device` and `TooBig` can't happen.
    pub fn crash(&mut self, outcome: u64) -> Result<(), FolderFault>
        ensures left { (es : List Event) → IsPast self.old es → OnOk result ((now : List Event) × IsPast self.new now × IsLeft es now) }
        ensures only { OnErr result (IsErrOf result FolderFault.Memory) }
        ensures kept { OnErr result (self.new ≡ self.old) }
        ensures failures { failures_of self.new ≡ failures_of self.old }
        ensures failing { failing_call self.new ≡ failing_call self.old }
    {
        let mut number = outcome;
        let mut left = made_again(self.alloc, &self.calls, &self.calls, &mut number)?;
        push(&mut left, Call::SyncFolder)?;
        self.calls = left;
        Ok(())
    }
}

/// The calls that make again what a crash after all the calls leaves under the names of the first of them.
fn made_again(
    alloc: Global,
    calls: &[Call],
    all: &[Call],
    number: &mut u64,
) -> Result<Vec<Call>, AllocError>
    ensures { IfOk result (λ left. AreMadeAgain (events_of calls.now) (events_of all.now) (events_of left.items)) }
{
    let [earlier @ .., last] = calls else {
        return Ok(Vec::new(alloc));
    };
    let left = made_again(alloc, earlier, all, number)?;
    match last {
        Call::Create(name) => make_again(alloc, earlier, all, name.as_str(), left, number),
        Call::Rename(_, name) => make_again(alloc, earlier, all, name.as_str(), left, number),
        Call::Remove(_) => Ok(left),
        Call::Append(_, _) => Ok(left),
        Call::Sync(_) => Ok(left),
        Call::Touch(_) => Ok(left),
        Call::SyncFolder => Ok(left),
        Call::Link(_, name) => make_again(alloc, earlier, all, name.as_str(), left, number),
    }
}

/// Makes again what a crash leaves under a name, unless an earlier call gave the name.
fn make_again(
    alloc: Global,
    earlier: &[Call],
    all: &[Call],
    name: &str,
    left: Vec<Call>,
    number: &mut u64,
) -> Result<Vec<Call>, AllocError>
    requires { AreMadeAgain (events_of earlier.now) (events_of all.now) (events_of left.items) }
    ensures { IfOk result (λ made. AreMadeAgain (create name.now ∷ events_of earlier.now) (events_of all.now) (events_of made.items)) }
{
    if was_named(earlier, name) {
        return Ok(left);
    }
    match stood_for(all, name, number) {
        Some(file) => {
            let bytes = bytes_left(alloc, all, file, number)?;
            restore(alloc, left, name, bytes)
        }
        None => Ok(left),
    }
}

/// Makes a file of these bytes, all synced.
fn restore(
    alloc: Global,
    mut left: Vec<Call>,
    name: &str,
    bytes: Vec<u8>,
) -> Result<Vec<Call>, AllocError>
    ensures { IfOk result (λ made. events_of made.items ≡ sync name.now ∷ append name.now bytes.items ∷ create name.now ∷ events_of left.items) }
{
    let made = String::from_str(alloc, name)?;
    push(&mut left, Call::Create(made))?;
    let filled = String::from_str(alloc, name)?;
    push(&mut left, Call::Append(filled, bytes))?;
    let synced = String::from_str(alloc, name)?;
    push(&mut left, Call::Sync(synced))?;
    Ok(left)
}

/// A file that a name stood for since the folder was last synced, by the number.
fn stood_for(calls: &[Call], name: &str, number: &mut u64) -> Option<usize>
    ensures { StoodFor (events_of calls.now) name.now result }
{
    let [earlier @ .., last] = calls else {
        return None;
    };
    match last {
        Call::SyncFolder => file_of(earlier, name),
        Call::Create(made) => {
            if name == made.as_str() && pick(number, 2) == 0 {
                return Some(files_made(earlier));
            }
            stood_for(earlier, name, number)
        }
        Call::Rename(from, to) => {
            if name == to.as_str() && pick(number, 2) == 0 {
                return file_of(earlier, from.as_str());
            }
            if name == from.as_str() && pick(number, 2) == 0 {
                return None;
            }
            stood_for(earlier, name, number)
        }
        Call::Remove(gone) => {
            if name == gone.as_str() && pick(number, 2) == 0 {
                return None;
            }
            stood_for(earlier, name, number)
        }
        Call::Append(_, _) => stood_for(earlier, name, number),
        Call::Sync(_) => stood_for(earlier, name, number),
        Call::Touch(_) => stood_for(earlier, name, number),
        Call::Link(from, to) => {
            if name == to.as_str() && pick(number, 2) == 0 {
                return file_of(earlier, from.as_str());
            }
            stood_for(earlier, name, number)
        }
    }
}

/// What a crash leaves of a file, by the number: its bytes where all are synced, else the first of them and then any others.
fn bytes_left(
    alloc: Global,
    calls: &[Call],
    file: usize,
    number: &mut u64,
) -> Result<Vec<u8>, AllocError>
    ensures { IfOk result (λ bytes. is_synced (events_of calls.now) file ≡ true → bytes.items ≡ content (events_of calls.now) file) }
{
    let mut bytes = content(alloc, calls, file)?;
    if is_synced(calls, file) {
        return Ok(bytes);
    }
    let kept = pick(number, bytes.len() as u64 + 1);
    bytes.truncate(kept as usize);
    for _ in 0..MOST_DIGITS {
        match pick(number, BYTE_OR_END) {
            0 => break,
            digit => bytes.push((digit - 1) as u8)?,
        }
    }
    Ok(bytes)
}

/// Which of so many choices the number picks. The rest of it is left for other choices.
fn pick(number: &mut u64, choices: u64) -> u64
    requires { 0 < choices }
    ensures is { result ≡ number.old % choices }
    ensures rest { number.new ≡ number.old / choices }
    ensures bound { result < choices }
{
    let picked = *number % choices;
    *number /= choices;
    picked
}
