//! Replaces a file, so that a crash leaves the old bytes or the new ones.
ghost use Rattle.std.specs.Prelude.{◌≡◌, ◌⊎◌, List, true, false, IsTrue, OnOk, OnErr, IsErrOf, length};
ghost use Rattle.dconf_model.specs.Folders.{Event};
ghost use Rattle.dconf_model.specs.Replacing.{Replaced, MaybeReplaced, new_name};
ghost use Rattle.dconf_folders.specs.Staging.{staged_onto, settled_onto};
ghost use Rattle.dconf_folders.specs.Failures.{HasCause};
ghost use Rattle.dconf_disk.specs.Driving.{DidHere, IsAble, IsCounted, IsDriven, IsLookedAt, IsRefused, IsToldOf, IsWhole, IsWithin, answer_of, result_of};

use dconf_folders::{Folder, FolderFault, Old};
use dconf_turn::{Answer, Outcome, Step, Turn};
use std::alloc::Global;

/// A number that says that the folder chooses the permission bits.
const NO_FILE: usize = usize::MAX;

/// The numbers of permission bits; as many more are those of a file that is to be set aside.
const ALL_BITS: u32 = 0o1000;

/// The only fault of a folder's writing call.
const DEVICE: u32 = 1;

/// Carries out a step of a turn. The bytes are made, and nobody is told of the change.
fn carry_out<F: Folder>(
    alloc: Global,
    folder: &mut F,
    new: &str,
    name: &str,
    bytes: &[u8],
    step: Step,
) -> Answer
    requires new { new.now ≡ new_name name.now }
    requires within { IsWithin step (length bytes.now) }
    requires able { IsAble (F.holds_turn folder.old) step }
    ensures did { (es : List Event) → F.past folder.old es → (now : List Event) × F.past folder.new now × DidHere F.hides step result name.now bytes.now es now }
    ensures looked { IsLookedAt F.hides step result }
    ensures honest { IsTrue (F.honest folder.new) → IsTrue (F.honest folder.old) }
    ensures turn { F.holds_turn folder.new ≡ F.holds_turn folder.old }
    ensures read_only { F.holds_turn folder.old ≡ false → IsRefused step result }
    ensures untouched { F.holds_turn folder.old ≡ false → (es : List Event) → F.past folder.old es → F.past folder.new es }
    ensures whole { IsWhole step result (length bytes.now) }
    ensures count { IsCounted (F.failed folder.old) (F.failed folder.new) step result }
{
    match step {
        Step::Lock => answer_of(folder.take_turn(), 0),
        Step::Read => told_of(folder.look(name)),
        Step::Make => Answer::Yes(bytes.len()),
        Step::Create(bits) => answer_of(folder.create(alloc, new, bits), 0),
        Step::Append(at) => answer_of(folder.append(new, &bytes[at..]), bytes.len() - at),
        Step::Sync(bits) => answer_of(folder.sync(new, bits), 0),
        Step::SetAside => answer_of(folder.set_aside(alloc, name), 0),
        // No call of the host has two names change places, so a folder never asks for it: what can't be linked is not replaced.
        Step::Exchange => Answer::No(DEVICE),
        Step::Rename => answer_of(folder.rename(new, name), 0),
        Step::SyncFolder => answer_of(folder.sync_folder(), 0),
        Step::Remove => {
            if folder.remove(new) {
                Answer::Yes(0)
            } else {
                Answer::No(DEVICE)
            }
        }
        Step::Settle => Answer::No(DEVICE),
        Step::Note => Answer::Yes(0),
        Step::Unlock => Answer::Yes(0),
        Step::Done(_) => Answer::Yes(0),
    }
}

/// What a look found, as the turn is told it.
fn told_of(found: Result<Old, FolderFault>) -> Answer
    ensures { IsToldOf found result }
{
    match found {
        Ok(Old::Absent) => Answer::Yes(NO_FILE),
        Ok(Old::Bits(bits)) => Answer::Yes((bits % ALL_BITS) as usize),
        Ok(Old::SetAside(bits)) => Answer::Yes((ALL_BITS + bits % ALL_BITS) as usize),
        Err(_) => Answer::No(DEVICE),
    }
}

/// The answer to a call, with the number that its step asks for.
fn answer_of(done: Result<(), FolderFault>, n: usize) -> Answer
    ensures { result ≡ answer_of done n }
{
    match done {
        Ok(()) => Answer::Yes(n),
        Err(_) => Answer::No(DEVICE),
    }
}

fn result_of(outcome: Outcome) -> Result<(), FolderFault>
    ensures { result ≡ result_of outcome }
{
    match outcome {
        Outcome::Made => Ok(()),
        Outcome::Kept(_) => Err(FolderFault::Device),
        Outcome::Either(_) => Err(FolderFault::Device),
        Outcome::Unsettled(_) => Err(FolderFault::Device),
        Outcome::Same => Err(FolderFault::Device),
        Outcome::Unsynced(_) => Err(FolderFault::Device),
    }
}

fn replace_by<F: Folder>(
    alloc: Global,
    folder: &mut F,
    new: &str,
    name: &str,
    bytes: &[u8],
) -> Result<(), FolderFault>
    requires { new.now ≡ new_name name.now }
    ensures events { (es : List Event) → F.past folder.old es → OnOk result (F.past folder.new (settled_onto (staged_onto es (new_name name.now) bytes.now) (new_name name.now) name.now)) }
    ensures ok { (es : List Event) → F.past folder.old es → OnOk result ((now : List Event) × F.past folder.new now × Replaced es now name.now bytes.now) }
    ensures err { (es : List Event) → F.past folder.old es → OnErr result ((now : List Event) × F.past folder.new now × MaybeReplaced es now name.now bytes.now) }
    ensures drove { (es : List Event) → F.past folder.old es → (now : List Event) × F.past folder.new now × IsDriven F.hides result name.now bytes.now es now }
    ensures honest { IsTrue (F.honest folder.new) → IsTrue (F.honest folder.old) }
    ensures turn { F.holds_turn folder.new ≡ F.holds_turn folder.old }
    ensures held { OnOk result (F.holds_turn folder.old ≡ true) }
    ensures untouched { F.holds_turn folder.old ≡ false → (es : List Event) → F.past folder.old es → F.past folder.new es }
    ensures only { OnErr result (IsErrOf result FolderFault.Device) }
    ensures cause { HasCause (F.failed folder.old) (F.failed folder.new) result }
{
    let mut turn = Turn::begin();
    'steps: loop {
        let step = turn.next();
        if let Step::Done(outcome) = step {
            return result_of(outcome);
        }
        let answer = carry_out(alloc, folder, new, name, bytes, step);
        turn.answered(answer);
    }
}

/// Replaces the file of that name, so that a crash leaves the old bytes or the new ones, whole.
///
/// It writes the file `NAME.new` and renames it, so what that name held is lost. There may be no file of either name before.
/// `Memory` comes before anything is done. `Device` comes if a call of the folder failed: then the file holds the old bytes or the new
/// ones, and `NAME.new` is removed, unless that fails too. `TooBig` can't happen. It makes five calls, after a fault one more, and copies
/// the name and no byte.
pub fn replace<F: Folder>(
    alloc: Global,
    folder: &mut F,
    name: &str,
    bytes: &[u8],
) -> Result<(), FolderFault>
    // It made, filled and synced the new file, renamed it and synced the folder.
    ensures events { (es : List Event) → F.past folder.old es → OnOk result (F.past folder.new (settled_onto (staged_onto es (new_name name.now) bytes.now) (new_name name.now) name.now)) }

    // A crash at any moment of the call leaves what it might have left before it, or the bytes, and from now on the bytes.
    ensures ok { (es : List Event) → F.past folder.old es → OnOk result ((now : List Event) × F.past folder.new now × Replaced es now name.now bytes.now) }

    // However far it came, a crash at any moment leaves what it might have left before the call, or the bytes, and so does a read.
    ensures err { (es : List Event) → F.past folder.old es → OnErr result ((now : List Event) × F.past folder.new now × MaybeReplaced es now name.now bytes.now) }

    // A turn was driven to its end, step by step, and Ok is what it says if the change is made.
    ensures drove { (es : List Event) → F.past folder.old es → IsErrOf result FolderFault.Memory ⊎ ((now : List Event) × F.past folder.new now × IsDriven F.hides result name.now bytes.now es now) }

    // Who replaces a file holds the turn to before and after, and without it nothing is done.
    ensures turn { F.holds_turn folder.new ≡ F.holds_turn folder.old }
    ensures held { OnOk result (F.holds_turn folder.old ≡ true) }
    ensures untouched { F.holds_turn folder.old ≡ false → (es : List Event) → F.past folder.old es → F.past folder.new es }
    ensures honest { IsTrue (F.honest folder.new) → IsTrue (F.honest folder.old) }

    // A fault of the device is one failure more, and nothing else is.
    ensures cause { HasCause (F.failed folder.old) (F.failed folder.new) result }

    // Without memory nothing was done.
    ensures memory { IsErrOf result FolderFault.Memory → folder.new ≡ folder.old }
    ensures only { OnErr result (IsErrOf result FolderFault.Device ⊎ IsErrOf result FolderFault.Memory) }
{
    let mut new = String::from_str(alloc, name)?;
    new.push_str(".new")?;
    replace_by(alloc, folder, new.as_str(), name, bytes)
}
