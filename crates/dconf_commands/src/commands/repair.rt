//! `repair FILE OUT`: a sound database of what can be saved of another.
ghost use Rattle.std.specs.Prelude.{◌≡◌, IfOk, string_bytes, vec_items};
ghost use Rattle.dconf_model.specs.Commands.Command.{repair as repair_of};
ghost use Rattle.dconf_model.specs.Outcomes.{IsOutcome, Repairs, Writes, changing, kept_text};
ghost use Rattle.dconf_model.specs.Reads.{Input};
ghost use Rattle.dconf_streams.specs.Answers.{GivesOutcome};
ghost use Rattle.dconf_streams.specs.Readings.{Decides};

use dconf_folders::Folder;
use dconf_streams::{Answer, Refusal, file, refused};
use gvdb_write::{Map, SalvageFault, WriteFault, salvage, write};
use std::alloc::{AllocError, Global};

/// What `repair` answers. The file is read whole before anything is written, so `out` may be the file itself.
pub(crate) fn repair<F: Folder>(
    alloc: Global,
    name: &str,
    out: &str,
    folder: &mut F,
) -> Result<Answer, Refusal>
    ensures { (input : Input) → Decides F.Folder folder.old folder.new 0
        (λ reads. IsOutcome (repair_of name.now out.now) reads input) result }
{
    let bytes = file(alloc, folder, name)?;
    repaired(alloc, bytes, out)
}

/// What `repair` answers for the bytes of the file, which are let go once what can be saved is copied.
fn repaired(alloc: Global, bytes: Vec<u8>, out: &str) -> Result<Answer, Refusal>
    ensures { GivesOutcome result (Repairs out.now (vec_items bytes)) }
{
    match salvage(alloc, &bytes) {
        Ok(map) => {
            drop(bytes);
            rewritten(alloc, &map, out)
        }
        Err(SalvageFault::Fault(fault)) => Err(refused(alloc, fault)),
        Err(SalvageFault::Memory) => Err(Refusal::Memory),
    }
}

/// The answer that puts a database of the map into the place of `out`, unless that would be too big.
fn rewritten(alloc: Global, map: &Map, out: &str) -> Result<Answer, Refusal>
    ensures { GivesOutcome result (Writes out.now (kept_text map.now) map.now) }
{
    match write(alloc, map) {
        Ok(bytes) => changed(alloc, map, out, bytes),
        Err(WriteFault::Fault(fault)) => Err(refused(alloc, fault)),
        Err(WriteFault::Memory) => Err(Refusal::Memory),
    }
}

/// The answer that puts these bytes into the place of `out`, and then says what was kept.
fn changed(alloc: Global, map: &Map, out: &str, bytes: Vec<u8>) -> Result<Answer, Refusal>
    ensures { GivesOutcome result (λ o. o ≡ changing out.now (vec_items bytes) (kept_text map.now)) }
{
    Ok(Answer::Changed {
        file: String::from_str(alloc, out)?,
        bytes,
        text: kept_line(alloc, map)?,
    })
}

/// How many keys and locks were kept, as a line.
fn kept_line(alloc: Global, map: &Map) -> Result<String, AllocError>
    ensures { IfOk result (λ line. string_bytes line ≡ kept_text map.now) }
{
    let keys = map.key_count();
    let locks = map.lock_count();
    format!(in alloc; "kept {keys} keys, {locks} locks\n")
}
