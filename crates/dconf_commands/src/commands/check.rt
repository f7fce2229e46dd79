//! `check FILE`: whether the file is a sound database.
ghost use Rattle.std.specs.Prelude.{◌≡◌, ◌++◌, ◌∷◌, [], Err, IfSome, codes};
ghost use Rattle.dconf_model.specs.Databases.{Verdict};
ghost use Rattle.dconf_model.specs.Commands.Command.{check as check_of};
ghost use Rattle.dconf_model.specs.Outcomes.{Checks, IsOutcome, check_output};
ghost use Rattle.dconf_model.specs.Reads.{Input};
ghost use Rattle.dconf_streams.specs.Answers.{GivesOutcome, refused_by};
ghost use Rattle.dconf_streams.specs.Readings.{Decides};

use dconf_folders::Folder;
use dconf_streams::{Answer, Refusal, file, refused};
use gvdb_read::Table;
use std::alloc::Global;
use std::fmt::Display;

/// What `check` answers.
pub(crate) fn check<F: Folder>(alloc: Global, name: &str, folder: &mut F) -> Result<Answer, Refusal>
    ensures { (input : Input) → Decides F.Folder folder.old folder.new 0
        (λ reads. IsOutcome (check_of name.now) reads input) result }
{
    let bytes = file(alloc, folder, name)?;
    checked(alloc, &bytes)
}

/// What `check` answers for the bytes of the file.
fn checked(alloc: Global, bytes: &[u8]) -> Result<Answer, Refusal>
    ensures { GivesOutcome result (Checks bytes.now) }
{
    let table = match Table::open(bytes) {
        Ok(table) => table,
        Err(fault) => return Err(refused(alloc, fault)),
    };
    match table.check() {
        Ok(()) => sound(alloc),
        Err(fault) => Err(unsound(alloc, fault)),
    }
}

/// The answer for a sound database.
fn sound(alloc: Global) -> Result<Answer, Refusal>
    ensures { GivesOutcome result (λ o. o ≡ check_output Verdict.sound) }
{
    Ok(Answer::Done(String::from_str(alloc, "sound\n")?))
}

/// The refusal of a database that breaks a rule: `unsound: `, the fault and a line feed.
fn unsound<D: Display + Drop>(alloc: Global, fault: D) -> Refusal
    ensures { IfSome (D.output fault)
        (λ text. GivesOutcome (Err result) (λ o. o ≡ refused_by (codes "unsound: " ++ (text ++ 10 ∷ [])))) }
{
    match format!(in alloc; "unsound: {fault}\n") {
        Ok(line) => Refusal::Fault(line),
        Err(_) => Refusal::Memory,
    }
}
