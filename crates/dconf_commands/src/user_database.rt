//! Answers of the commands that change the user's values: the user's database takes the place of its file, or the change is
//! refused.
ghost use Rattle.std.specs.Prelude.{◌≡◌, ℕ, List, [], Err, IfErr, IfOk, string_bytes};
ghost use Rattle.dconf_model.specs.Changes.{saved};
ghost use Rattle.dconf_model.specs.Databases.{IsDatabaseOf};
ghost use Rattle.dconf_model.specs.Outcomes.{Writes};
ghost use Rattle.dconf_model.specs.Profiles.{user_file};
ghost use Rattle.dconf_model.specs.Settings.{Settings};
ghost use Rattle.gvdb_maps.specs.Limits.{IsRefusal};
ghost use Rattle.dconf_path.specs.Profiles.{databases_of};
ghost use Rattle.refused.specs.Faults.{fault_in};
ghost use Rattle.dconf_engine.specs.ChangeFaults.{refusal_of};
ghost use Rattle.dconf_streams.specs.Answers.{GivesOutcome};
ghost use Rattle.dconf_commands.specs.Refusals.{IsLockedPath, RefusedFor};

use dconf_engine::{ChangeFault, ChangeFlaw, Engine};
use dconf_path::Profile;
use dconf_places::file_name;
use dconf_streams::{Answer, Refusal, refused};
use gvdb_write::WriteFault;
use std::alloc::{AllocError, Global};

/// The answer that puts the user's database, with all changes, into the place of its file.
pub(crate) fn saved(
    alloc: Global,
    profile: &Profile<'_>,
    engine: Engine<'_>,
) -> Result<Answer, Refusal>
    ensures { GivesOutcome result (Writes (user_file (databases_of profile.now)) [] (saved engine.entry.layers)) }
{
    saved_saying(alloc, profile, engine.into_saved(), String::new(alloc))
}

/// The answer that puts a written database there, and prints this text.
pub(crate) fn saved_saying(
    alloc: Global,
    profile: &Profile<'_>,
    written: Result<Vec<u8>, WriteFault>,
    text: String,
) -> Result<Answer, Refusal>
    ensures { (s : Settings) → IfOk written (λ file. IsDatabaseOf s file.items) → IfErr written (IsRefusal s)
        → GivesOutcome result (Writes (user_file (databases_of profile.now)) (string_bytes text) s) }
{
    match written {
        Ok(bytes) => Ok(Answer::Changed {
            file: user_file(alloc, profile)?,
            bytes,
            text,
        }),
        Err(WriteFault::Fault(fault)) => Err(refused(alloc, fault)),
        Err(WriteFault::Memory) => Err(Refusal::Memory),
    }
}

/// The refusal of a change. The path is the locked one, where one is.
pub(crate) fn change_refused(alloc: Global, fault: ChangeFault, path: &str) -> Refusal
    ensures { (paths : List (List ℕ)) → IsLockedPath paths (fault_in refusal_of fault) path.now → GivesOutcome (Err result) (RefusedFor paths (fault_in refusal_of fault)) }
{
    match fault {
        ChangeFault::Fault(ChangeFlaw::Locked(_)) => refused(alloc, format_args!("Locked {path}")),
        ChangeFault::Fault(ChangeFlaw::NotWritable) => refused(alloc, fault),
        ChangeFault::Fault(ChangeFlaw::TooLarge) => refused(alloc, fault),
        ChangeFault::Memory => Refusal::Memory,
    }
}

/// The name of the file that holds the first database.
fn user_file(alloc: Global, profile: &Profile<'_>) -> Result<String, AllocError>
    ensures { IfOk result (λ name. string_bytes name ≡ user_file (databases_of profile.now)) }
{
    match profile.databases().first() {
        Some(database) => file_name(alloc, *database),
        None => Ok(String::new(alloc)),
    }
}
