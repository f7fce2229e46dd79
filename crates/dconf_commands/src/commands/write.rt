//! `write KEY VALUE`: the user's value of a key is set.
ghost use Rattle.std.specs.Prelude.{[], ◌∷◌};
ghost use Rattle.dconf_model.specs.Changes.{Change.set_value, apply};
ghost use Rattle.dconf_model.specs.Commands.Command.{write as write_of};
ghost use Rattle.dconf_model.specs.Outcomes.{IsOutcome, Saves};
ghost use Rattle.dconf_model.specs.Profiles.{user_file};
ghost use Rattle.dconf_model.specs.Reads.{Input};
ghost use Rattle.dconf_path.specs.Paths.{key_text};
ghost use Rattle.dconf_path.specs.Profiles.{databases_of};
ghost use Rattle.dconf_streams.specs.Answers.{GivesOutcome};
ghost use Rattle.dconf_streams.specs.Readings.{Decides};

use crate::arguments::{key_argument, value_argument};
use crate::store_files::StoreFiles;
use crate::user_database::{change_refused, saved};
use dconf_engine::Engine;
use dconf_folders::Folder;
use dconf_path::{KeyPath, Profile};
use dconf_streams::{Answer, Refusal, named_file};
use gv_tree::Tree;
use std::alloc::Global;

/// What `write` answers. The words are looked at before anything is read.
pub(crate) fn write<F: Folder>(
    alloc: Global,
    key: &str,
    value: &str,
    profile: &str,
    folder: &mut F,
) -> Result<Answer, Refusal>
    ensures { (input : Input) → Decides F.Folder folder.old folder.new 0
        (λ reads. IsOutcome (write_of key.now value.now profile.now) reads input) result }
{
    let key = key_argument(alloc, key)?;
    let value = value_argument(alloc, value)?;
    let profile = named_file(alloc, folder, profile)?;
    let files = StoreFiles::read(alloc, folder, &profile)?;
    let engine = files.open(alloc)?;
    with_value(alloc, &files.profile, engine, key, &value)
}

/// What `write` answers of a store.
fn with_value(
    alloc: Global,
    profile: &Profile<'_>,
    mut engine: Engine<'_>,
    key: KeyPath<'_>,
    value: &Tree,
) -> Result<Answer, Refusal>
    ensures { GivesOutcome result (Saves (key_text key.entry ∷ []) (user_file (databases_of profile.now)) (apply engine.entry (set_value (key_text key.entry) value.now))) }
{
    match engine.write(key, value) {
        Ok(()) => saved(alloc, profile, engine),
        Err(fault) => Err(change_refused(alloc, fault, key.as_str())),
    }
}
