//! `reset [-f] PATH`: the user's value of a key is taken away, or those of all keys below a directory.
ghost use Rattle.std.specs.Prelude.{[], ◌∷◌};
ghost use Rattle.dconf_model.specs.Changes.{Change.reset_below_directory, Change.reset_value, apply};
ghost use Rattle.dconf_model.specs.Commands.Command.{reset as reset_of_key, reset_below as reset_of_directory};
ghost use Rattle.dconf_model.specs.Outcomes.{IsOutcome, Saves};
ghost use Rattle.dconf_model.specs.Profiles.{user_file};
ghost use Rattle.dconf_model.specs.Reads.{Input};
ghost use Rattle.command_words.specs.Commands.{resetting};
ghost use Rattle.dconf_path.specs.Paths.{directory_text, key_text};
ghost use Rattle.dconf_path.specs.Profiles.{databases_of};
ghost use Rattle.dconf_streams.specs.Answers.{GivesOutcome};
ghost use Rattle.dconf_streams.specs.Readings.{Decides};

use crate::arguments::{directory_argument, key_argument};
use crate::store_files::StoreFiles;
use crate::user_database::{change_refused, saved};
use dconf_engine::Engine;
use dconf_folders::Folder;
use dconf_path::{DirPath, KeyPath, Profile};
use dconf_streams::{Answer, Refusal, named_file};
use std::alloc::Global;

/// What `reset` answers, of a key or with `force` of a directory.
pub(crate) fn reset<F: Folder>(
    alloc: Global,
    force: bool,
    path: &str,
    profile: &str,
    folder: &mut F,
) -> Result<Answer, Refusal>
    ensures { (input : Input) → Decides F.Folder folder.old folder.new 0
        (λ reads. IsOutcome (resetting force path.now profile.now) reads input) result }
{
    if force {
        reset_below(alloc, path, profile, folder)
    } else {
        reset_key(alloc, path, profile, folder)
    }
}

/// What `reset` answers of a key.
fn reset_key<F: Folder>(
    alloc: Global,
    key: &str,
    profile: &str,
    folder: &mut F,
) -> Result<Answer, Refusal>
    ensures { (input : Input) → Decides F.Folder folder.old folder.new 0
        (λ reads. IsOutcome (reset_of_key key.now profile.now) reads input) result }
{
    let key = key_argument(alloc, key)?;
    let profile = named_file(alloc, folder, profile)?;
    let files = StoreFiles::read(alloc, folder, &profile)?;
    let engine = files.open(alloc)?;
    without_key(alloc, &files.profile, engine, key)
}

/// What `reset` answers of a directory.
fn reset_below<F: Folder>(
    alloc: Global,
    directory: &str,
    profile: &str,
    folder: &mut F,
) -> Result<Answer, Refusal>
    ensures { (input : Input) → Decides F.Folder folder.old folder.new 0
        (λ reads. IsOutcome (reset_of_directory directory.now profile.now) reads input) result }
{
    let directory = directory_argument(alloc, directory)?;
    let profile = named_file(alloc, folder, profile)?;
    let files = StoreFiles::read(alloc, folder, &profile)?;
    let engine = files.open(alloc)?;
    without_directory(alloc, &files.profile, engine, directory)
}

/// What `reset` answers of a key and a store.
fn without_key(
    alloc: Global,
    profile: &Profile<'_>,
    mut engine: Engine<'_>,
    key: KeyPath<'_>,
) -> Result<Answer, Refusal>
    ensures { GivesOutcome result (Saves (key_text key.entry ∷ []) (user_file (databases_of profile.now)) (apply engine.entry (reset_value (key_text key.entry)))) }
{
    match engine.reset(key) {
        Ok(()) => saved(alloc, profile, engine),
        Err(fault) => Err(change_refused(alloc, fault, key.as_str())),
    }
}

/// What `reset` answers of a directory and a store.
fn without_directory(
    alloc: Global,
    profile: &Profile<'_>,
    mut engine: Engine<'_>,
    directory: DirPath<'_>,
) -> Result<Answer, Refusal>
    ensures { GivesOutcome result (Saves [] (user_file (databases_of profile.now)) (apply engine.entry (reset_below_directory (directory_text directory.entry)))) }
{
    match engine.reset_dir(directory) {
        Ok(()) => saved(alloc, profile, engine),
        // No path of it is looked at for locks.
        Err(fault) => Err(change_refused(alloc, fault, "")),
    }
}
