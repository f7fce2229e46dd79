//! `read [-d] KEY`: the value that is seen at a key.
ghost use Rattle.std.specs.Prelude.{◌≡◌, if◌then◌else◌};
ghost use Rattle.dconf_model.specs.Commands.Command.{read as read_of};
ghost use Rattle.dconf_model.specs.Layers.{visible, without_user};
ghost use Rattle.dconf_model.specs.Outcomes.{IsOutcome, shown_if_any};
ghost use Rattle.dconf_model.specs.Reads.{Input};
ghost use Rattle.dconf_path.specs.Paths.{key_text};
ghost use Rattle.dconf_streams.specs.Answers.{GivesOutcome};
ghost use Rattle.dconf_streams.specs.Readings.{Decides};

use crate::arguments::key_argument;
use crate::printed_value::printed;
use crate::store_files::StoreFiles;
use dconf_engine::Engine;
use dconf_folders::Folder;
use dconf_path::KeyPath;
use dconf_streams::{Answer, Refusal, named_file};
use std::alloc::Global;

/// What `read` answers, with or without the user's value.
pub(crate) fn read<F: Folder>(
    alloc: Global,
    default: bool,
    key: &str,
    profile: &str,
    folder: &mut F,
) -> Result<Answer, Refusal>
    ensures { (input : Input) → Decides F.Folder folder.old folder.new 0
        (λ reads. IsOutcome (read_of default key.now profile.now) reads input) result }
{
    let key = key_argument(alloc, key)?;
    let profile = named_file(alloc, folder, profile)?;
    let files = StoreFiles::read(alloc, folder, &profile)?;
    let engine = files.open(alloc)?;
    seen(alloc, &engine, key, default)
}

/// What `read` answers of a store.
fn seen(
    alloc: Global,
    engine: &Engine<'_>,
    key: KeyPath<'_>,
    default: bool,
) -> Result<Answer, Refusal>
    ensures { GivesOutcome result (λ o. o ≡ shown_if_any (visible (if default then without_user engine.now else engine.now) (key_text key.entry))) }
{
    let value = if default {
        engine.read_default(key)
    } else {
        engine.read(key)
    };
    match value {
        Some(view) => printed(alloc, view),
        None => Ok(Answer::Done(String::new(alloc))),
    }
}
