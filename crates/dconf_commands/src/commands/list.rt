//! `list DIR` and `list-locks DIR`: what a directory has, and the locks below it.
ghost use Rattle.std.specs.Prelude.{◌≡◌, map, string_bytes};
ghost use Rattle.dconf_model.specs.Commands.Command.{list as list_of, list_locks as list_locks_of};
ghost use Rattle.dconf_model.specs.Layers.{child_names, locks_below};
ghost use Rattle.dconf_model.specs.Outcomes.{IsOutcome, done, lines_text};
ghost use Rattle.dconf_model.specs.Reads.{Input};
ghost use Rattle.dconf_path.specs.Paths.{directory_text};
ghost use Rattle.dconf_streams.specs.Answers.{GivesOutcome};
ghost use Rattle.dconf_streams.specs.Readings.{Decides};

use crate::arguments::directory_argument;
use crate::store_files::StoreFiles;
use dconf_engine::Engine;
use dconf_folders::Folder;
use dconf_path::DirPath;
use dconf_streams::{Answer, Refusal, named_file};
use std::alloc::Global;

/// What `list` answers.
pub(crate) fn list<F: Folder>(
    alloc: Global,
    directory: &str,
    profile: &str,
    folder: &mut F,
) -> Result<Answer, Refusal>
    ensures { (input : Input) → Decides F.Folder folder.old folder.new 0
        (λ reads. IsOutcome (list_of directory.now profile.now) reads input) result }
{
    let directory = directory_argument(alloc, directory)?;
    let profile = named_file(alloc, folder, profile)?;
    let files = StoreFiles::read(alloc, folder, &profile)?;
    let engine = files.open(alloc)?;
    children(alloc, &engine, directory)
}

/// What `list-locks` answers.
pub(crate) fn list_locks<F: Folder>(
    alloc: Global,
    directory: &str,
    profile: &str,
    folder: &mut F,
) -> Result<Answer, Refusal>
    ensures { (input : Input) → Decides F.Folder folder.old folder.new 0
        (λ reads. IsOutcome (list_locks_of directory.now profile.now) reads input) result }
{
    let directory = directory_argument(alloc, directory)?;
    let profile = named_file(alloc, folder, profile)?;
    let files = StoreFiles::read(alloc, folder, &profile)?;
    let engine = files.open(alloc)?;
    locks(alloc, &engine, directory)
}

/// What `list` answers of a store.
fn children(alloc: Global, engine: &Engine<'_>, directory: DirPath<'_>) -> Result<Answer, Refusal>
    ensures { GivesOutcome result (λ o. o ≡ done (lines_text (child_names engine.now (directory_text directory.entry)))) }
{
    lines(alloc, &engine.list(alloc, directory)?)
}

/// What `list-locks` answers of a store.
fn locks(alloc: Global, engine: &Engine<'_>, directory: DirPath<'_>) -> Result<Answer, Refusal>
    ensures { GivesOutcome result (λ o. o ≡ done (lines_text (locks_below engine.now (directory_text directory.entry)))) }
{
    lines(alloc, &engine.locks(alloc, directory)?)
}

/// The answer of these lines.
fn lines(alloc: Global, texts: &[String]) -> Result<Answer, Refusal>
    ensures { GivesOutcome result (λ o. o ≡ done (lines_text (map string_bytes texts.now))) }
{
    let mut lines = String::new(alloc);
    for text in texts {
        lines.push_str(text.as_str())?;
        lines.push('\n')?;
    }
    Ok(Answer::Done(lines))
}
