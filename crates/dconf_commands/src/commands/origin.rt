//! `origin KEY`: the database whose value is seen at a key.
ghost use Rattle.std.specs.Prelude.{◌≡◌, IfOk, string_bytes};
ghost use Rattle.dconf_model.specs.Commands.Command.{origin as origin_of_key};
ghost use Rattle.dconf_model.specs.Explains.{place_name};
ghost use Rattle.dconf_model.specs.Outcomes.{IsOutcome, done, origin_text, place_text};
ghost use Rattle.dconf_model.specs.Profiles.{kind_text};
ghost use Rattle.dconf_model.specs.Reads.{Input};
ghost use Rattle.dconf_path.specs.Profiles.{databases_of, kind_of};
ghost use Rattle.dconf_streams.specs.Answers.{GivesOutcome};
ghost use Rattle.dconf_streams.specs.Readings.{Decides};

use crate::arguments::key_argument;
use crate::store_files::StoreFiles;
use dconf_folders::Folder;
use dconf_path::{DatabaseKind, Profile};
use dconf_streams::{Answer, Refusal, named_file};
use std::alloc::{AllocError, Global};

/// What `origin` answers.
pub(crate) fn origin<F: Folder>(
    alloc: Global,
    key: &str,
    profile: &str,
    folder: &mut F,
) -> Result<Answer, Refusal>
    ensures { (input : Input) → Decides F.Folder folder.old folder.new 0
        (λ reads. IsOutcome (origin_of_key key.now profile.now) reads input) result }
{
    let key = key_argument(alloc, key)?;
    let profile = named_file(alloc, folder, profile)?;
    let files = StoreFiles::read(alloc, folder, &profile)?;
    let engine = files.open(alloc)?;
    named(alloc, &files.profile, engine.origin(key))
}

/// What `origin` answers of the index of a database, if there is one.
fn named(alloc: Global, profile: &Profile<'_>, place: Option<usize>) -> Result<Answer, Refusal>
    ensures { GivesOutcome result (λ o. o ≡ done (origin_text (databases_of profile.now) place)) }
{
    match place {
        Some(i) => placed(alloc, profile, i),
        None => Ok(Answer::Done(String::new(alloc))),
    }
}

/// The index of a database, and its line of the profile, as a line.
fn placed(alloc: Global, profile: &Profile<'_>, i: usize) -> Result<Answer, Refusal>
    ensures { GivesOutcome result (λ o. o ≡ done (place_text (databases_of profile.now) i)) }
{
    let mut line = place_name(alloc, profile, i)?;
    line.push('\n')?;
    Ok(Answer::Done(line))
}

/// The index of a database, and its line of the profile.
pub fn place_name(alloc: Global, profile: &Profile<'_>, i: usize) -> Result<String, AllocError>
    ensures { IfOk result (λ text. string_bytes text ≡ place_name (databases_of profile.entry.now) i) }
{
    match profile.databases().get(i) {
        Some(database) => {
            let (kind, name) = (kind_word(database.kind), database.name);
            format!(in alloc; "{i} {kind}{name}")
        }
        None => format!(in alloc; "{i} "),
    }
}

/// How a line of the profile begins.
fn kind_word(kind: DatabaseKind) -> &'static str
    ensures { result.now ≡ kind_text (kind_of kind) }
{
    match kind {
        DatabaseKind::User => "user-db:",
        DatabaseKind::System => "system-db:",
        DatabaseKind::File => "file-db:",
    }
}
