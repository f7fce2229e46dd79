//! `explain KEY`: what each database has for a key, what is seen, and whether it can be set.
ghost use Rattle.std.specs.Prelude.{◌≡◌, IfOk, length, option_map, string_bytes};
ghost use Rattle.dconf_model.specs.Commands.Command.{explain as explain_of_key};
ghost use Rattle.dconf_model.specs.Databases.{gathered};
ghost use Rattle.dconf_model.specs.Explains.{columns, explained, lock_in, place_if_any, place_name, seen_line, told_lock, told_value, value_in, writable_line};
ghost use Rattle.dconf_model.specs.Layers.{origin, visible};
ghost use Rattle.dconf_model.specs.Outcomes.{IsOutcome, done};
ghost use Rattle.dconf_model.specs.Reads.{Input};
ghost use Rattle.dconf_path.specs.Paths.{key_text};
ghost use Rattle.dconf_path.specs.Profiles.{databases_of};
ghost use Rattle.dconf_streams.specs.Answers.{GivesOutcome};
ghost use Rattle.dconf_streams.specs.Readings.{Decides};

use super::origin::place_name;
use crate::arguments::key_argument;
use crate::printed_value::told_value;
use crate::store_files::StoreFiles;
use dconf_engine::Engine;
use dconf_folders::Folder;
use dconf_path::{KeyPath, Profile};
use dconf_streams::{Answer, Refusal, named_file};
use std::alloc::{AllocError, Global};

/// What `explain` answers.
pub(crate) fn explain<F: Folder>(
    alloc: Global,
    key: &str,
    profile: &str,
    folder: &mut F,
) -> Result<Answer, Refusal>
    ensures { (input : Input) → Decides F.Folder folder.old folder.new 0
        (λ reads. IsOutcome (explain_of_key key.now profile.now) reads input) result }
{
    let key = key_argument(alloc, key)?;
    let profile = named_file(alloc, folder, profile)?;
    let files = StoreFiles::read(alloc, folder, &profile)?;
    let engine = files.open(alloc)?;
    explained(alloc, &files.profile, &engine, key)
}

/// What `explain` answers of a store.
fn explained(
    alloc: Global,
    profile: &Profile<'_>,
    engine: &Engine<'_>,
    key: KeyPath<'_>,
) -> Result<Answer, Refusal>
    ensures { GivesOutcome result (λ o. o ≡ done (explained (databases_of profile.now) engine.now (key_text key.entry))) }
{
    Ok(Answer::Done(explained_text(alloc, profile, engine, key)?))
}

/// What explains a key.
pub(crate) fn explained_text(
    alloc: Global,
    profile: &Profile<'_>,
    engine: &Engine<'_>,
    key: KeyPath<'_>,
) -> Result<String, AllocError>
    ensures { IfOk result (λ text. string_bytes text ≡ explained (databases_of profile.entry.now) engine.entry.now (key_text key.entry)) }
{
    let databases = database_lines(alloc, profile, engine, key)?;
    let seen = seen_line(alloc, profile, engine, key)?;
    let writable = writable_line(engine.is_writable(), engine.is_locked(key));
    format!(in alloc; "{databases}{seen}{writable}")
}

/// What each database has for a key, a line each.
fn database_lines(
    alloc: Global,
    profile: &Profile<'_>,
    engine: &Engine<'_>,
    key: KeyPath<'_>,
) -> Result<String, AllocError>
    ensures { IfOk result (λ lines. string_bytes lines ≡ gathered (λ i. columns (place_name (databases_of profile.entry.now) i)
        (told_value (value_in engine.entry.now (key_text key.entry) i)) (told_lock (lock_in engine.entry.now (key_text key.entry) i))) (length (databases_of profile.entry.now))) }
{
    let mut lines = String::new(alloc);
    for i in 0..profile.databases().len() {
        let line = database_line(alloc, profile, engine, key, i)?;
        lines.push_str(line.as_str())?;
    }
    Ok(lines)
}

/// What the database with this index has for a key, as a line.
fn database_line(
    alloc: Global,
    profile: &Profile<'_>,
    engine: &Engine<'_>,
    key: KeyPath<'_>,
    i: usize,
) -> Result<String, AllocError>
    ensures { IfOk result (λ line. string_bytes line ≡ columns (place_name (databases_of profile.entry.now) i)
        (told_value (value_in engine.entry.now (key_text key.entry) i)) (told_lock (lock_in engine.entry.now (key_text key.entry) i))) }
{
    let place = place_name(alloc, profile, i)?;
    let value = told_value(alloc, engine.value_in(i, key))?;
    let lock = told_lock(alloc, engine.lock_in(i, key))?;
    format!(in alloc; "{place}\t{value}\t{lock}\n")
}

/// The lock by which a database locks a key, if it does.
fn told_lock(alloc: Global, lock: Option<&str>) -> Result<String, AllocError>
    ensures { IfOk result (λ text. string_bytes text ≡ told_lock (option_map (λ lock. lock.now) lock.entry)) }
{
    match lock {
        Some(lock) => format!(in alloc; "locks {lock}"),
        None => Ok(String::new(alloc)),
    }
}

/// What is seen at a key, and the database that has it, as a line.
fn seen_line(
    alloc: Global,
    profile: &Profile<'_>,
    engine: &Engine<'_>,
    key: KeyPath<'_>,
) -> Result<String, AllocError>
    ensures { IfOk result (λ line. string_bytes line ≡ seen_line (databases_of profile.entry.now)
        (visible engine.entry.now (key_text key.entry)) (origin engine.entry.now (key_text key.entry))) }
{
    let value = told_value(alloc, engine.read(key))?;
    let place = place_if_any(alloc, profile, engine.origin(key))?;
    format!(in alloc; "seen\t{value}\t{place}\n")
}

/// A database by its index, if there is one.
fn place_if_any(
    alloc: Global,
    profile: &Profile<'_>,
    place: Option<usize>,
) -> Result<String, AllocError>
    ensures { IfOk result (λ text. string_bytes text ≡ place_if_any (databases_of profile.entry.now) place) }
{
    match place {
        Some(i) => place_name(alloc, profile, i),
        None => Ok(String::new(alloc)),
    }
}

/// Whether a key can be set, or why `write` refuses it, as a line.
fn writable_line(writable: bool, locked: bool) -> &'static str
    ensures { result.now ≡ writable_line writable locked }
{
    if !writable {
        "writable\tno\tNotWritable\n"
    } else if locked {
        "writable\tno\tLocked\n"
    } else {
        "writable\tyes\t\n"
    }
}
