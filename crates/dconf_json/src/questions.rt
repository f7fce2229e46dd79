//! What is asked of a store, and answered as JSON.
ghost use Rattle.std.specs.Prelude.{◌≡◌, Err, IfErr, IfOk, List, None, OnOk, string_bytes};
ghost use Rattle.dconf_model.specs.Layers.{Layers, all_paths};
ghost use Rattle.dconf_model.specs.Outcomes.{UnlessFault, done};
ghost use Rattle.dconf_model.specs.Profiles.{Database};
ghost use Rattle.dconf_model.specs.Walks.{keys_below};
ghost use Rattle.dconf_path.specs.Paths.{directory_text, key_text};
ghost use Rattle.dconf_path.specs.Profiles.{databases_of};
ghost use Rattle.dconf_layers.specs.LayerSettings.{seen_in};
ghost use Rattle.dconf_streams.specs.Answers.{GivesOutcome, NoOutcome};
ghost use Rattle.dconf_streams.specs.Readings.{Decides};
ghost use Rattle.dconf_json.specs.Explained.{explanations};
ghost use Rattle.dconf_json.specs.Answers.{AnswersAsJson, names_text, parsed_text, question_fault, text_for, value_text, values_text};

use crate::explained::{explanation, explanations};
use crate::lines::{members_line, names_line, value_line};
use dconf_commands::{StoreFiles, directory_argument, key_argument};
use dconf_engine::{Engine, is_of_user};
use dconf_folders::Folder;
use dconf_layers::LentLayers;
use dconf_path::{DirPath, KeyPath, Profile};
use dconf_streams::{Answer, Refusal, named_file};
use std::alloc::{AllocError, Global};

/// What is asked of a store.
#[derive(Clone, Copy, Debug)]
pub enum Question<'a> {
    /// The value that is seen at a key, as `read` has it, or, as `read -d`, without the user's values.
    Value { default: bool, key: &'a str },
    /// The names of what a directory has, as `list`.
    Names { directory: &'a str },
    /// The values that are seen below a directory, as `dump`. Those that hold a double may be skipped.
    Values { skips: bool, directory: &'a str },
    /// What explains a key, as `explain`.
    Explained { key: &'a str },
    /// What explains each key below a directory.
    ExplainedBelow { directory: &'a str },
}

/// The same, with its path.
#[derive(Clone, Copy)]
enum Parsed<'a> {
    Value { default: bool, key: KeyPath<'a> },
    Names { directory: DirPath<'a> },
    Values { skips: bool, directory: DirPath<'a> },
    Explained { key: KeyPath<'a> },
    ExplainedBelow { directory: DirPath<'a> },
}

/// What is answered of the store of a profile: lines of JSON, each with its line feed.
///
/// It refuses what the command refuses, but for values: each has its tokens. It takes memory for the bytes of the files, for the keys, and for the
/// text.
pub fn answered_as_json<F: Folder>(
    alloc: Global,
    question: Question<'_>,
    profile: &str,
    folder: &mut F,
) -> Result<Answer, Refusal>
    ensures { Decides F.Folder folder.old folder.new 0 (λ reads. AnswersAsJson question.entry profile.now reads) result }
{
    let parsed = with_path(alloc, question)?;
    let profile = named_file(alloc, folder, profile)?;
    let files = StoreFiles::read(alloc, folder, &profile)?;
    let layers = files.layers(alloc)?;
    let lent = LentLayers::new(is_of_user(&files.profile), &layers);
    answer(alloc, parsed, &files.profile, lent)
}

/// The answer, of the layers of a profile.
fn answer(
    alloc: Global,
    parsed: Parsed<'_>,
    profile: &Profile<'_>,
    layers: LentLayers<'_, '_>,
) -> Result<Answer, Refusal>
    ensures { GivesOutcome result (λ o. o ≡ done (parsed_text parsed.entry (databases_of profile.now) (seen_in layers.entry))) }
{
    let text = text_for(alloc, parsed, profile, layers)?;
    Ok(Answer::Done(text))
}

/// The question with its path, or the refusal of that.
fn with_path<'a>(alloc: Global, question: Question<'a>) -> Result<Parsed<'a>, Refusal>
    ensures ok { IfOk result (λ parsed. (databases : List Database) (l : Layers) → parsed_text parsed databases l ≡ text_for question.entry databases l) }
    ensures faultless { OnOk result (question_fault question.entry ≡ None) }
    ensures err { IfErr result (λ refusal. GivesOutcome (Err refusal) (UnlessFault (question_fault question.entry) NoOutcome)) }
{
    match question {
        Question::Value { default, key } => {
            let key = key_argument(alloc, key)?;
            Ok(Parsed::Value { default, key })
        }
        Question::Names { directory } => {
            let directory = directory_argument(alloc, directory)?;
            Ok(Parsed::Names { directory })
        }
        Question::Values { skips, directory } => {
            let directory = directory_argument(alloc, directory)?;
            Ok(Parsed::Values { skips, directory })
        }
        Question::Explained { key } => {
            let key = key_argument(alloc, key)?;
            Ok(Parsed::Explained { key })
        }
        Question::ExplainedBelow { directory } => {
            let directory = directory_argument(alloc, directory)?;
            Ok(Parsed::ExplainedBelow { directory })
        }
    }
}

/// Its text.
fn text_for(
    alloc: Global,
    parsed: Parsed<'_>,
    profile: &Profile<'_>,
    layers: LentLayers<'_, '_>,
) -> Result<String, AllocError>
    ensures { IfOk result (λ text. string_bytes text ≡ parsed_text parsed.entry (databases_of profile.now) (seen_in layers.entry)) }
{
    match parsed {
        Parsed::Value { default, key } => value_at(alloc, layers, default, key),
        Parsed::Names { directory } => names_in(alloc, layers, directory),
        Parsed::Values { skips, directory } => values_below(alloc, layers, skips, directory),
        Parsed::Explained { key } => explanation(alloc, profile, layers, key),
        Parsed::ExplainedBelow { directory } => explained_below(alloc, profile, layers, directory),
    }
}

/// The value that is seen at a key, with or without the user's values.
fn value_at(
    alloc: Global,
    layers: LentLayers<'_, '_>,
    default: bool,
    key: KeyPath<'_>,
) -> Result<String, AllocError>
    ensures { IfOk result (λ text. string_bytes text ≡ value_text default (key_text key.entry) (seen_in layers.entry)) }
{
    let place = if default {
        layers.default_place(key)
    } else {
        layers.place_from(layers.level(key), key)
    };
    match place {
        Some((_, bytes)) => value_line(alloc, Some(bytes)),
        None => value_line(alloc, None),
    }
}

/// The names of what a directory has.
fn names_in(
    alloc: Global,
    layers: LentLayers<'_, '_>,
    directory: DirPath<'_>,
) -> Result<String, AllocError>
    ensures { IfOk result (λ text. string_bytes text ≡ names_text (directory_text directory.entry) (seen_in layers.entry)) }
{
    let engine = Engine::of_layers(alloc, layers.writable, layers.layers)?;
    names_line(alloc, &engine.list(alloc, directory)?)
}

/// The values that are seen below a directory.
fn values_below(
    alloc: Global,
    layers: LentLayers<'_, '_>,
    skips: bool,
    directory: DirPath<'_>,
) -> Result<String, AllocError>
    ensures { IfOk result (λ text. string_bytes text ≡ values_text skips (directory_text directory.entry) (seen_in layers.entry)) }
{
    members_line(alloc, skips, &layers.keys_below(alloc, directory)?)
}

/// What explains each key below a directory.
fn explained_below(
    alloc: Global,
    profile: &Profile<'_>,
    layers: LentLayers<'_, '_>,
    directory: DirPath<'_>,
) -> Result<String, AllocError>
    ensures { IfOk result (λ text. string_bytes text ≡ explanations (databases_of profile.now) (seen_in layers.entry)
        (keys_below (all_paths (seen_in layers.entry).layers) (directory_text directory.entry))) }
{
    let keys = layers.keys_below(alloc, directory)?;
    let text = explanations(alloc, profile, layers, &keys)?;
    Ok(text)
}
