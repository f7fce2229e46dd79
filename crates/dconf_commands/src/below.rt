//! `explain DIR`: what explains each key below a directory.
ghost use Rattle.std.specs.Prelude.{◌≡◌, IfOk, IsTrue, map, string_bytes};
ghost use Rattle.std.specs.List.{All};
ghost use Rattle.dconf_model.specs.Outcomes.{done};
ghost use Rattle.dconf_model.specs.Paths.{is_key_path};
ghost use Rattle.dconf_model.specs.Profiles.{has_writable};
ghost use Rattle.dconf_path.specs.Paths.{directory_text};
ghost use Rattle.dconf_path.specs.Profiles.{databases_of};
ghost use Rattle.dconf_layers.specs.Children.{seen_path};
ghost use Rattle.dconf_layers.specs.LayerSettings.{settings_of};
ghost use Rattle.dconf_streams.specs.Answers.{GivesOutcome};
ghost use Rattle.dconf_streams.specs.Readings.{Decides};
ghost use Rattle.dconf_commands.specs.Below.{ExplainsBelow, explained_below, key_part, key_parts};

use crate::arguments::directory_argument;
use crate::commands::explained_text;
use crate::store_files::StoreFiles;
use dconf_engine::{Engine, is_of_user};
use dconf_folders::Folder;
use dconf_layers::{Layer, LentLayers, SeenKey};
use dconf_path::{DirPath, KeyPath, Profile};
use dconf_streams::{Answer, Refusal, named_file};
use std::alloc::{AllocError, Global};

/// What `explain` answers of a directory: of each key below it that a database has, its path, and what [`answered`](crate::answered) says of
/// it.
///
/// It takes memory for the bytes of the files, for the keys, and for the text.
pub fn answered_below<F: Folder>(
    alloc: Global,
    directory: &str,
    profile: &str,
    folder: &mut F,
) -> Result<Answer, Refusal>
    ensures { Decides F.Folder folder.old folder.new 0 (λ reads. ExplainsBelow directory.now profile.now reads) result }
{
    let directory = directory_argument(alloc, directory)?;
    let profile = named_file(alloc, folder, profile)?;
    let files = StoreFiles::read(alloc, folder, &profile)?;
    let layers = files.layers(alloc)?;
    explained_below(alloc, &files.profile, &layers, directory)
}

/// What explains the keys below a directory of a store.
fn explained_below(
    alloc: Global,
    profile: &Profile<'_>,
    layers: &[Layer<'_>],
    directory: DirPath<'_>,
) -> Result<Answer, Refusal>
    ensures { GivesOutcome result (λ o. o ≡ done (explained_below (databases_of profile.now)
        (record { layers = map settings_of layers.now; writable = has_writable (databases_of profile.now) }) (directory_text directory.entry))) }
{
    let writable = is_of_user(profile);
    let lent = LentLayers::new(writable, layers);
    let keys = lent.keys_below(alloc, directory)?;
    let engine = Engine::of_layers(alloc, writable, layers)?;
    let text = key_parts(alloc, profile, &engine, &keys)?;
    Ok(Answer::Done(text))
}

/// What explains these keys, with an empty line between them.
fn key_parts(
    alloc: Global,
    profile: &Profile<'_>,
    engine: &Engine<'_>,
    keys: &[SeenKey<'_>],
) -> Result<String, AllocError>
    requires { All (λ key. IsTrue (is_key_path (string_bytes key.path))) keys.now }
    ensures { IfOk result (λ text. string_bytes text ≡ key_parts (databases_of profile.entry.now) engine.entry.now (map seen_path keys.entry.now)) }
{
    let Some((first, others)) = keys.split_first() else {
        return Ok(String::new(alloc));
    };
    let mut further = String::new(alloc);
    for key in others {
        further.push('\n')?;
        let part = key_part(alloc, profile, engine, key.path.as_str())?;
        further.push_str(part.as_str())?;
    }
    let mut text = key_part(alloc, profile, engine, first.path.as_str())?;
    text.push_str(further.as_str())?;
    Ok(text)
}

/// The path of a key, as a line, and what explains the key.
fn key_part(
    alloc: Global,
    profile: &Profile<'_>,
    engine: &Engine<'_>,
    path: &str,
) -> Result<String, AllocError>
    requires { IsTrue (is_key_path path.now) }
    ensures { IfOk result (λ text. string_bytes text ≡ key_part (databases_of profile.entry.now) engine.entry.now path.entry.now) }
{
    let lines = explained_text(alloc, profile, engine, KeyPath::parse(path).unwrap())?;
    format!(in alloc; "{path}\n{lines}")
}
