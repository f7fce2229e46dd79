//! `dump [--skip-doubles] DIR`: the values that are seen below a directory, as a keyfile.
ghost use Rattle.std.specs.Prelude.{◌≡◌, Err, Ok, map};
ghost use Rattle.dconf_model.specs.Commands.Command.{dump as dump_of_directory};
ghost use Rattle.dconf_model.specs.FaultTexts.{about, cause_text};
ghost use Rattle.dconf_model.specs.Layers.{paths_below};
ghost use Rattle.dconf_model.specs.Outcomes.{IsOutcome, dump_at, dump_of, path_at, refused as refused_outcome, setting_paths, with_lines};
ghost use Rattle.dconf_model.specs.Reads.{Input};
ghost use Rattle.dconf_path.specs.Paths.{directory_text};
ghost use Rattle.keyfile_core.specs.DumpRows.{AreAllBelow};
ghost use Rattle.keyfile_core.specs.RowsFaults.{rows_cause_of};
ghost use Rattle.dconf_layers.specs.LayerSettings.{seen_in};
ghost use Rattle.dconf_streams.specs.Answers.{GivesOutcome};
ghost use Rattle.dconf_streams.specs.Readings.{Decides};
ghost use Rattle.dconf_commands.specs.Dumps.{setting_of};

use crate::arguments::directory_argument;
use crate::dump_parts::DumpParts;
use crate::printed_setting::PrintedSetting;
use crate::store_files::StoreFiles;
use dconf_folders::Folder;
use dconf_layers::LentLayers;
use dconf_path::DirPath;
use dconf_streams::{Answer, Refusal, named_file, refused};
use keyfile_core::{AsSetting, RowsCause, RowsFault, write_settings};
use std::alloc::Global;

/// What `dump` answers.
pub(crate) fn dump<F: Folder>(
    alloc: Global,
    skip_doubles: bool,
    directory: &str,
    profile: &str,
    folder: &mut F,
) -> Result<Answer, Refusal>
    ensures { (input : Input) → Decides F.Folder folder.old folder.new 0
        (λ reads. IsOutcome (dump_of_directory skip_doubles directory.now profile.now) reads input) result }
{
    let directory = directory_argument(alloc, directory)?;
    let profile = named_file(alloc, folder, profile)?;
    let files = StoreFiles::read(alloc, folder, &profile)?;
    let layers = files.layers(alloc)?;
    // Whether the first layer is the user's doesn't matter to what is seen.
    dumped(
        alloc,
        skip_doubles,
        LentLayers::new(false, &layers),
        directory,
    )
}

/// What `dump` answers of a store.
fn dumped(
    alloc: Global,
    skip_doubles: bool,
    layers: LentLayers<'_, '_>,
    directory: DirPath<'_>,
) -> Result<Answer, Refusal>
    ensures { GivesOutcome result (λ o. o ≡ dump_at skip_doubles (directory_text directory.entry) (seen_in layers.entry) (paths_below (seen_in layers.entry) (directory_text directory.entry))) }
{
    let keys = layers.keys_below(alloc, directory)?;
    let parts = DumpParts::of_keys(alloc, skip_doubles, directory, keys)?;
    written(alloc, parts.comments.as_str(), &parts.settings, directory)
}

/// The answer of settings, by the text of their keyfile after the comments.
fn written(
    alloc: Global,
    comments: &str,
    settings: &[PrintedSetting],
    directory: DirPath<'_>,
) -> Result<Answer, Refusal>
    requires { AreAllBelow setting_of (directory_text directory) settings.now }
    ensures { GivesOutcome result (λ o. o ≡ with_lines comments.entry.now
        (dump_of (directory_text directory.entry) (setting_paths (map setting_of settings.entry.now)) (Ok (map setting_of settings.entry.now)))) }
{
    match write_settings(alloc, settings, directory) {
        Ok(mut text) => {
            text.insert_str(0, comments)?;
            Ok(Answer::Done(text))
        }
        Err(RowsFault::Fault(flaw)) => Err(refused_row(alloc, settings, flaw.row, flaw.cause)),
        Err(RowsFault::Memory) => Err(Refusal::Memory),
    }
}

/// The refusal of a row that could not be read again.
fn refused_row(alloc: Global, settings: &[PrintedSetting], row: usize, cause: RowsCause) -> Refusal
    ensures { GivesOutcome (Err result) (λ o. o ≡ refused_outcome (about (cause_text (rows_cause_of cause)) (path_at (setting_paths (map setting_of settings.entry.now)) row))) }
{
    let path = path_of_row(settings, row);
    refused(alloc, format_args!("{cause} {path}"))
}

/// The path of a row, or no text where there is none.
fn path_of_row(settings: &[PrintedSetting], row: usize) -> &str
    ensures { result.now ≡ path_at (setting_paths (map setting_of settings.now)) row }
{
    match settings.get(row) {
        Some(setting) => setting.path(),
        None => "",
    }
}
