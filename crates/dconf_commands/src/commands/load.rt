//! `load [-f] [--skip-doubles] DIR`: the user's values of the rows of a keyfile from input, below a directory. All rows are read before any is set.
ghost use Rattle.std.specs.Prelude.{◌≡◌, ◌≢◌, ℕ, List, Bool, Err, IfErr, IfOk, OnOk, codes, map, string_bytes};
ghost use Rattle.dconf_model.specs.Changes.{Change.load_values, apply, paths_of};
ghost use Rattle.dconf_model.specs.Commands.Command.{load as load_of};
ghost use Rattle.dconf_model.specs.FaultTexts.{device_text};
ghost use Rattle.dconf_model.specs.Outcomes.{IsOutcome, Loads, OrLine, SavesSaying, WithRows, lines_text};
ghost use Rattle.dconf_model.specs.Reads.{Input};
ghost use Rattle.dconf_model.specs.Sources.{loaded};
ghost use Rattle.dconf_path.specs.Paths.{directory_text};
ghost use Rattle.dconf_compile.specs.Loading.{rows_loaded};
ghost use Rattle.dconf_compile.specs.LineStops.{line_fault_of};
ghost use Rattle.refused.specs.Faults.{fault_in};
ghost use Rattle.dconf_engine.specs.ChangeFaults.{refusal_of};
ghost use Rattle.dconf_engine.specs.Loads.{IsLoaded, rows_of};
ghost use Rattle.dconf_streams.specs.Answers.{GivesOutcome, RefusesFor};
ghost use Rattle.dconf_streams.specs.Counted.{CameToEnd, failures_of};
ghost use Rattle.dconf_streams.specs.Inputs.{ReadsText, Took};
ghost use Rattle.dconf_streams.specs.Readings.{Decides};
ghost use Rattle.dconf_commands.specs.Refusals.{IsLockedPath};
ghost use Rattle.dconf_commands.specs.Loads.{RefusedLine};

use crate::arguments::directory_argument;
use crate::store_files::StoreFiles;
use crate::user_database::{change_refused, saved_saying};
use dconf_compile::{CompileCause, LineStop, Loaded, RowsBelow};
use dconf_engine::{ChangeFault, ChangeFlaw, Engine};
use dconf_folders::Folder;
use dconf_path::{DirPath, KeyPath};
use dconf_streams::{
    Answer, Counted, InputFault, Refusal, named_file, read_input, refused, refused_at,
};
use gv_tree::Tree;
use gvdb_write::MapBuilder;
use std::alloc::{AllocError, Global};
use std::io::Read;

/// What `load` answers. The directory is looked at before the input is read, and the input before any file.
pub(crate) fn load<F: Folder, I: Read>(
    alloc: Global,
    force: bool,
    skip_doubles: bool,
    directory: &str,
    profile: &str,
    folder: &mut F,
    input: &mut Counted<I>,
) -> Result<Answer, Refusal>
    ensures answer { (i : Input) × Took I.remaining input.old input.new i
        × Decides F.Folder folder.old folder.new 0 (λ reads. IsOutcome (load_of force skip_doubles directory.now profile.now) reads i) result }
    ensures device { failures_of input.new ≢ failures_of input.old → RefusesFor result (device_text (codes "input")) }
    ensures limit { ReadsText I.remaining input.old input.new }
    ensures end { OnOk result (CameToEnd input.old input.new) }
{
    let directory = directory_argument(alloc, directory)?;
    load_below(
        alloc,
        force,
        skip_doubles,
        directory,
        profile,
        folder,
        input,
    )
}

/// What `load` answers of a directory, by the input.
fn load_below<F: Folder, I: Read>(
    alloc: Global,
    force: bool,
    skip_doubles: bool,
    directory: DirPath<'_>,
    profile: &str,
    folder: &mut F,
    input: &mut Counted<I>,
) -> Result<Answer, Refusal>
    ensures answer { (i : Input) × Took I.remaining input.old input.new i
        × Decides F.Folder folder.old folder.new 0 (λ reads. WithRows skip_doubles (directory_text directory.entry) i
        (Loads reads profile.now force)) result }
    ensures device { failures_of input.new ≢ failures_of input.old → RefusesFor result (device_text (codes "input")) }
    ensures limit { ReadsText I.remaining input.old input.new }
    ensures end { OnOk result (CameToEnd input.old input.new) }
{
    match read_input(alloc, input) {
        Ok(bytes) => load_bytes(
            alloc,
            force,
            skip_doubles,
            directory,
            &bytes,
            profile,
            folder,
        ),
        Err(InputFault::Fault(fault)) => Err(refused(alloc, fault)),
        Err(InputFault::Memory) => Err(Refusal::Memory),
    }
}

/// What `load` answers of these bytes of input.
fn load_bytes<F: Folder>(
    alloc: Global,
    force: bool,
    skip_doubles: bool,
    directory: DirPath<'_>,
    bytes: &[u8],
    profile: &str,
    folder: &mut F,
) -> Result<Answer, Refusal>
    ensures { Decides F.Folder folder.old folder.new 0 (λ reads. OrLine (codes "input") (loaded skip_doubles (directory_text directory.entry) bytes.entry.now)
        (Loads reads profile.now force)) result }
{
    match RowsBelow::read(alloc, directory, bytes) {
        Ok(below) => load_rows(alloc, force, skip_doubles, below, profile, folder),
        Err(stop) => Err(line_refused(alloc, stop)),
    }
}

/// What `load` answers of these rows. They are let go before the file is made, which takes as much memory.
fn load_rows<F: Folder>(
    alloc: Global,
    force: bool,
    skip_doubles: bool,
    below: RowsBelow<'_>,
    profile: &str,
    folder: &mut F,
) -> Result<Answer, Refusal>
    ensures { Decides F.Folder folder.old folder.new 0 (λ reads. OrLine (codes "input") (rows_loaded skip_doubles below.entry)
        (Loads reads profile.now force)) result }
{
    let Loaded { values, left_out } = match below.values(alloc, skip_doubles) {
        Ok(loaded) => loaded,
        Err(stop) => return Err(line_refused(alloc, stop)),
    };
    let text = lines(alloc, &left_out)?;
    let profile = named_file(alloc, folder, profile)?;
    let files = StoreFiles::read(alloc, folder, &profile)?;
    let engine = files.open(alloc)?;
    let loaded = loaded_values(alloc, &engine, values, force)?;
    drop(left_out);
    drop(below);
    saved_saying(alloc, &files.profile, loaded.write(), text)
}

/// Paths, each on a line.
fn lines(alloc: Global, paths: &[&str]) -> Result<String, AllocError>
    ensures { IfOk result (λ text. string_bytes text ≡ lines_text (map (λ path. path.now) paths.now)) }
{
    let mut lines = String::new(alloc);
    for path in paths {
        lines.push_str(path)?;
        lines.push('\n')?;
    }
    Ok(lines)
}

/// The user's values once these rows are loaded, or why they are refused.
fn loaded_values(
    alloc: Global,
    engine: &Engine<'_>,
    rows: Vec<(KeyPath<'_>, Tree)>,
    force: bool,
) -> Result<MapBuilder, Refusal>
    ensures ok { IfOk result (IsLoaded engine.now (rows_of rows.entry.items) force) }
    ensures err { IfErr result (λ refusal. (text file : List ℕ) → GivesOutcome (Err refusal)
        (SavesSaying text (paths_of (rows_of rows.entry.items)) file (apply engine.now (load_values (rows_of rows.entry.items) force)))) }
{
    match engine.loaded_values(&rows, force) {
        Ok(values) => Ok(values),
        Err(fault) => Err(change_refused(alloc, fault, locked_path(&rows, fault))),
    }
}

/// The refusal of a line of the input.
fn line_refused(alloc: Global, stop: LineStop) -> Refusal
    ensures { GivesOutcome (Err result) (RefusedLine (line_fault_of stop)) }
{
    match stop.cause {
        CompileCause::Memory => Refusal::Memory,
        _ => refused_at(alloc, "input", stop.line, stop.cause),
    }
}

/// The path of the row that is locked, or no text where the fault is another.
fn locked_path<'a>(rows: &[(KeyPath<'a>, Tree)], fault: ChangeFault) -> &'a str
    ensures { IsLockedPath (paths_of (rows_of rows.now)) (fault_in refusal_of fault) result.now }
{
    match fault {
        ChangeFault::Fault(ChangeFlaw::Locked(row)) => match rows.get(row) {
            Some(row) => row.0.as_str(),
            None => "",
        },
        _ => "",
    }
}
