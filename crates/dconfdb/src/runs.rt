//! A run of a command where its store is, when it is this program's turn.
ghost use Rattle.std.specs.Prelude.{◌≡◌, ◌&&◌, List, IsTrue, false};
ghost use Rattle.dconf_model.specs.Folders.{Event};
ghost use Rattle.dconf_model.specs.Outcomes.{Output};
ghost use Rattle.dconf_model.specs.Reads.{Input};
ghost use Rattle.dconf_model.specs.Runs.{Ran, RanCalmly};
ghost use Rattle.command_words.specs.Commands.{command_of};
ghost use Rattle.dconf_disk.specs.StdFolders.{can_write, events_of, failures_of, is_honest};
ghost use Rattle.dconf_words.specs.Hearing.{passed_on};
ghost use Rattle.dconf_streams.specs.Counted as of_stream;
ghost use Rattle.dconf_streams.specs.Inputs.{Took};
ghost use Rattle.dconf_streams.specs.Streams.{NoneFailed};
ghost use Rattle.dconf_cli.specs.Outputs.{Leaves};
ghost use Rattle.dconf_cli.specs.Runs.{KeepsFiles, RanAnywhere};
ghost use Rattle.dconf_found.specs.FoundFolders as found;
ghost use Rattle.dconf_found.specs.FoundFolders.{IsPast, agrees, inner_of};
ghost use Rattle.dconf_found.specs.Renamed.{IsRenamed, renamed_inner};

use crate::explain::{Given, explain};
use crate::messages::{REFUSED, refuse, refuse_memory, refuse_place, warn_of_bad};
use crate::named::{first_file, warn_of_missing_ones};
use crate::session::Session;
use crate::stores::found_folder;
use dconf_args::{Command, Place, Replaced, user_file};
use dconf_cli::{Counted, is_made, run};
use dconf_disk::{Folder, FolderLock, LockFault, StdFolder, folder_of};
use dconf_found::{BadDatabase, FoundFolder, RenamedFolder};
use dconf_places::EVERYONES_FOLDER;
use dconf_surroundings::{Found, NotFound, enter};
use std::alloc::AllocError;
use std::io::{self, Read, Write};

/// Runs the command where its store is.
pub(crate) fn run_at<I: Read, O: Write, E: Write>(
    rt: &HostRuntime,
    asked: Command,
    place: Place,
    session: &mut Session<I, O, E>,
) -> u8 {
    if !place.is_users && place.folder.is_none() {
        return run_in_turn(rt, asked, session);
    }
    match found_for(rt, asked, place) {
        Ok((asked, found)) => run_found(rt, asked, found, session),
        Err(fault) => refuse_place(rt, fault),
    }
}

/// The command by the profile of its store, which is found.
pub(crate) fn found_for(
    rt: &HostRuntime,
    asked: Command,
    place: Place,
) -> Result<(Command, Found), NotFound> {
    let found = enter(rt, place, asked.replaced().is_some())?;
    let profile = String::from_str(rt.alloc(), found.profile.path.as_str())?;
    Ok((asked.with_profile(profile), found))
}

/// Runs the command. A folder in which files can be replaced is had by its lock alone, and holds it until it is dropped: so a command that
/// replaces one has its turn from before its first read until it ends.
pub(crate) fn run_in_turn<I: Read, O: Write, E: Write>(
    rt: &HostRuntime,
    asked: Command,
    session: &mut Session<I, O, E>,
) -> u8 {
    let Some(replaced) = asked.replaced() else {
        return run_on(rt, asked, &mut StdFolder::read_only(rt), session);
    };
    let folder = match replaced {
        Replaced::File(name) => folder_of(name),
        Replaced::UserOf(_) => ".",
    };
    match FolderLock::take(rt, rt.alloc(), folder) {
        Ok(lock) => run_on(rt, asked, &mut StdFolder::in_turn(rt, lock), session),
        Err(LockFault::Busy) => refuse_busy(rt, replaced),
        Err(LockFault::Memory) => refuse_memory(rt),
        // Without the lock nothing may be replaced, but what else is wrong is said first.
        Err(LockFault::Device(_)) => run_on(rt, asked, &mut StdFolder::read_only(rt), session),
    }
}

/// Runs a command on a store that was found. Its folder is the current one.
fn run_found<I: Read, O: Write, E: Write>(
    rt: &HostRuntime,
    asked: Command,
    found: Found,
    session: &mut Session<I, O, E>,
) -> u8 {
    if asked.replaced().is_none() {
        return read_found(rt, asked, StdFolder::read_only(rt), &found, session);
    }
    match FolderLock::take(rt, rt.alloc(), ".") {
        Ok(lock) => match in_turn(rt, lock, &found) {
            Ok(folder) => read_found(rt, asked, folder, &found, session),
            Err(_) => refuse_memory(rt),
        },
        Err(LockFault::Busy) => match users_path(rt, &found) {
            Ok(path) => refuse_busy_file(rt, path.as_str()),
            Err(_) => refuse_memory(rt),
        },
        Err(LockFault::Memory) => refuse_memory(rt),
        Err(LockFault::Device(_)) => {
            read_found(rt, asked, StdFolder::read_only(rt), &found, session)
        }
    }
}

/// Runs a command in a folder in which bad databases count as what can be saved of them, and says of each what was wrong.
fn read_found<I: Read, O: Write, E: Write>(
    rt: &HostRuntime,
    asked: Command,
    folder: StdFolder<&HostRuntime>,
    found: &Found,
    session: &mut Session<I, O, E>,
) -> u8 {
    let Ok(mut folder) = found_folder(rt, folder, found) else {
        return refuse_memory(rt);
    };
    let is_explained = matches!(&asked, Command::Explain { .. });
    let status = if session.leaves_made && changes_nothing(rt, &asked, found) {
        0
    } else {
        run_within(rt, asked, found, &mut folder, session)
    };
    let told = if is_explained && status == 0 {
        print!(rt; "{}", found.kind.as_str())
    } else {
        Ok(())
    };
    if !session.warns {
        return status;
    }
    match (told, warn(rt, folder.bad(), found)) {
        (Ok(()), Ok(())) => status,
        _ => REFUSED,
    }
}

/// Whether the user's file holds already what a `write` or a `reset` would give it, and no database is bad.
fn changes_nothing(rt: &HostRuntime, asked: &Command, found: &Found) -> bool {
    match asked {
        Command::Write { .. } => {}
        Command::Reset { .. } => {}
        _ => return false,
    }
    let Ok(mut folder) = found_folder(rt, StdFolder::read_only(rt), found) else {
        return false;
    };
    // Neither of them reads it.
    let mut input = Counted::new(rt.stdin());
    match is_made(rt.alloc(), asked, &mut folder, &mut input) {
        Ok(is) => is && folder.bad().is_empty(),
        Err(_) => false,
    }
}

/// A folder in which files are replaced. Where dconf has the user's database, a new one is open to its owner alone, as dconf makes it, and dconf's
/// readers are told.
fn in_turn<'a>(
    rt: &'a HostRuntime,
    lock: FolderLock,
    found: &Found,
) -> Result<StdFolder<&'a HostRuntime>, AllocError> {
    let folder = if found.is_dconfs {
        StdFolder::in_private_turn(rt, lock)
    } else {
        StdFolder::in_turn(rt, lock)
    };
    if found.flag.is_empty() {
        return Ok(folder);
    }
    let flag = String::from_str(rt.alloc(), found.flag.as_str())?;
    Ok(folder.with_flag(flag))
}

/// Says what nobody would learn from the status alone. What can't be said is a refusal.
pub(crate) fn warn(rt: &HostRuntime, bad: &[BadDatabase], found: &Found) -> io::Result<()> {
    if found.is_nowhere() {
        // Nothing is read of it.
        eprintln!(rt; "warning: there is no folder {}", found.folder.as_str())?;
    }
    if let Some(told) = &found.profile.told {
        eprintln!(rt; "warning: {}", told.as_str())?;
    }
    let first = match bad.first() {
        Some(_) => first_file(rt, found)?,
        None => None,
    };
    let mut may_be_first = true;
    for database in bad {
        let is_first = may_be_first && first.as_deref() == Some(database.name.as_str());
        let path = found.path(rt, database.name.as_str())?;
        warn_of_bad(rt, path.as_str(), database, is_first)?;
        may_be_first = false;
    }
    if found.is_everyones() && found.profile.made.is_none() {
        warn_of_missing_ones(rt, EVERYONES_FOLDER, EVERYONES_FOLDER)?;
    }
    Ok(())
}

/// The whole path of the user's file of a store, or of its profile where it has none.
fn users_path(rt: &HostRuntime, found: &Found) -> Result<String, AllocError> {
    let alloc = rt.alloc();
    let mut folder = found_folder(rt, StdFolder::read_only(rt), found)?;
    let profile = found.profile.path.as_str();
    let read = folder.read(alloc, profile);
    let bytes = read.ok().flatten().unwrap_or(Vec::new(alloc));
    found.path(rt, user_file(alloc, profile, &bytes)?.as_str())
}

/// Runs the command on a folder and these streams, and explains a refusal. By `dconf_cli::run`: what it says of its streams and its status is so
/// of those of the session, and of the status here.
fn run_in<F: Folder, I: Read, O: Write, E: Write>(
    rt: &HostRuntime,
    asked: Command,
    given: Option<Given>,
    folder: &mut F,
    session: &mut Session<I, O, E>,
) -> u8
    ensures calm { IsTrue (F.honest folder.new) → NoneFailed (F.failed folder.old) (F.failed folder.new)
        → (old : List Event) → F.past folder.old old
        → (i : Input) × Took I.remaining session.old.input session.new.input i
        × ((new : List Event) × F.past folder.new new
        × ((output : Output) × RanCalmly (command_of asked) i old new output
        × Leaves O.contents (passed_on E.contents) session.old.out session.new.out session.old.err session.new.err output result)) }
    ensures ran { IsTrue (F.honest folder.new) → (old : List Event) → F.past folder.old old
        → (i : Input) × Took I.remaining session.old.input session.new.input i
        × ((new : List Event) × F.past folder.new new
        × ((output : Output) × Ran (command_of asked) i old new output
        × KeepsFiles (command_of asked) i old new output
        × Leaves O.contents (passed_on E.contents) session.old.out session.new.out session.old.err session.new.err output result)) }
    ensures anywhere { (i : Input) × Took I.remaining session.old.input session.new.input i
        × ((output : Output) × RanAnywhere (F.failed folder.old) (F.failed folder.new) (command_of asked) i output
        × Leaves O.contents (passed_on E.contents) session.old.out session.new.out session.old.err session.new.err output result) }
    ensures zero { result ≡ 0 → (F.failed folder.new ≡ F.failed folder.old)
        × (of_stream.failures_of session.new.input ≡ of_stream.failures_of session.old.input)
        × (of_stream.failures_of session.new.out ≡ of_stream.failures_of session.old.out) }
    ensures untouched { F.holds_turn folder.old ≡ false → (es : List Event) → F.past folder.old es → F.past folder.new es }
{
    let status = run(
        rt.alloc(),
        asked,
        folder,
        &mut session.input,
        &mut session.out,
        &mut session.err,
    );
    if let Some(given) = &given {
        explain(rt, given, session.err.get_ref().text());
    }
    status
}

/// Runs the command on a folder and these streams.
///
/// If the host's answers were those of a folder that held what this one did, the run did to it, and gave, exactly what that, the words and its
/// input say: what it gave is on these streams, and in the status.
fn run_on<I: Read, O: Write, E: Write>(
    rt: &HostRuntime,
    asked: Command,
    folder: &mut StdFolder<&HostRuntime>,
    session: &mut Session<I, O, E>,
) -> u8
    ensures calm { IsTrue (is_honest folder.new) → NoneFailed (failures_of folder.old) (failures_of folder.new)
        → (i : Input) × Took I.remaining session.old.input session.new.input i
        × ((output : Output) × RanCalmly (command_of asked) i (events_of folder.old) (events_of folder.new) output
        × Leaves O.contents (passed_on E.contents) session.old.out session.new.out session.old.err session.new.err output result) }
    ensures ran { IsTrue (is_honest folder.new)
        → (i : Input) × Took I.remaining session.old.input session.new.input i
        × ((output : Output) × Ran (command_of asked) i (events_of folder.old) (events_of folder.new) output
        × KeepsFiles (command_of asked) i (events_of folder.old) (events_of folder.new) output
        × Leaves O.contents (passed_on E.contents) session.old.out session.new.out session.old.err session.new.err output result) }
    // Whatever the host answered: what its answers give, and 0 only if none of them was a failure.
    ensures anywhere { (i : Input) × Took I.remaining session.old.input session.new.input i
        × ((output : Output) × RanAnywhere (failures_of folder.old) (failures_of folder.new) (command_of asked) i output
        × Leaves O.contents (passed_on E.contents) session.old.out session.new.out session.old.err session.new.err output result) }
    ensures zero { result ≡ 0 → (failures_of folder.new ≡ failures_of folder.old)
        × (of_stream.failures_of session.new.input ≡ of_stream.failures_of session.old.input)
        × (of_stream.failures_of session.new.out ≡ of_stream.failures_of session.old.out) }
    // Without the turn to replace files nothing was done to it.
    ensures untouched { can_write folder.old ≡ false → events_of folder.new ≡ events_of folder.old }
{
    let given = Given::of(rt, &asked);
    run_in(rt, asked, given, folder, session)
}

/// The same on a store that was found.
///
/// What the run is said to have done, it did to a folder of files that hold what counts of the host's, of which its reads gave what it holds.
/// The same it did to the host's, by the names that those have, but for an append or a sync that was refused.
fn run_within<I: Read, O: Write, E: Write>(
    rt: &HostRuntime,
    asked: Command,
    store: &Found,
    folder: &mut FoundFolder<RenamedFolder<StdFolder<&HostRuntime>>>,
    session: &mut Session<I, O, E>,
) -> u8
    ensures calm { IsTrue (is_honest (renamed_inner (inner_of folder.new)) && agrees folder.new) → NoneFailed (found.failures_of folder.old) (found.failures_of folder.new)
        → (old : List Event) → IsPast (IsRenamed (λ f es. es ≡ events_of f)) folder.old old
        → (i : Input) × Took I.remaining session.old.input session.new.input i
        × ((new : List Event) × IsPast (IsRenamed (λ f es. es ≡ events_of f)) folder.new new
        × ((output : Output) × RanCalmly (command_of asked) i old new output
        × Leaves O.contents (passed_on E.contents) session.old.out session.new.out session.old.err session.new.err output result)) }
    ensures ran { IsTrue (is_honest (renamed_inner (inner_of folder.new)) && agrees folder.new)
        → (old : List Event) → IsPast (IsRenamed (λ f es. es ≡ events_of f)) folder.old old
        → (i : Input) × Took I.remaining session.old.input session.new.input i
        × ((new : List Event) × IsPast (IsRenamed (λ f es. es ≡ events_of f)) folder.new new
        × ((output : Output) × Ran (command_of asked) i old new output
        × KeepsFiles (command_of asked) i old new output
        × Leaves O.contents (passed_on E.contents) session.old.out session.new.out session.old.err session.new.err output result)) }
    // Whatever the host answered: what its answers give, and 0 only if none of them was a failure.
    ensures anywhere { (i : Input) × Took I.remaining session.old.input session.new.input i
        × ((output : Output) × RanAnywhere (found.failures_of folder.old) (found.failures_of folder.new) (command_of asked) i output
        × Leaves O.contents (passed_on E.contents) session.old.out session.new.out session.old.err session.new.err output result) }
    ensures zero { result ≡ 0 → (found.failures_of folder.new ≡ found.failures_of folder.old)
        × (of_stream.failures_of session.new.input ≡ of_stream.failures_of session.old.input)
        × (of_stream.failures_of session.new.out ≡ of_stream.failures_of session.old.out) }
    // Without the turn to replace files nothing was done to it.
    ensures untouched { can_write (renamed_inner (inner_of folder.old)) ≡ false → (old : List Event) → IsPast (IsRenamed (λ f es. es ≡ events_of f)) folder.old old
        → IsPast (IsRenamed (λ f es. es ≡ events_of f)) folder.new old }
{
    let mut named = Given::of(rt, &asked);
    if let Some(given) = &mut named {
        given.names = store.names(rt).ok();
    }
    run_in(rt, asked, named, folder, session)
}

/// Says on err which file others have been replacing all the time.
fn refuse_busy(rt: &HostRuntime, replaced: Replaced<'_>) -> u8 {
    let alloc = rt.alloc();
    let name = match replaced {
        Replaced::File(name) => String::from_str(alloc, name),
        Replaced::UserOf(profile) => {
            let found = StdFolder::read_only(rt).read(alloc, profile);
            let bytes = found.ok().flatten().unwrap_or(Vec::new(alloc));
            user_file(alloc, profile, &bytes)
        }
    };
    match name {
        Ok(name) => refuse_busy_file(rt, name.as_str()),
        Err(_) => refuse_memory(rt),
    }
}

fn refuse_busy_file(rt: &HostRuntime, name: &str) -> u8 {
    refuse(rt, format_args!("Busy {name}"));
    REFUSED
}
