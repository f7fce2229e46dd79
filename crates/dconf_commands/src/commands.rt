//! The commands, one file each: what a command answers for what it reads.
ghost use Rattle.std.specs.Prelude.{◌≡◌, ◌≢◌, OnOk, codes, false, true};
ghost use Rattle.dconf_model.specs.FaultTexts.{device_text};
ghost use Rattle.dconf_model.specs.Outcomes.{IsOutcome};
ghost use Rattle.dconf_model.specs.Reads.{Input};
ghost use Rattle.command_words.specs.Commands.{command_of};
ghost use Rattle.dconf_streams.specs.Answers.{RefusesFor};
ghost use Rattle.dconf_streams.specs.Counted.{CameToEnd, failures_of};
ghost use Rattle.dconf_streams.specs.Inputs.{ReadsText, Took};
ghost use Rattle.dconf_streams.specs.Readings.{Decides};
ghost use Rattle.dconf_commands.specs.Loads.{reads_input};

mod check;
mod compile;
mod dump;
mod explain;
mod list;
mod load;
mod origin;
mod read;
mod repair;
mod reset;
mod show;
mod write;

use check::check;
use command_words::Command;
use compile::compile;
use dconf_folders::Folder;
use dconf_streams::{Answer, Counted, Refusal};
use dump::dump;
use explain::explain;
pub(crate) use explain::explained_text;
use list::{list, list_locks};
use load::load;
use origin::origin;
pub use origin::place_name;
use read::read;
use repair::repair;
use reset::reset;
use show::show;
use std::alloc::Global;
use std::io::Read;
use write::write;

/// What the command answers. Only `load` reads the input.
pub fn answered<F: Folder, I: Read>(
    alloc: Global,
    command: &Command,
    folder: &mut F,
    input: &mut Counted<I>,
) -> Result<Answer, Refusal>
    ensures answer { (i : Input) × Took I.remaining input.old input.new i
        × Decides F.Folder folder.old folder.new 0 (λ reads. IsOutcome (command_of command.now) reads i) result }
    ensures device { failures_of input.new ≢ failures_of input.old → RefusesFor result (device_text (codes "input")) }
    ensures input { reads_input (command_of command.now) ≡ false → input.new ≡ input.old }
    ensures limit { ReadsText I.remaining input.old input.new }
    ensures end { reads_input (command_of command.now) ≡ true → OnOk result (CameToEnd input.old input.new) }
{
    match command {
        Command::Show { type_text, file } => show(alloc, type_text.as_str(), file.as_str(), folder),
        Command::Read {
            default,
            key,
            profile,
        } => read(alloc, *default, key.as_str(), profile.as_str(), folder),
        Command::Origin { key, profile } => origin(alloc, key.as_str(), profile.as_str(), folder),
        Command::Explain { key, profile } => {
            explain(alloc, key.as_str(), profile.as_str(), folder)
        }
        Command::List { directory, profile } => {
            list(alloc, directory.as_str(), profile.as_str(), folder)
        }
        Command::ListLocks { directory, profile } => {
            list_locks(alloc, directory.as_str(), profile.as_str(), folder)
        }
        Command::Dump {
            skip_doubles,
            directory,
            profile,
        } => dump(
            alloc,
            *skip_doubles,
            directory.as_str(),
            profile.as_str(),
            folder,
        ),
        Command::Check { file } => check(alloc, file.as_str(), folder),
        Command::Compile {
            out,
            locks,
            keyfiles,
        } => compile(alloc, out.as_str(), locks, keyfiles, folder),
        Command::Repair { file, out } => repair(alloc, file.as_str(), out.as_str(), folder),
        Command::Write {
            key,
            value,
            profile,
        } => write(
            alloc,
            key.as_str(),
            value.as_str(),
            profile.as_str(),
            folder,
        ),
        Command::Reset {
            force,
            path,
            profile,
        } => reset(alloc, *force, path.as_str(), profile.as_str(), folder),
        Command::Load {
            force,
            skip_doubles,
            directory,
            profile,
        } => load(
            alloc,
            *force,
            *skip_doubles,
            directory.as_str(),
            profile.as_str(),
            folder,
            input,
        ),
    }
}
