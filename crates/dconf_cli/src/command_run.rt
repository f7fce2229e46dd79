//! A run of a command: it reads, decides what it answers, and then writes.
ghost use Rattle.std.specs.Prelude.{◌≡◌, ◌≢◌, ◌≤◌, List, IsTrue, false, true};
ghost use Rattle.dconf_model.specs.Folders.{Event};
ghost use Rattle.dconf_model.specs.Outcomes.{Output};
ghost use Rattle.dconf_model.specs.Reads.{Input};
ghost use Rattle.dconf_model.specs.Runs.{Ran, RanCalmly};
ghost use Rattle.command_words.specs.Commands.{command_of};
ghost use Rattle.dconf_streams.specs.Counted.{CameToEnd, failures_of};
ghost use Rattle.dconf_streams.specs.Inputs.{ReadsText, Took};
ghost use Rattle.dconf_streams.specs.Streams.{NoneFailed};
ghost use Rattle.dconf_commands.specs.Loads.{reads_input};
ghost use Rattle.dconf_cli.specs.Outputs.{Leaves};
ghost use Rattle.dconf_cli.specs.Runs.{KeepsFiles, KeepsWithoutMemory, RanAnywhere, SaysFailedInput};

use crate::outcome::bring_about;
use dconf_args::Command;
use dconf_commands::answered;
use dconf_disk::Folder;
use dconf_streams::Counted;
use std::alloc::Global;
use std::io::{Read, Write};

/// Runs the command on the folder, and gives its status: 0 is done, 1 is refused.
///
/// Done, its text is on out; refused, one line on err says why, and out got nothing. A failed write to out
/// is status 1 with nothing on err, and a failed one to err changes no status. The lines, by what is at fault:
/// a file, `error: NoFile FILE`, `error: Device FILE` where the folder failed, `error: TooBig` over 4,294,967,295 bytes;
/// memory, `error: Memory`; a word, the fault of its path or type or value, as `error: NotAbsolute` or `error: KeyNotBasic at 2`;
/// the profile or a keyfile or locks or the input, the first line at fault, as `error: site:2: BadLine`; the input, `error: Device input`
/// where it failed; a database, `error: BadDatabase 1: Short` for the first by the profile that is no sound one, and for `check`
/// and `repair` why the file is no database, as `error: BadRoot`, and for `check` `unsound: S4 item 1` for the first rule that fails and
/// the first item at which it does; a change, `error: NotWritable`, `error: Locked /a/k`, `error: TooLarge` or `error: TooBig`;
/// a value to print, `error: TooLarge` for over 128 levels, and `error: DoubleText` for a double; for `dump` these two with the path of the
/// first row at fault, as `error: TooLarge /a/k`, unless doubles are skipped, and `error: BadGroup /a[/k` or `error: BadKeyName /a/k=` for a path that no keyfile can name.
///
/// It holds the bytes of the files that it reads once, and those that it writes. Only `load` reads the input: at most
/// 16,777,217 bytes of it, in at most as many reads. `show` takes time linear in the file and in its text. Each command that opens a database asks first whether it
/// is sound: near-linear in the files of dconf and of this program, and at most the items times themselves in a hostile one. Beyond
/// that, `read`, `origin`, `explain` and `list-locks` look one path up in each database, and `list` one directory; `write`, `reset` and `load` write the user's
/// database anew, and `compile` and `repair` theirs: they, and `dump`, put the paths in order.
pub fn run<F: Folder, I: Read, O: Write, E: Write>(
    alloc: Global,
    command: Command,
    folder: &mut F,
    input: &mut Counted<I>,
    out: &mut Counted<O>,
    err: &mut Counted<E>,
) -> u8
    // In a folder whose events are known, if its answers were true: exactly the command's outcome where no call of the folder failed,
    ensures calm { IsTrue (F.honest folder.new) → NoneFailed (F.failed folder.old) (F.failed folder.new)
        → (old : List Event) → F.past folder.old old
        → (i : Input) × Took I.remaining input.old input.new i
        × ((new : List Event) × F.past folder.new new
        × ((output : Output) × RanCalmly (command_of command) i old new output
        × Leaves O.contents E.contents out.old out.new err.old err.new output result)) }
    // and else what the reads that it made give, also where the device failed while a file was replaced.
    ensures ran { IsTrue (F.honest folder.new) → (old : List Event) → F.past folder.old old
        → (i : Input) × Took I.remaining input.old input.new i
        × ((new : List Event) × F.past folder.new new
        × ((output : Output) × Ran (command_of command) i old new output
        × KeepsFiles (command_of command) i old new output
        × Leaves O.contents E.contents out.old out.new err.old err.new output result)) }

    // In any folder: what the reads that it made give, whatever they gave, and of which file a read failed.
    ensures anywhere { (i : Input) × Took I.remaining input.old input.new i
        × ((output : Output) × RanAnywhere (F.failed folder.old) (F.failed folder.new) (command_of command) i output
        × Leaves O.contents E.contents out.old out.new err.old err.new output result) }
    // And where it says that memory ran out, nothing was done to the folder, whatever that answered.
    ensures memory { (i : Input) × Took I.remaining input.old input.new i
        × ((output : Output) × RanAnywhere (F.failed folder.old) (F.failed folder.new) (command_of command) i output
        × KeepsWithoutMemory F.Folder folder.old folder.new output
        × Leaves O.contents E.contents out.old out.new err.old err.new output result) }
    // Of an input that failed it says so, whatever was read of it before.
    ensures failed_input { failures_of input.new ≢ failures_of input.old → (output : Output) × SaysFailedInput output
        × Leaves O.contents E.contents out.old out.new err.old err.new output result }
    ensures zero { result ≡ 0 → (F.failed folder.new ≡ F.failed folder.old)
        × (failures_of input.new ≡ failures_of input.old) × (failures_of out.new ≡ failures_of out.old) }
    ensures failed_out { failures_of out.new ≢ failures_of out.old → (result ≡ 1) × (err.new ≡ err.old) }
    // A file is replaced by who holds the turn to, from before the first read until after the last call.
    ensures turn { F.holds_turn folder.new ≡ F.holds_turn folder.old }
    ensures untouched { F.holds_turn folder.old ≡ false → (es : List Event) → F.past folder.old es → F.past folder.new es }
    // If the folder's answers are true after it, they were before.
    ensures honest { IsTrue (F.honest folder.new) → IsTrue (F.honest folder.old) }
    ensures status { result ≤ 1 }
    ensures input { reads_input (command_of command) ≡ false → input.new ≡ input.old }
    ensures limit { ReadsText I.remaining input.old input.new }
    // What was read of it came to its end where the command is done.
    ensures end { result ≡ 0 → reads_input (command_of command) ≡ true → CameToEnd input.old input.new }
{
    let answer = answered(alloc, &command, folder, input);
    bring_about(alloc, answer, folder, out, err)
}
