//! Whether a command would change anything, for who runs it only if it would.
ghost use Rattle.std.specs.Prelude.{◌≡◌, ◌⊎◌, List, IfOk, IsTrue, Some, false, vec_items};
ghost use Rattle.dconf_model.specs.Folders.{Event, read_content};
ghost use Rattle.dconf_model.specs.Made.{IsDue, IsMade};
ghost use Rattle.dconf_model.specs.Reads.{Input, IsOverSize};
ghost use Rattle.command_words.specs.Commands.{command_of};
ghost use Rattle.dconf_streams.specs.Readings.{IsKept};
ghost use Rattle.dconf_streams.specs.Streams.{NoneFailed};

use dconf_args::Command;
use dconf_commands::answered;
use dconf_disk::{Folder, FolderFault};
use dconf_streams::{Answer, Counted, Refusal};
use std::alloc::{AllocError, Global};
use std::io::Read;

/// Whether the file that the command would replace holds already what it would be given, so that the command has nothing to do.
///
/// It does all that the command does but write: it costs what `run` costs, and takes that much memory. A command that is refused, that
/// replaces no file, or whose file can't be read is not done. The only error is a failed allocation.
pub fn is_made<F: Folder, I: Read>(
    alloc: Global,
    command: &Command,
    folder: &mut F,
    input: &mut Counted<I>,
) -> Result<bool, AllocError>
    ensures made { IsTrue (F.honest folder.new) → (es : List Event) → F.past folder.old es
        → IfOk result (λ is. IsTrue is → (i : Input) × IsMade (command_of command.now) i es) }
    ensures due { IsTrue (F.honest folder.new) → NoneFailed (F.failed folder.old) (F.failed folder.new) → (es : List Event) → F.past folder.old es
        → IfOk result (λ is. is ≡ false → (i : Input) × IsDue (command_of command.now) i es) }
    // Nothing is done to the folder.
    ensures kept { IsKept F.Folder folder.old folder.new }
{
    match answered(alloc, command, folder, input) {
        Ok(Answer::Changed { file, bytes, .. }) => holds(alloc, folder, file.as_str(), &bytes),
        Ok(Answer::Done(_)) => Ok(false),
        Err(Refusal::Fault(_)) => Ok(false),
        Err(Refusal::Memory) => Err(AllocError),
    }
}

/// Whether the file of this name holds these bytes.
fn holds<F: Folder>(
    alloc: Global,
    folder: &mut F,
    name: &str,
    bytes: &[u8],
) -> Result<bool, AllocError>
    ensures held { IsTrue (F.honest folder.new) → (es : List Event) → F.past folder.old es
        → IfOk result (λ is. IsTrue is → read_content es name.now ≡ Some bytes.now) }
    ensures other { IsTrue (F.honest folder.new) → NoneFailed (F.failed folder.old) (F.failed folder.new) → (es : List Event) → F.past folder.old es
        → IfOk result (λ is. is ≡ false → ¬ (read_content es name.now ≡ Some bytes.now) ⊎ IsOverSize (read_content es name.now)) }
    ensures kept { IsKept F.Folder folder.old folder.new }
{
    match folder.read(alloc, name) {
        Ok(Some(found)) => Ok(found.as_slice() == bytes),
        Ok(None) => Ok(false),
        Err(FolderFault::Memory) => Err(AllocError),
        Err(FolderFault::TooBig) => Ok(false),
        Err(FolderFault::Device) => Ok(false),
    }
}
