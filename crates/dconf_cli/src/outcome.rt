//! How an outcome comes about: first the file that changes, and then out or err.
ghost use Rattle.std.specs.Prelude.{◌≡◌, List, IsTrue, false};
ghost use Rattle.dconf_model.specs.Folders.{Event};
ghost use Rattle.dconf_model.specs.Outcomes.{Output};
ghost use Rattle.dconf_streams.specs.Answers.{line_of, outcome_of};
ghost use Rattle.dconf_cli.specs.Outputs.{Leaves, PrintsLine, PrintsText};
ghost use Rattle.dconf_cli.specs.Endings.{Ends};

use dconf_disk::{Folder, FolderFault, replace};
use dconf_streams::{Answer, Counted, Refusal, device_line, refusal_line};
use std::alloc::Global;
use std::io::Write;

/// Brings about what a command answers, and gives the status: it replaces the file that is to change, and then writes a text to
/// out; or it writes the line of a refusal to err.
///
/// Nothing is refused after a file was replaced, and no memory is asked for. A failed write to out is status 1 and nothing on
/// err; one to err changes nothing.
pub(crate) fn bring_about<F: Folder, O: Write, E: Write>(
    alloc: Global,
    answered: Result<Answer, Refusal>,
    folder: &mut F,
    out: &mut Counted<O>,
    err: &mut Counted<E>,
) -> u8
    ensures ended { (output : Output) × Ends F.Folder folder.old folder.new (outcome_of answered) output
        × Leaves O.contents E.contents out.old out.new err.old err.new output result }
    ensures honest { IsTrue (F.honest folder.new) → IsTrue (F.honest folder.old) }
    ensures turn { F.holds_turn folder.new ≡ F.holds_turn folder.old }
    ensures untouched { F.holds_turn folder.old ≡ false → (es : List Event) → F.past folder.old es → F.past folder.new es }
{
    match answered {
        Ok(Answer::Done(text)) => print(text.as_bytes(), out),
        Ok(Answer::Changed { file, bytes, text }) => {
            // Its line is made before the folder is written, since later there may be no memory for it.
            let Ok(broken) = device_line(alloc, file.as_str()) else {
                return refuse(Refusal::Memory, err);
            };
            match replace(alloc, folder, file.as_str(), &bytes) {
                Ok(()) => print(text.as_bytes(), out),
                Err(FolderFault::Device) => refuse(Refusal::Fault(broken), err),
                Err(FolderFault::Memory) => refuse(Refusal::Memory, err),
                // No file is read here.
                Err(FolderFault::TooBig) => refuse(Refusal::Memory, err),
            }
        }
        Err(refusal) => refuse(refusal, err),
    }
}

/// Writes the text to out, and gives the status.
fn print<O: Write>(text: &[u8], out: &mut Counted<O>) -> u8
    ensures { PrintsText O.contents out.old out.new text.now result }
{
    match out.put(text) {
        Ok(()) => 0,
        Err(_) => 1,
    }
}

/// Writes the line of a refusal to err, and gives its status, also where the line can't be written.
fn refuse<E: Write>(refusal: Refusal, err: &mut Counted<E>) -> u8
    ensures refused { result ≡ 1 }
    ensures line { PrintsLine E.contents err.old err.new (line_of refusal) }
{
    let _ = err.put(refusal_line(&refusal).as_bytes());
    1
}
