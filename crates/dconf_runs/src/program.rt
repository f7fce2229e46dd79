//! A program of runs whose devices don't fail.
ghost use Rattle.std.specs.Prelude.{◌≡◌, [], List, IfOk, IsTrue, false, length, map};
ghost use Rattle.dconf_model.specs.Folders.{Event, read_content};
ghost use Rattle.dconf_model.specs.Outcomes.{Output};
ghost use Rattle.dconf_model.specs.Runs.{RanCalmly};
ghost use Rattle.command_words.specs.Commands.{command_of};
ghost use Rattle.dconf_cli.specs.Outputs.{Leaves};
ghost use Rattle.dconf_runs.specs.Programs.{asked_of, GivesWhatWasWritten, HasRunInTurn};

use crate::request::{Ended, Request, none_failed, run_on, run_to_end};
use dconf_cli::{Command, Counted};
use dconf_folders::{Folder, FolderFault};
use std::alloc::Global;
use std::io::Write;

/// What runs left.
#[derive(Drop)]
pub struct Left {
    /// What each before the last one left, in their order.
    pub earlier: Vec<Ended>,
    /// The status of the last one: 0 is done, 1 is refused.
    pub last: u8,
}

/// Runs the requests one after another, and then the last command, which leaves its text on out and its line on err.
///
/// `Device` comes where a call of the folder or a write to out failed, after which nothing more is run, and `Memory` where there
/// is none for what a run left.
pub fn run_after<F: Folder, O: Write, E: Write>(
    alloc: Global,
    earlier: Vec<Request>,
    last: Command,
    folder: &mut F,
    out: &mut Counted<O>,
    err: &mut Counted<E>,
) -> Result<Left, FolderFault>
    // Each was run, in its place: it left its output, and did to the folder what that was for.
    ensures ran { IfOk result (λ left. IsTrue (F.honest folder.new) → (old : List Event) → F.past folder.old old
        → (mid : List Event) × HasRunInTurn old (map asked_of earlier.items) left.earlier.items mid
        × ((new : List Event) × F.past folder.new new
        × ((output : Output) × RanCalmly (command_of last) (record { bytes = []; fails = false }) mid new output
        × (Leaves O.contents E.contents out.old out.new err.old err.new output left.last × (output.status ≡ left.last))))) }
    // It prints what rows, changes, locks and the profile give: of the changes, those of the runs that answered 0.
    ensures printed { IfOk result (λ left. IsTrue (F.honest folder.new) → (old : List Event) → F.past folder.old old
        → (output : Output) × GivesWhatWasWritten (read_content old) (map asked_of earlier.items) left.earlier.items (command_of last) output
        × (Leaves O.contents E.contents out.old out.new err.old err.new output left.last × (output.status ≡ left.last))) }
    ensures each { IfOk result (λ left. length left.earlier.items ≡ length earlier.items) }
{
    let lefts = run_each(alloc, earlier, folder)?;
    let request = Request {
        command: last,
        input: Vec::new(alloc),
    };
    let before = folder.failures();
    let status = run_on(alloc, request, folder, out, err)?;
    if !none_failed(before, folder.failures()) {
        return Err(FolderFault::Device);
    }
    Ok(Left {
        earlier: lefts,
        last: status,
    })
}

/// Runs the requests one after another, and gives what each left.
fn run_each<F: Folder>(
    alloc: Global,
    requests: Vec<Request>,
    folder: &mut F,
) -> Result<Vec<Ended>, FolderFault>
    ensures ran { IfOk result (λ lefts. IsTrue (F.honest folder.new) → (old : List Event) → F.past folder.old old
        → (new : List Event) × F.past folder.new new × HasRunInTurn old (map asked_of requests.items) lefts.items new) }
    ensures each { IfOk result (λ lefts. length lefts.items ≡ length requests.items) }
    ensures honest { IsTrue (F.honest folder.new) → IsTrue (F.honest folder.old) }
{
    let mut lefts = Vec::new(alloc);
    for request in requests {
        let before = folder.failures();
        let left = run_to_end(alloc, request, folder)?;
        if !none_failed(before, folder.failures()) {
            return Err(FolderFault::Device);
        }
        if lefts.push(left).is_err() {
            return Err(FolderFault::Memory);
        }
    }
    Ok(lefts)
}
