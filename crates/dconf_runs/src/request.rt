//! A command that is to be run, with its input.
ghost use Rattle.std.specs.Prelude.{◌≡◌, true, List, IfOk, IsTrue, OnOk};
ghost use Rattle.dconf_model.specs.Folders.{Event};
ghost use Rattle.dconf_model.specs.Outcomes.{Output};
ghost use Rattle.dconf_model.specs.Runs.{Ran, RanCalmly};
ghost use Rattle.dconf_streams.specs.Counted.{failures_of};
ghost use Rattle.dconf_streams.specs.Streams.{NoneFailed};
ghost use Rattle.dconf_cli.specs.Outputs.{Leaves};
ghost use Rattle.dconf_runs.specs.Programs.{asked_of, output_of};

use dconf_cli::{Command, Counted, run};
use dconf_folders::{Folder, FolderFault};
use std::alloc::Global;
use std::io;
use std::io::Write;

/// A command, and the bytes of its input.
#[derive(Drop)]
pub struct Request {
    pub command: Command,
    pub input: Vec<u8>,
}

/// What a run left that came to its end: its text on out, its line on err, and its status.
#[derive(Drop)]
pub struct Ended {
    pub out: Vec<u8>,
    pub err: Vec<u8>,
    pub status: u8,
}

/// Whether no call failed between two counts of failures, as far as they tell.
pub(crate) fn none_failed(old: u64, new: u64) -> bool
    ensures { result ≡ true → NoneFailed old new }
{
    old == new && new < u64::MAX
}

/// Runs the request, and gives its status. `Device` is a failed write to out.
pub(crate) fn run_on<F: Folder, O: Write, E: Write>(
    alloc: Global,
    request: Request,
    folder: &mut F,
    out: &mut Counted<O>,
    err: &mut Counted<E>,
) -> Result<u8, FolderFault>
    ensures calm { IfOk result (λ status. IsTrue (F.honest folder.new) → NoneFailed (F.failed folder.old) (F.failed folder.new)
        → (old : List Event) → F.past folder.old old
        → (new : List Event) × F.past folder.new new
        × ((output : Output) × RanCalmly (asked_of request).0 (asked_of request).1 old new output
        × (output.status ≡ status)
        × Leaves O.contents E.contents out.old out.new err.old err.new output status)) }
    ensures ran { IfOk result (λ status. IsTrue (F.honest folder.new) → (old : List Event) → F.past folder.old old
        → (new : List Event) × F.past folder.new new
        × ((output : Output) × Ran (asked_of request).0 (asked_of request).1 old new output
        × (output.status ≡ status)
        × Leaves O.contents E.contents out.old out.new err.old err.new output status)) }
    ensures unfailed { OnOk result (NoneFailed (failures_of out.old) (failures_of out.new)) }
    ensures honest { IsTrue (F.honest folder.new) → IsTrue (F.honest folder.old) }
{
    let Request { command, input } = request;
    let mut bytes = Counted::new(input.as_slice());
    let writes = out.failures();
    let status = run(alloc, command, folder, &mut bytes, out, err);
    if !none_failed(0, bytes.failures()) || !none_failed(writes, out.failures()) {
        return Err(FolderFault::Device);
    }
    Ok(status)
}

/// Runs the request, and gives what it left. `Memory` is a failed write to err, and `Device` one to out.
pub(crate) fn run_to_end<F: Folder>(
    alloc: Global,
    request: Request,
    folder: &mut F,
) -> Result<Ended, FolderFault>
    ensures calm { IfOk result (λ ended. IsTrue (F.honest folder.new) → NoneFailed (F.failed folder.old) (F.failed folder.new)
        → (old : List Event) → F.past folder.old old
        → (new : List Event) × F.past folder.new new
        × RanCalmly (asked_of request).0 (asked_of request).1 old new (output_of ended)) }
    ensures ran { IfOk result (λ ended. IsTrue (F.honest folder.new) → (old : List Event) → F.past folder.old old
        → (new : List Event) × F.past folder.new new
        × Ran (asked_of request).0 (asked_of request).1 old new (output_of ended)) }
    ensures honest { IsTrue (F.honest folder.new) → IsTrue (F.honest folder.old) }
{
    let mut out = Counted::new(Vec::new(alloc));
    let mut err = Counted::new(Vec::new(alloc));
    let status = run_on(alloc, request, folder, &mut out, &mut err)?;
    if !none_failed(0, err.failures()) {
        return Err(FolderFault::Memory);
    }
    Ok(Ended {
        out: out.get_ref().as_slice().to_vec(alloc)?,
        err: err.get_ref().as_slice().to_vec(alloc)?,
        status,
    })
}

/// Runs the request, whose text nobody reads, and gives its status.
pub(crate) fn run_unread<F: Folder>(
    alloc: Global,
    request: Request,
    folder: &mut F,
) -> Result<u8, FolderFault>
    ensures calm { IfOk result (λ status. IsTrue (F.honest folder.new) → NoneFailed (F.failed folder.old) (F.failed folder.new)
        → (old : List Event) → F.past folder.old old
        → (new : List Event) × F.past folder.new new
        × ((output : Output) × RanCalmly (asked_of request).0 (asked_of request).1 old new output
        × (output.status ≡ status))) }
    ensures ran { IfOk result (λ status. IsTrue (F.honest folder.new) → (old : List Event) → F.past folder.old old
        → (new : List Event) × F.past folder.new new
        × ((output : Output) × Ran (asked_of request).0 (asked_of request).1 old new output
        × (output.status ≡ status))) }
    ensures honest { IsTrue (F.honest folder.new) → IsTrue (F.honest folder.old) }
{
    let mut out = Counted::new(io::sink());
    let mut err = Counted::new(io::sink());
    run_on(alloc, request, folder, &mut out, &mut err)
}
