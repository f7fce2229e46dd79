//! Runs some of which a crash stops.
ghost use Rattle.std.specs.Prelude.{List, IfOk, length, ◌≡◌};
ghost use Rattle.dconf_model.specs.Folders.{Event};
ghost use Rattle.dconf_model.specs.Survivals.{Attempt as Tried, CameTo};
ghost use Rattle.dconf_folders.specs.MemoryFolders.{IsPast};
ghost use Rattle.dconf_runs.specs.Programs.{HaveComeInTurn, IsAttempt, NothingIsLostBy};

use crate::request::{Ended, Request, run_to_end, run_unread};
use dconf_folders::{FolderFault, MemoryFolder};
use std::alloc::Global;

/// What comes of a run. A crash leaves one of its outcomes, which the number `outcome` picks.
#[derive(Drop)]
pub enum End {
    /// It comes to its end.
    Whole,
    /// A crash stops it at this call of its folder, the first counted as 1; where it makes fewer, or with 0, at its end, before
    /// it answers.
    Stopped { call: u64, outcome: u64 },
    /// A crash comes before it begins.
    Crashed { outcome: u64 },
}

/// A request, and what comes of its run.
#[derive(Drop)]
pub struct Attempt {
    pub request: Request,
    pub end: End,
}

/// Makes the attempts one after another, and gives what each left whose run came to its end.
///
/// `Memory` comes where there is none for that or a crash, after which nothing more is run, and `Device` where there is none for a text.
pub fn run_through_crashes(
    alloc: Global,
    attempts: Vec<Attempt>,
    folder: &mut MemoryFolder,
) -> Result<Vec<Option<Ended>>, FolderFault>
    // Each attempt was made, in its place: a run that came to its end left its output, and any other was stopped as it was to be.
    ensures ran { IfOk result (λ all. (old : List Event) → IsPast folder.old old
        → (new : List Event) × IsPast folder.new new × HaveComeInTurn old attempts.items all.items new) }
    // The user's file says what the commands make that answered 0, and some of those that were stopped, in order.
    ensures kept { IfOk result (λ all. (old : List Event) → IsPast folder.old old
        → (new : List Event) × IsPast folder.new new × NothingIsLostBy old attempts.items all.items new) }
    ensures each { IfOk result (λ all. length all.items ≡ length attempts.items) }
{
    let mut all = Vec::new(alloc);
    for attempt in attempts {
        let ended = attempt_one(alloc, attempt, folder)?;
        if all.push(ended).is_err() {
            return Err(FolderFault::Memory);
        }
    }
    Ok(all)
}

/// Makes one attempt, and gives what it left if it came to its end.
fn attempt_one(
    alloc: Global,
    attempt: Attempt,
    folder: &mut MemoryFolder,
) -> Result<Option<Ended>, FolderFault>
    ensures { IfOk result (λ ended. (old : List Event) → IsPast folder.old old
        → (new : List Event) × IsPast folder.new new
        × ((tried : Tried) × IsAttempt attempt ended tried × CameTo tried.command tried.input tried.end old new)) }
{
    let Attempt { request, end } = attempt;
    match end {
        End::Whole => Ok(Some(run_to_end(alloc, request, folder)?)),
        End::Stopped { call, outcome } => {
            folder.fail_at(call);
            run_unread(alloc, request, folder)?;
            folder.fail_at(0);
            folder.crash(outcome)?;
            Ok(None)
        }
        End::Crashed { outcome } => {
            folder.crash(outcome)?;
            Ok(None)
        }
    }
}
