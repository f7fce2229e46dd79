//! A look at the files of a store: what comes next, and what came of it. C carries out each step, and answers.
ghost use Rattle.std.specs.Prelude.{◌≡◌, ◌||◌};
ghost use Rattle.dconf_steps.specs.LookRecords.{IsLookTold, look_of};
ghost use Rattle.dconf_steps.specs.Looks.{IsLookAnswered, IsRefreshBegun, is_had, look_step};
ghost use Rattle.dconf_verdicts.specs.Errnos.{kind_of};

use dconf_steps::{NextStep, RefreshRecord};

/// A look at so many files, of which nothing is done yet, and what comes first. `has_old`: there is an old
/// snapshot. `in_turn`: the first file is read whatever the host says of it. `is_lenient`: what can't be
/// read by a fault of its own counts as nothing.
#[unsafe(no_mangle)]
pub extern "C" fn dconfdb_refresh_begin(
    refresh: &mut RefreshRecord,
    count: usize,
    has_old: bool,
    in_turn: bool,
    is_lenient: bool,
    step: &mut NextStep,
)
    ensures begun { IsRefreshBegun count has_old in_turn is_lenient (look_of refresh.new) }
    ensures step { IsLookTold (look_step (look_of refresh.new)) step.new }
{
    *refresh = RefreshRecord::begin(count, has_old, in_turn, is_lenient);
    *step = refresh.next();
}

/// Takes the answer to the step, yes or no; or that it failed by that errno, which is no, but to a lenient look a file's own fault is a yes
/// to its reading; 0: it did not. And what comes next.
#[unsafe(no_mangle)]
pub extern "C" fn dconfdb_refresh_answered(
    refresh: &mut RefreshRecord,
    yes: bool,
    errno: u32,
    step: &mut NextStep,
)
    ensures taken { IsLookAnswered (look_of refresh.old) (yes || is_had (look_step (look_of refresh.old)) refresh.old.is_lenient (kind_of errno)) (look_of refresh.new) }
    ensures step { IsLookTold (look_step (look_of refresh.new)) step.new }
{
    let said = is_yes(refresh, yes, errno);
    refresh.answered(said);
    *step = refresh.next();
}

/// What is answered: yes, or by a fault of that errno, or 0.
fn is_yes(refresh: &RefreshRecord, yes: bool, errno: u32) -> bool
    ensures { result ≡ yes || is_had (look_step (look_of refresh.now)) refresh.now.is_lenient (kind_of errno) }
{
    yes || refresh.is_had(errno)
}
