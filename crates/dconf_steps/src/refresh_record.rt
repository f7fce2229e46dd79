//! A look at the files of a store as plain numbers, for a caller that is not Rust.
ghost use Rattle.std.specs.Prelude.{◌≡◌};
ghost use Rattle.dconf_steps.specs.Looks.{IsLookAnswered, IsRefreshBegun, is_had, look_step};
ghost use Rattle.dconf_verdicts.specs.Errnos.{kind_of};
ghost use Rattle.dconf_steps.specs.LookRecords.{IsLookTold, look_of, look_stage_of};

use crate::next_step::NextStep;
use crate::refresh::{LookEnd, LookStage, LookStep, Refresh};
use dconf_verdicts::kind_of;

/// A look, as its caller owns it. Nobody but these calls writes its fields; a stage that is none of theirs is a look that failed.
#[repr(C)]
#[derive(Clone, Copy)]
pub struct RefreshRecord {
    stage: u32,
    at: usize,
    count: usize,
    has_old: bool,
    in_turn: bool,
    is_lenient: bool,
    is_newer: bool,
}

impl RefreshRecord {
    /// As [`Refresh::begin`].
    pub fn begin(count: usize, has_old: bool, in_turn: bool, is_lenient: bool) -> RefreshRecord
        ensures { IsRefreshBegun count has_old in_turn is_lenient (look_of result) }
    {
        RefreshRecord::of(Refresh::begin(count, has_old, in_turn, is_lenient))
    }

    /// What comes next, and the file: 0 stat, 1 read, 2 compare, 3 keep, 4 open; or that it is over: 5 failed, 6 the same, 7 newer.
    pub fn next(&self) -> NextStep
        ensures { IsLookTold (look_step (look_of self.now)) result }
    {
        match self.refresh().next() {
            LookStep::Stat(at) => NextStep::of(0, at),
            LookStep::Read(at) => NextStep::of(1, at),
            LookStep::Compare(at) => NextStep::of(2, at),
            LookStep::Keep(at) => NextStep::of(3, at),
            LookStep::Open(at) => NextStep::of(4, at),
            LookStep::Done(LookEnd::Failed) => NextStep::plain(5),
            LookStep::Done(LookEnd::Same) => NextStep::plain(6),
            LookStep::Done(LookEnd::Newer) => NextStep::plain(7),
        }
    }

    /// As [`Refresh::answered`].
    pub fn answered(&mut self, yes: bool)
        ensures { IsLookAnswered (look_of self.old) yes (look_of self.new) }
    {
        let mut refresh = self.refresh();
        refresh.answered(yes);
        *self = RefreshRecord::of(refresh);
    }

    /// As [`Refresh::is_had`], by the errno.
    pub fn is_had(&self, errno: u32) -> bool
        ensures { result ≡ is_had (look_step (look_of self.now)) self.now.is_lenient (kind_of errno) }
    {
        self.refresh().is_had(kind_of(errno))
    }

    fn of(refresh: Refresh) -> RefreshRecord
        ensures { look_of result ≡ refresh }
    {
        RefreshRecord {
            stage: number_of(refresh.stage),
            at: refresh.at,
            count: refresh.count,
            has_old: refresh.has_old,
            in_turn: refresh.in_turn,
            is_lenient: refresh.is_lenient,
            is_newer: refresh.is_newer,
        }
    }

    fn refresh(&self) -> Refresh
        ensures { result ≡ look_of self.now }
    {
        Refresh {
            stage: stage_of(self.stage),
            at: self.at,
            count: self.count,
            has_old: self.has_old,
            in_turn: self.in_turn,
            is_lenient: self.is_lenient,
            is_newer: self.is_newer,
        }
    }
}

fn number_of(stage: LookStage) -> u32
    ensures { look_stage_of result ≡ stage }
{
    match stage {
        LookStage::Asking => 0,
        LookStage::Reading => 1,
        LookStage::Comparing => 2,
        LookStage::Keeping => 3,
        LookStage::Opening => 4,
        LookStage::Over(LookEnd::Failed) => 5,
        LookStage::Over(LookEnd::Same) => 6,
        LookStage::Over(LookEnd::Newer) => 7,
    }
}

fn stage_of(number: u32) -> LookStage
    ensures { result ≡ look_stage_of number }
{
    match number {
        0 => LookStage::Asking,
        1 => LookStage::Reading,
        2 => LookStage::Comparing,
        3 => LookStage::Keeping,
        4 => LookStage::Opening,
        6 => LookStage::Over(LookEnd::Same),
        7 => LookStage::Over(LookEnd::Newer),
        _ => LookStage::Over(LookEnd::Failed),
    }
}
