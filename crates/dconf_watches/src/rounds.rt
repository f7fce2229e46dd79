//! The rounds in which the names of files are gone through.
ghost use Rattle.std.specs.Prelude.{◌≡◌};
ghost use Rattle.dconf_watches.specs.Rounds.{after_number, after_round, begun, gone_through, no_rounds, rounds_of, sight_of};

/// So many rounds are made at most.
const MOST_ROUNDS: u32 = 64;

/// What became of a name.
#[derive(Clone, Copy)]
pub enum Sight {
    /// It is watched so already.
    Known,
    /// It is watched from now on.
    New,
    /// It can't be watched, and something is missed without it,
    Missed,
    /// or nothing is.
    Spared,
}

impl Sight {
    /// By whether it is watched already, whether it could be watched, and whether something would be missed without it.
    pub fn of(is_known: bool, is_had: bool, is_needed: bool) -> Sight
        ensures { result ≡ sight_of is_known is_had is_needed }
    {
        if is_known {
            Sight::Known
        } else if is_had {
            Sight::New
        } else if is_needed {
            Sight::Missed
        } else {
            Sight::Spared
        }
    }
}

/// What comes after a round.
#[derive(Clone, Copy)]
pub enum AfterRound {
    /// Another one.
    Again,
    /// All is watched.
    Whole,
    /// Not all is.
    Partly,
}

/// The rounds so far: all zeros before the first.
#[repr(C)]
#[derive(Clone, Copy)]
pub struct WatchRounds {
    count: u32,
    missed: bool,
    more: bool,
}

impl WatchRounds {
    /// Before the first.
    pub fn none() -> WatchRounds
        ensures { rounds_of result ≡ no_rounds }
    {
        WatchRounds {
            count: 0,
            missed: false,
            more: false,
        }
    }

    /// A round begins.
    pub fn begin(&mut self)
        ensures { rounds_of self.new ≡ begun (rounds_of self.old) }
    {
        if self.count < MOST_ROUNDS {
            self.count += 1;
        }
        self.missed = false;
        self.more = false;
    }

    /// A name is gone through.
    pub fn go_through(&mut self, sight: Sight)
        ensures { rounds_of self.new ≡ gone_through (rounds_of self.old) sight }
    {
        match sight {
            Sight::Known => {}
            Sight::New => self.more = true,
            Sight::Missed => self.missed = true,
            Sight::Spared => {}
        }
    }

    /// What comes after the round.
    pub fn after(&self) -> AfterRound
        ensures { result ≡ after_round (rounds_of self.now) }
    {
        if self.more && self.count < MOST_ROUNDS {
            AfterRound::Again
        } else if self.more || self.missed {
            AfterRound::Partly
        } else {
            AfterRound::Whole
        }
    }
}

impl AfterRound {
    /// Its number: 0 again, 1 all is watched, 2 not all is.
    pub fn number(self) -> u32
        ensures { result ≡ after_number self }
    {
        match self {
            AfterRound::Again => 0,
            AfterRound::Whole => 1,
            AfterRound::Partly => 2,
        }
    }
}
