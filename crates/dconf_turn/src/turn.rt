//! A turn to change a file.
ghost use Rattle.std.specs.Prelude.{◌≡◌};
ghost use Rattle.dconf_turn.specs.declared.step.Answer.TheVariants.{Yes, No};
ghost use Rattle.dconf_turn.specs.Steps.{IsRead, open_mode, step_of};
ghost use Rattle.dconf_turn.specs.Progress.{IsAnswered, IsBegun};

use crate::{Answer, Outcome, Step};

/// The numbers of permission bits; as many more are those of a file that is to be set aside.
const ALL_BITS: usize = 0o1000;

/// The bits of a file for which the host chooses them, by the process's umask.
const NEW_BITS: u32 = 0o666;

/// What the owner needs to fill a file and to sync it.
const READ_AND_WRITE: u32 = 0o600;

/// The fault of a write that wrote nothing, or more than there was.
const BAD_WRITE: u32 = 0;

/// The fault of a caller that makes no new bytes, since the file is to stay as it is: it has what stands there on the disk.
pub const NOTHING: u32 = u32::MAX;

#[derive(Clone, Copy, Debug, PartialEq, Eq)]
pub(crate) enum State {
    Locking,
    Reading,
    Making,
    Creating,
    Writing,
    Syncing,
    SettingAside,
    Exchanging,
    Renaming,
    SyncingFolder,
    Removing,
    Settling,
    Noting,
    Unlocking,
    Over,
}

/// A turn to change a file: what comes next, and what is known so far.
#[derive(Clone, Copy, Debug, PartialEq, Eq)]
pub struct Turn {
    pub(crate) state: State,
    pub(crate) outcome: Outcome,
    /// The new file's permission bits, unless the host chooses them.
    pub(crate) bits: Option<u32>,
    /// The old file is to be set aside.
    pub(crate) keeps: bool,
    /// How many bytes the new file is to have, and how many of them it has.
    pub(crate) len: usize,
    pub(crate) at: usize,
    /// The host could not remove the new file.
    pub(crate) leaves_new: bool,
}

impl Turn {
    /// A turn of which nothing is done yet.
    pub fn begin() -> Turn
        ensures { IsBegun result }
    {
        Turn {
            state: State::Locking,
            outcome: Outcome::Kept(BAD_WRITE),
            bits: None,
            keeps: false,
            len: 0,
            at: 0,
            leaves_new: false,
        }
    }

    /// What comes next.
    pub fn next(&self) -> Step
        ensures { result ≡ step_of self.now }
    {
        match self.state {
            State::Locking => Step::Lock,
            State::Reading => Step::Read,
            State::Making => Step::Make,
            State::Creating => Step::Create(open_mode(self.bits)),
            State::Writing => Step::Append(self.at),
            State::Syncing => Step::Sync(self.bits),
            State::SettingAside => Step::SetAside,
            State::Exchanging => Step::Exchange,
            State::Renaming => Step::Rename,
            State::SyncingFolder => Step::SyncFolder,
            State::Removing => Step::Remove,
            State::Settling => Step::Settle,
            State::Noting => Step::Note,
            State::Unlocking => Step::Unlock,
            State::Over => Step::Done(self.outcome),
        }
    }

    /// Takes the answer to the step that `next` says. After `Done` it changes nothing.
    pub fn answered(&mut self, answer: Answer)
        ensures { IsAnswered self.old answer self.new }
    {
        *self = match answer {
            Answer::Yes(n) => self.done(n),
            Answer::No(fault) => self.failed(fault),
        };
    }

    /// What comes of a step that was done.
    fn done(self, n: usize) -> Turn
        ensures { IsAnswered self (Yes n) result }
    {
        match self.state {
            State::Locking => self.to(State::Reading),
            State::Reading => self.read(n),
            State::Making => Turn {
                state: State::Creating,
                len: n,
                ..self
            },
            State::Creating => Turn {
                state: State::Writing,
                at: 0,
                ..self
            },
            State::Writing => self.written(n),
            State::Syncing => self.synced(n),
            State::SettingAside => self.set_aside(n),
            State::Exchanging => self.to(State::SyncingFolder),
            State::Renaming => self.to(State::SyncingFolder),
            State::SyncingFolder => self.says(State::Noting, Outcome::Made),
            State::Removing => self.to(State::Unlocking),
            State::Settling => self.says(State::Noting, Outcome::Same),
            State::Noting => self.to(State::Unlocking),
            State::Unlocking => self.to(State::Over),
            State::Over => self,
        }
    }

    /// What comes of the answer to a read.
    fn read(self, n: usize) -> Turn
        requires { self.state ≡ State.Reading }
        ensures { IsAnswered self (Yes n) result }
    {
        let (bits, keeps) = read_of(n);
        Turn {
            state: State::Making,
            bits,
            keeps,
            ..self
        }
    }

    /// What comes of so many more bytes in the new file.
    fn written(self, n: usize) -> Turn
        requires { self.state ≡ State.Writing }
        ensures { IsAnswered self (Yes n) result }
    {
        let rest = self.len.saturating_sub(self.at);
        if n == rest {
            return Turn {
                state: State::Syncing,
                at: self.len,
                ..self
            };
        }
        if n == 0 || n > rest {
            return self.says(State::Removing, Outcome::Kept(BAD_WRITE));
        }
        Turn {
            at: self.at + n,
            ..self
        }
    }

    /// What comes of the new file's being on the disk.
    fn synced(self, n: usize) -> Turn
        requires { self.state ≡ State.Syncing }
        ensures { IsAnswered self (Yes n) result }
    {
        if self.keeps {
            return self.to(State::SettingAside);
        }
        self.to(State::Renaming)
    }

    /// What comes of the old file's having another name, or that it can't have one.
    fn set_aside(self, n: usize) -> Turn
        requires { self.state ≡ State.SettingAside }
        ensures { IsAnswered self (Yes n) result }
    {
        if n == 0 {
            return self.to(State::Renaming);
        }
        self.to(State::Exchanging)
    }

    /// What comes of a step that failed.
    fn failed(self, fault: u32) -> Turn
        ensures { IsAnswered self (No fault) result }
    {
        match self.state {
            State::Locking => self.says(State::Over, Outcome::Kept(fault)),
            State::Reading => self.says(State::Unlocking, Outcome::Kept(fault)),
            State::Making => self.unmade(fault),
            State::Creating => self.says(State::Removing, Outcome::Kept(fault)),
            State::Writing => self.says(State::Removing, Outcome::Kept(fault)),
            State::Syncing => self.says(State::Removing, Outcome::Kept(fault)),
            State::SettingAside => self.says(State::Removing, Outcome::Kept(fault)),
            State::Exchanging => self.says(State::Removing, Outcome::Either(fault)),
            State::Renaming => self.says(State::Removing, Outcome::Either(fault)),
            State::SyncingFolder => self.says(State::Noting, Outcome::Unsettled(fault)),
            State::Removing => Turn {
                state: State::Unlocking,
                leaves_new: true,
                ..self
            },
            State::Settling => self.says(State::Noting, Outcome::Unsynced(fault)),
            State::Noting => self.to(State::Unlocking),
            State::Unlocking => self.to(State::Over),
            State::Over => self,
        }
    }

    /// What comes of there being no new bytes.
    fn unmade(self, fault: u32) -> Turn
        requires { self.state ≡ State.Making }
        ensures { IsAnswered self (No fault) result }
    {
        if fault == NOTHING {
            return self.says(State::Settling, Outcome::Kept(fault));
        }
        self.says(State::Noting, Outcome::Kept(fault))
    }

    fn to(self, state: State) -> Turn
        ensures { result ≡ record self { state = state } }
    {
        Turn { state, ..self }
    }

    fn says(self, state: State, outcome: Outcome) -> Turn
        ensures { result ≡ record self { state = state; outcome = outcome } }
    {
        Turn {
            state,
            outcome,
            ..self
        }
    }
}

/// What the answer to a read says: the permission bits, and whether the old file is to be set aside.
fn read_of(n: usize) -> (Option<u32>, bool)
    ensures { IsRead n result.0 result.1 }
{
    if n < ALL_BITS {
        return (Some(n as u32), false);
    }
    if n < 2 * ALL_BITS {
        return (Some((n - ALL_BITS) as u32), true);
    }
    (None, false)
}

/// A new file that is to take another's place is open to nobody but its owner and whom that one is open to.
fn open_mode(bits: Option<u32>) -> u32
    ensures { result ≡ open_mode bits }
{
    match bits {
        Some(bits) => bits | READ_AND_WRITE,
        None => NEW_BITS,
    }
}
