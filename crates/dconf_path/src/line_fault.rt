//! Why a lock file or a profile is refused.
ghost use Rattle.std.specs.Prelude.{◌≡◌, Some};
ghost use Rattle.dconf_model.specs.FaultTexts.{cause_text};
ghost use Rattle.dconf_path.specs.Faults.{locks_fault_of, profile_fault_of};

use refused::Refused;
use std::error::Error;
use std::fmt;

/// Why a lock file is refused.
pub type LocksFault = Refused<LockNotKey>;

/// The line of this number, counted from 1, starts with `/` and is no path. It is printed as its name.
#[derive(Clone, Copy, Debug, PartialEq, Eq)]
pub struct LockNotKey(pub usize);

impl fmt::Display for LockNotKey {
    ghost output = { λ fault. Some (cause_text (locks_fault_of fault).cause) };

    fn fmt<W: fmt::Write>(&self, f: &mut fmt::Formatter<W>) -> fmt::Result {
        f.write_str("LockNotKey")
    }
}

impl Error for LockNotKey {}

/// Why a profile is refused.
pub type ProfileFault = Refused<ProfileFlaw>;

/// The first line of a profile at fault, counted from 1, and on one line the first of these. It is printed as its name.
#[derive(Clone, Copy, Debug, PartialEq, Eq)]
pub enum ProfileFlaw {
    /// The line names no database: it is none of `user-db:NAME`, `system-db:NAME` and `file-db:PATH`, or its name is
    /// empty, has a zero byte, or has a `/` and is no `PATH`.
    BadLine(usize),
    /// The line names a service, `service-db:`.
    ServiceDb(usize),
    /// The line names the user's database, and another comes before it.
    UserNotFirst(usize),
    /// The line names a 65th database.
    TooMany(usize),
}

impl ProfileFlaw {
    /// The line at fault, counted from 1.
    pub fn line(self) -> usize
        ensures { result ≡ (profile_fault_of self).line }
    {
        match self {
            ProfileFlaw::BadLine(line) => line,
            ProfileFlaw::ServiceDb(line) => line,
            ProfileFlaw::UserNotFirst(line) => line,
            ProfileFlaw::TooMany(line) => line,
        }
    }
}

impl fmt::Display for ProfileFlaw {
    ghost output = { λ fault. Some (cause_text (profile_fault_of fault).cause) };

    fn fmt<W: fmt::Write>(&self, f: &mut fmt::Formatter<W>) -> fmt::Result {
        f.write_str(match self {
            ProfileFlaw::BadLine(_) => "BadLine",
            ProfileFlaw::ServiceDb(_) => "ServiceDb",
            ProfileFlaw::UserNotFirst(_) => "UserNotFirst",
            ProfileFlaw::TooMany(_) => "TooMany",
        })
    }
}

impl Error for ProfileFlaw {}
