//! Which profile counts in a store that was found.
ghost use Rattle.std.specs.Prelude.{◌≡◌, ◌++◌, option_map};
ghost use Rattle.dconf_places.specs.Told.{text_of};
ghost use Rattle.dconf_homes.specs.Numbers.{dir_of, dir_of_step, sought_number, sought_numbered, step_number};
ghost use Rattle.dconf_homes.specs.Sought.{behind, behind_bad, behind_dir, behind_mandatory, dconfs_step, first_sought, has_name, if_none, in_dir, is_none, is_refusal, is_said, last_step, listed_step, name_of, naming, said_as, sought_path, sought_step, step_of, told_name};
ghost use Rattle.dconf_homes.specs.Told.{home_of};

use crate::dirs::dir_at;
use crate::homes::Place;
use crate::looks::or_empty;
use dconf_places::{Candidate, Found, PathParts, ProfileStep, Telling, profile_step};

/// The folder of the profiles that an administrator names for one user, by the user's number.
pub const MANDATORY_FOLDER: &str = "/run/dconf/user/";

/// The folder of the machine's profiles.
pub const PROFILES_FOLDER: &str = "/etc/dconf/profile/";

/// In so many folders of `$XDG_DATA_DIRS` a profile is looked for at most.
pub const MOST_DIRS: usize = 1000;

/// A profile that may count.
#[derive(Clone, Copy)]
pub enum Sought {
    /// One as of our own kind of store; of dconf's the one that a program names.
    Ours(Candidate),
    /// That of an administrator for this user. No other counts then.
    Mandatory,
    /// That of `$DCONF_PROFILE`, which is a path.
    Path,
    /// That of the session.
    Runtime,
    /// That of the name, or `user`, of the machine,
    System,
    /// and in a folder of `$XDG_DATA_DIRS`, counted from 0.
    Data(usize),
}

impl Sought {
    /// Its number: that of our own candidate; 8 mandatory, 9 a path, 10 the session's, 11 the machine's, 12 in a folder of `$XDG_DATA_DIRS`.
    pub fn number(self) -> u32
        ensures { result ≡ sought_number self }
    {
        match self {
            Sought::Ours(candidate) => candidate.number(),
            Sought::Mandatory => 8,
            Sought::Path => 9,
            Sought::Runtime => 10,
            Sought::System => 11,
            Sought::Data(_) => 12,
        }
    }

    /// Which of those folders; else 0.
    pub fn dir(self) -> usize
        ensures { result ≡ dir_of self }
    {
        match self {
            Sought::Data(dir) => dir,
            Sought::Ours(_) => 0,
            Sought::Mandatory => 0,
            Sought::Path => 0,
            Sought::Runtime => 0,
            Sought::System => 0,
        }
    }

    /// That of a number and a folder.
    pub fn of_number(number: u32, dir: usize) -> Sought
        ensures { result ≡ sought_numbered number dir }
    {
        match number {
            8 => Sought::Mandatory,
            9 => Sought::Path,
            10 => Sought::Runtime,
            11 => Sought::System,
            12 => Sought::Data(dir),
            _ => Sought::Ours(Candidate::of_number(number)),
        }
    }
}

/// What comes after a look.
#[derive(Clone, Copy)]
pub enum SoughtStep {
    /// A look at this one.
    Look(Sought),
    /// The one that was looked at is the profile.
    Counts,
    /// The line `user-db:user` is.
    UsersAlone,
    /// The store has no database.
    NoDatabase,
    /// The store can't be opened.
    Refused,
}

impl SoughtStep {
    /// As of our own kind of store.
    fn of(step: ProfileStep) -> SoughtStep
        ensures { result ≡ step_of step }
    {
        match step {
            ProfileStep::Look(candidate) => SoughtStep::Look(Sought::Ours(candidate)),
            ProfileStep::Counts => SoughtStep::Counts,
            ProfileStep::UsersAlone => SoughtStep::UsersAlone,
            ProfileStep::NoDatabase => SoughtStep::NoDatabase,
            ProfileStep::Refused => SoughtStep::Refused,
        }
    }

    /// Its number: that of whom to look at; 3 the user alone, 4 it counts, 5 no database, 6 refused.
    pub fn number(self) -> u32
        ensures { result ≡ step_number self }
    {
        match self {
            SoughtStep::Look(sought) => sought.number(),
            SoughtStep::UsersAlone => 3,
            SoughtStep::Counts => 4,
            SoughtStep::NoDatabase => 5,
            SoughtStep::Refused => 6,
        }
    }

    /// Which folder of `$XDG_DATA_DIRS` is to be looked in; else 0.
    pub fn dir(self) -> usize
        ensures { result ≡ dir_of_step self }
    {
        match self {
            SoughtStep::Look(sought) => sought.dir(),
            SoughtStep::UsersAlone => 0,
            SoughtStep::Counts => 0,
            SoughtStep::NoDatabase => 0,
            SoughtStep::Refused => 0,
        }
    }

    fn is_none(self) -> bool
        ensures { result ≡ is_none self }
    {
        matches!(self, SoughtStep::NoDatabase)
    }

    fn is_refusal(self) -> bool
        ensures { result ≡ is_refusal self }
    {
        matches!(self, SoughtStep::Refused)
    }

    /// One that is named has to be there, unless who opens the store is lenient.
    fn if_none(self, is_lenient: bool) -> SoughtStep
        ensures { result ≡ if_none self is_lenient }
    {
        if self.is_none() && !is_lenient {
            SoughtStep::Refused
        } else {
            self
        }
    }
}

impl<'a> Place<'a> {
    /// What counts of `$DCONF_PROFILE`,
    fn counted_profile(&self) -> &'a [u8]
        ensures { result.now ≡ (home_of self.now).profile }
    {
        if self.counts { self.profile } else { b"" }
    }

    /// and of `$XDG_DATA_DIRS`.
    fn counted_dirs(&self) -> &'a [u8]
        ensures { result.now ≡ (home_of self.now).data_dirs }
    {
        if self.counts { self.data_dirs } else { b"" }
    }

    fn has_name(&self) -> bool
        ensures { result ≡ has_name (home_of self.now) }
    {
        !self.counted_profile().is_empty()
    }

    /// The name that is looked for in the folders of profiles.
    fn profile_name(&self) -> &'a [u8]
        ensures { result.now ≡ name_of (home_of self.now) }
    {
        if self.has_name() {
            self.counted_profile()
        } else {
            b"user"
        }
    }

    /// The one that is looked at first.
    pub fn first(&self) -> Sought
        ensures { result ≡ first_sought (home_of self.now) }
    {
        let is_named = !self.named.is_empty();
        if !is_named && self.is_dconfs {
            Sought::Mandatory
        } else {
            Sought::Ours(Candidate::first(is_named))
        }
    }

    /// The path of its file, if there is such a place.
    pub fn path(&self, sought: Sought) -> Option<PathParts<'a>>
        ensures { option_map text_of result ≡ sought_path (home_of self.now) sought }
    {
        match sought {
            Sought::Ours(candidate) => Some(candidate.path(self.folder, self.named)),
            Sought::Mandatory => Some(joined(MANDATORY_FOLDER.as_bytes(), b"", self.user)),
            Sought::Path => Some(joined(b"", b"", self.counted_profile())),
            Sought::Runtime if self.runtime.is_empty() => None,
            Sought::Runtime => Some(joined(self.runtime, b"/dconf/profile", b"")),
            Sought::System => Some(joined(PROFILES_FOLDER.as_bytes(), b"", self.profile_name())),
            Sought::Data(number) => in_dir(
                dir_at(self.counted_dirs(), number),
                self.profile_name(),
            ),
        }
    }

    fn behind_mandatory(&self) -> Sought
        ensures { result ≡ behind_mandatory (home_of self.now) }
    {
        if !self.has_name() {
            Sought::Runtime
        } else if self.counted_profile().starts_with(b"/") {
            Sought::Path
        } else {
            Sought::System
        }
    }

    /// Where no file is one.
    fn last(&self) -> SoughtStep
        ensures { result ≡ last_step (home_of self.now) }
    {
        if self.has_name() {
            SoughtStep::NoDatabase
        } else {
            SoughtStep::UsersAlone
        }
    }

    fn behind_dir(&self, number: usize) -> SoughtStep
        ensures { result ≡ behind_dir (home_of self.now) number }
    {
        if number < MOST_DIRS - 1 && dir_at(self.counted_dirs(), number + 1).is_some() {
            SoughtStep::Look(Sought::Data(number + 1))
        } else {
            self.last()
        }
    }

    /// Behind one that isn't there.
    fn behind(&self, sought: Sought) -> SoughtStep
        ensures { result ≡ behind (home_of self.now) sought }
    {
        match sought {
            Sought::Ours(candidate) => {
                SoughtStep::of(profile_step(candidate, Found::Missing, true))
            }
            Sought::Mandatory => SoughtStep::Look(self.behind_mandatory()),
            Sought::Path => SoughtStep::NoDatabase,
            Sought::Runtime => SoughtStep::Look(Sought::System),
            Sought::System => SoughtStep::Look(Sought::Data(0)),
            Sought::Data(number) => self.behind_dir(number),
        }
    }

    /// Behind one that is there and can't be read: a name is looked for no further.
    fn behind_bad(&self, sought: Sought) -> SoughtStep
        ensures { result ≡ behind_bad (home_of self.now) sought }
    {
        match sought {
            Sought::Ours(candidate) => {
                SoughtStep::of(profile_step(candidate, Found::Unreadable, true))
            }
            Sought::Mandatory => SoughtStep::Look(self.behind_mandatory()),
            Sought::Path => SoughtStep::NoDatabase,
            Sought::Runtime => SoughtStep::Look(Sought::System),
            Sought::System => self.last(),
            Sought::Data(_) => self.last(),
        }
    }

    fn dconfs_step(&self, sought: Sought, found: Found, is_lenient: bool) -> SoughtStep
        ensures { result ≡ dconfs_step (home_of self.now) sought found is_lenient }
    {
        match found {
            Found::There => SoughtStep::Counts,
            Found::Missing => self.behind(sought).if_none(is_lenient),
            Found::Unreadable if is_lenient => self.behind_bad(sought),
            Found::Unreadable => SoughtStep::Refused,
            Found::Unknown => SoughtStep::Refused,
        }
    }

    /// What comes after a look at one. Whoever is lenient passes over one that can't be read by its own fault.
    pub fn step(&self, sought: Sought, found: Found, is_lenient: bool) -> SoughtStep
        ensures { result ≡ sought_step (home_of self.now) sought found is_lenient }
    {
        match sought {
            Sought::Ours(candidate) => SoughtStep::of(profile_step(candidate, found, is_lenient)),
            Sought::Mandatory => self.dconfs_step(sought, found, is_lenient),
            Sought::Path => self.dconfs_step(sought, found, is_lenient),
            Sought::Runtime => self.dconfs_step(sought, found, is_lenient),
            Sought::System => self.dconfs_step(sought, found, is_lenient),
            Sought::Data(_) => self.dconfs_step(sought, found, is_lenient),
        }
    }

    /// Whether it is told why it isn't the profile: one that is missing where nothing else is looked at, and one is named.
    fn is_said(&self, sought: Sought, found: Found) -> bool
        ensures { result ≡ is_said (home_of self.now) sought found }
    {
        match found {
            Found::There => false,
            Found::Missing => self.behind(sought).is_none(),
            Found::Unreadable => true,
            Found::Unknown => true,
        }
    }

    /// As what it is told: the first such fault is kept.
    pub fn said_as(&self, sought: Sought, found: Found, is_lenient: bool, has_kept: bool) -> Telling
        ensures { result ≡ said_as (home_of self.now) sought found is_lenient has_kept }
    {
        if !self.is_said(sought, found) {
            Telling::Nothing
        } else if self.step(sought, found, is_lenient).is_refusal() {
            Telling::Refuses
        } else if has_kept {
            Telling::Nothing
        } else {
            Telling::Kept
        }
    }
}

impl<'a> Place<'a> {
    /// What comes after one where all that may count are listed.
    pub fn listed(&self, sought: Sought) -> SoughtStep
        ensures { result ≡ listed_step (home_of self.now) sought }
    {
        self.step(sought, Found::Missing, true)
    }

    /// What names the profile.
    fn naming(&self) -> &'a [u8]
        ensures { result.now ≡ naming (home_of self.now) }
    {
        if self.named.is_empty() {
            self.counted_profile()
        } else {
            self.named
        }
    }

    /// By which name one is told of: one that is missing by what names it, and else by its path.
    pub fn told_name(&self, sought: Sought, found: Found) -> PathParts<'a>
        ensures { text_of result ≡ told_name (home_of self.now) sought found }
    {
        match found {
            Found::Missing => joined(b"", b"", self.naming()),
            Found::There => or_empty(self.path(sought)),
            Found::Unreadable => or_empty(self.path(sought)),
            Found::Unknown => or_empty(self.path(sought)),
        }
    }
}

/// A profile in a folder of `$XDG_DATA_DIRS`: one that is no whole path counts for nothing.
fn in_dir<'a>(dir: Option<&'a [u8]>, name: &'a [u8]) -> Option<PathParts<'a>>
    ensures { option_map text_of result ≡ in_dir (option_map (λ d. d.now) dir.entry) name.entry.now }
{
    match dir {
        Some(dir) if dir.starts_with(b"/") => Some(joined(dir, b"/dconf/profile/", name)),
        Some(_) => None,
        None => None,
    }
}

fn joined<'a>(first: &'a [u8], second: &'a [u8], third: &'a [u8]) -> PathParts<'a>
    ensures { text_of result ≡ first.entry.now ++ (second.entry.now ++ third.entry.now) }
{
    PathParts {
        first: b"",
        second: first,
        third: second,
        fourth: third,
    }
}
