//! The looks at the profiles that may count, as C makes them.
ghost use Rattle.std.specs.Prelude.{◌≡◌, option_map};
ghost use Rattle.dconf_places.specs.Told.{text_of};
ghost use Rattle.dconf_homes.specs.Looks.{IsNextLook, found_in, is_before, is_look, looked_at, next_step, step_path, telling_of, told_errno};
ghost use Rattle.dconf_homes.specs.Sought.{or_empty};
ghost use Rattle.dconf_homes.specs.Told.{home_of};

use crate::homes::Place;
use crate::sought::{Sought, SoughtStep};
use dconf_places::{Found, PathParts, Telling};
use dconf_verdicts::{is_files_own, kind_of};

/// What is known of a look at a profile.
#[repr(C)]
#[derive(Clone, Copy)]
pub struct DconfdbProfileLook {
    /// Which one, as [`Sought::number`] has it; 7: none was looked at.
    pub which: u32,
    /// The errno by which it can't be read, or 0.
    pub errno: u32,
    /// And in which folder of `$XDG_DATA_DIRS`.
    pub dir: usize,
    pub is_there: bool,
    /// Whoever opens the store is lenient.
    pub is_lenient: bool,
    /// The store has kept a fault of one.
    pub has_kept: bool,
    /// It isn't looked at: all that may count are listed, as if none were there.
    pub lists: bool,
}

/// What comes then, and what is told of the look.
#[repr(C)]
#[derive(Clone, Copy)]
pub struct DconfdbProfileNext<'a> {
    /// Of a look at another one its path; else it is empty.
    pub path: PathParts<'a>,
    /// By which name it is told.
    pub name: PathParts<'a>,
    /// Of a look in which folder of `$XDG_DATA_DIRS`; else 0.
    pub dir: usize,
    /// As [`SoughtStep::number`] has it.
    pub step: u32,
    /// As what it is told why this one isn't the profile, as [`Telling::number`] has it.
    pub telling: u32,
    /// And by which errno.
    pub errno: u32,
    /// Another one is looked at.
    pub looks: bool,
    /// There is such a place.
    pub has_path: bool,
}

impl DconfdbProfileLook {
    fn is_before(&self) -> bool
        ensures { result ≡ is_before self.now }
    {
        self.which == 7
    }

    fn sought(&self) -> Sought
        ensures { result ≡ looked_at self.now }
    {
        Sought::of_number(self.which, self.dir)
    }

    fn found(&self) -> Found
        ensures { result ≡ found_in self.now }
    {
        let is_own = is_files_own(kind_of(self.errno));
        Found::by(self.errno != 0, is_own, self.is_there)
    }
}

impl SoughtStep {
    /// Whether another one is looked at.
    pub fn is_look(self) -> bool
        ensures { result ≡ is_look self }
    {
        matches!(self, SoughtStep::Look(_))
    }
}

impl<'a> Place<'a> {
    /// What comes first, or after a look.
    pub fn next(&self, look: &DconfdbProfileLook) -> DconfdbProfileNext<'a>
        ensures { IsNextLook (home_of self.now) look.now result }
    {
        let step = self.next_step(look);
        let path = self.step_path(step);
        DconfdbProfileNext {
            path: or_empty(path),
            name: self.told_name(look.sought(), look.found()),
            dir: step.dir(),
            step: step.number(),
            telling: self.telling(look).number(),
            errno: told_errno(look.errno),
            looks: step.is_look(),
            has_path: path.is_some(),
        }
    }

    fn next_step(&self, look: &DconfdbProfileLook) -> SoughtStep
        ensures { result ≡ next_step (home_of self.now) look.now }
    {
        if look.is_before() {
            SoughtStep::Look(self.first())
        } else if look.lists {
            self.listed(look.sought())
        } else {
            self.step(look.sought(), look.found(), look.is_lenient)
        }
    }

    fn step_path(&self, step: SoughtStep) -> Option<PathParts<'a>>
        ensures { option_map text_of result ≡ step_path (home_of self.now) step }
    {
        match step {
            SoughtStep::Look(sought) => self.path(sought),
            SoughtStep::UsersAlone => None,
            SoughtStep::Counts => None,
            SoughtStep::NoDatabase => None,
            SoughtStep::Refused => None,
        }
    }

    fn telling(&self, look: &DconfdbProfileLook) -> Telling
        ensures { result ≡ telling_of (home_of self.now) look.now }
    {
        if look.is_before() || look.lists {
            Telling::Nothing
        } else {
            self.said_as(look.sought(), look.found(), look.is_lenient, look.has_kept)
        }
    }
}

/// Of one that is missing it is ENOENT.
fn told_errno(errno: u32) -> u32
    ensures { result ≡ told_errno errno }
{
    if errno == 0 { 2 } else { errno }
}

/// Without a path all parts are empty.
pub(crate) fn or_empty<'a>(path: Option<PathParts<'a>>) -> PathParts<'a>
    ensures { text_of result ≡ or_empty (option_map text_of path.entry) }
{
    match path {
        Some(path) => path,
        None => PathParts {
            first: b"",
            second: b"",
            third: b"",
            fourth: b"",
        },
    }
}
