//! Which profile counts, by what a look at each found.
ghost use Rattle.std.specs.Prelude.{◌≡◌};
ghost use Rattle.dconf_places.specs.Numbers.{candidate_number, candidate_numbered, step_number, telling_number};
ghost use Rattle.dconf_places.specs.ProfileSteps.{after, candidate_path, first_candidate, found_by, if_missing, is_refused, is_told, profile_step, told_as};
ghost use Rattle.dconf_places.specs.Told.{text_of};

use crate::files::EVERYONES_PROFILE;
use crate::parts::PathParts;

/// A profile that may count.
#[derive(Clone, Copy)]
pub enum Candidate {
    /// The one that is named, by a word or by the environment: then no other counts.
    Named,
    /// That in the store's folder.
    Own,
    /// That of all users.
    Everyones,
}

impl Candidate {
    /// The one that is looked at first.
    pub fn first(is_named: bool) -> Candidate
        ensures { result ≡ first_candidate is_named }
    {
        if is_named {
            Candidate::Named
        } else {
            Candidate::Own
        }
    }

    /// The path of its file, by that of the store's folder, and that of the profile that is named.
    pub fn path<'a>(self, folder: &'a [u8], named: &'a [u8]) -> PathParts<'a>
        ensures { text_of result ≡ candidate_path self folder.entry.now named.entry.now }
    {
        match self {
            Candidate::Named => PathParts::of_two(b"", named),
            Candidate::Own => PathParts::of_two(folder, b"/profile"),
            Candidate::Everyones => PathParts::of_two(b"", EVERYONES_PROFILE.as_bytes()),
        }
    }

    /// Its number: 0 named, 1 own, 2 everyone's.
    pub fn number(self) -> u32
        ensures { result ≡ candidate_number self }
    {
        match self {
            Candidate::Named => 0,
            Candidate::Own => 1,
            Candidate::Everyones => 2,
        }
    }

    /// That of a number.
    pub fn of_number(number: u32) -> Candidate
        ensures { result ≡ candidate_numbered number }
    {
        match number {
            0 => Candidate::Named,
            1 => Candidate::Own,
            _ => Candidate::Everyones,
        }
    }
}

/// What a look at a profile found.
#[derive(Clone, Copy)]
pub enum Found {
    /// It is there, and can be read.
    There,
    /// It is not there.
    Missing,
    /// It can't be read, by its own fault: until somebody mends it or its place.
    Unreadable,
    /// It can't be read in this moment.
    Unknown,
}

impl Found {
    /// By what the system says of the file: reading it fails, by a fault of the file's own or by another one, or it is there or not.
    pub fn by(fails: bool, is_own: bool, is_there: bool) -> Found
        ensures { result ≡ found_by fails is_own is_there }
    {
        match (fails, is_own, is_there) {
            (true, true, _) => Found::Unreadable,
            (true, false, _) => Found::Unknown,
            (false, _, true) => Found::There,
            (false, _, false) => Found::Missing,
        }
    }
}

/// What comes after a look.
#[derive(Clone, Copy)]
pub enum ProfileStep {
    /// A look at this one.
    Look(Candidate),
    /// The one that was looked at is the profile.
    Counts,
    /// The line `user-db:user` is.
    UsersAlone,
    /// The store has no database.
    NoDatabase,
    /// The store can't be opened.
    Refused,
}

impl ProfileStep {
    /// Its number: that of whom to look at; 3 the user alone, 4 it counts, 5 no database, 6 refused.
    pub fn number(self) -> u32
        ensures { result ≡ step_number self }
    {
        match self {
            ProfileStep::Look(candidate) => candidate.number(),
            ProfileStep::UsersAlone => 3,
            ProfileStep::Counts => 4,
            ProfileStep::NoDatabase => 5,
            ProfileStep::Refused => 6,
        }
    }
}

/// What comes after a look at a profile. Whoever is lenient passes over one that can't be read by its own fault.
pub fn profile_step(candidate: Candidate, found: Found, is_lenient: bool) -> ProfileStep
    ensures { result ≡ profile_step candidate found is_lenient }
{
    match found {
        Found::There => ProfileStep::Counts,
        Found::Missing => if_missing(candidate, is_lenient),
        Found::Unreadable if is_lenient => after(candidate),
        Found::Unreadable => ProfileStep::Refused,
        Found::Unknown => ProfileStep::Refused,
    }
}

/// Whether it is told why it isn't the profile. One that nobody names may be missing.
pub fn is_told(candidate: Candidate, found: Found) -> bool
    ensures { result ≡ is_told candidate found }
{
    match found {
        Found::There => false,
        Found::Missing => matches!(candidate, Candidate::Named),
        Found::Unreadable => true,
        Found::Unknown => true,
    }
}

/// As what it is told why a profile isn't the one that counts.
#[derive(Clone, Copy)]
pub enum Telling {
    /// It isn't.
    Nothing,
    /// As why the store can't be opened.
    Refuses,
    /// The store keeps it, which has kept none so far.
    Kept,
}

impl Telling {
    /// Its number: 0 nothing, 1 refuses, 2 kept.
    pub fn number(self) -> u32
        ensures { result ≡ telling_number self }
    {
        match self {
            Telling::Nothing => 0,
            Telling::Refuses => 1,
            Telling::Kept => 2,
        }
    }
}

/// As what it is told: the first such fault is kept.
pub fn told_as(candidate: Candidate, found: Found, is_lenient: bool, has_kept: bool) -> Telling
    ensures { result ≡ told_as candidate found is_lenient has_kept }
{
    if !is_told(candidate, found) {
        return Telling::Nothing;
    }
    if is_refused(profile_step(candidate, found, is_lenient)) {
        return Telling::Refuses;
    }
    if has_kept {
        Telling::Nothing
    } else {
        Telling::Kept
    }
}

fn is_refused(step: ProfileStep) -> bool
    ensures { result ≡ is_refused step }
{
    matches!(step, ProfileStep::Refused)
}

fn if_missing(candidate: Candidate, is_lenient: bool) -> ProfileStep
    ensures { result ≡ if_missing candidate is_lenient }
{
    match candidate {
        Candidate::Named if is_lenient => ProfileStep::NoDatabase,
        Candidate::Named => ProfileStep::Refused,
        Candidate::Own => ProfileStep::Look(Candidate::Everyones),
        Candidate::Everyones => ProfileStep::UsersAlone,
    }
}

/// What comes after one that is passed over.
fn after(candidate: Candidate) -> ProfileStep
    ensures { result ≡ after candidate }
{
    match candidate {
        Candidate::Named => ProfileStep::NoDatabase,
        Candidate::Own => ProfileStep::Look(Candidate::Everyones),
        Candidate::Everyones => ProfileStep::UsersAlone,
    }
}
