//! Whether a file is to be made for a change.
ghost use Rattle.std.specs.Prelude.{◌≡◌};
ghost use Rattle.std.specs.List.{list_any};
ghost use Rattle.dconf_made.specs.Needs.{need_number, need_of, users_of};

use dconfdb_calls::DconfdbChange;

/// What stands at the name of the user's database.
#[derive(Clone, Copy, Debug, PartialEq, Eq)]
pub enum Users {
    /// A file.
    There,
    /// Nothing.
    Missing,
    /// It can't be said.
    Unreadable,
    /// Nobody looked.
    Unknown,
    /// No database of the profile is the user's.
    Nowhere,
}

/// Whether a file is to be made.
#[derive(Clone, Copy, Debug, PartialEq, Eq)]
pub enum Need {
    /// One is, as far as the change goes.
    File,
    /// None is, nor a folder for it: there is nothing that could be changed.
    Nothing,
    /// It is to be looked what stands at the name.
    Look,
}

/// Whether a file is to be made for changes: not where no database is the user's, nor where it has no file, and nothing is set.
pub fn need_of(users: Users, changes: &[DconfdbChange<'_>]) -> Need
    ensures { result ≡ need_of users (list_any (λ c. c.sets) changes.now) }
{
    match users {
        Users::Nowhere => Need::Nothing,
        _ if any_sets(changes) => Need::File,
        Users::Missing => Need::Nothing,
        Users::Unknown => Need::Look,
        _ => Need::File,
    }
}

/// The same in numbers: 0 there, 1 missing, 2 unreadable, 3 unknown, 4 nowhere; 0 a file, 1 nothing, 2 a look.
pub fn need_number(users: u32, changes: &[DconfdbChange<'_>]) -> u32
    ensures { result ≡ need_number (need_of (users_of users) (list_any (λ c. c.sets) changes.now)) }
{
    match need_of(users_of(users), changes) {
        Need::File => 0,
        Need::Nothing => 1,
        Need::Look => 2,
    }
}

pub(crate) fn users_of(number: u32) -> Users
    ensures { result ≡ users_of number }
{
    match number {
        0 => Users::There,
        1 => Users::Missing,
        2 => Users::Unreadable,
        3 => Users::Unknown,
        _ => Users::Nowhere,
    }
}

/// Whether one of them sets a value.
fn any_sets(changes: &[DconfdbChange<'_>]) -> bool
    ensures { result ≡ list_any (λ c. c.sets) changes.now }
{
    for change in changes {
        if change.sets {
            return true;
        }
    }
    false
}
