//! A change from its beginning to its end: whether a turn is taken for it, and what is done where no file is to be made.
ghost use Rattle.std.specs.Prelude.{◌≡◌};
ghost use Rattle.std.specs.List.{list_any};
ghost use Rattle.dconf_made.specs.Courses.{after_well, begun, by_need, course_after, task_number, unmade};
ghost use Rattle.dconf_made.specs.Needs.{need_of, users_of};

use crate::need::{Need, need_of, users_of};
use dconfdb_calls::DconfdbChange;

/// What comes next.
#[derive(Clone, Copy, Debug, PartialEq, Eq)]
pub enum Task {
    /// Looks what stands at the name of the user's file.
    Look,
    /// Takes the lock, and changes the file in its turn. It answers whether it is made.
    Change,
    /// The same, with the lock that is had.
    Turn,
    /// Looks at the files. It answers whether they could be read.
    Refresh,
    /// Asks what is wrong with the change. It answers whether nothing is.
    Well,
    /// Brings to the disk that there is no file. It answers whether that is done.
    Settle,
    /// It is over: what it asks for is there.
    Done,
    /// It is over: a fault of it is told.
    Failed,
}

/// What is known of a change.
#[repr(C)]
#[derive(Clone, Copy)]
pub struct Course {
    pub has_edits: bool,
    /// A database is the user's.
    pub has_user: bool,
    /// The lock is had.
    pub is_locked: bool,
    /// Nothing is brought to the disk by this store.
    pub is_unsynced: bool,
}

/// What comes after that task, by its answer; of the first, which is 0, any will do. `need` is whether a file is to be made.
pub fn course_after(done: u32, is_so: bool, need: Need, known: &Course) -> Task
    ensures { result ≡ course_after done is_so need known.now }
{
    match done {
        0 => begun(need, known),
        1 => by_need(need, known),
        _ if !is_so => Task::Failed,
        4 => Task::Well,
        5 => after_well(known),
        _ => Task::Done,
    }
}

fn begun(need: Need, known: &Course) -> Task
    ensures { result ≡ begun need known.now }
{
    if !known.has_edits {
        return Task::Done;
    }
    if !known.is_locked {
        return match need {
            Need::Look => Task::Look,
            Need::File | Need::Nothing => by_need(need, known),
        };
    }
    if known.has_user {
        Task::Turn
    } else {
        Task::Well
    }
}

/// Once it is known what stands there, as far as that can be said.
fn by_need(need: Need, known: &Course) -> Task
    ensures { result ≡ by_need need known.now }
{
    match need {
        Need::Nothing => unmade(known),
        Need::File | Need::Look => Task::Change,
    }
}

/// Where no file is to be made.
fn unmade(known: &Course) -> Task
    ensures { result ≡ unmade known.now }
{
    if known.has_user {
        Task::Refresh
    } else {
        Task::Well
    }
}

fn after_well(known: &Course) -> Task
    ensures { result ≡ after_well known.now }
{
    if known.has_user && !known.is_unsynced {
        Task::Settle
    } else {
        Task::Done
    }
}

/// The same in numbers: 1 look, 2 change, 3 turn, 4 refresh, 5 well, 6 settle, 7 done, 8 failed. What stands at the name: 0 a file, 1 nothing,
/// 2 it can't be said, 3 nobody looked, 4 no database is the user's.
pub fn course_number(
    done: u32,
    is_so: bool,
    users: u32,
    changes: &[DconfdbChange<'_>],
    known: &Course,
) -> u32
    ensures { result ≡ task_number (course_after done is_so (need_of (users_of users) (list_any (λ c. c.sets) changes.now)) known.now) }
{
    let need = need_of(users_of(users), changes);
    match course_after(done, is_so, need, known) {
        Task::Look => 1,
        Task::Change => 2,
        Task::Turn => 3,
        Task::Refresh => 4,
        Task::Well => 5,
        Task::Settle => 6,
        Task::Done => 7,
        Task::Failed => 8,
    }
}
