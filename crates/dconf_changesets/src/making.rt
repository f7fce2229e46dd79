//! What becomes of a change whose caller waits for it.
ghost use Rattle.std.specs.Prelude.{◌≡◌};
ghost use Rattle.dconf_changesets.specs.Making.{begins_with, change_after, change_number, closed_by, fails_by, given_up, has_place, is_enough, is_unmade, puts, stopped_by, tells, tried_asks, tried_number, waits_again};

/// What comes next, in this order.
#[derive(Clone, Copy)]
pub enum ChangeTask {
    /// Writes what was asked for before. It answers whether that is written.
    Before,
    /// All that the change asks for is there: brings it to the disk. It answers whether it is.
    Settle,
    /// Puts what is left of the change into the store. It answers whether it is there.
    Put,
    /// Tells what others changed, but for what the change says itself, which is there now.
    Others,
    /// Tells what is new by the change.
    Tell,
    /// The change could not be made: takes it away, and tells what others changed.
    GiveUp,
    /// It is over: it is made.
    Made,
    /// It is over: a key may not be written.
    Refused,
    /// It is over: it could not be made.
    Failed,
}

/// What is known; but for the first four from when all is written that was asked for before.
#[repr(C)]
#[derive(Clone, Copy)]
pub struct ChangeKnown {
    /// It asks for nothing.
    pub is_empty: bool,
    /// It sets a key that may not be written.
    pub is_refused: bool,
    /// A store is open.
    pub has_store: bool,
    /// It has a user's database.
    pub has_user: bool,
    /// That has all that the change asks for.
    pub is_there: bool,
    /// Something is left of it to be put.
    pub is_left: bool,
    /// The user has something else by it.
    pub is_news: bool,
    /// Somebody is told of such.
    pub is_watched: bool,
    /// By the verdict on the fault of the task that failed last it is refused: a key is locked, or there is no database that could be written.
    pub is_barred: bool,
}

/// What comes next, once the first `done` tasks were done, or were not due; `is_so` is the answer to the last one.
pub fn change_after(done: u32, is_so: bool, known: &ChangeKnown) -> ChangeTask
    ensures { result ≡ change_after done is_so known.now }
{
    if done < 1 {
        return begins_with(known);
    }
    if done == 1 && !is_so {
        return stopped_by(known);
    }
    if done == 6 {
        return given_up(known);
    }
    if (done == 3 && !is_so) || (done < 2 && !has_place(known)) {
        return ChangeTask::GiveUp;
    }
    if done < 2 && known.is_there {
        return ChangeTask::Settle;
    }
    if done < 3 && puts(done, is_so, known) {
        return ChangeTask::Put;
    }
    if done < 4 {
        return ChangeTask::Others;
    }
    if done < 5 && tells(known) {
        return ChangeTask::Tell;
    }
    ChangeTask::Made
}

/// The same as a number: 1 before, 2 settle, 3 put, 4 others, 5 tell, 6 give up, 7 made, 8 refused, 9 failed.
pub fn change_number(done: u32, is_so: bool, known: &ChangeKnown) -> u32
    ensures { result ≡ change_number (change_after done is_so known.now) }
{
    match change_after(done, is_so, known) {
        ChangeTask::Before => 1,
        ChangeTask::Settle => 2,
        ChangeTask::Put => 3,
        ChangeTask::Others => 4,
        ChangeTask::Tell => 5,
        ChangeTask::GiveUp => 6,
        ChangeTask::Made => 7,
        ChangeTask::Refused => 8,
        ChangeTask::Failed => 9,
    }
}

fn begins_with(known: &ChangeKnown) -> ChangeTask
    ensures { result ≡ begins_with known.now }
{
    if known.is_empty {
        return ChangeTask::Made;
    }
    if known.has_store && known.is_refused {
        return ChangeTask::Refused;
    }
    ChangeTask::Before
}

/// What is said of a change that could not be made. dconf has one error for all that may not be written, and one for the rest.
fn fails_by(known: &ChangeKnown) -> ChangeTask
    ensures { result ≡ fails_by known.now }
{
    if known.is_barred {
        return ChangeTask::Refused;
    }
    ChangeTask::Failed
}

/// Whether there is a user's database that it could be put into.
fn has_place(known: &ChangeKnown) -> bool
    ensures { result ≡ has_place known.now }
{
    known.has_store && known.has_user
}

/// What is said where there is none: a store without one takes no change, not even a reset.
fn closed_by(known: &ChangeKnown) -> ChangeTask
    ensures { result ≡ closed_by known.now }
{
    if known.has_store {
        return ChangeTask::Refused;
    }
    ChangeTask::Failed
}

/// What is said where what was asked for before is not written: why that isn't is nothing that is said of this one.
fn stopped_by(known: &ChangeKnown) -> ChangeTask
    ensures { result ≡ stopped_by known.now }
{
    if !has_place(known) {
        return closed_by(known);
    }
    ChangeTask::Failed
}

/// What is said of a change that was given up: there is no place for it, or it failed.
fn given_up(known: &ChangeKnown) -> ChangeTask
    ensures { result ≡ given_up known.now }
{
    if has_place(known) {
        return fails_by(known);
    }
    closed_by(known)
}

/// Whether something is to be put: not if all was there, and is on the disk.
fn puts(done: u32, is_so: bool, known: &ChangeKnown) -> bool
    ensures { result ≡ puts done is_so known.now }
{
    known.is_left && !(done == 2 && is_so)
}

fn tells(known: &ChangeKnown) -> bool
    ensures { result ≡ tells known.now }
{
    known.is_news && known.is_watched
}

/// An edit that was tried, and what is known of it.
#[repr(C)]
#[derive(Clone, Copy)]
pub struct Tried {
    /// All changes are made but for those that are refused.
    pub is_written: bool,
    /// Its change is refused.
    pub is_refused: bool,
    /// It is left out of its change.
    pub is_left_out: bool,
    /// It counts as set when it is made: nobody has set its path since.
    pub is_now: bool,
    /// The user has what it says.
    pub is_there: bool,
    /// A later edit of its path, of one below it or of a directory above it was tried with it: whoever is told of that is told of this.
    pub is_again: bool,
}

/// Whether it is not made, so that whoever was told of it is told again: it is refused or left out, or others have set its path since.
pub fn is_unmade(edit: &Tried) -> bool
    ensures { result ≡ is_unmade edit.now }
{
    edit.is_refused
        || (edit.is_left_out
            || (edit.is_written && !(edit.is_now || (edit.is_again || edit.is_there))))
}

/// What is asked of an edit that was tried, one after the other.
#[derive(Clone, Copy)]
pub enum TriedAsk {
    /// Nothing more: what is known is enough.
    Nothing,
    /// Whether a later edit of its path, or of one below it, was tried with it.
    Again,
    /// Whether a later one of a directory above it was.
    Above,
    /// Whether the user has what it says.
    There,
}

/// What is asked next of an edit that was tried, once so many questions were asked or passed over. Each takes time, and is asked only where it counts.
pub fn tried_asks(done: u32, edit: &Tried) -> TriedAsk
    ensures { result ≡ tried_asks done edit.now }
{
    if is_enough(edit) {
        return TriedAsk::Nothing;
    }
    match done {
        0 => TriedAsk::Again,
        1 => TriedAsk::Above,
        2 => TriedAsk::There,
        _ => TriedAsk::Nothing,
    }
}

/// The same as a number: 0 nothing, 1 again, 2 above, 3 there.
pub fn tried_number(done: u32, edit: &Tried) -> u32
    ensures { result ≡ tried_number (tried_asks done edit.now) }
{
    match tried_asks(done, edit) {
        TriedAsk::Nothing => 0,
        TriedAsk::Again => 1,
        TriedAsk::Above => 2,
        TriedAsk::There => 3,
    }
}

/// Whether it is known already that it is made, or goes on waiting, or isn't made.
fn is_enough(edit: &Tried) -> bool
    ensures { result ≡ is_enough edit.now }
{
    !edit.is_written || (edit.is_refused || (edit.is_left_out || (edit.is_now || edit.is_again)))
}

/// Whether what could not be written waits again, each path by itself: it is not unmade, and nothing newer is asked for there. So of each path the
/// newest word waits that can be made.
pub fn waits_again(is_unmade: bool, is_newer: bool) -> bool
    ensures { result ≡ waits_again is_unmade is_newer }
{
    !is_unmade && !is_newer
}
