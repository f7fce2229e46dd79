//! What whoever looks at the files of a store does next.
ghost use Rattle.std.specs.Prelude.{◌≡◌};
ghost use Rattle.dconf_rounds.specs.Glances.{after_barred, are_as_read, begins_with, glance_after, glance_number, hands, heeds, is_another, opens, refreshes, settles, watches_anew};

/// What comes next, in this order; of the first three, one does.
#[derive(Clone, Copy)]
pub enum Glance {
    /// Looks at the databases of the store that is open.
    Refresh,
    /// Opens the store anew, with what its profile names now, which may be other files.
    Open,
    /// The same, but the profiles look like those that were read.
    OpenAgain,
    /// Hands out what is the newest.
    Hand,
    /// Heeds what others changed, while own changes wait.
    Heed,
    /// Has the files watched that are the store's now.
    Watch,
    /// Settles what waits and is there already, by the files that were read.
    Settle,
    /// Rests a moment, and asks for the turn to look again.
    Again,
    /// It is over, and succeeded.
    Seen,
    /// It is over, and failed.
    Failed,
}

/// What is known.
#[repr(C)]
#[derive(Clone, Copy)]
pub struct GlanceKnown {
    /// Whether each of the two files that may be the profile is the one that was read: 0 it is, 2 nobody can be sure, and else it isn't.
    pub first: u32,
    pub second: u32,
    pub is_open: bool,
    /// The profile of a store that is open counts as it was read: nobody looks at it again.
    pub keeps_profile: bool,
    /// The files were read, or the store was opened.
    pub is_done: bool,
    /// The newest is handed out already.
    pub is_shown: bool,
    /// What was handed out is another than before.
    pub is_other: bool,
    /// Changes wait to be written.
    pub waits: bool,
    /// The store that was opened has the files of the one before.
    pub has_same_files: bool,
    /// Another thread has the turn to look.
    pub is_barred: bool,
    /// That one changes the files: it has read them in its turn, and nobody else changes them until it has written.
    pub is_amid: bool,
    /// The time is over that who looks waits for that turn.
    pub is_late: bool,
    /// Who looks wants to know what of that which waits is there already.
    pub is_to_settle: bool,
    /// One of those files couldn't be looked at when the profile was read, or can't be now.
    pub was_unseen: bool,
    pub is_unseen: bool,
    /// Who looks reads a value.
    pub is_reading: bool,
    /// Nothing was handed out before.
    pub is_first: bool,
}

/// What comes next, once the first `done` tasks were done, or were not due.
pub fn glance_after(done: u32, known: &GlanceKnown) -> Glance
    ensures { result ≡ glance_after done known.now }
{
    if known.is_barred {
        return after_barred(done, known);
    }
    if done < 1 {
        return begins_with(known);
    }
    if done < 4 && hands(known) {
        return Glance::Hand;
    }
    if done < 5 && heeds(known) {
        return Glance::Heed;
    }
    if done < 6 && watches_anew(known) {
        return Glance::Watch;
    }
    if done < 7 && settles(known) {
        return Glance::Settle;
    }
    if known.is_done {
        return Glance::Seen;
    }
    Glance::Failed
}

/// The same as a number: 1 refresh, 2 open, 3 open again, 4 hand, 5 heed, 6 watch, 7 settle, 8 again, 9 seen, 10 failed.
pub fn glance_number(done: u32, known: &GlanceKnown) -> u32
    ensures { result ≡ glance_number (glance_after done known.now) }
{
    match glance_after(done, known) {
        Glance::Refresh => 1,
        Glance::Open => 2,
        Glance::OpenAgain => 3,
        Glance::Hand => 4,
        Glance::Heed => 5,
        Glance::Watch => 6,
        Glance::Settle => 7,
        Glance::Again => 8,
        Glance::Seen => 9,
        Glance::Failed => 10,
    }
}

/// The same of who can't look: what another thread has seen is as new, if that changes the files; and else that one is over soon, which who reads doesn't
/// wait for.
fn after_barred(done: u32, known: &GlanceKnown) -> Glance
    ensures { result ≡ after_barred done known.now }
{
    if known.is_amid {
        return if done == 4 || known.is_shown {
            Glance::Seen
        } else {
            Glance::Hand
        };
    }
    if known.is_late || known.is_reading {
        return Glance::Failed;
    }
    Glance::Again
}

fn begins_with(known: &GlanceKnown) -> Glance
    ensures { result ≡ begins_with known.now }
{
    if refreshes(known) {
        return Glance::Refresh;
    }
    if opens(known) {
        return Glance::Open;
    }
    Glance::OpenAgain
}

/// Whether none is open, or a profile is another one for sure.
fn opens(known: &GlanceKnown) -> bool
    ensures { result ≡ opens known.now }
{
    !known.is_open
        || (!known.keeps_profile && (is_another(known.first) || is_another(known.second)))
}

/// Whether the store is open, and both profiles are the ones that were read, for sure, or count as they were read.
fn refreshes(known: &GlanceKnown) -> bool
    ensures { result ≡ refreshes known.now }
{
    known.is_open && (known.keeps_profile || are_as_read(known))
}

/// What can't be looked at may be another one.
fn are_as_read(known: &GlanceKnown) -> bool
    ensures { result ≡ are_as_read known.now }
{
    (known.first == 0 && known.second == 0) && !(known.was_unseen || known.is_unseen)
}

fn is_another(sameness: u32) -> bool
    ensures { result ≡ is_another sameness }
{
    sameness != 0 && sameness != 2
}

/// Whether anything may be new: also that it failed.
fn hands(known: &GlanceKnown) -> bool
    ensures { result ≡ hands known.now }
{
    !(known.is_done && (known.is_shown && refreshes(known)))
}

/// Whether own changes wait, and others changed what was there when they were set: not if nothing was.
fn heeds(known: &GlanceKnown) -> bool
    ensures { result ≡ heeds known.now }
{
    !known.is_first && (known.is_other && known.waits)
}

/// What waits counts as there only by files that were read.
fn settles(known: &GlanceKnown) -> bool
    ensures { result ≡ settles known.now }
{
    known.is_done && known.is_to_settle
}

/// Whether a store was opened whose files may be others than those that are watched.
fn watches_anew(known: &GlanceKnown) -> bool
    ensures { result ≡ watches_anew known.now }
{
    known.is_done && (opens(known) || (!refreshes(known) && !known.has_same_files))
}
