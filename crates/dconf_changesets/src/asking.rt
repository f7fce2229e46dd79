//! Where who reads finds the newest word of a key, and whether it looks at the files.
ghost use Rattle.std.specs.Prelude.{◌≡◌};
ghost use Rattle.dconf_changesets.specs.Asking.{asked_after, is_heard, is_spared, look_due, look_number};

/// Which set is asked for a key's newest word, once so many were asked, and said nothing: 1 what is being written, 2 what waits, and from 3
/// on those that are read through, the first first; 0 is the store. `sets` is the greatest number.
pub fn asked_after(sets: usize, asked: usize) -> usize
    ensures { result ≡ asked_after sets asked }
{
    sets.saturating_sub(asked)
}

/// What becomes of a look at the files.
#[derive(Clone, Copy)]
pub enum LookDue {
    /// None is made: what is known of them is what is wanted.
    Nothing,
    /// No store is open: it is opened.
    Opens,
    /// It is made.
    Looks,
    /// It is made once the file is replaced: till then what was seen before is what there is.
    Later,
}

/// What is known of the files.
#[repr(C)]
#[derive(Clone, Copy)]
pub struct LookKnown {
    /// When whoever watches them looks again of itself; 0: once something is told.
    pub until: u64,
    /// A store is open; or the first one could not be opened, and whoever looks tries again.
    pub is_open: bool,
    /// Somebody watches them, and looks when something happens.
    pub is_watched: bool,
    /// All that happens to them is told.
    pub is_whole: bool,
    /// Something may have been told that nobody has looked at yet.
    pub is_told: bool,
    /// It is told to this process.
    pub is_own: bool,
    /// This client replaces one of them.
    pub is_busy: bool,
}

/// Whether who asks looks at the files: 0 who wants to see them, 1 who changes a setting, 2 who reads one, or 3 who wants no more than the
/// store.
pub fn look_due(looker: u32, known: &LookKnown) -> LookDue
    ensures { result ≡ look_due looker known.now }
{
    if !known.is_open {
        return LookDue::Opens;
    }
    if is_spared(looker, known) {
        return LookDue::Nothing;
    }
    if known.is_busy {
        return LookDue::Later;
    }
    LookDue::Looks
}

/// The same as a number: 0 nothing, 1 it opens, 2 it looks, 3 later.
pub fn look_number(looker: u32, known: &LookKnown) -> u32
    ensures { result ≡ look_number (look_due looker known.now) }
{
    match look_due(looker, known) {
        LookDue::Nothing => 0,
        LookDue::Opens => 1,
        LookDue::Looks => 2,
        LookDue::Later => 3,
    }
}

fn is_spared(looker: u32, known: &LookKnown) -> bool
    ensures { result ≡ is_spared looker known.now }
{
    looker == 3 || known.is_watched && (looker == 1 || (looker == 2 && is_heard(known)))
}

/// Whether the files are as they were seen: all that happens to them is told to this process, and nothing has been.
fn is_heard(known: &LookKnown) -> bool
    ensures { result ≡ is_heard known.now }
{
    known.is_whole && (known.until == 0 && (!known.is_told && known.is_own))
}
