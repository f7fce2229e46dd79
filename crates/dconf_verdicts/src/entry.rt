//! What becomes of a change that is asked for, beside what waits and what is stored.
ghost use Rattle.std.specs.Prelude.{◌≡◌};
ghost use Rattle.std.specs.List.{list_all, list_any};
ghost use Rattle.dconf_verdicts.specs.Entries.{entry_number, entry_of, goes, is_barred, is_news, is_there, renews};

/// An edit that is asked for, and what is known of its key.
#[repr(C)]
#[derive(Clone, Copy)]
pub struct NewEdit {
    /// It sets a value; else it takes one away.
    pub sets: bool,
    /// Its key may be written. A reset of any other is left out.
    pub may: bool,
    /// It says what the newest edit says that waits of its key; or, where none waits, the user has that by what was seen last.
    pub is_same: bool,
    /// One waits of its key.
    pub waits: bool,
    /// The newest of them is alone in its change.
    pub is_alone: bool,
    /// Somebody writes that one already.
    pub is_taken: bool,
}

/// What becomes of it.
#[derive(Clone, Copy)]
pub enum Entry {
    /// It is refused: it sets a key that may not be written.
    Refused,
    /// Nothing of it is left.
    Empty,
    /// The one that waits is newer by now: it counts as set in this moment.
    Renews,
    /// It waits, though nothing is seen otherwise: another program may have changed the key, and nobody noticed yet.
    Asks,
    /// It waits.
    Waits,
}

/// What becomes of a change. Nothing that may be written is forgotten because it is there already.
pub fn entry_of(edits: &[NewEdit]) -> Entry
    ensures { result ≡ entry_of edits.now }
{
    if has_barred(edits) {
        return Entry::Refused;
    }
    if !has_going(edits) {
        return Entry::Empty;
    }
    if has_news(edits) {
        return Entry::Waits;
    }
    if !renews(edits) {
        return Entry::Asks;
    }
    Entry::Renews
}

/// The same as a number: 0 refused, 1 empty, 2 renews, 3 asks, 4 waits.
pub fn entry_number(edits: &[NewEdit]) -> u32
    ensures { result ≡ entry_number (entry_of edits.now) }
{
    match entry_of(edits) {
        Entry::Refused => 0,
        Entry::Empty => 1,
        Entry::Renews => 2,
        Entry::Asks => 3,
        Entry::Waits => 4,
    }
}

/// Whether all that a change asks for is there already, by what was seen last, so that nothing is to be written: the user has it, and no
/// other edit of its keys waits (`waits`).
pub fn is_there(edits: &[NewEdit]) -> bool
    ensures { result ≡ list_all is_there edits.now }
{
    for edit in edits {
        if edit.sets && !edit.may || is_news(*edit) || edit.may && edit.waits {
            return false;
        }
    }
    true
}

fn has_barred(edits: &[NewEdit]) -> bool
    ensures { result ≡ list_any is_barred edits.now }
{
    for edit in edits {
        if edit.sets && !edit.may {
            return true;
        }
    }
    false
}

fn has_going(edits: &[NewEdit]) -> bool
    ensures { result ≡ list_any goes edits.now }
{
    for edit in edits {
        if edit.may {
            return true;
        }
    }
    false
}

fn has_news(edits: &[NewEdit]) -> bool
    ensures { result ≡ list_any is_news edits.now }
{
    for edit in edits {
        if is_news(*edit) {
            return true;
        }
    }
    false
}

/// Whether it is one edit, and one waits that says the same, is alone in its change, and is nobody's to write yet.
fn renews(edits: &[NewEdit]) -> bool
    ensures { result ≡ renews edits.now }
{
    match edits {
        [edit] => edit.waits && edit.is_same && edit.is_alone && !edit.is_taken,
        _ => false,
    }
}

/// Whether something else is seen by an edit that waits: that is told.
pub fn is_news(edit: NewEdit) -> bool
    ensures { result ≡ is_news edit }
{
    edit.may && !edit.is_same
}
