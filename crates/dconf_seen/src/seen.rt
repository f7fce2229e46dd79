//! Where the value of a key is found while an edit of it may wait.
ghost use Rattle.std.specs.Prelude.{◌≡◌};
ghost use Rattle.dconf_seen.specs.Waiting.{own_by, past, shown_as, shown_by, word_numbered};

/// What the newest edit says that waits of a key.
#[derive(Clone, Copy, Debug, PartialEq, Eq)]
pub enum Word {
    /// None waits.
    Silent,
    /// The user's value goes.
    Unset,
    /// The user has this value.
    Sets,
}

/// Where the value is found that is seen.
#[derive(Clone, Copy, Debug, PartialEq, Eq)]
pub enum Shown {
    /// In the databases, as their locks and their order say.
    Stored,
    /// In the databases, without the user's value.
    Default,
    /// In the edit.
    Edit,
}

/// Where the user's own value is found.
#[derive(Clone, Copy, Debug, PartialEq, Eq)]
pub enum Own {
    /// In the first database.
    First,
    /// There is none.
    Nothing,
    /// In the edit.
    Edited,
}

/// Where what is seen of a key is found: by the newest edit that waits; by whether the key may be written, for which there is a user's
/// database, and no lock covers the key; and by whether the edit's value is of the type that is asked for, and the one that is stored.
pub fn shown_as(word: Word, may_write: bool, edit_fits: bool, stored_fits: bool) -> Shown
    ensures { result ≡ shown_as word may_write edit_fits stored_fits }
{
    past(shown_by(word, may_write), edit_fits, stored_fits)
}

/// The same of any type.
fn shown_by(word: Word, may_write: bool) -> Shown
    ensures { result ≡ shown_by word may_write }
{
    match word {
        Word::Sets if may_write => Shown::Edit,
        Word::Unset if may_write => Shown::Default,
        _ => Shown::Stored,
    }
}

/// A value of another type counts as none.
fn past(shown: Shown, edit_fits: bool, stored_fits: bool) -> Shown
    ensures { result ≡ past edit_fits stored_fits shown }
{
    match shown {
        Shown::Stored if stored_fits => Shown::Stored,
        Shown::Edit if edit_fits => Shown::Edit,
        _ => Shown::Default,
    }
}

/// Where the user's own value is found, locked or not: by the newest edit that waits, and by whether there is a user's database.
pub fn own_by(word: Word, writable: bool) -> Own
    ensures { result ≡ own_by word writable }
{
    match word {
        Word::Silent if writable => Own::First,
        Word::Sets if writable => Own::Edited,
        _ => Own::Nothing,
    }
}

/// The word of an edit of which it is known whether it waits, and whether it sets a value.
pub(crate) fn word_numbered(waits: bool, sets: bool) -> Word
    ensures { result ≡ word_numbered waits sets }
{
    match (waits, sets) {
        (true, true) => Word::Sets,
        (true, false) => Word::Unset,
        (false, _) => Word::Silent,
    }
}
