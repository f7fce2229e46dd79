//! Where what is read of a key is found, by what who reads asks for.
ghost use Rattle.std.specs.Prelude.{◌≡◌};
ghost use Rattle.dconf_seen.specs.Reading.{found_by, found_number, known_word, of_own, of_shown};

use crate::seen::{Own, Shown, own_by, shown_as, word_numbered};

/// What is known of a key that is read, and of the newest edit of it that waits.
#[repr(C)]
#[derive(Clone, Copy)]
pub struct Known {
    /// One waits.
    pub waits: bool,
    /// It sets a value; else it takes the user's away.
    pub sets: bool,
    /// There is a user's database.
    pub writable: bool,
    /// The key may be written: there is a user's database, and no lock covers the key.
    pub may_write: bool,
    /// The edit's value is of the type that is asked for, or there is none.
    pub edit_fits: bool,
    /// The value that is stored is so.
    pub stored_fits: bool,
}

/// Where what is read is found.
#[derive(Clone, Copy, Debug, PartialEq, Eq)]
pub enum Found {
    /// In the databases, as their locks and their order say.
    InDatabases,
    /// In the databases, without the user's value.
    WithoutUser,
    /// In the edit.
    InEdit,
    /// In the first database, locked or not.
    InFirst,
    /// There is nothing.
    Nowhere,
}

/// Where what is read of a key is found: of the setting, or of the user's own value (`of_user`), or of what there is without that
/// (`of_default`). Of both at once there is nothing.
pub fn found_by(of_user: bool, of_default: bool, known: Known) -> Found
    ensures { result ≡ found_by of_user of_default (known_word known) known.writable known.may_write known.edit_fits known.stored_fits }
{
    let word = word_numbered(known.waits, known.sets);
    match (of_user, of_default) {
        (true, true) => Found::Nowhere,
        (true, false) => of_own(own_by(word, known.writable)),
        (false, true) => Found::WithoutUser,
        (false, false) => of_shown(shown_as(
            word,
            known.may_write,
            known.edit_fits,
            known.stored_fits,
        )),
    }
}

fn of_own(own: Own) -> Found
    ensures { result ≡ of_own own }
{
    match own {
        Own::First => Found::InFirst,
        Own::Nothing => Found::Nowhere,
        Own::Edited => Found::InEdit,
    }
}

fn of_shown(shown: Shown) -> Found
    ensures { result ≡ of_shown shown }
{
    match shown {
        Shown::Stored => Found::InDatabases,
        Shown::Default => Found::WithoutUser,
        Shown::Edit => Found::InEdit,
    }
}

/// The same as a number: 0 as it is stored, 1 without the user's value, 2 in the edit, 3 in the first database, 4 nowhere.
pub fn found_number(found: Found) -> u32
    ensures { result ≡ found_number found }
{
    match found {
        Found::InDatabases => 0,
        Found::WithoutUser => 1,
        Found::InEdit => 2,
        Found::InFirst => 3,
        Found::Nowhere => 4,
    }
}
