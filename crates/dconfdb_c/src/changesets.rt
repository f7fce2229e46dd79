//! What dconf's client does with changes.
ghost use Rattle.std.specs.Prelude.{◌≡◌};
ghost use Rattle.dconf_changesets.specs.Above.{shared_within};
ghost use Rattle.dconf_changesets.specs.Asking.{asked_after, look_due, look_number};
ghost use Rattle.dconf_changesets.specs.Differences.{differs};
ghost use Rattle.dconf_changesets.specs.Fast.{fast_after, fast_number};
ghost use Rattle.dconf_changesets.specs.Making.{change_after, change_number, is_unmade, tried_asks, tried_number, waits_again};
ghost use Rattle.dconf_changesets.specs.Rows.{effect_number, effect_of};
ghost use Rattle.dconf_changesets.specs.Saying.{is_said, is_same_word};

use dconf_changesets::{
    Base, ChangeKnown, FastKnown, LookKnown, Said, Tried, asked_after, change_number, differs,
    effect_number, effect_of, fast_number, is_said, is_same_word, is_unmade, look_number,
    shared_within, tried_number, waits_again,
};

/// What becomes of the row of a path in a set of changes where one is set, or reset: 0 it stays, 1 it goes, 2 it takes the change's value,
/// or its reset.
#[unsafe(no_mangle)]
pub extern "C" fn dconfdb_row_effect(
    path: &[u8],
    sets: bool,
    is_database: bool,
    other: &[u8],
) -> u32
    ensures { result ≡ effect_number (effect_of path.now sets is_database other.now) }
{
    effect_number(effect_of(path, sets, is_database, other))
}

/// How many bytes the longest path has that covers both, of at most so many; 0 where there is none.
#[unsafe(no_mangle)]
pub extern "C" fn dconfdb_shared_within(path: &[u8], most: usize, other: &[u8]) -> usize
    ensures { result ≡ shared_within path.now most other.now }
{
    shared_within(path, most, other)
}

/// Whether a change makes a difference to a database, beside the changes that are kept before it.
#[unsafe(no_mangle)]
pub extern "C" fn dconfdb_makes_difference(path: &[u8], sets: bool, base: &Base) -> bool
    ensures { result ≡ differs path.now sets base.now }
{
    differs(path, sets, base)
}

/// Which set is asked for a key's newest word, once so many were asked: 1 what is being written, 2 what waits, and from 3 on what is read
/// through; 0 is the store. `sets` is the greatest number.
#[unsafe(no_mangle)]
pub extern "C" fn dconfdb_asked_after(sets: usize, asked: usize) -> usize
    ensures { result ≡ asked_after sets asked }
{
    asked_after(sets, asked)
}

/// Whether the user has what a change says, or will have once these sets are written, the newest first. `is_stored`: the store has it.
#[unsafe(no_mangle)]
pub extern "C" fn dconfdb_is_said(said: &[Said], is_stored: bool) -> bool
    ensures { result ≡ is_said said.now is_stored }
{
    is_said(said, is_stored)
}

/// Whether two edits of a path say the same: both reset it, or both set the same bytes at the same type.
#[unsafe(no_mangle)]
pub extern "C" fn dconfdb_is_same_word(
    sets: bool,
    type_text: &[u8],
    value: &[u8],
    other_sets: bool,
    other_type_text: &[u8],
    other_value: &[u8],
) -> bool
    ensures { result ≡ is_same_word sets type_text.now value.now other_sets other_type_text.now other_value.now }
{
    is_same_word(
        sets,
        type_text,
        value,
        other_sets,
        other_type_text,
        other_value,
    )
}

/// What becomes of a look at the files: 0 none is needed, 1 the store is opened, 2 it is made, 3 later. `looker`: 0 who wants to see them,
/// 1 who changes a setting, 2 who reads one, 3 who wants no more than the store.
#[unsafe(no_mangle)]
pub extern "C" fn dconfdb_look_due(looker: u32, known: &LookKnown) -> u32
    ensures { result ≡ look_number (look_due looker known.now) }
{
    look_number(looker, known)
}

/// What comes next of a change whose caller waits for it, once the first `done` tasks were done, or were not due, by the answer to the last
/// one: 1 what was asked for before is written, 2 it is settled, 3 put, 4 what others changed is told, 5 what is new, 6 it is given up; 7 it is
/// made, 8 refused, 9 it failed.
#[unsafe(no_mangle)]
pub extern "C" fn dconfdb_changing_after(done: u32, is_so: bool, known: &ChangeKnown) -> u32
    ensures { result ≡ change_number (change_after done is_so known.now) }
{
    change_number(done, is_so, known)
}

/// What comes next of a change whose caller doesn't wait for it, once the first `done` tasks were done, or were not due: 1 it waits beside what waits
/// already, 2 somebody is to write that, 3 what is new by it is told; 4 it is over, 5 it is refused.
#[unsafe(no_mangle)]
pub extern "C" fn dconfdb_fast_after(done: u32, known: &FastKnown) -> u32
    ensures { result ≡ fast_number (fast_after done known.now) }
{
    fast_number(done, known)
}

/// Whether an edit that was tried to write is not made, so that whoever was told of it is told again.
#[unsafe(no_mangle)]
pub extern "C" fn dconfdb_is_unmade(edit: &Tried) -> bool
    ensures { result ≡ is_unmade edit.now }
{
    is_unmade(edit)
}

/// What is asked next of an edit that was tried, once the first `asked` questions were asked, or didn't count: 1 whether a later edit of its path, or of one
/// below it, was tried with it, 2 whether one of a directory above it was, 3 whether the user has what it says; 0 nothing more.
#[unsafe(no_mangle)]
pub extern "C" fn dconfdb_tried_asks(asked: u32, edit: &Tried) -> u32
    ensures { result ≡ tried_number (tried_asks asked edit.now) }
{
    tried_number(asked, edit)
}

/// Whether what could not be written waits again, each path by itself: it is not unmade, and nothing newer is asked for there.
#[unsafe(no_mangle)]
pub extern "C" fn dconfdb_waits_again(is_unmade: bool, is_newer: bool) -> bool
    ensures { result ≡ waits_again is_unmade is_newer }
{
    waits_again(is_unmade, is_newer)
}
