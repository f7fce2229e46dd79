//! What a change does to the rows of a set of changes, each of which is a key that is set, or a key or a directory that is reset.
ghost use Rattle.std.specs.Prelude.{◌≡◌};
ghost use Rattle.dconf_changesets.specs.Rows.{effect_number, effect_of, own_effect};

use dconf_seen::covers;

/// What becomes of a row.
#[derive(Clone, Copy, Debug, PartialEq, Eq)]
pub enum Effect {
    /// It stays as it is.
    Stays,
    /// It goes: the change stands for it.
    Goes,
    /// It takes the change's value, or its reset. Where there is none of that path, it is made.
    Takes,
}

/// What becomes of the row of a path where one is set, or reset. `is_database`: the set has values alone, and a key that is reset has no
/// row.
pub fn effect_of(path: &[u8], sets: bool, is_database: bool, other: &[u8]) -> Effect
    ensures { result ≡ effect_of path.now sets is_database other.now }
{
    if path == other {
        return own_effect(sets, is_database);
    }
    if covers(path, other) {
        return Effect::Goes;
    }
    Effect::Stays
}

fn own_effect(sets: bool, is_database: bool) -> Effect
    ensures { result ≡ own_effect sets is_database }
{
    if sets || !is_database {
        return Effect::Takes;
    }
    Effect::Goes
}

/// The same as a number: 0 it stays, 1 it goes, 2 it takes the change's value.
pub fn effect_number(effect: Effect) -> u32
    ensures { result ≡ effect_number effect }
{
    match effect {
        Effect::Stays => 0,
        Effect::Goes => 1,
        Effect::Takes => 2,
    }
}
