//! The same as plain numbers, for a caller that is not Rust.
ghost use Rattle.std.specs.Prelude.{◌≡◌};
ghost use Rattle.dconf_roles.specs.Numbers.{entry_number, part_number, reading_number};
ghost use Rattle.dconf_roles.specs.Readings.{reading, reading_of_part};
ghost use Rattle.dconf_roles.specs.Roles.{role_among};
ghost use Rattle.dconf_roles.specs.Sites.{part_of};

use crate::readings::{ReadAs, reading, reading_of_part};
use crate::roles::{Role, role_among};
use crate::sites::{EntryKnown, Part, part_of};

/// As [`reading`], of the role among those that are asked for: 0 a keyfile, 1 locks, 2 a profile, 3 a database; or not at all: 4 it is left
/// out in silence, 5 it is not read, 6 it is a database among sources, 7 it is too big, 8 it is none of these.
pub fn reading_number(role: Role, is_one_read: bool, size: u64, text: &[u8]) -> u32
    ensures { result ≡ reading_number (reading (role_among role is_one_read) size text.now) }
{
    number_of_reading(reading(role_among(role, is_one_read), size, text))
}

fn number_of_reading(reading: ReadAs) -> u32
    ensures { result ≡ reading_number reading }
{
    match reading {
        ReadAs::Keyfile => 0,
        ReadAs::Locks => 1,
        ReadAs::Profile => 2,
        ReadAs::Database => 3,
        ReadAs::LeftOut => 4,
        ReadAs::Unread => 5,
        ReadAs::NoSource => 6,
        ReadAs::TooBig => 7,
        ReadAs::Neither => 8,
        ReadAs::Stray => 17,
    }
}

/// As what that is taken which lies in a site, and once it is read, as what it is looked at: the same numbers, and 9 a profile or a database,
/// if its text is one, 10 that, and its database is made, 11 NAME.d, 12 its `locks`, 13 `profiles`, 14 a hidden NAME.d, 15 its `locks`; 5 is
/// a folder there that is not read, 16 no file, 17 beside the folders of sources, 18 a name that is not UTF-8, 19 in the way of what is written.
pub fn entry_number(known: &EntryKnown, name: &[u8], size: u64, text: &[u8]) -> u32
    ensures { result ≡ entry_number known.now name.now size text.now }
{
    let part = part_of(known, name);
    if known.is_read {
        return number_of_reading(reading_of_part(part, size, text));
    }
    part_number(part)
}

fn part_number(part: Part) -> u32
    ensures { result ≡ part_number part }
{
    match part {
        Part::Keyfile => 0,
        Part::Locks => 1,
        Part::Profile => 2,
        Part::Database => 3,
        Part::Silent => 4,
        Part::Nested => 5,
        Part::Beside => 9,
        Part::Made => 10,
        Part::SourceFolder => 11,
        Part::LockFolder => 12,
        Part::ProfileFolder => 13,
        Part::HiddenFolder => 14,
        Part::HiddenLocks => 15,
        Part::Odd => 16,
        Part::Stray => 17,
        Part::NotUtf8 => 18,
        Part::Barred => 19,
    }
}
