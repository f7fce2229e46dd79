//! Where the name is looked for that is the nearest to one that is missing.
ghost use Rattle.std.specs.Prelude.{◌≡◌};
ghost use Rattle.dconf_roles.specs.Places.{is_over, moved, next_place, place_after, place_number, place_of, takes_half};

use crate::nearness::Nearing;

/// One place after the other.
#[derive(Clone, Copy)]
pub enum Place {
    /// None yet.
    Begins,
    /// A directory among all directories.
    Directories,
    /// A key among those of its directory.
    Keys,
    /// Its directory among those that have a key of its name.
    Holders,
    /// Its directory among all that have keys.
    Paths,
    /// The key among those of the one that was found.
    KeysThere,
    Over,
}

/// The place after that of what was compared so far, with nothing found there yet.
pub fn next_place(nearing: &Nearing) -> Nearing
    ensures { result ≡ next_place nearing.now }
{
    let place = place_after(
        place_of(nearing.place),
        nearing.is_directory,
        nearing.found != 0,
    );
    moved(nearing, place)
}

/// No place is left.
pub fn is_over(nearing: &Nearing) -> bool
    ensures { result ≡ is_over nearing.now }
{
    nearing.place == 6
}

fn place_after(place: Place, is_directory: bool, is_found: bool) -> Place
    ensures { result ≡ place_after place is_directory is_found }
{
    match place {
        Place::Begins if is_directory => Place::Directories,
        Place::Begins => Place::Keys,
        Place::Keys if is_found => Place::Over,
        Place::Keys => Place::Holders,
        Place::Holders if is_found => Place::Over,
        Place::Holders => Place::Paths,
        Place::Paths if is_found => Place::KeysThere,
        _ => Place::Over,
    }
}

fn moved(nearing: &Nearing, place: Place) -> Nearing
    ensures { result ≡ moved nearing.now place }
{
    Nearing {
        found: 0,
        place: place_number(place),
        is_half: takes_half(place),
        ..*nearing
    }
}

fn takes_half(place: Place) -> bool
    ensures { result ≡ takes_half place }
{
    matches!(place, Place::Holders)
}

fn place_of(number: u32) -> Place
    ensures { result ≡ place_of number }
{
    match number {
        0 => Place::Begins,
        1 => Place::Directories,
        2 => Place::Keys,
        3 => Place::Holders,
        4 => Place::Paths,
        5 => Place::KeysThere,
        _ => Place::Over,
    }
}

fn place_number(place: Place) -> u32
    ensures { result ≡ place_number place }
{
    match place {
        Place::Begins => 0,
        Place::Directories => 1,
        Place::Keys => 2,
        Place::Holders => 3,
        Place::Paths => 4,
        Place::KeysThere => 5,
        Place::Over => 6,
    }
}
