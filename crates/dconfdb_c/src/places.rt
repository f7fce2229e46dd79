//! Which kind of store is found and where, which profile it has, and which file a line of that means.
ghost use Rattle.std.specs.Prelude.{◌≡◌, ◌≢◌, [], Some};
ghost use Rattle.dconf_model.specs.Profiles.{is_user};
ghost use Rattle.dconf_places.specs.Numbers.{giver_numbered, kind_numbered};
ghost use Rattle.dconf_places.specs.Places.{path_at};
ghost use Rattle.dconf_places.specs.Told.{spot_at, text_of};
ghost use Rattle.dconf_homes.specs.Homes.{file_in, flag_in, spot_in};
ghost use Rattle.dconf_homes.specs.Looks.{IsNextLook};
ghost use Rattle.dconf_homes.specs.Numbers.{asked_for, kind_step, what_numbered};
ghost use Rattle.dconf_homes.specs.Told.{home_of, surroundings_of};

use dconf_homes::{Around, DconfdbProfileLook, DconfdbProfileNext, Place, Wanted, is_users};
use dconf_places::{Given, Location, PathParts, kind_of_number};

/// Which kind of store is found: 0 our own, a folder that has all; 1 dconf's, in dconf's places; 2 nobody knows. Or what is asked first, by what is known:
/// 3 the environment, of which nothing is known yet (`known` 0), 4 what the machine's file says, where that alone isn't known (1). `giver` is 0 where nobody
/// gives the folder, 1 where a program does that calls the library, and else a user.
#[unsafe(no_mangle)]
pub extern "C" fn dconfdb_place_kind(around: &Around<'_>, giver: u32, known: u32) -> u32
    ensures { result ≡ kind_step (surroundings_of around.now) (giver_numbered giver []) known }
{
    around.kind_step(Given::of_number(giver, b""), known)
}

/// What has to be asked to know the path of what is wanted (0 the store's folder, 1 the profile that the environment names, and else the user's
/// runtime folder): 0 nothing, and the path is written, by what was asked, if anything was (`is_asked`); 1 the current folder, 2 the home that the
/// system has for the user; 3 there is none.
#[unsafe(no_mangle)]
pub extern "C" fn dconfdb_place<'a>(
    around: &Around<'a>,
    giver: u32,
    folder: &'a [u8],
    wanted: u32,
    is_asked: bool,
    base: &'a [u8],
    path: &mut PathParts<'a>,
) -> u32
    ensures asks { result ≡ asked_for (spot_in (what_numbered wanted) (surroundings_of around.now) (giver_numbered giver folder.entry.now)) is_asked base.entry.now }
    ensures path { result ≡ 0 → path_at (spot_in (what_numbered wanted) (surroundings_of around.now) (giver_numbered giver folder.entry.now)) base.entry.now ≡ Some (text_of path.new) }
    ensures kept { result ≢ 0 → path.new ≡ path.old }
{
    let location = around.location(Given::of_number(giver, folder), Wanted::of_number(wanted));
    put_path(location, is_asked, base, path)
}

fn put_path<'a>(
    location: Location<'a>,
    is_asked: bool,
    base: &'a [u8],
    path: &mut PathParts<'a>,
) -> u32
    ensures asks { result ≡ asked_for (spot_at location.entry) is_asked base.entry.now }
    ensures path { result ≡ 0 → path_at (spot_at location.entry) base.entry.now ≡ Some (text_of path.new) }
    ensures kept { result ≢ 0 → path.new ≡ path.old }
{
    let number = location.base_number();
    if number != 0 && !is_asked {
        return number;
    }
    match location.path(base) {
        Some(parts) => {
            *path = parts;
            0
        }
        None => 3,
    }
}

/// What comes first, or after a look at a profile: a look at the one of a number, and in a folder `dir` (`looks`); or 3 the line `user-db:user` counts, 4 the
/// one that was looked at counts, 5 the store has no database, 6 it can't be opened. The number of a look is 0 for the one that is named, 1 that in the store's
/// folder, 2 that of all users; of dconf's kind 8 to 12. Without a place of that (`has_path`) there is nothing to look at. `telling` is as what it is told why
/// the one that was looked at isn't the profile: 0 it isn't, 1 as why the store can't be opened, 2 the store keeps it.
#[unsafe(no_mangle)]
pub extern "C" fn dconfdb_profile_step<'a>(
    place: &Place<'a>,
    look: &DconfdbProfileLook,
    next: &mut DconfdbProfileNext<'a>,
)
    ensures { IsNextLook (home_of place.now) look.now next.new }
{
    *next = place.next(look);
}

/// The path of a database's file, by the profile that names it; and whether it is the user's, which can be changed. `flag` is the path of the flag of
/// dconf's readers, and empty where there are none.
#[unsafe(no_mangle)]
pub extern "C" fn dconfdb_database_path<'a>(
    place: &Place<'a>,
    profile: &[u8],
    kind: u32,
    name: &'a [u8],
    path: &mut PathParts<'a>,
    flag: &mut PathParts<'a>,
) -> bool
    ensures path { text_of path.new ≡ file_in (home_of place.now) profile.now (record { kind = kind_numbered kind; name = name.entry.now }) }
    ensures flag { text_of flag.new ≡ flag_in (home_of place.now) (record { kind = kind_numbered kind; name = name.entry.now }) }
    ensures users { result ≡ is_user (kind_numbered kind) }
{
    let kind = kind_of_number(kind);
    *path = place.file(profile, kind, name);
    *flag = place.flag(kind, name);
    is_users(kind)
}
