//! Where a store is, which profile it has, and which file a line of that means.
use crate::questions::TableOf;
use dconf_places::{
    Candidate, Environment, Found, Given, Location, PathParts, database_path, is_beside,
    kind_of_number, profile_step, told_as,
};
use std::alloc::{AllocError, Global};
use std::fmt::Write;
use std::test::Fail;
use test_rows::{number, table};

/// The next word of a text, which is empty if it is `-`, and the rest.
fn next(text: &str) -> (&str, &str) {
    let (word, rest) = text.split_once(' ').unwrap_or((text, ""));
    if word == "-" {
        ("", rest)
    } else {
        (word, rest)
    }
}

fn put_path(
    alloc: Global,
    path: Option<PathParts<'_>>,
    found: &mut String,
) -> Result<(), AllocError> {
    match path {
        Some(path) => found.push_str(str::from_utf8(&path.text(alloc)?).unwrap_or("no text")),
        None => found.push_str("none"),
    }
}

/// A path by its base, and what has to be asked for it.
fn put_location(
    alloc: Global,
    location: Location<'_>,
    base: &str,
    found: &mut String,
) -> Result<(), AllocError> {
    write!(found, "{} ", location.base_number())?;
    put_path(alloc, location.path(base.as_bytes()), found)
}

/// The folder and the profile, by who gives the folder, by that, by the four variables, and by the base of a path.
pub(crate) fn placed(alloc: Global, asked: &str, found: &mut String) -> Result<(), AllocError> {
    let (giver, rest) = next(asked);
    let (folder, rest) = next(rest);
    let (store, rest) = next(rest);
    let (config, rest) = next(rest);
    let (home, rest) = next(rest);
    let (profile, base) = next(rest);
    let environment = Environment {
        counts: !giver.ends_with('s'),
        store: store.as_bytes(),
        config: config.as_bytes(),
        home: home.as_bytes(),
        profile: profile.as_bytes(),
    };
    let given = Given::of_number(number(giver.trim_end_matches('s')), folder.as_bytes());
    put_location(alloc, Location::of_folder(&environment, given), base, found)?;
    found.push_str("; ")?;
    put_location(
        alloc,
        Location::of_profile(&environment, given),
        base,
        found,
    )
}

const PLACED: &str = "
0 - /s /c /h p /here | 0 /s; 0 /etc/dconfdb/profiles/p
0 - s /c /h ./p /here | 1 /here/s; 1 /here/./p
0 - - /c /h /p /here | 0 /c/dconfdb; 0 /p
0 - - c /h - /here | 0 /h/.config/dconfdb; 3 none
0 - - c h - /home | 2 /home/.config/dconfdb; 3 none
0 - - - - - home | 2 none; 3 none
-- a program that has more rights
0s - /s /c /h p /here | 3 none; 3 none
1s f /s /c /h p /here | 1 /here/f; 3 none
-- a folder that a program gives, or a user
1 /f /s /c /h p /here | 0 /f; 3 none
2 /f /s /c /h p /here | 0 /f; 0 /etc/dconfdb/profiles/p
2 f /s /c /h - /here | 1 /here/f; 3 none
";

/// Where a look at a profile leads, and as what it is told: what it is, what was found (0 it is there, 1 missing, 2 it can't be read by its
/// own fault, 3 by another one), whether whoever looks is lenient, and whether a fault is kept already.
pub(crate) fn stepped(alloc: Global, asked: &str, found: &mut String) -> Result<(), AllocError> {
    let (which, rest) = next(asked);
    let (what, rest) = next(rest);
    let (lenient, kept) = next(rest);
    let (what, is_lenient) = (number(what), lenient == "lenient");
    let candidate = Candidate::of_number(number(which));
    let seen = Found::by(what >= 2, what == 2, what == 0);
    let step = profile_step(candidate, seen, is_lenient).number();
    let told = told_as(candidate, seen, is_lenient, kept == "kept").number();
    write!(found, "{step} {told} ")?;
    put_path(alloc, Some(candidate.path(b"/s", b"/named")), found)
}

const STEPPED: &str = "
0 0 | 4 0 /named
0 1 | 6 1 /named
0 1 lenient | 5 2 /named
0 2 lenient | 5 2 /named
0 3 lenient kept | 6 1 /named
1 1 | 2 0 /s/profile
1 2 | 6 1 /s/profile
1 2 lenient | 2 2 /s/profile
2 1 | 3 0 /etc/dconfdb/profile
2 2 lenient kept | 3 0 /etc/dconfdb/profile
2 3 lenient | 6 1 /etc/dconfdb/profile
";

/// The file of a database, by its kind, its name, and the profile, in a folder that nobody gives.
pub(crate) fn filed(alloc: Global, asked: &str, found: &mut String) -> Result<(), AllocError> {
    let (kind, rest) = next(asked);
    let (name, profile) = next(rest);
    let beside = is_beside(profile.as_bytes(), false);
    let kind = kind_of_number(number(kind));
    put_path(
        alloc,
        Some(database_path(b"/s", beside, kind, name.as_bytes())),
        found,
    )?;
    if is_beside(profile.as_bytes(), true) {
        found.push_str(" though it is given")?;
    }
    Ok(())
}

const FILED: &str = "
0 me /s/profile | /s/me.user
0 me /etc/dconfdb/profile | /s/me.user
1 site /s/profile | /s/site.db
1 site /etc/dconfdb/profile | /etc/dconfdb/site.db
2 far.db /etc/dconfdb/profile | /s/far.db
2 /etc/dconf/db/site /etc/dconfdb/profile | /etc/dconf/db/site
";

#[test]
fn places_are_found(rt: HostRuntime) -> Result<(), Fail> {
    for (mut of, rows) in [
        (TableOf::Placed, PLACED),
        (TableOf::Stepped, STEPPED),
        (TableOf::Filed, FILED),
    ] {
        table(rt.alloc(), &mut of, rows)?;
    }
    Ok(())
}
