//! Which kind of store is found, where dconf's is, which profile it has, and which file a line of that means.
use crate::questions::TableOf;
use dconf_homes::{Around, DconfdbProfileLook, Place, Sought, Wanted};
use dconf_places::{Environment, Found, Given, PathParts, kind_of_number};
use std::alloc::{AllocError, Global};
use std::fmt::Write;
use std::test::Fail;
use test_rows::{number, table};

/// The next word of a text, which is empty if it is `-`, and the rest.
fn next(text: &str) -> (&str, &str) {
    let (word, rest) = text.split_once(' ').unwrap_or((text, ""));
    if word == "-" {
        ("", rest)
    } else {
        (word, rest)
    }
}

fn put_path(
    alloc: Global,
    path: Option<PathParts<'_>>,
    found: &mut String,
) -> Result<(), AllocError> {
    match path {
        Some(path) => found.push_str(str::from_utf8(&path.text(alloc)?).unwrap_or("no text")),
        None => found.push_str("none"),
    }
}

/// The kind of store, by what is known (nothing, the environment, all), or what is asked first; and its folder, profile and runtime folder, by who gives the folder, by what the machine's file says (`!`: it can't be read),
/// and by $DCONFDB_STORE, $XDG_CONFIG_HOME, $HOME, $XDG_RUNTIME_DIR and $XDG_CACHE_HOME.
pub(crate) fn homed(alloc: Global, asked: &str, found: &mut String) -> Result<(), AllocError> {
    let (giver, rest) = next(asked);
    let (machine, rest) = next(rest);
    let (store, rest) = next(rest);
    let (config, rest) = next(rest);
    let (home, rest) = next(rest);
    let (runtime, cache) = next(rest);
    let environment = Environment {
        counts: !giver.ends_with('s'),
        store: store.as_bytes(),
        config: config.as_bytes(),
        home: home.as_bytes(),
        profile: b"/named",
    };
    let around = Around {
        environment,
        runtime: runtime.as_bytes(),
        cache: cache.as_bytes(),
        machine: machine.as_bytes(),
        is_unreadable: machine == "!",
    };
    let given = Given::of_number(number(giver.trim_end_matches('s')), b"/given");
    for known in 0..3 {
        write!(found, "{}", around.kind_step(given, known))?;
    }
    for wanted in [Wanted::Folder, Wanted::Profile, Wanted::Runtime] {
        found.push(' ')?;
        put_path(alloc, around.location(given, wanted).path(b"/base"), found)?;
    }
    Ok(())
}

const HOMED: &str = "
0 - - /c /h /r /k | 340 /c/dconfdb /named none
0 dconfdb - /c /h /r /k | 340 /c/dconfdb /named none
0 dconf - /c /h /r /k | 341 /c/dconf none /r
0 dconf - c /h r /k | 341 /h/.config/dconf none /k
0 dconf - - /h - k | 341 /h/.config/dconf none /h/.cache
0 dconf - - h - - | 341 /base/.config/dconf none /base/.cache
-- no word, or none that can be read
0 dconfs - /c /h /r /k | 342 none none none
0 DCONF - /c /h /r /k | 342 none none none
0 ! - /c /h /r /k | 342 none none none
-- a user's own word goes first
0 dconf /s /c /h /r /k | 300 /s /named none
0 ! /s /c /h /r /k | 300 /s /named none
1 dconf - /c /h /r /k | 000 /given none none
2 dconf - /c /h /r /k | 300 /given /named none
-- a program that has more rights
0s dconf - /c /h /r /k | 300 none none none
";

/// More than are looked at here.
const MOST_LOOKS: usize = 9;

/// A store of dconf's kind, of which $DCONF_PROFILE says that; with `!` behind it to a program that has more rights.
fn place(profile: &str) -> Place<'_> {
    Place {
        folder: b"/c/dconf",
        named: b"",
        profile: profile.trim_end_matches('!').as_bytes(),
        runtime: b"/r",
        data_dirs: b"/a:b:/d",
        user: b"7",
        is_given: false,
        is_dconfs: true,
        counts: !profile.ends_with('!'),
    }
}

/// A look at nothing yet, of a store that is opened strictly.
fn before_all() -> DconfdbProfileLook {
    DconfdbProfileLook {
        which: 7,
        errno: 0,
        dir: 0,
        is_there: false,
        is_lenient: false,
        has_kept: false,
        lists: true,
    }
}

/// Each that is listed, and what comes then, by $DCONF_PROFILE; with what is told of the last one, which is missing (1 refuses, 2 kept), of a store that is
/// opened strictly, and of a lenient one, and by which name.
pub(crate) fn sought(alloc: Global, asked: &str, found: &mut String) -> Result<(), AllocError> {
    let place = place(next(asked).0);
    let mut look = before_all();
    for _ in 0..MOST_LOOKS {
        let then = place.next(&look);
        if !then.looks {
            look.lists = false;
            let strict = place.next(&look);
            look.is_lenient = true;
            let lenient = place.next(&look);
            write!(
                found,
                "{} {}{}=",
                then.step, strict.telling, lenient.telling
            )?;
            return put_path(alloc, Some(lenient.name), found);
        }
        put_path(
            alloc,
            if then.has_path { Some(then.path) } else { None },
            found,
        )?;
        found.push(' ')?;
        look.which = then.step;
        look.dir = then.dir;
    }
    found.push_str("no end")
}

const SOUGHT: &str = "
- | /run/dconf/user/7 /r/dconf/profile /etc/dconf/profile/user /a/dconf/profile/user none /d/dconf/profile/user 3 00=
gdm | /run/dconf/user/7 /etc/dconf/profile/gdm /a/dconf/profile/gdm none /d/dconf/profile/gdm 5 12=gdm
a/b | /run/dconf/user/7 /etc/dconf/profile/a/b /a/dconf/profile/a/b none /d/dconf/profile/a/b 5 12=a/b
/p | /run/dconf/user/7 /p 5 12=/p
-- a program that has more rights
gdm! | /run/dconf/user/7 /r/dconf/profile /etc/dconf/profile/user /usr/local/share//dconf/profile/user /usr/share//dconf/profile/user 3 00=
";

/// What comes after a look at one: its number, its folder of $XDG_DATA_DIRS, what was found (0 it is there, 1 missing, 2 it can't be read by its own
/// fault, 3 by another one), whether whoever looks is lenient, and $DCONF_PROFILE. Given is the step, its folder, and what is told, by the errno.
pub(crate) fn reached(asked: &str, found: &mut String) -> Result<(), AllocError> {
    let (which, rest) = next(asked);
    let (dir, rest) = next(rest);
    let (what, rest) = next(rest);
    let (lenient, profile) = next(rest);
    let (what, is_lenient, place) = (number(what), lenient == "lenient", place(next(profile).0));
    let at = Sought::of_number(number(which), number(dir) as usize);
    let seen = Found::by(what >= 2, what == 2, what == 0);
    let step = place.step(at, seen, is_lenient);
    let told = place.said_as(at, seen, is_lenient, false).number();
    write!(found, "{} {} {told}", step.number(), step.dir())?;
    Ok(())
}

const REACHED: &str = "
8 0 0 strict - | 4 0 0
8 0 2 strict - | 6 0 1
8 0 2 lenient - | 10 0 2
8 0 2 lenient /p | 9 0 2
8 0 3 lenient - | 6 0 1
9 0 2 lenient /p | 5 0 2
10 0 2 lenient - | 11 0 2
11 0 1 strict - | 12 0 0
11 0 2 lenient - | 3 0 2
11 0 2 lenient gdm | 5 0 2
12 0 1 strict gdm | 12 1 0
12 1 1 strict gdm | 12 2 0
12 2 1 strict gdm | 6 0 1
12 2 1 strict - | 3 0 0
12 0 2 lenient - | 3 0 2
12 0 2 lenient gdm | 5 0 2
12 999 1 lenient - | 3 0 0
-- as of our own kind, where a program names one
0 0 1 lenient - | 5 0 2
0 0 0 strict - | 4 0 0
";

/// The file of a database, by its kind and its name, and the flag of its readers, of dconf's kind of store, and of our own in the same folder.
pub(crate) fn lined(alloc: Global, asked: &str, found: &mut String) -> Result<(), AllocError> {
    let (kind, name) = next(asked);
    let kind = kind_of_number(number(kind));
    let mut place = place("");
    let dconfs = place.file(b"/etc/dconfdb/profile", kind, name.as_bytes());
    put_path(alloc, Some(dconfs), found)?;
    found.push(' ')?;
    put_path(alloc, Some(place.flag(kind, name.as_bytes())), found)?;
    found.push(' ')?;
    place.is_dconfs = false;
    let own = place.file(b"/etc/dconfdb/profile", kind, name.as_bytes());
    put_path(alloc, Some(own), found)?;
    put_path(alloc, Some(place.flag(kind, name.as_bytes())), found)
}

const LINED: &str = "
0 user | /c/dconf/user /r/dconf/user /c/dconf/user.user
1 site | /etc/dconf/db/site  /etc/dconfdb/site.db
2 far.db | /c/dconf/far.db  /c/dconf/far.db
2 /far/db | /far/db  /far/db
";

#[test]
fn homes_are_found(rt: HostRuntime) -> Result<(), Fail> {
    for (mut of, rows) in [
        (TableOf::Homed, HOMED),
        (TableOf::Sought, SOUGHT),
        (TableOf::Reached, REACHED),
        (TableOf::Lined, LINED),
    ] {
        table(rt.alloc(), &mut of, rows)?;
    }
    Ok(())
}
