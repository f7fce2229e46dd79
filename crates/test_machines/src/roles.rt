//! As what the files of a site are looked at, and what is found there.
use dconf_roles::{
    EntryKnown, FindingKnown, Name, Nearing, Role, begins_sources, beside_number, entry_number,
    finding_number, is_nearer, is_over, is_read, machines_folder, next_place, reading_number,
    reads_on, role_of, sources_in, stem_len, within_number,
};
use std::alloc::{AllocError, Global};
use std::test::Fail;

fn number(role: Role) -> u32 {
    match role {
        Role::ByItsText => 0,
        Role::Keyfile => 1,
        Role::Locks => 2,
        Role::Hidden => 3,
        Role::Unread => 4,
    }
}

/// The role of a file by the names of two folders that it is in.
fn file(outer: &str, inner: &str, name: &str) -> u32 {
    let folders = [
        Name {
            text: outer.as_bytes(),
        },
        Name {
            text: inner.as_bytes(),
        },
    ];
    number(role_of(&folders, name.as_bytes()))
}

/// How many of two folders there are up to the last NAME.d.
fn sources(outer: &str, inner: &str) -> usize {
    let folders = [
        Name {
            text: outer.as_bytes(),
        },
        Name {
            text: inner.as_bytes(),
        },
    ];
    sources_in(&folders)
}

/// Within what of a site what is in the inner of two folders is looked at.
fn inside(outer: &str, inner: &str) -> u32 {
    let folders = [
        Name {
            text: outer.as_bytes(),
        },
        Name {
            text: inner.as_bytes(),
        },
    ];
    within_number(&folders)
}

fn folders_are_within() -> bool {
    inside("etc", "site") == 1
        && inside("etc", "site.d") == 2
        && inside("site.d", "locks") == 3
        && inside("site.d", "old") == 1
        && inside("site.d", ".git") == 1
        && inside("etc", "profiles") == 1
        && within_number(&[]) == 1
}

fn folders_are_taken_one_by_one() -> bool {
    beside_number(false, false) == 2
        && beside_number(false, true) == 1
        && beside_number(true, true) == 0
        && begins_sources(2)
        && !begins_sources(1)
        && !begins_sources(3)
        && reads_on(75)
        && !reads_on(2)
}

fn folders_have_their_roles() -> bool {
    file("etc", "site", "k") == 0
        && file("etc", "site.d", "k") == 1
        && file("etc", ".d", "k") == 0
        && file("etc", ".site.d", "k") == 0
        && file("site.d", "locks", "k") == 2
        && file("site.d", ".git", "k") == 3
        && file("site.d", "old", "k") == 4
        && file("site.d", "old.d", "k") == 1
}

fn files_have_their_roles() -> bool {
    file("etc", "site", ".hidden") == 0
        && file("etc", "site.d", ".00-site.swp") == 3
        && file("site.d", "locks", ".x") == 3
        && file("site.d", "old", ".x") == 3
}

fn sources_are_found() -> bool {
    sources("etc", "site") == 0
        && sources("etc", "site.d") == 2
        && sources("site.d", "locks") == 1
        && sources("site.d", "old.d") == 2
        && is_read(Role::Keyfile)
        && is_read(Role::Locks)
        && !is_read(Role::Hidden)
        && !is_read(Role::Unread)
        && !is_read(Role::ByItsText)
}

/// As what a text is looked at, of a role; none of its size is left out.
fn read_as(role: Role, is_one_read: bool, text: &str) -> u32 {
    reading_number(role, is_one_read, 100, text.as_bytes())
}

fn texts_are_read() -> bool {
    read_as(Role::ByItsText, false, "[a]\nk=1\n") == 0
        && read_as(Role::ByItsText, false, "/a/k\n") == 1
        && read_as(Role::ByItsText, false, "user-db:user\n") == 2
        && read_as(Role::ByItsText, false, "# nothing\n") == 0
        && read_as(Role::ByItsText, false, "oops\n") == 8
        && read_as(Role::Keyfile, true, "/a/k\n") == 0
        && read_as(Role::Keyfile, true, "oops\n") == 0
        && read_as(Role::Keyfile, true, "\0") == 8
        && read_as(Role::Locks, true, "[a]\n") == 1
        && read_as(Role::Locks, false, "[a]\n") == 0
        && read_as(Role::Hidden, true, "[a]\n") == 4
        && read_as(Role::Unread, true, "[a]\n") == 5
        && read_as(Role::Unread, false, "[a]\n") == 0
}

fn databases_are_read() -> bool {
    read_as(Role::ByItsText, false, "GVariant") == 3
        && read_as(Role::Keyfile, true, "GVariant") == 6
        && reading_number(Role::ByItsText, false, 16_777_217, "GVariant".as_bytes()) == 3
        && reading_number(Role::ByItsText, false, 16_777_217, "[a]".as_bytes()) == 7
        && reading_number(Role::ByItsText, false, 16_777_216, "[a]".as_bytes()) == 0
        && reading_number(Role::Hidden, true, 16_777_217, "[a]".as_bytes()) == 4
}

#[test]
fn sources_are_read_as_update_reads_them(rt: HostRuntime) -> Result<(), Fail> {
    assert!(rt; folders_have_their_roles() && files_have_their_roles());
    assert!(rt; folders_are_within() && folders_are_taken_one_by_one());
    assert!(rt; sources_are_found());
    assert!(rt; texts_are_read() && databases_are_read());
    Ok(())
}

const ENTRY: EntryKnown = EntryKnown {
    within: 1,
    kind: 0,
    is_hidden: false,
    is_link: false,
    is_made: false,
    is_one_read: false,
    is_read: false,
    is_store: false,
};

/// As what that is taken which is known so.
fn taken(known: EntryKnown, name: &str) -> u32 {
    entry_number(&known, name.as_bytes(), 0, "".as_bytes())
}

/// A file, 0, a folder, 1, something else, 2, or what can't be looked at, in a folder of a site.
fn lying(within: u32, kind: u32, name: &str) -> u32 {
    taken(
        EntryKnown {
            within,
            kind,
            ..ENTRY
        },
        name,
    )
}

fn what_lies_in_a_site_is_known() -> bool {
    lying(1, 1, "site.d") == 11
        && lying(1, 1, ".site.d") == 14
        && lying(1, 1, ".d") == 4
        && lying(1, 1, "profiles") == 13
        && lying(1, 1, "old") == 17
        && lying(1, 0, "site.d") == 9
        && lying(1, 0, "site.db") == 3
        && lying(1, 0, "store") == 4
        && lying(1, 0, "profile") == 2
        && lying(1, 1, "profile") == 2
        && lying(1, 3, "profile") == 2
        && lying(1, 0, ".lock") == 4
        && lying(1, 1, ".lock") == 19
        && lying(1, 2, ".lock") == 19
        && lying(1, 3, "site.d") == 17
}

fn what_lies_in_sources_is_known() -> bool {
    lying(2, 0, "00-site") == 0
        && lying(2, 3, "00-site") == 0
        && lying(2, 4, "00-site") == 0
        && lying(2, 2, "00-site") == 16
        && lying(2, 0, "locks") == 0
        && lying(2, 1, "locks") == 12
        && lying(2, 1, "old.d") == 5
        && lying(2, 0, ".00-site.swp") == 4
        && lying(3, 0, "00-site") == 1
        && lying(3, 1, "locks") == 5
        && lying(3, 2, "00-site") == 16
        && lying(4, 0, "kiosk") == 2
        && lying(4, 1, "kiosk") == 5
}

fn what_update_makes_is_known() -> bool {
    let made = EntryKnown {
        is_made: true,
        ..ENTRY
    };
    let folder = EntryKnown { kind: 1, ..made };
    taken(made, "site.db") == 4
        && taken(made, "site") == 10
        && taken(folder, "site.db") == 19
        && taken(folder, "site.db.new") == 17
        && taken(EntryKnown { kind: 3, ..made }, "site.db") == 17
        && taken(EntryKnown { kind: 4, ..made }, "site.db") == 19
        && taken(folder, "site") == 17
        && taken(
            EntryKnown {
                is_store: true,
                ..folder
            },
            "site",
        ) == 4
        && taken(
            EntryKnown {
                is_link: true,
                ..folder
            },
            "site.db",
        ) == 17
        && taken(
            EntryKnown {
                is_link: true,
                ..ENTRY
            },
            ".lock",
        ) == 19
}

fn what_is_hidden_is_left_out() -> bool {
    let hidden = EntryKnown {
        within: 2,
        is_hidden: true,
        ..ENTRY
    };
    taken(hidden, "00-site") == 4
        && taken(EntryKnown { kind: 1, ..hidden }, "locks") == 15
        && taken(EntryKnown { kind: 1, ..hidden }, "old") == 4
}

fn stems_are_found() -> bool {
    stem_len("site.db".as_bytes()) == 4
        && stem_len("site.db.new".as_bytes()) == 4
        && stem_len("site".as_bytes()) == 4
        && stem_len(".db".as_bytes()) == 0
        && stem_len("site.d".as_bytes()) == 4
        && stem_len(".d".as_bytes()) == 2
}

/// As what that is looked at whose text is known.
fn looked_at(within: u32, is_made: bool, name: &str, text: &str) -> u32 {
    let known = EntryKnown {
        within,
        is_made,
        is_read: true,
        ..ENTRY
    };
    entry_number(&known, name.as_bytes(), 100, text.as_bytes())
}

fn texts_of_a_site_are_read() -> bool {
    looked_at(1, false, "me.user", "GVariant") == 3
        && looked_at(1, false, "me.user", "GVa") == 3
        && looked_at(1, true, "site", "GVariant") == 4
        && looked_at(1, false, "kiosk", "user-db:kiosk\n") == 2
        && looked_at(1, false, "site.keys", "[a]\nk=1\n") == 17
        && looked_at(1, false, "README", "hello\n") == 17
        && looked_at(1, false, "profile", "hello\n") == 2
        && looked_at(2, false, "00-site", "/a/k\n") == 0
        && looked_at(2, false, "00-site", "GVariant") == 6
        && looked_at(3, false, "00-site", "[a]\n") == 1
        && looked_at(4, false, "kiosk", "[a]\n") == 2
}

#[test]
fn a_site_is_looked_at_as_update_looks_at_it(rt: HostRuntime) -> Result<(), Fail> {
    let name = [255];
    let bad = EntryKnown { within: 2, ..ENTRY };
    assert!(rt; what_lies_in_a_site_is_known() && what_lies_in_sources_is_known());
    assert!(rt; what_update_makes_is_known() && what_is_hidden_is_left_out() && stems_are_found());
    assert!(rt; texts_of_a_site_are_read());
    assert!(rt; entry_number(&bad, &name, 0, &name) == 18);
    assert!(rt;
        machines_folder(true) == b"/etc/dconf/db".as_slice()
            && machines_folder(false) == b"/etc/dconfdb".as_slice()
    );
    Ok(())
}

/// A key of a schema, set to a value that it takes.
const FINE: FindingKnown = FindingKnown {
    what: 0,
    errnum: 0,
    is_known: true,
    has_schemas: true,
    may_be_elsewhere: false,
    has_value: true,
    is_taken: true,
    is_of_type: true,
    is_system: true,
    is_made: false,
    is_unseen: false,
    is_among_profiles: false,
    has_double: false,
};

const UNKNOWN: FindingKnown = FindingKnown {
    is_known: false,
    has_schemas: false,
    has_value: false,
    is_taken: false,
    is_of_type: false,
    ..FINE
};

/// What is found at `/ab/`, where a schema has a key of that name at another directory.
fn found(known: &FindingKnown, other: &str) -> u32 {
    let other = Name {
        text: other.as_bytes(),
    };
    finding_number(known, "/ab/".as_bytes(), &[other])
}

/// By the errno of its reading.
fn unread(errnum: u32) -> u32 {
    let file = FindingKnown {
        what: 7,
        errnum,
        ..FINE
    };
    found(&file, "/c/")
}

fn what_is_unread_is_said() -> bool {
    unread(0) == 11 && unread(2) == 11 && unread(22) == 12 && unread(75) == 13 && unread(13) == 14
}

fn values_are_judged() -> bool {
    let wrong = FindingKnown {
        is_taken: false,
        ..FINE
    };
    let typed = FindingKnown {
        is_of_type: false,
        ..wrong
    };
    let none = FindingKnown {
        has_value: false,
        ..typed
    };
    found(&FINE, "/c/") == 0
        && found(&wrong, "/c/") == 5
        && found(&typed, "/c/") == 4
        && found(&none, "/c/") == 0
}

fn names_are_judged() -> bool {
    let elsewhere = FindingKnown {
        may_be_elsewhere: true,
        ..UNKNOWN
    };
    let beside = FindingKnown {
        has_schemas: true,
        ..elsewhere
    };
    found(&UNKNOWN, "/c/") == 1
        && found(&FindingKnown { what: 1, ..UNKNOWN }, "/c/") == 2
        && found(&FindingKnown { what: 2, ..UNKNOWN }, "/c/") == 3
        && found(&elsewhere, "/c/") == 0
        && found(&elsewhere, "/a/") == 1
        && found(&elsewhere, "/abc/") == 1
        && found(&elsewhere, "/ac/") == 1
        && found(&elsewhere, "/ba/") == 1
        && found(&elsewhere, "/abcd/") == 0
        && found(&beside, "/c/") == 1
}

/// Of a system's database that a profile of that name names, of which no file is there.
fn named_in(name: &str, is_known: bool, is_system: bool) -> u32 {
    let known = FindingKnown {
        what: 3,
        is_known,
        is_system,
        ..UNKNOWN
    };
    finding_number(&known, name.as_bytes(), &[])
}

fn databases_are_looked_for() -> bool {
    let missing = FindingKnown {
        what: 3,
        is_known: false,
        ..FINE
    };
    let made = FindingKnown {
        is_made: true,
        ..missing
    };
    let unseen = FindingKnown {
        is_unseen: true,
        ..missing
    };
    let among = FindingKnown {
        is_among_profiles: true,
        ..missing
    };
    finding_number(&missing, "profile".as_bytes(), &[]) == 6
        && finding_number(&made, "profile".as_bytes(), &[]) == 0
        && finding_number(&unseen, "profile".as_bytes(), &[]) == 0
        && finding_number(&among, "profile".as_bytes(), &[]) == 0
        && named_in("profile", false, true) == 6
        && named_in("profile", true, true) == 0
        && named_in("profile", false, false) == 0
        && named_in("site", false, true) == 0
}

/// Of a key that may be set already, 4, or of a lock whose key may not be set, 5.
fn alone(what: u32, is_so: bool, path: &str) -> u32 {
    let known = FindingKnown {
        what,
        is_known: is_so,
        is_system: is_so,
        ..FINE
    };
    finding_number(&known, path.as_bytes(), &[])
}

fn what_is_set_is_judged() -> bool {
    let wrong = FindingKnown {
        what: 5,
        is_taken: false,
        ..UNKNOWN
    };
    alone(4, true, "/a/k") == 7
        && alone(4, false, "/a/k") == 0
        && alone(5, false, "/a/k") == 8
        && alone(5, false, "/a/") == 0
        && alone(5, true, "/a/k") == 0
        && finding_number(&wrong, "/a/k".as_bytes(), &[]) == 0
}

/// Of a text.
fn read(known: &FindingKnown) -> u32 {
    finding_number(&FindingKnown { what: 6, ..*known }, "/a/k".as_bytes(), &[])
}

fn texts_are_judged() -> bool {
    let double = FindingKnown {
        has_double: true,
        ..FINE
    };
    let asked = FindingKnown {
        is_system: false,
        ..double
    };
    let none = FindingKnown {
        has_value: false,
        ..double
    };
    let missing = FindingKnown {
        is_known: false,
        ..FINE
    };
    let deep = FindingKnown {
        is_taken: false,
        ..FINE
    };
    read(&FINE) == 0
        && read(&double) == 9
        && read(&asked) == 0
        && read(&none) == 10
        && read(&missing) == 10
        && read(&deep) == 10
}

#[test]
fn what_schemas_lack_is_found(rt: HostRuntime) -> Result<(), Fail> {
    assert!(rt; values_are_judged() && names_are_judged() && databases_are_looked_for());
    assert!(rt; what_is_unread_is_said());
    assert!(rt; what_is_set_is_judged() && texts_are_judged());
    Ok(())
}

/// Which of these is the nearest: its number, counted from 1, or 0; and then so many pairs of letters were compared.
fn nearest(
    alloc: Global,
    nearing: &mut Nearing,
    name: &str,
    others: &[&str],
) -> Result<usize, AllocError> {
    let mut found = 0;
    for at in 0..others.len() {
        if is_nearer(alloc, nearing, name.as_bytes(), others[at].as_bytes())? {
            found = at + 1;
        }
    }
    Ok(found)
}

const NOTHING: Nearing = Nearing {
    used: 0,
    found: 0,
    place: 0,
    is_half: false,
    is_directory: false,
};

/// The place after that one, where so much was found there; and whether half of the letters may be otherwise there, as a tenth.
fn after(place: u32, found: u64) -> u32 {
    let next = next_place(&Nearing {
        place,
        found,
        ..NOTHING
    });
    let half = if next.is_half { 10 } else { 0 };
    if is_over(&next) {
        99
    } else {
        next.place + half
    }
}

fn places_follow() -> bool {
    let directory = Nearing {
        is_directory: true,
        ..NOTHING
    };
    next_place(&directory).place == 1
        && after(1, 0) == 99
        && after(0, 0) == 2
        && after(2, 1) == 99
        && after(2, 0) == 13
        && after(3, 1) == 99
        && after(3, 0) == 4
        && after(4, 0) == 99
        && after(4, 1) == 5
        && after(5, 0) == 99
}

#[test]
fn the_nearest_name_is_found(rt: HostRuntime) -> Result<(), Fail> {
    let mut few = NOTHING;
    let mut half = Nearing {
        is_half: true,
        ..NOTHING
    };
    let mut full = Nearing {
        used: 99_999_980,
        ..NOTHING
    };
    let slip = nearest(
        rt.alloc(),
        &mut few,
        "fnot",
        &["quite", "fate", "font", "fnnt"],
    )?;
    assert!(rt; slip == 3 && few.found == 2 && few.used == 25 + 25 + 25 + 30);
    assert!(rt; nearest(rt.alloc(), &mut half, "abcd", &["abxyz", "abxy"])? == 2);
    assert!(rt; nearest(rt.alloc(), &mut full, "abcd", &["abcd"])? == 0 && full.used == 99_999_980);
    assert!(rt; places_follow());
    Ok(())
}
