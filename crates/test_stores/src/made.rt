//! Whether the user's database has what a change asks for, and whether what is made of changes is anything new: it has 5 at `/k`. And
//! what a bad file counts as.
use crate::calls::layer;
use dconf_layers::Layer;
use dconf_made::{Course, changed_file, course_number, is_made, need_number};
use dconf_mended::{
    is_told, may_be_database, mended_file, read_lines, said_by, standing_number, telling_of,
};
use dconfdb_calls::{DconfdbChange, Fault};
use std::alloc::Global;
use std::test::Fail;
use test_rows::sample;

const FIVE: &[u8] = b"\x05\0\0\0";

const SIX: &[u8] = b"\x06\0\0\0";

/// A change that sets a number.
fn sets<'a>(path: &'a [u8], value: &'a [u8]) -> DconfdbChange<'a> {
    DconfdbChange {
        path,
        value,
        type_text: b"i",
        sets: true,
    }
}

fn resets(path: &[u8]) -> DconfdbChange<'_> {
    DconfdbChange {
        path,
        value: b"",
        type_text: b"",
        sets: false,
    }
}

fn has(alloc: Global, layers: &[Layer<'_>], change: DconfdbChange<'_>) -> bool {
    matches!(is_made(alloc, layers, true, &change), Ok(true))
}

/// Whether it has a value, or none, or none below a directory.
fn are_had(alloc: Global, layers: &[Layer<'_>]) -> bool {
    has(alloc, layers, sets(b"/k", FIVE))
        && !has(alloc, layers, sets(b"/k", SIX))
        && !has(alloc, layers, sets(b"/j", FIVE))
        && !has(alloc, layers, resets(b"/k"))
        && has(alloc, layers, resets(b"/j"))
        && has(alloc, layers, resets(b"j"))
        && has(alloc, layers, resets(b"/j/"))
        && has(alloc, layers, resets(b"//"))
        && !has(alloc, layers, resets(b"/"))
        && !has(alloc, &[], resets(b"/j"))
        && matches!(is_made(alloc, layers, false, &resets(b"/j")), Ok(false))
}

/// Whether the bytes that come of changes say no more than these do.
fn is_same(
    alloc: Global,
    layers: &[Layer<'_>],
    changes: &[DconfdbChange<'_>],
    old: &[u8],
) -> Option<bool> {
    match changed_file(alloc, layers, true, changes, old) {
        Ok(made) => Some(made.is_same),
        Err(_) => None,
    }
}

fn are_the_same(alloc: Global, layers: &[Layer<'_>], file: &[u8]) -> bool {
    let back = [sets(b"/k", SIX), sets(b"/k", FIVE)];
    is_same(alloc, layers, &[sets(b"/k", FIVE)], b"") == Some(true)
        && is_same(alloc, layers, &[resets(b"/j"), resets(b"/j/")], b"") == Some(true)
        && is_same(alloc, layers, &[resets(b"/j"), resets(b"/k")], b"") == Some(false)
        && is_same(alloc, layers, &back, file) == Some(true)
        && is_same(alloc, layers, &back, b"") == Some(false)
}

/// The fault of changes, and the edit that is named: of two, 2 is none.
fn fault_of(
    alloc: Global,
    layers: &[Layer<'_>],
    changes: &[DconfdbChange<'_>],
) -> Option<(Fault, usize)> {
    match changed_file(alloc, layers, true, changes, b"") {
        Ok(_) => None,
        Err(unchanged) => Some((unchanged.fault, unchanged.at)),
    }
}

fn are_named(alloc: Global, layers: &[Layer<'_>]) -> bool {
    let first = [resets(b"k"), resets(b"/j")];
    let second = [resets(b"/j"), sets(b"/j/", FIVE)];
    fault_of(alloc, layers, &first) == Some((Fault::BadPath, 0))
        && fault_of(alloc, layers, &second) == Some((Fault::BadPath, 1))
        && fault_of(alloc, &[], &first).is_some()
}

/// Whether a file is to be made: 0 is one, 1 none, 2 a look.
fn are_needed() -> bool {
    let (some, none) = ([resets(b"/j"), sets(b"/k", FIVE)], [resets(b"/j")]);
    need_number(0, &none) == 0
        && need_number(1, &none) == 1
        && need_number(1, &some) == 0
        && need_number(2, &none) == 0
        && need_number(3, &none) == 2
        && need_number(3, &some) == 0
        && need_number(4, &some) == 1
        && need_number(3, &[]) == 2
}

/// A change of a database that is the user's.
const OWN: Course = Course {
    has_edits: true,
    has_user: true,
    is_locked: false,
    is_unsynced: false,
};

/// What is done for a change that resets a key, of which nothing failed, after that task.
fn comes(task: u32, users: u32, known: &Course) -> u32 {
    course_number(task, true, users, &[resets(b"/j")], known)
}

/// What comes after which task: 1 look, 2 change, 3 turn, 4 refresh, 5 well, 6 settle, 7 done.
fn have_their_course() -> bool {
    let nobodys = Course {
        has_user: false,
        ..OWN
    };
    let locked = Course {
        is_locked: true,
        ..OWN
    };
    let unsynced = Course {
        is_unsynced: true,
        ..OWN
    };
    comes(0, 3, &OWN) == 1
        && comes(1, 0, &OWN) == 2
        && comes(1, 2, &OWN) == 2
        && comes(1, 1, &OWN) == 4
        && comes(0, 4, &nobodys) == 5
        && comes(0, 3, &locked) == 3
        && comes(4, 1, &OWN) == 5
        && comes(5, 1, &OWN) == 6
        && comes(5, 1, &unsynced) == 7
        && comes(2, 3, &OWN) == 7
}

/// A database of no key, in which the kind of `/` is not set.
const UNSET: &[u8] = b"GVariant\0\0\0\0\0\0\0\0\x18\0\0\0\x3c\0\0\0\
    \0\0\0\0\x01\0\0\0\0\0\0\0\xd4\xb5\x02\0\xff\xff\xff\xff\x3c\0\0\0\x01\0?\0\0\0\0\0\0\0\0\0/";

/// What a file counts as: 0 is whole, 1 saved, 2 nothing; how many values and locks are saved; and whether what is wrong is told.
fn standing(alloc: Global, file: &[u8]) -> Option<(u32, usize, usize, bool)> {
    match mended_file(alloc, file) {
        Ok(it) => Some((
            standing_number(it.standing),
            it.keys,
            it.locks,
            is_told(it.standing),
        )),
        Err(_) => None,
    }
}

fn are_mended(alloc: Global) -> bool {
    standing(alloc, UNSET) == Some((0, 0, 0, false))
        && standing(alloc, sample("locked")) == Some((1, 1, 1, true))
        && standing(alloc, b"GVariant") == Some((2, 0, 0, true))
        && may_be_database(b"GVar")
        && may_be_database(sample("locked"))
        && may_be_database(b"GVariant\0\0\0\0\0\0\0\0\0\0\0\0\0\0\0\0")
        && !may_be_database(b"GVariant\x01\0\0\0\0\0\0\0\0\0\0\0\0\0\0\0")
        && !may_be_database(b"tnairaVG\0\0\0\0\0\0\0\0\0\0\0\0\0\0\0\0")
}

/// How many databases of a profile are taken, and the number and the line of the first bad line.
fn read_so(alloc: Global, text: &[u8], is_lenient: bool) -> Option<(usize, u32, usize)> {
    match read_lines(alloc, text, is_lenient) {
        Ok(it) => match it.bad {
            Some(bad) => Some((it.names.len(), bad.fault.number(), bad.line)),
            None => Some((it.names.len(), 0, 0)),
        },
        Err(_) => None,
    }
}

fn are_profiles_read(alloc: Global) -> bool {
    let good = b"user-db:me\nsystem-db:site\n";
    let bad = b"user-db:me\nservice-db:it\nsystem-db:site\n";
    let odd = b"user-db:me\noops\n\xff\n";
    read_so(alloc, good, false) == Some((2, 0, 0))
        && read_so(alloc, good, true) == Some((2, 0, 0))
        && read_so(alloc, bad, false) == Some((0, 10, 2))
        && read_so(alloc, bad, true) == Some((2, 10, 2))
        && read_so(alloc, odd, false) == Some((0, 9, 2))
        && read_so(alloc, b"\xff", false) == Some((0, 8, 1))
        && said_by(3, good) == b"user-db:user".as_slice()
        && said_by(4, good) == good.as_slice()
        && said_by(5, good) == b"".as_slice()
        && telling_of(0, false, false).number() == 0
        && telling_of(9, false, true).number() == 1
        && telling_of(9, true, false).number() == 2
        && telling_of(9, true, true).number() == 0
        && telling_of(1, true, false).number() == 1
}

#[test]
fn bad_files_count_as_they_are(rt: HostRuntime) -> Result<(), Fail> {
    assert!(rt; are_mended(rt.alloc()));
    assert!(rt; are_profiles_read(rt.alloc()));
    Ok(())
}

#[test]
fn what_is_there_already_is_known(rt: HostRuntime) -> Result<(), Fail> {
    let alloc = rt.alloc();
    let own = [layer(sample("plain"))?];
    assert!(rt;
        are_had(alloc, &own) && are_named(alloc, &own) && are_needed() && have_their_course()
    );
    let Ok(made) = changed_file(alloc, &own, true, &[sets(b"/k", FIVE)], b"") else {
        return Err(Fail::new("it is not made"));
    };
    assert!(rt; are_the_same(alloc, &own, made.file.as_slice()));
    Ok(())
}
