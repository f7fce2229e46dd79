//! What the D-Bus service answers to a call that changes settings.
use dconf_served::{
    ServedKnown, begins_number, changed_database, folder_number, is_kept_open, served_number,
};
use std::test::Fail;

/// A change of a few bytes, which nothing is in the way of.
const PLAIN: ServedKnown = ServedKnown {
    size: 100,
    waiting: 0,
    waiting_size: 0,
    names: 1,
    answered: 0,
    edits: 16,
    resets: 0,
    said: 0,
    kind: 0,
    is_used: true,
    is_normal: true,
    has_edits: true,
    is_written: false,
    is_closed: false,
    ends: false,
    is_amid: false,
    is_same: false,
    is_open: true,
    is_profile_open: true,
    has_same_file: false,
    had_name: false,
    is_bus_closed: false,
    is_short: true,
    is_again: false,
    is_covered: false,
    sets: true,
    is_users: true,
    is_unmade: false,
    is_service_db: false,
    is_behind: false,
    has_profile: false,
    is_first: true,
    is_turned: false,
    wants_none: false,
    is_noted: false,
};

const ODD: ServedKnown = ServedKnown {
    size: 32_769,
    is_normal: false,
    has_edits: false,
    ..PLAIN
};

fn too_much_is_refused() -> bool {
    let large = ServedKnown {
        size: 67_108_864,
        ..PLAIN
    };
    let larger = ServedKnown {
        size: 67_108_865,
        ..PLAIN
    };
    let last = ServedKnown {
        waiting: 9_999,
        waiting_size: 268_435_455,
        ..PLAIN
    };
    let one_more = ServedKnown {
        waiting: 10_000,
        ..PLAIN
    };
    let full = ServedKnown {
        waiting_size: 268_435_456,
        ..PLAIN
    };
    served_number(0, &PLAIN) == 0
        && served_number(0, &large) == 0
        && served_number(0, &larger) == 5
        && served_number(0, &last) == 0
        && served_number(0, &one_more) == 6
        && served_number(0, &full) == 6
}

fn names_are_bounded() -> bool {
    let used = ServedKnown { names: 64, ..PLAIN };
    let one_more = ServedKnown {
        is_used: false,
        ..used
    };
    let last = ServedKnown {
        names: 63,
        ..one_more
    };
    served_number(0, &used) == 0 && served_number(0, &one_more) == 7 && served_number(0, &last) == 0
}

fn odd_bytes_are_refused() -> bool {
    let small = ServedKnown {
        size: 32_768,
        ..ODD
    };
    let written = ServedKnown {
        is_written: true,
        ..ODD
    };
    served_number(1, &PLAIN) == 0
        && served_number(1, &ODD) == 4
        && served_number(1, &small) == 0
        && served_number(2, &ODD) == 0
        && served_number(2, &written) == 4
}

fn what_is_written_is_acknowledged() -> bool {
    let written = ServedKnown {
        is_written: true,
        ..PLAIN
    };
    let closed = ServedKnown {
        is_closed: true,
        ..written
    };
    let failed = ServedKnown { said: 1, ..PLAIN };
    let empty = ServedKnown {
        has_edits: false,
        ..failed
    };
    served_number(2, &PLAIN) == 0
        && served_number(2, &written) == 1
        && served_number(2, &closed) == 3
        && served_number(2, &failed) == 2
        && served_number(2, &ServedKnown { said: 2, ..PLAIN }) == 2
        && served_number(2, &empty) == 1
}

fn who_waits_is_told_at_the_end() -> bool {
    let amid = ServedKnown {
        is_amid: true,
        ..PLAIN
    };
    let last = ServedKnown {
        ends: true,
        ..PLAIN
    };
    let one = ServedKnown {
        waiting: 2,
        answered: 1,
        ..PLAIN
    };
    let all = ServedKnown { answered: 2, ..one };
    served_number(4, &PLAIN) == 8
        && served_number(4, &amid) == 0
        && served_number(2, &last) == 2
        && served_number(7, &PLAIN) == 0
        && served_number(7, &one) == 8
        && served_number(7, &all) == 12
}

fn a_name_has_a_store() -> bool {
    let locked = ServedKnown {
        has_same_file: true,
        ..PLAIN
    };
    let unknown = ServedKnown {
        is_profile_open: false,
        ..PLAIN
    };
    served_number(6, &PLAIN) == 11
        && served_number(6, &locked) == 10
        && served_number(6, &unknown) == 2
}

fn one_database_is_written_at_once() -> bool {
    let same = ServedKnown {
        is_same: true,
        ..PLAIN
    };
    served_number(5, &same) == 0 && served_number(5, &PLAIN) == 9
}

fn who_has_no_name_ends() -> bool {
    let had = ServedKnown {
        had_name: true,
        ..PLAIN
    };
    let gone = ServedKnown {
        is_bus_closed: true,
        ..PLAIN
    };
    served_number(8, &PLAIN) == 13 && served_number(8, &had) == 12 && served_number(8, &gone) == 12
}

fn each_path_counts() -> bool {
    let directory = ServedKnown {
        kind: 1,
        sets: false,
        ..PLAIN
    };
    let value = ServedKnown { kind: 1, ..PLAIN };
    let none = ServedKnown { kind: 2, ..PLAIN };
    let long = ServedKnown {
        is_short: false,
        ..PLAIN
    };
    served_number(9, &PLAIN) == 0
        && served_number(9, &directory) == 0
        && served_number(9, &value) == 14
        && served_number(9, &none) == 14
        && served_number(9, &long) == 15
}

fn the_last_of_a_path_counts() -> bool {
    let again = ServedKnown {
        is_again: true,
        ..PLAIN
    };
    let set = ServedKnown {
        is_covered: true,
        ..PLAIN
    };
    let reset = ServedKnown { sets: false, ..set };
    let alone = ServedKnown {
        sets: false,
        ..PLAIN
    };
    served_number(10, &PLAIN) == 0
        && served_number(10, &again) == 16
        && served_number(10, &set) == 0
        && served_number(10, &reset) == 14
        && served_number(10, &alone) == 0
}

fn sites_are_not_told() -> bool {
    let sites = ServedKnown {
        is_users: false,
        ..PLAIN
    };
    let second = ServedKnown {
        is_first: false,
        ..PLAIN
    };
    served_number(11, &PLAIN) == 0
        && served_number(11, &sites) == 14
        && served_number(11, &second) == 14
}

fn a_call_is_answered() -> bool {
    let none = ServedKnown {
        wants_none: true,
        ..PLAIN
    };
    let noted = ServedKnown {
        is_noted: true,
        ..PLAIN
    };
    served_number(19, &PLAIN) == 0
        && served_number(19, &none) == 14
        && served_number(20, &PLAIN) == 14
        && served_number(20, &noted) == 0
}

fn nobody_waits_for_long() -> bool {
    let small = ServedKnown {
        size: 4096,
        ..PLAIN
    };
    let larger = ServedKnown {
        size: 4097,
        ..PLAIN
    };
    let many = ServedKnown { edits: 17, ..PLAIN };
    let reset = ServedKnown {
        edits: 1,
        resets: 1,
        ..PLAIN
    };
    served_number(16, &small) == 0
        && served_number(16, &larger) == 9
        && served_number(21, &PLAIN) == 0
        && served_number(21, &many) == 9
        && served_number(21, &reset) == 9
}

fn a_database_has_its_place() -> bool {
    let closed = ServedKnown {
        is_open: false,
        ..PLAIN
    };
    served_number(18, &PLAIN) == 0
        && served_number(18, &closed) == 2
        && folder_number(true, true) == 0
        && folder_number(true, false) == 0
        && folder_number(false, true) == 1
        && folder_number(false, false) == 2
}

fn bytes_are_read_as_the_library_takes_them() -> bool {
    let odd = ServedKnown {
        is_normal: false,
        ..PLAIN
    };
    let turned = ServedKnown {
        is_turned: true,
        ..PLAIN
    };
    served_number(17, &PLAIN) == 0
        && served_number(17, &odd) == 16
        && served_number(17, &turned) == 16
}

/// Of ext4, tmpfs, NFS, btrfs and FUSE.
fn what_is_served_by_others_is_closed() -> bool {
    is_kept_open(0xEF53)
        && is_kept_open(0x0102_1994)
        && !is_kept_open(0x6969)
        && !is_kept_open(0x9123_683E)
        && !is_kept_open(0x6573_5546)
}

fn is_of_user(is_call: bool, object: &[u8], interface: &[u8], member: &[u8]) -> bool {
    changed_database(is_call, object, interface, member, b"ay") == 23
}

fn a_change_is_of_its_object() -> bool {
    let object = b"/ca/desrt/dconf/Writer/user";
    let writer = b"ca.desrt.dconf.Writer";
    is_of_user(true, object, writer, b"Change")
        && !is_of_user(false, object, writer, b"Change")
        && !is_of_user(true, object, writer, b"Init")
        && !is_of_user(true, object, b"", b"Change")
        && !is_of_user(true, b"/ca/desrt/dconf/Writer/a/b", writer, b"Change")
        && !is_of_user(true, b"/ca/desrt/dconf/Writer", writer, b"Change")
        && changed_database(true, object, writer, b"Change", b"s") == 0
}

fn each_edit_is_told_of() -> bool {
    let written = ServedKnown {
        is_written: true,
        ..PLAIN
    };
    let unmade = ServedKnown {
        is_unmade: true,
        ..written
    };
    let failed = ServedKnown {
        is_written: false,
        ..unmade
    };
    served_number(12, &written) == 0
        && served_number(12, &unmade) == 15
        && served_number(12, &failed) == 14
        && served_number(13, &PLAIN) == 11
}

fn a_good_profile_stays() -> bool {
    let good = ServedKnown {
        has_profile: true,
        ..PLAIN
    };
    served_number(15, &good) == 14 && served_number(15, &PLAIN) == 0
}

fn no_service_db_is_served() -> bool {
    let other = ServedKnown {
        is_service_db: true,
        ..PLAIN
    };
    served_number(0, &other) == 17
}

fn what_came_first_is_first() -> bool {
    let behind = ServedKnown {
        is_behind: true,
        ..PLAIN
    };
    let last = ServedKnown {
        ends: true,
        ..PLAIN
    };
    let unopened = ServedKnown {
        is_used: false,
        ..PLAIN
    };
    let large = ServedKnown {
        size: 67_108_865,
        ..PLAIN
    };
    let noted = ServedKnown {
        is_noted: true,
        ..PLAIN
    };
    served_number(14, &PLAIN) == 0
        && served_number(14, &noted) == 9
        && served_number(14, &behind) == 9
        && served_number(14, &last) == 9
        && served_number(14, &unopened) == 9
        && served_number(14, &large) == 5
}

fn it_serves_at_last() -> bool {
    begins_number(0, true, 9) == 1
        && begins_number(0, false, 9) == 3
        && begins_number(1, true, 9) == 2
        && begins_number(1, true, 0) == 3
        && begins_number(2, true, 9) == 3
        && begins_number(3, true, 9) == 4
        && begins_number(3, false, 0) == 4
}

#[test]
fn calls_are_answered_once_they_are_written(rt: HostRuntime) -> Result<(), Fail> {
    assert!(rt; too_much_is_refused() && names_are_bounded());
    assert!(rt; odd_bytes_are_refused() && what_is_written_is_acknowledged());
    assert!(rt; who_waits_is_told_at_the_end() && a_name_has_a_store());
    assert!(rt; one_database_is_written_at_once() && who_has_no_name_ends());
    assert!(rt; what_came_first_is_first());
    assert!(rt; each_path_counts() && the_last_of_a_path_counts() && sites_are_not_told());
    assert!(rt; each_edit_is_told_of() && no_service_db_is_served() && it_serves_at_last());
    assert!(rt;
        a_good_profile_stays()
            && a_call_is_answered()
            && nobody_waits_for_long()
            && a_database_has_its_place()
    );
    assert!(rt;
        bytes_are_read_as_the_library_takes_them()
            && what_is_served_by_others_is_closed()
            && a_change_is_of_its_object()
    );
    Ok(())
}
