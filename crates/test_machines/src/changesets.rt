//! What dconf's client does with changes: the rows of a set, what makes a difference to a database, where a key's newest word is found, who
//! looks at the files, what becomes of a change whose caller waits for it, and what is told.
use dconf_changesets::{
    Base, ChangeKnown, Effect, FastKnown, LookKnown, Said, Tried, asked_after, change_number,
    differs, effect_number, effect_of, fast_number, is_said, is_unmade, look_number, shared_within,
    tried_number, waits_again,
};
use std::test::Fail;

/// A directory's reset stands for all below it, and a key's change for nothing but the key.
fn rows_go() -> bool {
    effect_of(b"/a/", false, false, b"/a/b") == Effect::Goes
        && effect_of(b"/a/", false, false, b"/a/b/") == Effect::Goes
        && effect_of(b"/a/", false, false, b"/a/") == Effect::Takes
        && effect_of(b"/a/", false, false, b"/ab") == Effect::Stays
        && effect_of(b"/a/b", true, false, b"/a/b") == Effect::Takes
        && effect_of(b"/a/b", true, false, b"/a/") == Effect::Stays
        && effect_of(b"/a/b", true, false, b"/a/bc") == Effect::Stays
        && effect_of(b"/a/b", false, false, b"/a/b") == Effect::Takes
        && effect_of(b"/a/b", false, true, b"/a/b") == Effect::Goes
        && effect_of(b"/a/b", true, true, b"/a/b") == Effect::Takes
        && effect_number(Effect::Goes) == 1
}

/// The path, its directories from the longest on, and those of two paths.
fn are_shared() -> bool {
    shared_within(b"/a/b/c", 5, b"/a/b/c") == 5
        && shared_within(b"/a/b/c", 4, b"/a/b/c") == 3
        && shared_within(b"/a/b/c", 2, b"/a/b/c") == 1
        && shared_within(b"/a/b/c", 0, b"/a/b/c") == 0
        && shared_within(b"/a/b/c", 6, b"/a/bc") == 3
        && shared_within(b"/a/", 3, b"/a/b") == 3
        && shared_within(b"/a/", 2, b"/a/") == 1
        && shared_within(b"/a", 9, b"/a") == 2
        && shared_within(b"/a", 2, b"/ab") == 1
        && shared_within(b"b", 1, b"c") == 0
}

const NOTHING: Base = Base {
    has: false,
    is_same: false,
    is_reset: false,
    has_below: false,
};

fn make_differences() -> bool {
    let other = Base {
        has: true,
        ..NOTHING
    };
    let same = Base {
        is_same: true,
        ..other
    };
    let reset = Base {
        is_reset: true,
        ..same
    };
    let below = Base {
        has_below: true,
        ..NOTHING
    };
    differs(b"/a", true, &NOTHING)
        && differs(b"/a", true, &other)
        && !differs(b"/a", true, &same)
        && differs(b"/a", true, &reset)
        && !differs(b"/a", false, &NOTHING)
        && differs(b"/a", false, &same)
        && !differs(b"/a", false, &reset)
        && differs(b"/a/", false, &below)
        && !differs(b"/a/", false, &same)
}

/// Two are read through: they are asked before what waits, the last one first.
fn are_asked() -> bool {
    asked_after(4, 0) == 4
        && asked_after(4, 1) == 3
        && asked_after(4, 2) == 2
        && asked_after(4, 3) == 1
        && asked_after(4, 4) == 0
        && asked_after(2, 9) == 0
}

/// All that happens to the files is told to this process, and nothing has been.
const HEARD: LookKnown = LookKnown {
    until: 0,
    is_open: true,
    is_watched: true,
    is_whole: true,
    is_told: false,
    is_own: true,
    is_busy: false,
};

fn look_where_it_is_due() -> bool {
    let closed = LookKnown {
        is_open: false,
        ..HEARD
    };
    let told = LookKnown {
        is_told: true,
        ..HEARD
    };
    let part = LookKnown {
        is_whole: false,
        ..HEARD
    };
    let timed = LookKnown { until: 7, ..HEARD };
    let child = LookKnown {
        is_own: false,
        ..HEARD
    };
    let unwatched = LookKnown {
        is_watched: false,
        ..HEARD
    };
    let busy = LookKnown {
        is_busy: true,
        ..told
    };
    look_number(0, &HEARD) == 2
        && look_number(1, &HEARD) == 0
        && look_number(2, &HEARD) == 0
        && look_number(3, &unwatched) == 0
        && look_number(3, &closed) == 1
        && look_number(0, &closed) == 1
        && look_number(1, &told) == 0
        && look_number(2, &told) == 2
        && look_number(2, &part) == 2
        && look_number(2, &timed) == 2
        && look_number(2, &child) == 2
        && look_number(1, &unwatched) == 2
        && look_number(2, &busy) == 3
        && look_number(1, &busy) == 0
}

const SILENT: Said = Said {
    says: false,
    is_same: false,
    has_below: false,
};

/// The newest word counts, and what is set below a directory stands beside its reset.
fn say_the_same() -> bool {
    let same = Said {
        says: true,
        is_same: true,
        ..SILENT
    };
    let other = Said {
        says: true,
        ..SILENT
    };
    let below = Said {
        has_below: true,
        ..same
    };
    is_said(&[], true)
        && !is_said(&[], false)
        && is_said(&[SILENT, SILENT], true)
        && !is_said(&[SILENT, SILENT], false)
        && is_said(&[same, other], false)
        && !is_said(&[other, same], true)
        && is_said(&[SILENT, same], false)
        && !is_said(&[below, same], true)
        && !is_said(&[SILENT, below], true)
        && is_said(&[same, below], false)
}

const TRIED: Tried = Tried {
    is_written: true,
    is_refused: false,
    is_left_out: false,
    is_now: false,
    is_there: true,
    is_again: false,
};

fn tell_what_is_lost() -> bool {
    let refused = Tried {
        is_refused: true,
        ..TRIED
    };
    let left = Tried {
        is_left_out: true,
        ..TRIED
    };
    let lost = Tried {
        is_there: false,
        ..TRIED
    };
    let now = Tried {
        is_now: true,
        ..lost
    };
    let again = Tried {
        is_again: true,
        ..lost
    };
    let waits = Tried {
        is_written: false,
        ..lost
    };
    !is_unmade(&TRIED)
        && is_unmade(&refused)
        && is_unmade(&left)
        && is_unmade(&lost)
        && !is_unmade(&now)
        && !is_unmade(&again)
        && !is_unmade(&waits)
        && waits_again(false, false)
        && !waits_again(true, false)
        && !waits_again(false, true)
        && tried_number(0, &lost) == 1
        && tried_number(1, &lost) == 2
        && tried_number(2, &lost) == 3
        && tried_number(3, &lost) == 0
        && tried_number(0, &now) == 0
        && tried_number(1, &again) == 0
        && tried_number(0, &waits) == 0
        && tried_number(0, &refused) == 0
        && tried_number(0, &left) == 0
}

const PLAIN: ChangeKnown = ChangeKnown {
    is_empty: false,
    is_refused: false,
    has_store: true,
    has_user: true,
    is_there: false,
    is_left: true,
    is_news: true,
    is_watched: false,
    is_barred: false,
};

fn are_made() -> bool {
    let empty = ChangeKnown {
        is_empty: true,
        ..PLAIN
    };
    let refused = ChangeKnown {
        is_refused: true,
        ..PLAIN
    };
    let unknown = ChangeKnown {
        has_store: false,
        ..refused
    };
    let there = ChangeKnown {
        is_there: true,
        ..PLAIN
    };
    let watched = ChangeKnown {
        is_watched: true,
        ..PLAIN
    };
    let locked = ChangeKnown {
        is_barred: true,
        ..PLAIN
    };
    let userless = ChangeKnown {
        has_user: false,
        ..there
    };
    let closed = ChangeKnown {
        has_store: false,
        ..there
    };
    change_number(0, true, &empty) == 7
        && change_number(0, true, &refused) == 8
        && change_number(0, true, &PLAIN) == 1
        && change_number(0, true, &unknown) == 1
        && change_number(1, true, &PLAIN) == 3
        && change_number(3, true, &PLAIN) == 4
        && change_number(4, true, &PLAIN) == 7
        && change_number(4, true, &watched) == 5
        && change_number(5, true, &watched) == 7
        && change_number(1, true, &there) == 2
        && change_number(2, true, &there) == 4
        && change_number(2, false, &there) == 3
        && change_number(1, false, &PLAIN) == 9
        && change_number(1, false, &locked) == 9
        && change_number(1, false, &userless) == 8
        && change_number(3, false, &locked) == 6
        && change_number(6, true, &locked) == 8
        && change_number(1, true, &userless) == 6
        && change_number(6, true, &userless) == 8
        && change_number(1, true, &closed) == 6
        && change_number(6, true, &closed) == 9
}

fn are_left_waiting() -> bool {
    let plain = FastKnown {
        is_refused: false,
        is_empty: false,
        is_news: false,
    };
    let news = FastKnown {
        is_news: true,
        ..plain
    };
    let empty = FastKnown {
        is_empty: true,
        ..news
    };
    let refused = FastKnown {
        is_refused: true,
        ..empty
    };
    fast_number(0, &plain) == 1
        && fast_number(1, &plain) == 2
        && fast_number(2, &plain) == 4
        && fast_number(0, &news) == 1
        && fast_number(2, &news) == 3
        && fast_number(3, &news) == 4
        && fast_number(0, &empty) == 4
        && fast_number(0, &refused) == 5
}

#[test]
fn changes_are_kept(rt: HostRuntime) -> Result<(), Fail> {
    assert!(rt; rows_go() && are_shared() && make_differences() && are_asked() && are_made());
    assert!(rt; are_left_waiting());
    assert!(rt; look_where_it_is_due() && say_the_same() && tell_what_is_lost());
    Ok(())
}
