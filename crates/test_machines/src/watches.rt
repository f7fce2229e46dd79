//! What is watched of the names on the way to a file, and what is heard of what inotify tells.
use dconf_watches::{
    Event, Found, Heard, NameWatch, Sight, WatchRounds, Way, asked_anew_number, asked_of,
    asked_of_file, event_in, flag_number, found_by, heard_as, heard_number, is_busy, is_busy_in,
    is_file_missed, is_lenient, is_missed, is_needed, keeps_profile, minds_much, seen_by, watch_at,
    watch_of, watches_store, way_at,
};
use std::test::Fail;

/// What heard_number says where nothing is heard.
const NOTHING: u32 = 2;

/// A regular file, and a link, by st_mode.
const FILE: u32 = 0o100644;

const LINK: u32 = 0o120777;

/// What is heard at a file's own name, at which that stands by then, of a mask that has its name.
fn heard_at(watch: u32, mask: u32, mode: u32) -> u32 {
    heard_number(
        NOTHING, watch, 0, mask, false, true, true, 0, false, mode, 1,
    )
}

/// What is heard of an event of the file's own watch.
fn heard_of_file(watch: u32, mask: u32) -> u32 {
    heard_number(NOTHING, watch, 0, mask, true, false, false, 0, false, 0, 0)
}

/// What is heard once another file has come, which could be watched or not, by that errno.
fn heard_with(fault: u32) -> u32 {
    heard_number(
        NOTHING, 3, 0, 0x80, false, true, true, fault, false, FILE, 1,
    )
}

/// What is asked for of the file that has the name after that.
fn asked_after(watch: u32, mask: u32, mode: u32) -> u32 {
    asked_anew_number(watch, mask, false, true, true, false, mode, 1)
}

fn events_are_read() -> bool {
    matches!(event_in(0x2), Event::Other)
        && matches!(event_in(0x4), Event::Access)
        && matches!(event_in(0x8), Event::Written)
        && matches!(event_in(0x40), Event::Went)
        && matches!(event_in(0x80), Event::Came)
        && matches!(event_in(0x4000_0100), Event::Made)
        && matches!(event_in(0x4000_0200), Event::Went)
        && matches!(event_in(0x400), Event::Gone)
        && matches!(event_in(0x800), Event::Gone)
        && matches!(event_in(0x2000), Event::Lost)
        && matches!(event_in(0x4000), Event::Lost)
        && matches!(event_in(0x8000), Event::Other)
}

fn what_stands_is_read() -> bool {
    matches!(found_by(0, 0), Found::Missing)
        && matches!(found_by(FILE, 1), Found::File)
        && matches!(found_by(FILE, 2), Found::Other)
        && matches!(found_by(LINK, 1), Found::Link)
        && matches!(found_by(0o040755, 2), Found::Folder)
        && matches!(found_by(0o010644, 1), Found::Other)
        && matches!(seen_by(false, FILE, 1), Found::File)
        && matches!(seen_by(true, 0, 0), Found::Unseen)
        && is_missed(Found::Unseen)
        && !is_missed(Found::Missing)
}

fn names_are_heard() -> bool {
    heard_at(4, 0x100, FILE) == 2
        && heard_at(4, 0x100, LINK) == 1
        && heard_at(3, 0x8, FILE) == 2
        && heard_at(4, 0x8, FILE) == 0
        && heard_at(3, 0x80, FILE) == 0
        && heard_at(3, 0x200, 0) == 1
        && heard_at(2, 0x8, FILE) == 2
        && heard_number(NOTHING, 3, 0, 0x80, false, true, false, 0, false, FILE, 1) == 2
        && heard_number(NOTHING, 3, 0, 0x4, false, false, false, 0, false, 0, 0) == 1
        && heard_number(1, 3, 0, 0x80, false, true, true, 0, false, FILE, 1) == 1
        && heard_number(NOTHING, 0, 2, 0x4000, false, true, false, 0, false, 0, 0) == 1
        && heard_number(NOTHING, 4, 0, 0x100, false, true, true, 0, true, 0, 0) == 1
}

/// Who writes the file is told of by the file itself, and another one is watched once it has the name.
fn files_are_followed() -> bool {
    heard_of_file(3, 0x8) == 0
        && heard_of_file(4, 0x8) == 2
        && heard_of_file(3, 0x8000) == 2
        && asked_after(3, 0x80, FILE) == 0x8
        && asked_after(3, 0x4, FILE) == 0x8
        && asked_after(3, 0x200, FILE) == 0
        && asked_after(3, 0x80, LINK) == 0
        && asked_after(4, 0x80, FILE) == 0
        && asked_anew_number(3, 0x80, false, true, false, false, FILE, 1) == 0
        && matches!(heard_as(Found::Missing, true, Heard::File), Heard::Path)
        && matches!(heard_as(Found::File, true, Heard::File), Heard::File)
}

/// What went, and what may not be read, is not missed; but for want of memory or watches all are watched anew.
fn faults_are_read() -> bool {
    !is_file_missed(0)
        && !is_file_missed(2)
        && !is_file_missed(13)
        && is_file_missed(28)
        && is_file_missed(12)
        && heard_with(0) == 0
        && heard_with(13) == 0
        && heard_with(28) == 1
}

fn all_that_is_heard_is_asked_for() -> bool {
    asked_of(NameWatch::Nothing) == 0
        && asked_of(NameWatch::Itself) == 0xc00
        && asked_of(NameWatch::Passage) == 0x3c0
        && asked_of(NameWatch::Own) == 0x2c4
        && asked_of(NameWatch::Awaited) == 0x3cc
        && asked_of_file(NameWatch::Own, Found::File) == 0x8
        && asked_of_file(NameWatch::Own, Found::Other) == 0x8
        && asked_of_file(NameWatch::Own, Found::Folder) == 0
        && asked_of_file(NameWatch::Awaited, Found::Missing) == 0
        && is_needed(NameWatch::Own)
        && !is_needed(NameWatch::Itself)
}

fn names_are_gone_through() -> bool {
    let etc = "etc".as_bytes();
    let busy = "/etc".as_bytes();
    let flags = "/run/user/1000/dconf".as_bytes();
    is_busy(false, false, busy)
        && !is_busy(true, false, busy)
        && !is_busy(false, false, etc)
        && !is_busy(false, true, busy)
        && is_busy(false, true, flags)
        && !is_busy(true, true, flags)
        && !is_busy(false, false, flags)
        && !is_busy(false, true, "/run/user/1000".as_bytes())
        && matches!(
            watch_of(Found::Missing, true, true, false),
            NameWatch::Nothing
        )
        && matches!(watch_of(Found::File, true, true, false), NameWatch::Own)
        && is_busy_in(false, "".as_bytes(), etc)
        && !is_busy_in(false, "/a".as_bytes(), etc)
        && matches!(way_at(".".as_bytes(), Way::Ends), Way::Stays)
        && matches!(way_at("..".as_bytes(), Way::Ends), Way::Rises)
        && matches!(way_at("...".as_bytes(), Way::Ends), Way::Ends)
        && matches!(
            watch_at("..".as_bytes(), NameWatch::Own),
            NameWatch::Nothing
        )
        && matches!(watch_at(etc, NameWatch::Own), NameWatch::Own)
}

/// What comes after so many rounds, each of which watches what a last one may have missed.
fn after_rounds(mut rounds: WatchRounds, count: u32, last: Sight) -> u32 {
    for _ in 0..count {
        rounds.begin();
        rounds.go_through(Sight::of(false, true, true));
        rounds.go_through(last);
    }
    rounds.after().number()
}

fn rounds_are_counted(none: WatchRounds) -> bool {
    let mut once = none;
    once.begin();
    let is_whole = once.after().number() == 1;
    once.go_through(Sight::of(true, true, true));
    once.go_through(Sight::of(false, false, false));
    let stays_whole = once.after().number() == 1;
    once.go_through(Sight::of(false, false, true));
    is_whole
        && stays_whole
        && once.after().number() == 2
        && after_rounds(none, 63, Sight::Known) == 0
        && after_rounds(none, 64, Sight::Known) == 2
        && after_rounds(none, 1, Sight::Missed) == 0
}

/// The name goes last, of what is set, and by who has the turn.
fn readers_are_told() -> bool {
    flag_number(0, true, true) == 1
        && flag_number(1, true, true) == 3
        && flag_number(1, true, false) == 2
        && flag_number(1, false, false) == 7
        && flag_number(2, true, true) == 3
        && flag_number(2, false, false) == 3
        && flag_number(3, true, true) == 4
        && flag_number(4, true, false) == 5
        && flag_number(5, true, true) == 6
        && flag_number(5, true, false) == 7
        && flag_number(5, false, true) == 7
        && flag_number(3, false, true) == 7
        && flag_number(6, true, true) == 7
}

/// Its caller says whether a bad file refuses a store; to all others none does.
fn only_the_library_refuses() -> bool {
    !is_lenient(0, false, false)
        && is_lenient(0, true, false)
        && is_lenient(0, false, true)
        && is_lenient(1, false, false)
        && is_lenient(2, false, false)
        && is_lenient(3, false, false)
        && is_lenient(4, false, false)
}

#[test]
fn names_are_watched_and_heard(rt: HostRuntime) -> Result<(), Fail> {
    assert!(rt;
        events_are_read()
            && what_stands_is_read()
            && names_are_heard()
            && all_that_is_heard_is_asked_for()
    );
    assert!(rt; files_are_followed() && faults_are_read());
    assert!(rt; names_are_gone_through());
    assert!(rt;
        minds_much(3) && minds_much(4) && !minds_much(0) && !minds_much(1) && !minds_much(2)
    );
    assert!(rt;
        keeps_profile(2)
            && !keeps_profile(0)
            && !keeps_profile(1)
            && !keeps_profile(3)
            && !keeps_profile(4)
            && watches_store(0, true)
            && watches_store(2, true)
            && !watches_store(2, false)
            && !watches_store(1, true)
    );
    assert!(rt; only_the_library_refuses());
    assert!(rt; rounds_are_counted(WatchRounds::none()) && readers_are_told());
    Ok(())
}
