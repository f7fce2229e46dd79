//! What becomes of a change that is asked for, and of one that waits; and what a fault means to it.
use dconf_files::{FileStamp, FileTime, bits_for, lock_bits, sameness_number};
use dconf_verdicts::{
    NewEdit, Seen, Standing, answer_number, bring_number, entry_number, is_list_refused, is_news,
    is_there, name_synced, standing_numbers, told_code, verdict_number,
};
use dconf_waiting::{
    Failing, FaultSeen, Patience, Progress, Tally, Waiter, WaitingEdit, fate_number, found,
    is_same_fault, patience_for, put, settle,
};
use std::test::Fail;

/// An edit that sets a key which may be written, to what is there.
const SAME: NewEdit = NewEdit {
    sets: true,
    may: true,
    is_same: true,
    waits: false,
    is_alone: false,
    is_taken: false,
};

fn are_entered() -> bool {
    let renewing = NewEdit {
        waits: true,
        is_alone: true,
        ..SAME
    };
    let taken = NewEdit {
        is_taken: true,
        ..renewing
    };
    let other = NewEdit {
        is_same: false,
        ..SAME
    };
    let barred = NewEdit { may: false, ..SAME };
    let locked_reset = NewEdit {
        sets: false,
        ..barred
    };
    entry_number(&[other, barred]) == 0
        && entry_number(&[locked_reset]) == 1
        && entry_number(&[]) == 1
        && entry_number(&[renewing]) == 2
        && entry_number(&[SAME]) == 3
        && entry_number(&[renewing, locked_reset]) == 3
        && entry_number(&[taken]) == 3
        && entry_number(&[SAME, other]) == 4
        && is_news(other)
        && !is_news(SAME)
        && is_there(&[SAME, locked_reset])
        && !is_there(&[renewing])
        && !is_there(&[barred])
}

/// By the codes of the header: NOT_WRITABLE, LOCKED; BAD_PATH, BAD_VALUE; FILE; MEMORY, BUSY; FILE_TOO_LARGE; and by EACCES, EROFS, EMFILE,
/// ENOSPC, ENOENT.
fn are_dropped() -> bool {
    verdict_number(15, 0) == 1
        && verdict_number(16, 0) == 1
        && verdict_number(13, 9) == 2
        && verdict_number(20, 0) == 2
        && verdict_number(64, 13) == 4
        && verdict_number(64, 30) == 4
        && verdict_number(64, 24) == 6
        && verdict_number(64, 28) == 3
        && verdict_number(64, 2) == 3
        && verdict_number(1, 0) == 6
        && verdict_number(65, 0) == 3
        && verdict_number(18, 0) == 5
        && verdict_number(99, 0) == 3
}

/// ENOMEM, EOVERFLOW, EAGAIN, of a file and of the lock.
fn are_told() -> bool {
    told_code(false, 12) == 1
        && told_code(false, 75) == 18
        && told_code(false, 11) == 64
        && told_code(true, 12) == 1
        && told_code(true, 11) == 65
        && told_code(true, 2) == 64
        && is_list_refused(1)
        && !is_list_refused(64)
        && !is_list_refused(0)
}

/// A folder in another one; a file that can be read, and one that can't; and a file and its folder.
fn are_brought_to_the_disk() -> bool {
    bring_number(0, 0, 0, true) == 1
        && bring_number(0, 1, 0, true) == 2
        && bring_number(0, 2, 0, true) == 4
        && bring_number(0, 4, 0, true) == 5
        && bring_number(0, 1, 5, true) == 5
        && bring_number(1, 0, 0, true) == 3
        && bring_number(1, 3, 0, true) == 4
        && bring_number(1, 0, 0, false) == 4
        && bring_number(1, 4, 0, false) == 5
        && bring_number(2, 4, 0, true) == 1
        && bring_number(2, 1, 0, true) == 5
}

/// A file of root's, of 65,537 bytes, with one name.
const STOOD: Seen = Seen {
    fault: 0,
    mode: 0o100_600,
    user: 0,
    links: 1,
    size: 65_537,
    most: 65_537,
    tried: 0,
    may_map: false,
    may_stop: false,
    is_named: true,
    is_moved: false,
    is_root: true,
    may_make: true,
};

fn failed(purpose: u32, fault: u32) -> (u32, u32) {
    standing_numbers(purpose, &Seen { fault, ..STOOD })
}

fn of_mode(purpose: u32, mode: u32) -> (u32, u32) {
    standing_numbers(purpose, &Seen { mode, ..STOOD })
}

fn files_stand() -> bool {
    let shared = Seen { links: 2, ..STOOD };
    let moved = Seen {
        is_named: false,
        ..STOOD
    };
    let astray = Seen {
        is_moved: true,
        ..STOOD
    };
    let mapped = Seen {
        may_map: true,
        may_stop: true,
        ..STOOD
    };
    let large = Seen {
        most: 65_536,
        ..STOOD
    };
    let others = Seen { user: 7, ..STOOD };
    failed(0, 2) == (1, 0)
        && failed(0, 13) == (5, 13)
        && failed(1, 13) == (0, 0)
        && of_mode(1, 0o040_700) == (5, 21)
        && of_mode(2, 0o010_600) == (5, 22)
        && standing_numbers(2, &large) == (5, 75)
        && standing_numbers(2, &mapped) == (2, 0)
        && failed(3, 40) == (5, 22)
        && failed(3, 2) == (1, 0)
        && of_mode(3, 0o040_700) == (5, 22)
        && standing_numbers(4, &STOOD) == (0, 0)
        && standing_numbers(4, &shared) == (4, 0)
        && standing_numbers(4, &moved) == (1, 0)
        && standing_numbers(4, &astray) == (1, 0)
        && of_mode(5, 0o041_755) == (0, 0)
        && of_mode(5, 0o041_775) == (5, 13)
        && of_mode(5, 0o041_777) == (5, 13)
        && standing_numbers(5, &others) == (5, 13)
        && failed(6, 21) == (4, 0)
        && failed(7, 22) == (5, 95)
        && failed(8, 17) == (1, 0)
        && failed(9, 38) == (4, 0)
        && failed(10, 39) == (5, 17)
}

/// Of EEXIST, after so many names.
fn named_after(purpose: u32, tried: u64) -> (u32, u32) {
    let other = Seen {
        fault: 17,
        tried,
        is_named: false,
        ..STOOD
    };
    standing_numbers(purpose, &other)
}

fn names_stand() -> bool {
    failed(11, 17) == (0, 0)
        && named_after(11, 997) == (4, 0)
        && named_after(11, 998) == (5, 17)
        && failed(11, 1) == (5, 1)
        && failed(12, 17) == (4, 0)
        && named_after(12, 998) == (5, 17)
        && named_after(13, 98) == (4, 0)
        && named_after(13, 99) == (5, 17)
}

fn ways_stand() -> bool {
    let by_link = Seen {
        fault: 2,
        tried: 1,
        ..STOOD
    };
    let found = Seen {
        fault: 2,
        may_make: false,
        ..STOOD
    };
    let last = Seen { tried: 40, ..STOOD };
    let moved = Seen {
        is_named: false,
        ..STOOD
    };
    let users = Seen {
        user: 7,
        is_root: false,
        is_named: false,
        ..STOOD
    };
    let others = Seen { user: 7, ..STOOD };
    standing_numbers(5, &last) == (5, 40)
        && failed(14, 2) == (1, 0)
        && standing_numbers(14, &by_link) == (5, 2)
        && standing_numbers(14, &found) == (5, 2)
        && failed(14, 20) == (4, 0)
        && of_mode(15, 0o120_777) == (0, 0)
        && of_mode(15, 0o100_600) == (5, 20)
        && standing_numbers(16, &STOOD) == (0, 0)
        && standing_numbers(16, &others) == (4, 0)
        && standing_numbers(16, &users) == (0, 0)
        && standing_numbers(17, &STOOD) == (0, 0)
        && standing_numbers(17, &moved) == (4, 0)
        && failed(17, 13) == (4, 0)
        && standing_numbers(17, &users) == (0, 0)
        && failed(18, 0) == (0, 0)
        && failed(18, 13) == (1, 0)
        && failed(18, 22) == (1, 0)
        && failed(18, 30) == (1, 0)
        && failed(18, 5) == (5, 5)
        && matches!(name_synced(28), Standing::Fault(28))
}

fn the_newest_is_found() -> bool {
    let mut newest = [0, 0];
    put(&mut newest, 1, 1) == 0
        && put(&mut newest, 0, 2) == 0
        && put(&mut newest, 1, 3) == 1
        && put(&mut newest, 2, 4) == 0
        && found(&newest, 0) == 2
        && found(&newest, 1) == 3
        && found(&newest, 2) == 0
}

fn fates_are_told() -> bool {
    let tried = waiter(3, 1, 1);
    let untried = Waiter {
        is_tried: false,
        ..tried
    };
    let refused = Waiter {
        is_refused: true,
        ..tried
    };
    let there = Waiter {
        asks: true,
        is_there: true,
        ..untried
    };
    fate_number(false, &tried) == 0
        && fate_number(true, &tried) == 1
        && fate_number(true, &untried) == 0
        && fate_number(true, &refused) == 2
        && fate_number(false, &there) == 1
        && fate_number(false, &waiter(3, 1, 2)) == 3
}

/// A change that was tried, of one edit, and the newest edit of its key, which is alone. It was the set of that number.
fn waiter(change: usize, number: usize, newest: usize) -> Waiter {
    let alone = |number| WaitingEdit {
        number,
        is_alone: true,
    };
    Waiter {
        change,
        set: number as u64,
        edit: alone(number),
        newest: alone(newest),
        fate: 0,
        is_tried: true,
        is_refused: false,
        asks: false,
        is_there: false,
    }
}

/// Of four, in no order, the one that was set first is overtaken and the third refused: the others wait in the order in which they were set.
fn lines_are_put_in_order() -> bool {
    let refused = Waiter {
        is_refused: true,
        ..waiter(13, 3, 3)
    };
    let mut line = [
        waiter(14, 4, 4),
        refused,
        waiter(11, 1, 4),
        waiter(12, 2, 2),
    ];
    let mut tally = Tally {
        settled: 5,
        overtaken: 6,
    };
    settle(&mut line, false, &mut tally) == 2
        && line[0].change == 12
        && line[1].change == 14
        && line[2].change.wrapping_add(line[3].change) == 24
        && line[2].fate.wrapping_add(line[3].fate) == 5
        && tally.settled == 6
        && tally.overtaken == 7
        && settle(&mut line[..2], true, &mut tally) == 0
        && tally.settled == 15
        && tally.overtaken == 0
}

fn waits_end() -> bool {
    let progress = Progress {
        settled: 1,
        added: 2,
        failed: 0,
        tries: 3,
        moved: u64::MAX,
    };
    let done = Progress {
        settled: 2,
        ..progress
    };
    let failed = Progress {
        failed: 4,
        ..progress
    };
    let resting = Progress {
        moved: 5,
        ..progress
    };
    let mut patience = Patience {
        end: 0,
        each: 10_000_000,
        latest: 0,
        changed: FileTime {
            seconds: 0,
            nanoseconds: 0,
        },
    };
    let folder = patience.changed;
    let changed = FileTime {
        nanoseconds: 1,
        ..folder
    };
    let spans = patience_for(0) == 10_000_000
        && patience_for(1) == 5_000_000
        && patience_for(2) == 2_000_000
        && patience_for(3) == 500_000
        && patience_for(4) == 5_000;
    let begun = spans && patience.goes_on(&progress, folder, 5) && patience.end == 10_000_005;
    let same = patience.goes_on(&progress, folder, 6) && patience.end == 10_000_005;
    let renewed = patience.goes_on(&progress, changed, 58_000_000);
    begun
        && same
        && renewed
        && patience.end == 60_000_005
        && patience.goes_on(&progress, changed, 60_000_004)
        && !patience.goes_on(&progress, changed, 60_000_005)
        && !patience.goes_on(&done, changed, 6)
        && !patience.goes_on(&failed, changed, 6)
        && patience.goes_on(&resting, changed, 2_000_004)
        && !patience.goes_on(&resting, changed, 2_000_005)
}

/// A look has met a fault of a file, that is mostly so for a moment or not, or meets it no more.
fn looked_at(is_met: bool, is_momentary: bool, is_repeated: bool) -> FaultSeen {
    FaultSeen {
        is_met,
        is_of_look: false,
        has_looked: true,
        is_momentary,
        is_repeated,
    }
}

/// That a look failed is over by another look, and not by a write.
fn failed_looks_last() -> bool {
    let mut failing = Failing {
        since: 0,
        pause: 0,
        again: 0,
        due: 0,
        tries: 0,
        failed: 0,
        is_there: false,
        is_said: false,
    };
    let met = FaultSeen {
        is_of_look: true,
        ..looked_at(true, false, true)
    };
    let looked = FaultSeen {
        is_met: false,
        ..met
    };
    let written = FaultSeen {
        has_looked: false,
        ..looked
    };
    let of_file = FaultSeen {
        is_of_look: false,
        ..written
    };
    failing.met_looking(&met, 5) == 1
        && failing.met_looking(&written, 6) == 2
        && failing.met_looking(&looked, 7) == 3
        && failing.met_looking(&met, 8) == 1
        && failing.met_looking(&of_file, 9) == 3
}

/// What is said: 0 nothing, 1 the fault, 2 nothing, though it lasts, 3 that it is over.
fn faults_are_said() -> bool {
    let mut failing = Failing {
        since: 0,
        pause: 0,
        again: 0,
        due: 0,
        tries: 7,
        failed: 0,
        is_there: false,
        is_said: false,
    };
    let silent = failing.met(false, false, true, 4) == 0
        && failing.met(true, false, true, 5) == 0
        && failing.due == 1_500_005
        && failing.met(true, true, true, 9_000_005) == 0
        && failing.met(true, true, true, 10_000_004) == 0;
    let paused = failing.since == 5
        && failing.pause == 200_000
        && failing.again == 10_200_004
        && failing.due == 10_000_005
        && failing.wakes(false) == 10_200_004
        && failing.wakes(true) == 10_000_005
        && failing.failed == 0;
    let said = failing.met(true, true, true, 10_000_005) == 1
        && failing.failed == 7
        && failing.due == 0
        && failing.met(true, false, true, 10_000_006) == 2
        && failing.met(false, false, true, 10_000_007) == 3;
    silent
        && paused
        && said
        && failing.pause == 0
        && failing.tries == 7
        && failing.failed == 0
        && failing.met(true, false, false, 9) == 1
        && failing.met(true, false, true, 10) == 0
        && failing.met(false, false, true, 11) == 3
        && failing.met_looking(&looked_at(true, true, true), 12) == 0
        && failing.met_looking(&looked_at(true, false, true), 13) == 1
        && failing.met_looking(&looked_at(false, false, true), 14) == 3
        && failing.met_looking(&looked_at(true, true, false), 15) == 1
        && is_same_fault("user: closed".as_bytes(), "user: closed".as_bytes())
        && !is_same_fault("user: closed".as_bytes(), "user: cloned".as_bytes())
        && !is_same_fault("user".as_bytes(), "user: closed".as_bytes())
}

/// The calls, by their numbers.
const OPEN: u32 = 0;

const LOCK: u32 = 1;

const SET_ASIDE: u32 = 2;

const PLACE: u32 = 3;

/// By EAGAIN, EROFS, EINTR, EPERM, ENOENT, EIO, one that nobody knows, and EOPNOTSUPP.
fn are_answered() -> bool {
    answer_number(OPEN, 11) == 3
        && answer_number(OPEN, 30) == 2
        && answer_number(LOCK, 11) == 4
        && answer_number(LOCK, 4) == 1
        && answer_number(SET_ASIDE, 1) == 5
        && answer_number(SET_ASIDE, 2) == 6
        && answer_number(PLACE, 5) == 7
        && answer_number(PLACE, 77) == 7
        && answer_number(PLACE, 95) == 2
        && answer_number(PLACE, 30) == 0
}

/// A file that changed when a second had passed for so many nanoseconds.
fn stamp(nanoseconds: u64) -> FileStamp {
    let time = FileTime {
        seconds: 1,
        nanoseconds,
    };
    FileStamp {
        device: 1,
        inode: 2,
        size: 3,
        written: time,
        touched: time,
        is_there: true,
    }
}

/// Ten milliseconds and two seconds after their times; and of a file that is held.
fn are_told_apart() -> bool {
    let other = FileStamp {
        size: 4,
        ..stamp(7)
    };
    let given = FileStamp {
        touched: FileTime {
            seconds: 5,
            nanoseconds: 7,
        },
        ..stamp(7)
    };
    sameness_number(&stamp(7), &stamp(7), 1_010_000_007, false) == 0
        && sameness_number(&stamp(7), &stamp(7), 1_010_000_006, false) == 2
        && sameness_number(&stamp(0), &stamp(0), 2_999_999_999, false) == 2
        && sameness_number(&stamp(0), &stamp(0), 3_000_000_000, false) == 0
        && sameness_number(&stamp(7), &given, u64::MAX, false) == 1
        && sameness_number(&stamp(7), &given, 0, true) == 0
        && sameness_number(&stamp(7), &other, 0, true) == 1
}

/// The bits of files and of locks.
fn are_open_to_nobody_more() -> bool {
    bits_for(0o664, true) == 0o664
        && bits_for(0o664, false) == 0o644
        && bits_for(0o604, false) == 0o600
        && bits_for(0o100_640, true) == 0o640
        && lock_bits(0o755, true) == 0o600
        && lock_bits(0o775, true) == 0o660
        && lock_bits(0o775, false) == 0o600
        && lock_bits(0o757, true) == 0o606
        && lock_bits(0o40_777, false) == 0o666
}

#[test]
fn files_are_told_apart(rt: HostRuntime) -> Result<(), Fail> {
    assert!(rt; are_told_apart() && are_open_to_nobody_more());
    Ok(())
}

#[test]
fn changes_and_faults_are_judged(rt: HostRuntime) -> Result<(), Fail> {
    assert!(rt; are_entered() && are_dropped() && are_told() && are_answered());
    assert!(rt; are_brought_to_the_disk() && files_stand() && names_stand() && ways_stand());
    Ok(())
}

#[test]
fn changes_wait(rt: HostRuntime) -> Result<(), Fail> {
    assert!(rt;
        the_newest_is_found()
            && fates_are_told()
            && lines_are_put_in_order()
            && waits_end()
            && faults_are_said()
            && failed_looks_last()
    );
    Ok(())
}
