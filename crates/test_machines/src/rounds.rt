//! What is done in turn by who writes what waits, by who has it written, or ends, or wants to know that it is on the disk, and by who looks at
//! the files.
use dconf_rounds::{
    GlanceKnown, Known, SyncKnown, TellKnown, WriterKnown, WritingKnown, asks_context,
    glance_number, handed_number, has_looked_since, has_work, is_at_work, is_open, passes_over,
    priority, sync_number, task_number, telling_number, writer_number,
};
use dconf_seen::Known as SeenKey;
use std::test::Fail;

/// Nothing is due.
const IDLE: Known = Known {
    again: 0,
    moment: 9,
    failed: 0,
    last_try: 0,
    ends: false,
    is_let_go: false,
    waits: false,
    is_in_line: false,
    has_asked: false,
    has_untold: false,
    has_turned: false,
    is_asked: false,
    asks: false,
    is_watched: true,
    is_others: false,
};

fn tasks_are_due() -> bool {
    let busy = Known {
        waits: true,
        has_untold: true,
        has_turned: true,
        asks: true,
        ..IDLE
    };
    let later = Known {
        again: 10,
        waits: true,
        ..IDLE
    };
    let in_line = Known {
        is_in_line: true,
        ..later
    };
    let asked = Known {
        is_asked: true,
        is_watched: false,
        ..later
    };
    let turn = Known {
        has_asked: true,
        ..busy
    };
    let others = Known {
        is_others: true,
        is_in_line: true,
        ..turn
    };
    let settled = Known { again: 10, ..IDLE };
    task_number(0, &IDLE) == 7
        && task_number(0, &busy) == 1
        && task_number(1, &busy) == 2
        && task_number(2, &busy) == 3
        && task_number(3, &busy) == 4
        && task_number(4, &busy) == 7
        && task_number(4, &turn) == 5
        && task_number(4, &others) == 7
        && task_number(0, &later) == 7
        && task_number(0, &in_line) == 4
        && task_number(0, &asked) == 3
        && task_number(0, &settled) == 6
        && task_number(6, &settled) == 7
}

fn threads_end() -> bool {
    let ending = Known {
        ends: true,
        has_turned: true,
        ..IDLE
    };
    let waiting = Known {
        waits: true,
        ..ending
    };
    let failed = Known {
        failed: 3,
        last_try: 2,
        ..waiting
    };
    let line = Known {
        is_in_line: true,
        ..ending
    };
    let left = Known {
        is_let_go: true,
        ..line
    };
    task_number(0, &ending) == 8
        && task_number(0, &waiting) == 4
        && task_number(4, &waiting) == 7
        && task_number(4, &failed) == 9
        && task_number(6, &line) == 8
        && task_number(6, &left) == 7
}

fn syncs_are_answered() -> bool {
    let alone = SyncKnown {
        has_writer: false,
        has_failed: true,
        has_store: true,
        has_looked: false,
        is_to_settle: false,
    };
    let asking = SyncKnown {
        has_writer: true,
        ..alone
    };
    let beside = SyncKnown {
        has_failed: false,
        ..asking
    };
    let settling = SyncKnown {
        has_looked: true,
        is_to_settle: true,
        ..beside
    };
    sync_number(0, true, &alone) == 2
        && sync_number(0, true, &asking) == 1
        && sync_number(1, true, &asking) == 3
        && sync_number(0, true, &beside) == 3
        && sync_number(2, false, &alone) == 3
        && sync_number(3, false, &beside) == 8
        && sync_number(3, true, &beside) == 4
        && sync_number(4, false, &beside) == 8
        && sync_number(4, true, &beside) == 5
        && sync_number(5, false, &beside) == 7
        && sync_number(4, true, &settling) == 6
        && sync_number(6, false, &settling) == 8
        && sync_number(6, true, &settling) == 7
}

fn looks_end() -> bool {
    let same = GlanceKnown {
        first: 0,
        second: 0,
        is_open: true,
        keeps_profile: false,
        is_done: true,
        is_shown: true,
        is_other: false,
        waits: true,
        has_same_files: true,
        is_barred: false,
        is_amid: false,
        is_late: false,
        is_to_settle: false,
        was_unseen: false,
        is_unseen: false,
        is_reading: false,
        is_first: false,
    };
    let hidden = GlanceKnown {
        is_unseen: true,
        ..same
    };
    let found = GlanceKnown {
        was_unseen: true,
        ..same
    };
    let barred = GlanceKnown {
        is_barred: true,
        is_shown: false,
        ..same
    };
    let amid = GlanceKnown {
        is_amid: true,
        ..barred
    };
    let late = GlanceKnown {
        is_late: true,
        ..barred
    };
    let reading = GlanceKnown {
        is_reading: true,
        ..barred
    };
    let beside = GlanceKnown {
        is_reading: true,
        ..amid
    };
    let free = GlanceKnown {
        is_reading: true,
        ..same
    };
    let settling = GlanceKnown {
        is_to_settle: true,
        ..same
    };
    let unsure = GlanceKnown { second: 2, ..same };
    let other = GlanceKnown { first: 1, ..unsure };
    let shut = GlanceKnown {
        is_open: false,
        ..same
    };
    let kept = GlanceKnown {
        keeps_profile: true,
        ..other
    };
    let unread = GlanceKnown {
        is_open: false,
        ..kept
    };
    let failed = GlanceKnown {
        is_done: false,
        is_to_settle: true,
        ..other
    };
    let changed = GlanceKnown {
        is_shown: false,
        is_other: true,
        ..same
    };
    let bare = GlanceKnown {
        is_first: true,
        ..changed
    };
    glance_number(0, &same) == 1
        && glance_number(4, &bare) == 9
        && glance_number(0, &hidden) == 3
        && glance_number(0, &found) == 3
        && glance_number(0, &unsure) == 3
        && glance_number(0, &other) == 2
        && glance_number(0, &shut) == 2
        && glance_number(0, &kept) == 1
        && glance_number(5, &kept) == 9
        && glance_number(0, &unread) == 2
        && glance_number(1, &same) == 9
        && glance_number(1, &changed) == 4
        && glance_number(4, &changed) == 5
        && glance_number(5, &changed) == 9
        && glance_number(3, &unsure) == 4
        && glance_number(4, &unsure) == 9
        && glance_number(4, &other) == 6
        && glance_number(2, &failed) == 4
        && glance_number(4, &failed) == 10
        && glance_number(6, &settling) == 7
        && glance_number(7, &settling) == 9
        && glance_number(0, &barred) == 8
        && glance_number(8, &late) == 10
        && glance_number(8, &amid) == 4
        && glance_number(4, &amid) == 9
        && glance_number(0, &reading) == 10
        && glance_number(0, &beside) == 4
        && glance_number(4, &beside) == 9
        && glance_number(0, &free) == 1
}

fn notices_are_told() -> bool {
    let heard = TellKnown {
        taken: 254,
        list: 0,
        is_first: false,
        ends: false,
        is_other: true,
        has_edits: false,
        is_found: true,
        has_path: true,
        is_listened: true,
        is_between: false,
        has_rights: true,
        is_of_files: false,
        has_faults: true,
        is_unseen: false,
    };
    let full = TellKnown {
        taken: 255,
        ..heard
    };
    let edited = TellKnown {
        is_other: false,
        has_edits: true,
        ..heard
    };
    let same = TellKnown {
        is_other: false,
        ..heard
    };
    let first = TellKnown {
        is_first: true,
        ..heard
    };
    let ending = TellKnown {
        ends: true,
        ..heard
    };
    let lost = TellKnown {
        is_found: false,
        ..heard
    };
    let unheard = TellKnown {
        is_listened: false,
        ..heard
    };
    let last = TellKnown {
        has_path: false,
        ..heard
    };
    let none = TellKnown { taken: 0, ..last };
    telling_number(&heard) == 1
        && telling_number(&full) == 2
        && telling_number(&edited) == 1
        && telling_number(&same) == 0
        && telling_number(&first) == 0
        && telling_number(&ending) == 0
        && telling_number(&lost) == 4
        && telling_number(&unheard) == 0
        && telling_number(&last) == 3
        && telling_number(&none) == 0
}

fn what_is_handed_out_is_told() -> bool {
    handed_number(false, true) == 0
        && handed_number(true, false) == 1
        && handed_number(true, true) == 2
        && asks_context(false, false)
        && !asks_context(false, true)
        && !asks_context(true, false)
        && priority(true) == 110
        && priority(false) == 0
        && has_looked_since(1, 2)
        && !has_looked_since(2, 2)
        && !has_looked_since(2, 1)
}

fn rights_are_told_before_values() -> bool {
    let first = TellKnown {
        taken: 0,
        list: 0,
        is_first: false,
        ends: false,
        is_other: true,
        has_edits: false,
        is_found: false,
        has_path: false,
        is_listened: false,
        is_between: true,
        has_rights: true,
        is_of_files: false,
        has_faults: false,
        is_unseen: false,
    };
    let next = TellKnown { list: 6, ..first };
    let last = TellKnown { list: 7, ..first };
    let without = TellKnown {
        has_rights: false,
        ..first
    };
    let silent = TellKnown {
        is_other: false,
        ..first
    };
    let unseen = TellKnown {
        is_unseen: true,
        ..first
    };
    let of_files = TellKnown {
        is_of_files: true,
        ..first
    };
    let seen = TellKnown {
        list: 5,
        ..of_files
    };
    telling_number(&first) == 6
        && telling_number(&next) == 7
        && telling_number(&last) == 10
        && telling_number(&without) == 7
        && telling_number(&silent) == 10
        && telling_number(&unseen) == 10
        && telling_number(&of_files) == 5
        && telling_number(&seen) == 6
}

fn faults_are_told_at_last() -> bool {
    let silent = TellKnown {
        taken: 0,
        list: 0,
        is_first: true,
        ends: false,
        is_other: true,
        has_edits: false,
        is_found: false,
        has_path: false,
        is_listened: false,
        is_between: true,
        has_rights: true,
        is_of_files: true,
        has_faults: true,
        is_unseen: false,
    };
    let ending = TellKnown {
        ends: true,
        ..silent
    };
    let told = TellKnown {
        list: 7,
        is_first: false,
        ..silent
    };
    let warned = TellKnown { list: 8, ..told };
    let printed = TellKnown { list: 9, ..ending };
    telling_number(&silent) == 8
        && telling_number(&ending) == 9
        && telling_number(&told) == 8
        && telling_number(&warned) == 10
        && telling_number(&printed) == 10
}

/// A process that has begun nothing yet.
const NOBODY: WriterKnown = WriterKnown {
    settled: 3,
    added: 3,
    begun_in: 7,
    process: 7,
    sync: SyncKnown {
        has_writer: true,
        has_failed: false,
        has_store: true,
        has_looked: false,
        is_to_settle: false,
    },
    has_ended: false,
    has_thread: false,
    has_wake: true,
    has_line: false,
    is_wanted: true,
    is_news: true,
    adds: false,
    waits: false,
    is_owed: true,
    listens: false,
    has_turned: false,
    exits: false,
    is_thread: false,
    is_let_go: false,
};

fn threads_are_begun_and_woken() -> bool {
    let deaf = WriterKnown {
        has_wake: false,
        ..NOBODY
    };
    let child = WriterKnown {
        process: 8,
        ..NOBODY
    };
    let begun = WriterKnown {
        has_thread: true,
        ..NOBODY
    };
    let awake = WriterKnown {
        is_news: false,
        ..begun
    };
    let ended = WriterKnown {
        has_ended: true,
        ..begun
    };
    let hears = WriterKnown {
        is_wanted: false,
        is_news: false,
        is_owed: false,
        listens: true,
        ..NOBODY
    };
    let quiet = WriterKnown {
        has_thread: true,
        ..hears
    };
    let turned = WriterKnown {
        has_turned: true,
        ..quiet
    };
    let first = WriterKnown {
        adds: true,
        ..awake
    };
    let behind = WriterKnown {
        waits: true,
        ..first
    };
    let lost = WriterKnown {
        process: 8,
        ..first
    };
    writer_number(0, 0, true, &first) == 3
        && writer_number(0, 0, true, &behind) == 5
        && writer_number(0, 0, true, &lost) == 4
        && writer_number(0, 0, true, &hears) == 2
        && writer_number(0, 0, true, &quiet) == 5
        && writer_number(0, 0, true, &turned) == 3
        && writer_number(0, 0, true, &deaf) == 1
        && writer_number(0, 0, true, &NOBODY) == 2
        && writer_number(0, 1, true, &deaf) == 4
        && writer_number(0, 0, true, &child) == 4
        && writer_number(0, 0, true, &begun) == 3
        && writer_number(0, 3, true, &begun) == 5
        && writer_number(0, 0, true, &awake) == 5
        && writer_number(0, 0, true, &ended) == 4
        && writer_number(0, 4, true, &ended) == 5
}

fn turns_are_come_to() -> bool {
    let thread = WriterKnown {
        is_thread: true,
        ..NOBODY
    };
    let in_line = WriterKnown {
        has_line: true,
        ..thread
    };
    writer_number(1, 0, true, &thread) == 1
        && writer_number(1, 1, true, &thread) == 5
        && writer_number(1, 1, false, &thread) == 2
        && writer_number(1, 2, false, &thread) == 7
        && writer_number(1, 2, true, &thread) == 3
        && writer_number(1, 0, true, &in_line) == 3
        && writer_number(1, 3, true, &in_line) == 5
        && writer_number(1, 3, false, &in_line) == 6
        && writer_number(1, 0, true, &NOBODY) == 4
        && writer_number(1, 4, true, &NOBODY) == 5
        && writer_number(1, 4, false, &NOBODY) == 7
}

fn ends_are_waited_for() -> bool {
    let exits = WriterKnown {
        exits: true,
        has_thread: true,
        ..NOBODY
    };
    let child = WriterKnown {
        process: 8,
        ..exits
    };
    let itself = WriterKnown {
        is_thread: true,
        ..exits
    };
    let gone = WriterKnown {
        is_let_go: true,
        ..exits
    };
    writer_number(2, 0, true, &exits) == 1
        && writer_number(2, 0, true, &child) == 11
        && writer_number(2, 1, false, &exits) == 8
        && writer_number(2, 1, true, &exits) == 3
        && writer_number(2, 1, true, &itself) == 2
        && writer_number(2, 1, true, &gone) == 4
        && writer_number(2, 3, true, &exits) == 8
}

fn what_waits_is_told_at_the_end() -> bool {
    let held = WriterKnown {
        has_thread: true,
        ..NOBODY
    };
    let left = WriterKnown {
        is_thread: true,
        ..held
    };
    let waits = WriterKnown { added: 4, ..NOBODY };
    let child = WriterKnown {
        process: 8,
        ..waits
    };
    writer_number(2, 1, true, &held) == 5
        && writer_number(2, 5, false, &held) == 6
        && writer_number(2, 6, true, &held) == 12
        && writer_number(2, 5, true, &held) == 7
        && writer_number(2, 7, true, &held) == 8
        && writer_number(2, 1, true, &left) == 6
        && writer_number(2, 1, true, &NOBODY) == 8
        && writer_number(2, 8, true, &NOBODY) == 11
        && writer_number(2, 8, false, &NOBODY) == 10
        && writer_number(2, 8, true, &waits) == 9
        && writer_number(2, 9, true, &waits) == 11
        && writer_number(3, 3, false, &NOBODY) == 4
        && writer_number(3, 3, true, &waits) == 8
        && writer_number(3, 0, true, &child) == 7
}

/// What is stored is of another type, or an edit that waits and may be made is.
fn odd_keys_are_known() -> bool {
    let stored = SeenKey {
        waits: false,
        sets: true,
        writable: true,
        may_write: true,
        edit_fits: true,
        stored_fits: true,
    };
    let other = SeenKey {
        stored_fits: false,
        ..stored
    };
    let edited = SeenKey {
        waits: true,
        ..other
    };
    let odd = SeenKey {
        edit_fits: false,
        ..edited
    };
    let locked = SeenKey {
        may_write: false,
        ..odd
    };
    !passes_over(false, false, &stored)
        && passes_over(false, false, &other)
        && !passes_over(false, false, &edited)
        && passes_over(false, false, &odd)
        && passes_over(false, false, &locked)
        && !passes_over(true, false, &odd)
        && !passes_over(false, true, &other)
}

fn work_is_known() -> bool {
    let again = Known { again: 10, ..IDLE };
    let waits = Known {
        waits: true,
        ..IDLE
    };
    let line = Known {
        is_in_line: true,
        ..IDLE
    };
    is_at_work(false, 7, 7)
        && !is_at_work(true, 7, 7)
        && !is_at_work(false, 7, 8)
        && has_work(&again)
        && has_work(&waits)
        && has_work(&line)
        && !has_work(&IDLE)
}

fn who_may_write_is_known() -> bool {
    let open = WritingKnown {
        begun_in: 7,
        process: 7,
        has_ended: false,
        has_user: true,
        is_closed: false,
        writes: false,
    };
    let userless = WritingKnown {
        has_user: false,
        ..open
    };
    let child = WritingKnown { process: 8, ..open };
    let ended = WritingKnown {
        has_ended: true,
        ..open
    };
    is_open(&open) && !is_open(&userless) && !is_open(&child) && !is_open(&ended)
}

fn who_writes_knows_what_is_closed() -> bool {
    let writes = WritingKnown {
        begun_in: 0,
        process: 0,
        has_ended: true,
        has_user: true,
        is_closed: false,
        writes: true,
    };
    let closed = WritingKnown {
        is_closed: true,
        ..writes
    };
    let userless = WritingKnown {
        has_user: false,
        ..writes
    };
    is_open(&writes) && !is_open(&closed) && !is_open(&userless)
}

#[test]
fn tasks_come_in_their_order(rt: HostRuntime) -> Result<(), Fail> {
    assert!(rt; tasks_are_due() && threads_end() && syncs_are_answered() && looks_end());
    assert!(rt;
        notices_are_told()
            && what_is_handed_out_is_told()
            && odd_keys_are_known()
            && work_is_known()
            && who_may_write_is_known()
    );
    assert!(rt; who_writes_knows_what_is_closed());
    Ok(())
}

#[test]
fn what_waits_is_written_or_told(rt: HostRuntime) -> Result<(), Fail> {
    assert!(rt;
        rights_are_told_before_values() && faults_are_told_at_last() && turns_are_come_to()
    );
    assert!(rt;
        threads_are_begun_and_woken() && ends_are_waited_for() && what_waits_is_told_at_the_end()
    );
    Ok(())
}
