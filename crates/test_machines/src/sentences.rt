//! What a program is told of a fault, how a file gets its names, what is asked of a change's notes, and what of a batch is told.
use dconf_files::{FileOwner, NewOwner, OldFile};
use dconf_making::{
    FaultMet, Making, NewLook, Sentence, SettlingKnown, StoreKnown, new_look, number_of_settling,
    renamed_of, says_number, says_of, sentence_of,
};
use dconf_steps::QueuedEdit;
use dconf_waiting::BatchRecord;
use std::test::Fail;

const OF_FILE: FaultMet = FaultMet {
    of: 0,
    number: 13,
    told: 0,
    outcome: 0,
    wait: 10000,
    looked: 0,
    asked: 0,
    is_there: true,
    has_user: true,
    has_text: true,
    has_line: false,
    has_rule: false,
    has_item: false,
    has_edit: false,
    is_given: false,
};

fn says(met: &FaultMet) -> u32 {
    says_number(says_of(met))
}

fn is_named(met: &FaultMet, code: u32, errno: u32, names: u32) -> bool {
    let Sentence {
        code: is,
        errno: of,
        names: named,
        ..
    } = sentence_of(met);
    is == code && of == errno && named == names
}

fn are_said() -> bool {
    let memory = FaultMet {
        number: 12,
        ..OF_FILE
    };
    let lock = FaultMet { of: 1, ..OF_FILE };
    let busy = FaultMet { number: 11, ..lock };
    let soon = FaultMet { wait: 7, ..busy };
    let homeless = FaultMet {
        is_there: false,
        has_user: false,
        ..lock
    };
    let call = FaultMet {
        of: 2,
        number: 7,
        ..OF_FILE
    };
    let ended = FaultMet {
        of: 3,
        told: 3,
        outcome: 2,
        ..OF_FILE
    };
    says(&OF_FILE) == 4
        && says(&memory) == 2
        && says(&busy) == 6
        && says(&soon) == 7
        && says(&FaultMet { number: 22, ..lock }) == 5
        && says(&call) == 13
        && says(&FaultMet {
            has_rule: true,
            ..call
        }) == 15
        && says(&ended) == 8
        && is_named(&OF_FILE, 64, 13, 0)
        && is_named(&lock, 64, 13, 1)
        && is_named(&busy, 65, 0, 0)
        && is_named(&homeless, 64, 13, 2)
        && is_named(&FaultMet { told: 2, ..ended }, 64, 5, 0)
        && sentence_of(&ended).outcome == 2
        && !sentence_of(&memory).is_placed
}

/// Whether it is told where it is.
fn has_place(of: u32, number: u32) -> bool {
    sentence_of(&FaultMet {
        of,
        number,
        ..OF_FILE
    })
    .is_placed
}

/// Of the machine's file, that it has a line, if it could be read.
fn are_placed() -> bool {
    has_place(0, 13) && has_place(6, 0) && !has_place(6, 13) && !has_place(6, 75)
}

fn is_said_so(of: u32, number: u32, says: u32, code: u32) -> bool {
    let met = FaultMet {
        of,
        number,
        ..OF_FILE
    };
    let sentence = sentence_of(&met);
    sentence.says == says && sentence.code == code
}

/// Of a store that is looked for, and of a text that is read.
fn are_sought() -> bool {
    is_said_so(5, 0, 17, 66)
        && is_said_so(5, 13, 4, 64)
        && is_said_so(6, 0, 18, 9)
        && is_said_so(6, 75, 3, 18)
        && is_said_so(7, 8, 19, 8)
        && is_said_so(7, 17, 20, 17)
        && is_said_so(7, 19, 21, 19)
        && is_said_so(7, 35, 23, 21)
        && is_said_so(7, 36, 22, 21)
}

/// Of a store's folder, which is given, is in the user's home, or is named by the environment.
fn are_folders_named() -> bool {
    let named = FaultMet { of: 5, ..OF_FILE };
    let home = FaultMet { asked: 2, ..named };
    let given = FaultMet {
        is_given: true,
        ..home
    };
    is_named(&named, 64, 13, 5) && is_named(&home, 64, 13, 4) && is_named(&given, 64, 13, 0)
}

/// What nobody noted is brought to the disk, or, if it can't be read, its name is.
fn are_settled() -> bool {
    let unread = SettlingKnown {
        errnum: 13,
        has_file: true,
        is_known: false,
        is_unsynced: false,
        is_in_turn: false,
        asks_only: false,
    };
    let read = SettlingKnown {
        errnum: 0,
        ..unread
    };
    let in_turn = SettlingKnown {
        is_in_turn: true,
        ..read
    };
    number_of_settling(0, true, &read) == 1
        && number_of_settling(1, true, &read) == 5
        && number_of_settling(1, false, &read) == 2
        && number_of_settling(1, false, &unread) == 3
        && number_of_settling(2, true, &read) == 4
        && number_of_settling(3, true, &in_turn) == 5
        && number_of_settling(3, false, &in_turn) == 7
        && number_of_settling(4, false, &read) == 6
}

/// Of what was expected to be seen.
fn are_expected() -> bool {
    let changed = FaultMet {
        of: 8,
        number: 0,
        ..OF_FILE
    };
    is_said_so(8, 0, 24, 67) && is_said_so(8, 1, 2, 1) && is_named(&changed, 67, 0, 3)
}

fn are_named() -> bool {
    let edits = FaultMet {
        of: 4,
        number: 16,
        ..OF_FILE
    };
    let homeless = FaultMet {
        has_user: false,
        ..edits
    };
    let one = FaultMet {
        has_edit: true,
        ..homeless
    };
    let ended = FaultMet {
        of: 3,
        told: 5,
        ..homeless
    };
    is_named(&edits, 16, 0, 0)
        && is_named(&homeless, 16, 0, 2)
        && is_named(&one, 16, 0, 3)
        && is_named(&ended, 64, 16, 2)
}

/// A look finds the file of a change that was perhaps made.
fn own_changes_are_known() -> bool {
    let none = StoreKnown {
        noted: 0,
        has_news: false,
        has_seen: false,
        has_tried: false,
        is_unsettled: false,
        is_made: false,
    };
    let tried = none.after_number(4, true, 2, &none);
    let made = tried.after_number(6, true, 0, &none);
    made.has_tried
        && made.is_made
        && !tried.after_number(6, false, 0, &none).is_made
        && !none.after_number(6, true, 0, &none).is_made
        && !made.after_number(0, true, 0, &none).is_made
}

/// By EPERM, ENOENT and EIO: what has the name can have no other one, nothing has it, and nobody knows which file has.
fn are_renamed() -> bool {
    let (nameless, none, failed) = (
        renamed_of(false, 1),
        renamed_of(false, 2),
        renamed_of(false, 5),
    );
    nameless.is_nameless
        && nameless.fault == 0
        && none.fault == 0
        && !none.is_aside
        && failed.fault == 5
        && renamed_of(false, 0).is_aside
        && renamed_of(true, 95).goes
        && !renamed_of(true, 5).goes
        && renamed_of(true, 0).is_aside
}

const LINK: OldFile = OldFile {
    user: 3,
    group: 4,
    bits: 0o640,
    is_there: true,
    is_regular: true,
    is_link: true,
    is_read: true,
};

const ABOVE: FileOwner = FileOwner { user: 1, group: 2 };

fn bits_of(look: NewLook) -> u32 {
    match look {
        NewLook::Is(NewOwner::Given(new)) => new.bits,
        _ => 0,
    }
}

fn are_looked_at() -> bool {
    let file = OldFile {
        is_link: false,
        ..LINK
    };
    matches!(new_look(&LINK, ABOVE, false, false), NewLook::Follow)
        && bits_of(new_look(&LINK, ABOVE, false, true)) == 512 + 0o640
        && bits_of(new_look(&file, ABOVE, false, false)) == 0o640
}

fn are_noted() -> bool {
    let making = Making {
        makes_file: true,
        is_unsettled: false,
        is_expected: false,
    };
    let expected = Making {
        is_expected: true,
        ..making
    };
    making.after_number(8, 0) == 1
        && expected.after_number(8, 0) == 0
        && making.after_number(9, 0) == 10
        && making.after_number(9, 1) == 11
        && making.after_number(10, 1) == 13
        && making.after_number(11, 0) == 12
}

/// Of two changes the second one is at fault.
fn are_told() -> bool {
    let set = QueuedEdit {
        change: 0,
        sets: true,
        is_left_out: true,
        is_refused: false,
    };
    let other = QueuedEdit {
        change: 1,
        is_left_out: false,
        ..set
    };
    let mut edits = [set, other];
    let mut batch = BatchRecord::begin(&mut edits);
    let passed = !batch.answered(&mut edits, 0, 0) && !batch.answered(&mut edits, 0, 0);
    let is_kept = batch.answered(&mut edits, 2, 0);
    let marked = edits[1].is_refused && !edits[0].is_refused;
    let went = !batch.answered(&mut edits, 0, 0) && !batch.answered(&mut edits, 0, 0);
    let step = batch.next(&edits, false);
    passed && is_kept && marked && went && step.tells && step.next.kind == 4
}

#[test]
fn faults_are_told(rt: HostRuntime) -> Result<(), Fail> {
    assert!(rt; are_said() && are_renamed() && are_looked_at() && are_noted() && are_told());
    assert!(rt; are_sought() && are_expected() && are_named() && own_changes_are_known());
    assert!(rt; are_folders_named() && are_settled());
    Ok(())
}
