//! How a lock is taken, and how what was made becomes whose it is to be.
use dconf_files::{MadeFile, NewFile, handing_numbers};
use dconf_verdicts::Seen;
use dconf_waits::TakingRecord;
use std::test::Fail;

const MISSING: u32 = 2;

const BUSY: u32 = 11;

const TAKEN: u32 = 17;

const FULL: u32 = 28;

/// A lock's file, with its name and no other.
const FILE: Seen = Seen {
    fault: 0,
    mode: 0o100_600,
    user: 0,
    links: 1,
    size: 0,
    most: 0,
    tried: 0,
    may_map: false,
    may_stop: false,
    is_named: true,
    is_moved: false,
    is_root: false,
    may_make: true,
};

/// The tasks that come, and what is told at last, by these answers.
fn goes(mut taking: TakingRecord, steps: &[(u32, Seen)], end: (u32, u32, u32)) -> bool {
    taking.answered(&FILE);
    for (task, seen) in steps {
        if taking.task != *task {
            return false;
        }
        taking.answered(seen);
    }
    (taking.task, taking.tried, taking.fault) == end
}

fn failed(fault: u32) -> Seen {
    Seen { fault, ..FILE }
}

fn locks_are_taken() -> bool {
    let moved = Seen {
        is_named: false,
        ..FILE
    };
    let shared = Seen { links: 2, ..FILE };
    let had = [(1, FILE), (3, FILE), (8, FILE), (9, FILE), (10, FILE)];
    let busy = [(1, FILE), (3, FILE), (8, FILE), (9, failed(BUSY))];
    let made = [(1, failed(MISSING)), (2, FILE), (1, failed(MISSING))];
    let again = [
        (1, FILE),
        (3, FILE),
        (8, FILE),
        (9, FILE),
        (10, shared),
        (11, FILE),
        (1, FILE),
        (3, FILE),
        (8, FILE),
        (9, FILE),
        (10, moved),
    ];
    let heeded = [(1, failed(BUSY)), (12, FILE), (1, FILE), (3, failed(FULL))];
    goes(TakingRecord::new(), &had, (13, 1, 0))
        && goes(TakingRecord::new(), &heeded, (15, 3, FULL))
        && goes(TakingRecord::new(), &busy, (14, 1, BUSY))
        && goes(TakingRecord::new(), &made, (15, 3, MISSING))
        && goes(TakingRecord::new(), &again, (15, 2, 0))
}

/// What others may take is made without its name first, and nothing is made in a folder whose name isn't on the disk.
fn locks_are_made() -> bool {
    let open = Seen {
        mode: 0o040_775,
        ..FILE
    };
    let theirs = Seen {
        mode: 0o040_700,
        user: 7,
        is_root: true,
        ..FILE
    };
    let own = Seen {
        mode: 0o040_700,
        ..FILE
    };
    let full = [
        (1, FILE),
        (3, failed(MISSING)),
        (4, open),
        (5, failed(95)),
        (6, failed(95)),
        (7, failed(FULL)),
    ];
    let other = [
        (1, FILE),
        (3, failed(MISSING)),
        (4, theirs),
        (5, failed(TAKEN)),
        (3, failed(MISSING)),
        (4, own),
        (7, failed(FULL)),
    ];
    let unnamed = [(1, FILE), (3, failed(MISSING)), (4, failed(FULL))];
    goes(TakingRecord::new(), &full, (15, 3, FULL))
        && goes(TakingRecord::new(), &other, (15, 3, FULL))
        && goes(TakingRecord::new(), &unnamed, (15, 3, FULL))
}

/// Who may make nothing takes the lock that is there, or none.
fn nothing_is_made_unasked() -> bool {
    let there = Seen {
        may_make: false,
        ..FILE
    };
    let missing = Seen {
        fault: MISSING,
        ..there
    };
    let linked = Seen {
        mode: 0o120_777,
        ..there
    };
    let had = [(1, there), (3, there), (8, there), (9, there), (10, there)];
    goes(TakingRecord::new(), &had, (13, 1, 0))
        && goes(TakingRecord::new(), &[(1, missing)], (15, 3, MISSING))
        && goes(
            TakingRecord::new(),
            &[(1, failed(BUSY)), (12, FILE), (1, missing)],
            (15, 3, MISSING),
        )
        && goes(
            TakingRecord::new(),
            &[(1, there), (3, missing)],
            (15, 3, MISSING),
        )
        && goes(TakingRecord::new(), &[(1, there), (3, linked)], (15, 3, 22))
}

/// The tenth fork is one more than may be; after each before it there is a pause.
fn forks_are_minded() -> bool {
    let mut taking = TakingRecord::new();
    taking.answered(&FILE);
    for _ in 0..9 {
        taking.answered(&FILE);
        taking.answered(&FILE);
        taking.answered(&failed(BUSY));
        taking.answered(&FILE);
    }
    taking.answered(&FILE);
    taking.answered(&FILE);
    taking.answered(&failed(BUSY));
    (taking.task, taking.tried, taking.fault) == (15, 1, BUSY)
}

fn handed(what: u32, done: u32, errno: u32, file: &MadeFile) -> (u32, u32) {
    handing_numbers(what, done, errno, file)
}

/// A file for user 7 and group 8, made by 7 and 9 in a folder of group 8.
const MADE: MadeFile = MadeFile {
    wanted: NewFile {
        user: 7,
        group: 8,
        bits: 0o640,
    },
    made: NewFile {
        user: 7,
        group: 9,
        bits: 0o600,
    },
    above: 8,
    gives_group: false,
    is_root: false,
    is_beside: true,
    is_empty: true,
};

/// 0 a lock, 1 a file, 2 a folder.
fn files_are_handed_over() -> bool {
    let given = MadeFile {
        gives_group: true,
        ..MADE
    };
    let by_root = MadeFile {
        is_root: true,
        made: NewFile {
            user: 0,
            group: 0,
            bits: 0o600,
        },
        ..MADE
    };
    let filled = MadeFile {
        is_empty: false,
        ..by_root
    };
    handed(1, 0, 0, &MADE) == (1, 0o600)
        && handed(1, 0, 0, &given) == (1, 0o640)
        && handed(0, 0, 0, &MADE) == (1, 0o600)
        && handed(2, 0, 0, &MADE) == (1, 0o700)
        && handed(1, 1, 0, &MADE) == (3, 0)
        && handed(1, 3, 0, &MADE) == (5, 0o640)
        && handed(1, 3, 1, &MADE) == (6, 0)
        && handed(1, 5, 1, &MADE) == (7, 1)
        && handed(1, 1, 0, &by_root) == (4, 0)
        && handed(1, 4, 0, &by_root) == (5, 0o640)
        && handed(0, 1, 0, &by_root) == (2, 0)
        && handed(0, 2, 0, &by_root) == (3, 0)
        && handed(0, 2, 1, &by_root) == (6, 0)
        && handed(0, 5, 1, &MADE) == (6, 0)
        && handed(2, 1, 0, &by_root) == (4, 0)
        && handed(2, 4, 0, &by_root) == (6, 0)
        && handed(2, 1, 0, &filled) == (7, 13)
        && handed(2, 1, 0, &MADE) == (7, 13)
}

#[test]
fn locks_are_had(rt: HostRuntime) -> Result<(), Fail> {
    assert!(rt; locks_are_taken() && locks_are_made() && forks_are_minded());
    assert!(rt; nothing_is_made_unasked());
    assert!(rt; files_are_handed_over());
    Ok(())
}
