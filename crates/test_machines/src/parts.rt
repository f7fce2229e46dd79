//! What a file is, beside what was made of it.
use dconf_files::{FileStamp, FileTime};
use dconf_parts::{
    DconfdbPartSeen, among_number, beside_number, is_cut, is_one_file, known_after, largest_number,
    moved_number, moved_to, placed,
};
use std::test::Fail;

const KEEP: u32 = 0;

const TAKE: u32 = 1;

const TELL: u32 = 2;

const TRY: u32 = 3;

const LATER: u64 = 2_010_000_000;

/// A file of that number, touched so long after a second.
fn file(inode: u64, nanoseconds: u64) -> FileStamp {
    let written = FileTime {
        seconds: 1,
        nanoseconds: 1,
    };
    FileStamp {
        device: 1,
        inode,
        size: 8,
        written,
        touched: FileTime {
            seconds: 1,
            nanoseconds,
        },
        is_there: true,
    }
}

/// Read so late that nothing changed since, and sound.
fn sound() -> DconfdbPartSeen {
    DconfdbPartSeen {
        opened: LATER,
        fault: 0,
        code: 0,
        errnum: 0,
        read_code: 0,
        read_errnum: 0,
        is_held: false,
        has_bytes: true,
    }
}

/// What a file of that number is beside the first, touched at that time: 0 the same, 1 another, 2 the same if it may be read.
fn stands(purpose: u32, inode: u64, nanoseconds: u64, seen: DconfdbPartSeen) -> u32 {
    beside_number(purpose, &file(1, 1), &file(inode, nanoseconds), &seen)
}

fn are_kept() -> bool {
    let held = DconfdbPartSeen {
        is_held: true,
        ..sound()
    };
    let young = DconfdbPartSeen {
        opened: 1,
        ..sound()
    };
    let unseen = DconfdbPartSeen {
        fault: 5,
        ..sound()
    };
    stands(KEEP, 1, 1, sound()) == 0
        && stands(KEEP, 2, 1, sound()) == 1
        && stands(KEEP, 1, 2, sound()) == 1
        && stands(KEEP, 1, 2, held) == 2
        && stands(KEEP, 1, 1, young) == 1
        && stands(TELL, 1, 1, young) == 0
        && stands(TELL, 1, 2, young) == 1
        && stands(KEEP, 1, 1, unseen) == 1
}

fn are_taken() -> bool {
    let bad = DconfdbPartSeen {
        code: 64,
        errnum: 13,
        ..sound()
    };
    let unread = DconfdbPartSeen {
        read_code: 64,
        read_errnum: 13,
        ..bad
    };
    let other_bytes = DconfdbPartSeen {
        has_bytes: false,
        ..sound()
    };
    let other_errno = DconfdbPartSeen {
        read_errnum: 21,
        ..unread
    };
    stands(TAKE, 1, 1, sound()) == 0
        && stands(TAKE, 1, 1, other_bytes) == 1
        && stands(TAKE, 1, 1, bad) == 1
        && stands(TAKE, 1, 1, unread) == 0
        && stands(TAKE, 1, 1, other_errno) == 1
        && stands(TRY, 1, 2, sound()) == 0
        && stands(TRY, 2, 1, sound()) == 1
        && stands(TRY, 1, 1, other_bytes) == 1
}

/// What changed of a file that may be read isn't asked of again.
fn are_known() -> bool {
    let held = DconfdbPartSeen {
        is_held: true,
        ..sound()
    };
    let read = known_after(&file(1, 1), &file(1, 2), true);
    let unread = known_after(&file(1, 1), &file(1, 2), false);
    beside_number(KEEP, &read, &file(1, 2), &held) == 0
        && beside_number(KEEP, &read, &file(1, 3), &held) == 2
        && beside_number(KEEP, &unread, &file(1, 2), &held) == 2
}

/// What has the name of a new file says what that is, if it is the file.
fn are_placed() -> bool {
    let none = FileStamp {
        is_there: false,
        ..file(1, 2)
    };
    let elsewhere = FileStamp {
        device: 2,
        ..file(1, 2)
    };
    is_one_file(&file(1, 1), &file(1, 2))
        && !is_one_file(&file(1, 1), &file(2, 1))
        && !is_one_file(&file(1, 1), &elsewhere)
        && !is_one_file(&file(1, 1), &none)
        && placed(&file(1, 1), &file(1, 2)).touched.nanoseconds == 2
        && placed(&file(1, 1), &file(2, 2)).touched.nanoseconds == 1
        && placed(&file(1, 1), &none).is_there
}

fn is_size(kind: u32, most: u64, may_map: bool) -> bool {
    let (largest, is_mapped) = largest_number(kind);
    largest == most && is_mapped == may_map
}

fn sizes_are_known() -> bool {
    is_size(0, 4096, false)
        && is_size(1, 16_777_216, false)
        && is_size(2, 4_294_967_295, true)
        && is_size(3, 4_294_967_295, false)
}

/// One that is another one is seen, wherever it stands among those of which nobody is sure.
fn several_are_seen() -> bool {
    among_number(0, 0) == 0
        && among_number(0, 2) == 2
        && among_number(2, 0) == 2
        && among_number(2, 1) == 1
        && among_number(1, 2) == 1
        && among_number(1, 0) == 1
}

/// After three of eight bytes: some more, all others, none, an interrupted call (EINTR) and one that failed (EIO).
fn bytes_are_moved() -> bool {
    moved_number(8, 3, 0, 2) == 0
        && moved_to(8, 3, 0, 2) == 5
        && moved_number(8, 3, 0, 5) == 1
        && moved_to(8, 3, 0, 5) == 8
        && moved_to(8, 3, 0, 9) == 8
        && moved_number(8, 3, 0, 0) == 2
        && moved_number(8, 3, 4, 0) == 0
        && moved_to(8, 3, 4, 2) == 3
        && moved_number(8, 3, 5, 0) == 3
        && moved_to(8, 3, 5, 2) == 3
        && moved_number(0, 0, 0, 0) == 1
}

fn ends_are_cut() -> bool {
    is_cut(9, 8) && is_cut(usize::MAX, 8) && !is_cut(8, 8) && !is_cut(0, 8)
}

#[test]
fn what_was_made_of_a_file_is_kept_or_not(rt: HostRuntime) -> Result<(), Fail> {
    assert!(rt; are_kept() && are_taken());
    assert!(rt; are_known() && are_placed());
    assert!(rt; sizes_are_known() && several_are_seen());
    assert!(rt; bytes_are_moved() && ends_are_cut());
    Ok(())
}
