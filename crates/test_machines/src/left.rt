//! Files that were left, in bytes that anybody may have written; and numbers of names and values.
use dconf_files::{FileStamp, FileTime};
use dconf_left::{
    name_number, nanoseconds, number_of_bytes, state_number, value_number, with_left,
};
use std::test::Fail;

/// A record's bytes, and room for a few.
const RECORD: usize = 56;

const ROOM: usize = 300;

/// The file of a number, as the host says it is.
fn file(inode: u64) -> FileStamp {
    FileStamp {
        device: 0x102,
        inode,
        size: 3,
        written: FileTime {
            seconds: 4,
            nanoseconds: 5,
        },
        touched: FileTime {
            seconds: 6,
            nanoseconds: 7,
        },
        is_there: true,
    }
}

/// The first bytes of a room.
fn front(room: &[u8], len: usize) -> &[u8] {
    &room[..len.min(room.len())]
}

/// The file of a number and of the name `user`, in front of others, of which one may stay. How many bytes they take.
fn put(left: &[u8], inode: u64, is_synced: bool, room: &mut [u8]) -> usize {
    with_left(left, b"user", &file(inode), is_synced, 2, room)
}

/// The record that a program of a machine of x86-64 has written ever since: each number in eight bytes, the lowest first.
fn records_are_so() -> bool {
    let mut room = [9; ROOM];
    let len = put(b"", 8, true, &mut room);
    let name = name_number(b"user").to_le_bytes();
    let numbers = [
        2, 1, 0, 0, 0, 0, 0, 0, 8, 0, 0, 0, 0, 0, 0, 0, 3, 0, 0, 0, 0, 0, 0, 0,
    ];
    let times = [
        4, 0, 0, 0, 0, 0, 0, 0, 5, 0, 0, 0, 0, 0, 0, 0, 1, 0, 0, 0, 0, 0, 0, 0,
    ];
    len == RECORD
        && &room[..8] == name.as_slice()
        && &room[8..32] == numbers.as_slice()
        && &room[32..RECORD] == times.as_slice()
        && room[RECORD] == 9
}

fn files_are_found() -> bool {
    let (mut one, mut two, mut room) = ([0; ROOM], [0; ROOM], [0; ROOM]);
    let len = put(b"", 1, true, &mut one);
    let len = put(front(&one, len), 2, true, &mut two);
    let len = put(front(&two, len), 3, false, &mut room);
    let left = front(&room, len);
    let gone = FileStamp {
        is_there: false,
        ..file(3)
    };
    len == 2 * RECORD
        && state_number(left, b"user", &file(1)) == 0
        && state_number(left, b"user", &file(2)) == 2
        && state_number(left, b"user", &file(3)) == 1
        && state_number(left, b"other", &file(3)) == 0
        && state_number(left, b"user", &gone) == 0
        && state_number(front(left, 2 * RECORD - 1), b"user", &file(2)) == 0
        && state_number(&room[1..], b"user", &file(3)) == 0
        && state_number(b"", b"user", &file(3)) == 0
}

/// The newest record of a file is kept once; of one that isn't there none is written, nor where there is no room.
fn files_are_kept_once() -> bool {
    let (mut one, mut two, mut room) = ([0; ROOM], [0; ROOM], [0; ROOM]);
    let len = put(b"", 1, false, &mut one);
    let len = put(front(&one, len), 2, false, &mut two);
    let len = put(front(&two, len), 2, true, &mut room);
    let left = front(&room, len);
    let gone = FileStamp {
        is_there: false,
        ..file(4)
    };
    let (mut other, mut short) = ([0; ROOM], [7; RECORD]);
    let kept = with_left(left, b"user", &gone, true, 1, &mut other);
    let wanted = with_left(left, b"user", &file(4), true, 2, &mut short);
    len == 2 * RECORD
        && state_number(left, b"user", &file(1)) == 1
        && state_number(left, b"user", &file(2)) == 2
        && kept == RECORD
        && front(&other, RECORD) == front(&room, RECORD)
        && wanted == 2 * RECORD
        && short == [7; RECORD]
}

/// The vectors of the hash's draft; and values.
fn numbers_are_so() -> bool {
    name_number(b"") == 0xcbf2_9ce4_8422_2325
        && name_number(b"a") == 0xaf63_dc4c_8601_ec8c
        && name_number(b"foobar") == 0x8594_4171_f739_67e8
        && number_of_bytes(name_number(b"foo"), b"bar") == name_number(b"foobar")
        && value_number(b"s", b"a\0") == name_number(b"sa\0") | 1
        && value_number(b"", b"a") == 0xaf63_dc4c_8601_ec8d
}

fn time(seconds: u64, nanoseconds: u64) -> FileTime {
    FileTime {
        seconds,
        nanoseconds,
    }
}

/// A second and two nanoseconds; a second before 1970; and a time that 64 bits don't hold.
fn times_are_so() -> bool {
    nanoseconds(time(1, 2)) == 1_000_000_002
        && nanoseconds(time(u64::MAX, 5)) == 0
        && nanoseconds(time(18_446_744_073, 709_551_616)) == u64::MAX
        && nanoseconds(time(i64::MAX as u64, 0)) == u64::MAX
}

#[test]
fn files_that_were_left_are_known(rt: HostRuntime) -> Result<(), Fail> {
    assert!(rt;
        records_are_so()
            && files_are_found()
            && files_are_kept_once()
            && numbers_are_so()
            && times_are_so()
    );
    Ok(())
}
