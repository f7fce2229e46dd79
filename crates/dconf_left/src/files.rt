//! A file as who noted left it, and its record.
ghost use Rattle.std.specs.Prelude.{◌≡◌, ◌+◌, ◌*◌, ◌≤◌, ◌++◌, length, drop, take};
ghost use Rattle.gv_model.specs.Encode.{number_bytes};
ghost use Rattle.dconf_left.specs.Records.{file_in, is_one, left_file, number_at, numbers, record_bytes, synced_in};

use crate::numbers::name_number;
use byteorder::{ByteOrder, LittleEndian};
use dconf_files::FileStamp;

/// How many bytes a number takes, and a record of seven.
const NUMBER_LEN: usize = 8;

pub(crate) const RECORD_LEN: usize = 56;

/// A file as it was left: a number for its name, and what tells it from others.
#[derive(Clone, Copy)]
pub(crate) struct LeftFile {
    name: u64,
    device: u64,
    inode: u64,
    size: u64,
    seconds: u64,
    nanoseconds: u64,
}

impl LeftFile {
    /// The file of a name as the host says it is.
    #[inline(always)]
    pub(crate) fn of(name: &[u8], file: &FileStamp) -> LeftFile
        ensures { result ≡ left_file name.now file.now }
    {
        LeftFile {
            name: name_number(name),
            device: file.device,
            inode: file.inode,
            size: file.size,
            seconds: file.written.seconds,
            nanoseconds: file.written.nanoseconds,
        }
    }

    /// Whether a record is of this file. It looks at the time first, which mostly differs.
    #[inline(always)]
    pub(crate) fn is_in(&self, entry: &[u8]) -> bool
        requires { length entry.now ≡ 56 }
        ensures { result ≡ is_one self.now (file_in entry.now) }
    {
        self.nanoseconds == number_at(entry, 40)
            && self.seconds == number_at(entry, 32)
            && self.inode == number_at(entry, 16)
            && self.size == number_at(entry, 24)
            && self.name == number_at(entry, 0)
            && self.device == number_at(entry, 8)
    }

    /// Writes its record to the start of the room.
    #[inline(always)]
    pub(crate) fn write(&self, is_synced: bool, room: &mut [u8])
        requires { 56 ≤ length room.old }
        ensures { room.new ≡ record_bytes self.now is_synced ++ drop 56 room.old }
    {
        for (index, number) in self.numbers(is_synced).iter().enumerate() {
            put_number(*number, NUMBER_LEN * index, room);
        }
    }

    /// The numbers of its record.
    #[inline(always)]
    fn numbers(&self, is_synced: bool) -> [u64; 7]
        ensures { result ≡ numbers self.now is_synced }
    {
        [
            self.name,
            self.device,
            self.inode,
            self.size,
            self.seconds,
            self.nanoseconds,
            u64::from(is_synced),
        ]
    }
}

/// Whether a record says that its file was on the disk.
#[inline(always)]
pub(crate) fn is_synced_in(entry: &[u8]) -> bool
    requires { length entry.now ≡ 56 }
    ensures { result ≡ synced_in entry.now }
{
    number_at(entry, 48) == 1
}

/// The number in the eight bytes at a place.
#[tactic(auto, using(crate::proofs::NumberLaws::eight_read))]
#[inline(always)]
fn number_at(bytes: &[u8], at: usize) -> u64
    requires { at + 8 ≤ length bytes.now }
    ensures { result ≡ number_at bytes.now at }
{
    LittleEndian::read_u64(&bytes[at..at + NUMBER_LEN])
}

/// Writes a number into the eight bytes at a place.
#[inline(always)]
fn put_number(number: u64, at: usize, room: &mut [u8])
    requires { at + 8 ≤ length room.old }
    ensures { room.new ≡ take at room.old ++ (number_bytes 8 number ++ drop (at + 8) room.old) }
{
    LittleEndian::write_u64(&mut room[at..at + NUMBER_LEN], number);
}
