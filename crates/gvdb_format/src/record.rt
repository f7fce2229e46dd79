//! An item's record: the 24 bytes in which a table keeps its numbers.
ghost use Rattle.std.specs.Prelude.{◌≡◌, ◌+◌, ◌≤◌, ◌++◌, length, OnOk};
ghost use Rattle.dconf_model.specs.Table.{item_at};
ghost use Rattle.dconf_model.specs.TableBytes.{parent_number as number_of_parent, record_bytes};
ghost use Rattle.gvdb_format.specs.ItemRecords.{parent_of, record_of};

use crate::little_endian::{read_u8, read_u16, read_u32};
use std::alloc::AllocError;

/// How many bytes a record has.
pub const RECORD_LEN: usize = 24;

// Where in a record its numbers are; the hash comes first, and one byte is unused.
pub(crate) const PARENT: usize = 4;

pub(crate) const KEY_START: usize = 8;

pub(crate) const KEY_SIZE: usize = 12;

pub(crate) const KIND: usize = 14;

pub(crate) const START: usize = 16;

pub(crate) const END: usize = 20;

/// What stands for the parent of an item without one.
const NO_PARENT: u32 = 0xffff_ffff;

/// An item's numbers: where its key is, and where its content starts and ends. Any bytes are some item's.
#[derive(Clone, Copy, Debug, PartialEq, Eq)]
pub struct ItemRecord {
    /// The hash of the full name.
    pub hash: u32,
    /// The number of the parent's item.
    pub parent: Option<u32>,
    pub key_start: u32,
    /// How many bytes the key has.
    pub key_size: u16,
    /// The letter of the kind.
    pub kind: u8,
    pub start: u32,
    pub end: u32,
}

impl ItemRecord {
    ghost use Rattle.gvdb_format.specs.Tables.{item_of};

    /// The record in the 24 bytes from there on.
    #[inline(always)]
    pub(crate) fn read(file: &[u8], at: usize) -> ItemRecord
        requires { at + 24 ≤ length file.now }
        ensures { item_of result ≡ item_at file.now at }
    {
        ItemRecord {
            hash: read_u32(file, at),
            parent: parent(read_u32(file, at + PARENT)),
            key_start: read_u32(file, at + KEY_START),
            key_size: read_u16(file, at + KEY_SIZE),
            kind: read_u8(file, at + KIND),
            start: read_u32(file, at + START),
            end: read_u32(file, at + END),
        }
    }

    /// Appends the 24 bytes of a record. What is appended where a growth is refused is not said.
    #[tactic(auto, using(crate::proofs::Numbers::appended))]
    pub fn push(self, out: &mut Vec<u8>) -> Result<(), AllocError>
        ensures { OnOk result (out.new.items ≡ out.old.items ++ record_bytes (record_of self)) }
    {
        out.extend_from_slice(&self.bytes())
    }

    /// Its 24 bytes, so that a buffer grows once for all of them.
    fn bytes(self) -> [u8; RECORD_LEN]
        ensures { result ≡ record_bytes (record_of self) }
    {
        let hash = self.hash.to_le_bytes();
        let parent = parent_number(self.parent).to_le_bytes();
        let key = self.key_start.to_le_bytes();
        let size = self.key_size.to_le_bytes();
        let start = self.start.to_le_bytes();
        let end = self.end.to_le_bytes();
        [
            hash[0], hash[1], hash[2], hash[3], parent[0], parent[1], parent[2], parent[3], key[0],
            key[1], key[2], key[3], size[0], size[1], self.kind, 0, start[0], start[1], start[2],
            start[3], end[0], end[1], end[2], end[3],
        ]
    }
}

/// The parent for which a number stands.
#[inline(always)]
pub(crate) fn parent(number: u32) -> Option<u32>
    ensures { result ≡ parent_of number }
{
    if number == NO_PARENT {
        None
    } else {
        Some(number)
    }
}

/// The number that stands for a parent.
#[inline(always)]
fn parent_number(parent: Option<u32>) -> u32
    ensures { result ≡ number_of_parent parent }
{
    match parent {
        Some(number) => number,
        None => NO_PARENT,
    }
}
