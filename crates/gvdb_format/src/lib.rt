//! The format of GVDB files (version 0): what occurs in the bytes of a database, for those who read it and those who write it.
//!
//! A file is a header, tables, and what their items point to. A table's items are [records](ItemRecord) of 24 bytes, sorted
//! into buckets by the [hash](hash) of their names. A [`RawTable`] is a table of a file that was handed in: its numbers, its items
//! and their names, read in place, whatever its items say. No call that reads takes memory.
#![tactic(auto)]

mod fault;
mod fields;
mod full_name;
mod header;
mod item;
mod kind;
mod little_endian;
mod raw_table;
mod record;
mod span;
mod suffix;

pub use fault::OpenFault;
pub use fields::Link;
pub use gvdb_hash::{HASH_OF_NOTHING, hash, hash_on, hash_with, hash_with_four, signed};
pub use header::{HEAD_LEN, HEADER_LEN, LOCKS, SIGNATURE, WORD_LEN, head_number};
pub use item::Item;
pub use kind::Kind;
pub use little_endian::{NUMBER_LEN, number, push_u32, read_u32};
pub use raw_table::RawTable;
pub use record::{ItemRecord, RECORD_LEN};
