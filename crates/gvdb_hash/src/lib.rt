//! The hash of a name, by which the items of a GVDB file's table are sorted into buckets. No call takes memory.
#![tactic(auto)]

mod hashing;

pub use hashing::{HASH_OF_NOTHING, hash, hash_on, hash_with, hash_with_four, signed};
