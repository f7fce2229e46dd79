//! The sets of types that the syntax of a text admits, and the least type in a set (GLib, "GVariant Text Format", Type
//! Inference). gv_infer chooses the type of a text by them; nothing else calls this crate.
//!
//! A set takes memory in proportion to the syntax. What two sets have in common is put together in their own memory.
//! No call looks at what is in `<..>`.
#![tactic(auto)]

mod admitted;
mod basic_set;
mod exact;
mod least;
mod pattern;

pub use least::{Found, write_least_type};
