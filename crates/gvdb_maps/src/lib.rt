//! Settings that are collected, and the bytes of a database that holds them.
//!
//! A [`Map`] and a [`MapBuilder`] are the model's settings to a contract. [`write`] makes the names of a database, puts them
//! into tables, lays the tables out, and writes all from start to end in one buffer.
#![tactic(auto)]

mod contents;
mod database;
mod entries;
mod groups;
mod layout;
mod map;
mod map_builder;
mod names;
mod table;
mod values;
mod write_fault;

pub use database::write;
pub use layout::MAX_DATABASE_LEN;
pub use map::{Keys, Locks, Map};
pub use map_builder::MapBuilder;
pub use write_fault::{TooBig, WriteFault};
