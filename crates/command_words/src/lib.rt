//! A command of `dconfdb` with its words, as data: the file that it replaces, and the commands that `update` stands for.
//!
//! What can never happen: a command that changes a file is taken for one that reads; `update` leaves out a database that is due.
//!
//! What a call costs: `user_file` takes memory for the databases of a profile and a name, `updates` for the words of its commands.
#![tactic(auto)]

mod commands;
mod replaced;
mod sources;

pub use commands::Command;
pub use replaced::{Replaced, user_file};
pub use sources::{SOURCES_END, SourceFolder, updates};
