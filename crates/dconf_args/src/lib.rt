//! What the words of a command line ask for: a command of `dconfdb`, and where its store is. What a command is, which file it
//! replaces, and which commands `update` stands for, is command_words'; its names are here too.
//!
//! What can never happen: a word that a command needs is made up, or one that was given is left out.
//!
//! What a call costs: `command` takes memory for clap's lists and for the words of its answer.
#![tactic(auto)]

mod command_line;
mod command_table;
mod place;
mod word;
mod words;

pub use command_words::{Command, Replaced, SourceFolder, updates, user_file};
pub use place::{Asked, Place};
pub use words::command;
