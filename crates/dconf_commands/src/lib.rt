//! The commands of `dconfdb`: what each of them answers for what it reads. It writes nothing: dconf_cli brings the answer
//! about. What a command is, with its words, is command_words'.
//!
//! A command looks at its words first, then at the input, then at the files in the order of its profile or of its words,
//! and at the bytes of all of them last.
//!
//! What a call costs: `answered` takes memory for the bytes of the files that it reads, once, for the text of the answer, and
//! for what the command makes of them.
#![tactic(auto)]

mod arguments;
mod below;
mod commands;
mod dump_parts;
mod printed_setting;
mod printed_value;
mod store_files;
mod user_database;

pub use arguments::{directory_argument, key_argument};
pub use below::answered_below;
pub use commands::{answered, place_name};
pub use store_files::{StoreFiles, databases, profile};
