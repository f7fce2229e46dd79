//! A run of a command of `dconfdb` on a folder and three streams. What the words of a command line ask for is
//! dconf_args's, what a command answers is dconf_commands', and how it reads and writes is dconf_streams'.
//!
//! A command reads, decides what it answers, and then writes: a file first, where it changes one, and then a text to
//! out, or one line to err.
//!
//! What can never happen: a refusal writes to out, or comes after a file was replaced.
//!
//! What a call costs: `run` takes memory for the bytes of the files that it reads, once, for the text that it writes, and for
//! what the command makes of them, as its docs say; `read_input` for the input's bytes; a `Counted` takes none.
#![tactic(auto)]

mod command_run;
mod outcome;
mod standing;

pub use command_run::run;
pub use dconf_args::{Asked, Command, command};
pub use dconf_streams::{Counted, FailedRead, InputFault, read_input};
pub use standing::is_made;
