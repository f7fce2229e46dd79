//! What a command reads and writes through: streams that count their failures, the input, files of a folder; and what it
//! answers, or why it is refused. The commands are dconf_commands', and a run of one is dconf_cli's, which hands on what
//! is for programs.
//!
//! What can never happen: a write is given up half way and called done; a failure of a folder is taken for a missing file, or
//! one of the input for its end.
//!
//! What a call costs: a read of a file or of the input takes memory for its bytes, a refusal for its line, and a `Counted`
//! none. Each file is read once.
#![tactic(auto)]

mod answer;
mod counted;
mod folder_files;
mod input;
mod refusal;
mod trace;
mod whole_write;

pub use answer::Answer;
pub use counted::Counted;
pub use folder_files::{NamedFile, file, file_if_any, files, named_file};
pub use input::{FailedRead, InputFault, read_input};
pub use refusal::{Refusal, device_line, refusal_line, refused, refused_at};
