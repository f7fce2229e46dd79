//! JSON, an object or a value a line: what `read`, `list`, `dump` and `explain` answer of a store, and what differs between two. The kit's `json`
//! writes it; its reader finds in a line just what was written.
//!
//! A value is a string, its GVariant text. One that has none, since it holds a double, is its type and its bytes, so nothing is lost.
//!
//! What can never happen: a line is no JSON, or a value that is read from it is another one.
//!
//! What a call costs: what the command costs without `--json`; memory for the line, and once more for what it has to escape.
#![tactic(auto)]

mod compared;
mod explained;
mod lines;
mod questions;
mod values;

pub use compared::difference_lines;
pub use lines::lines_are_read_back;
pub use questions::{Question, answered_as_json};
pub use values::what_is_told_is_the_value;
