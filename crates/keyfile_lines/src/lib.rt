//! Keyfiles and lock files, read on after a fault: what each line says, whatever is wrong with those before it.
//!
//! keyfile_core's `read` and dconf_path's `read_locks` stop at the first line at fault, as whoever compiles has to. Who looks for
//! mistakes wants the others, too: a [`Cursor`] goes from line to line, and says of each what it sets or locks, or why it is refused.
//! What a line means stands in the definitions of keyfile_core and dconf_model, and what the cursor says of it is that. Of a keyfile it is
//! proved, too, that all lines together give what `read` gives, the first fault included, by [`a_keyfile_reads_as_a_whole`].
//!
//! Nothing takes memory. Each byte is looked at a fixed number of times.
//!
//! ```
//! let mut cursor = Cursor::new(b"[desk]\nsize\nname='x'\n");
//! let first = cursor.next_of_keyfile();
//! let second = cursor.next_of_keyfile();
//! let is_bad = matches!(second, Some(Said::Fault(LineFault::BadLine)));
//! is_bad && matches!(first, Some(Said::Nothing))
//! ```
#![tactic(auto)]

ghost use Rattle.keyfile_lines.specs.Laws.{ReadsAsAWhole};

mod blanks;
mod cursor;
mod fault;
mod groups;
mod keyfile;
mod keys;
mod kinds;
mod lines;
mod locks;
mod said;
mod told;

pub use cursor::Cursor;
pub use fault::LineFault;
pub use kinds::TextKind;
pub use said::Said;
pub use told::ToldLine;

/// If no line of a keyfile is at fault, what its lines give are the rows that keyfile_core reads; else its fault is that of the first line
/// that is not UTF-8, or, if all are, of the first line at fault. The file has 16 MiB at most.
pub fn a_keyfile_reads_as_a_whole()
    ensures { ReadsAsAWhole }
{}
