//! From keyfiles and lock files to the bytes of a database, as `dconf compile` makes one.
//!
//! [`compile`] takes the bytes of all files, and gives those of a database or the first fault, with its file and line. Nothing is
//! read or written. The texts of values are read once each, and only one value at a time is in memory beside the bytes of all.
//!
//! ```
//! let name = "site.keys";
//! let bytes = b"[desk]\nsize=24\n";
//! Ok(compile(alloc, &[Source { name, bytes }], &[])?)
//! ```
#![tactic(auto)]

mod database;
mod fault;
mod keyfiles;
mod line_stop;
mod load;
mod locks;
mod order;
mod rows;
mod source;
mod value;

pub use database::compile;
pub use fault::{CompileCause, CompileFault, FileRef};
pub use line_stop::LineStop;
pub use load::{Loaded, RowsBelow};
pub use source::Source;
pub use value::value_of_text;
