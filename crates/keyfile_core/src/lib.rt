//! Keyfiles: groups of lines `key=value`, as in GLib's GKeyFile, read into rows and written from rows.
//!
//! [`read`] takes any bytes: each line is looked at once, and the first that is wrong is the fault. The rows are lent from the
//! bytes, so that only the list of rows takes memory. [`write_rows`] writes the text that [`read`] gives back.
//! Nothing here reads a value's text: a row has it as it stands in the file.
//!
//! ```
//! let rows = keyfile_core::read(alloc, b"[desk]\nsize=24\n")?;
//! Ok(rows.iter().all(|row| row.line == 2 && row.group == "desk" && row.text == "24"))
//! ```
#![tactic(auto)]

mod blanks;
mod dump_row;
mod fault;
mod groups;
mod keys;
mod lines;
mod rows;
mod rows_fault;
mod setting;
mod write;

pub use dump_row::is_row_path;
pub use fault::{KeyfileCause, KeyfileFault, KeyfileFlaw};
pub use rows::{Row, read};
pub use rows_fault::{RowsCause, RowsFault, RowsFlaw};
pub use setting::AsSetting;
pub use write::{write_rows, write_settings};
