//! The values of a database, appended to the bytes before them.
//!
//! [`write_values`] appends each at a multiple of 8. [`pad`] appends the zero bytes up to where something starts.
#![tactic(auto)]

mod values;

pub use values::{pad, write_values};
