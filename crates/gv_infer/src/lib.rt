//! What the syntax of a text means: the type that it has by itself, and its value at a type (GLib, "GVariant Text Format").
//!
//! A value is always of the least type that its text admits, and a fault is always the first. A call takes memory for what it
//! gives, and for the types that are still possible on the way. Its time grows with the syntax, and in nested brackets with
//! their depth, too.
//!
//! ```
//! let numbers = read_value(alloc, "[1, @x 2]")?;
//! Ok(numbers.type_text().as_str() == "ax")
//! ```
#![tactic(auto)]

mod admits;
mod bare;
mod build;
mod children;
mod containers;
mod contents;
mod fault;
mod literal;
mod plain;
mod plain_literal;
mod printed;
mod read;
mod typing;
mod value;

pub use fault::{ReadFault, ReadFlaw, TypingFault, TypingFlaw, ValueFault, ValueFlaw};
pub use printed::printed_is_read;
pub use read::read_value;
pub use typing::type_of;
pub use value::value_at;
