//! The bytes of GVariant values, written as the format wants them (GVariant Specification, "Serialisation Format").
//!
//! Each byte is written once, from the start to the end, into one buffer, which never passes 4,294,967,295 bytes.
//!
//! ```
//! let size = Tree::basic(alloc, Basic::Int32(24))?;
//! let bytes = variant_bytes(alloc, &size)?;
//! Ok(bytes.as_slice() == [24, 0, 0, 0, 0, b'i'].as_slice())
//! ```
#![tactic(auto)]

mod array;
mod basic;
mod buffer;
mod build;
mod fault;
mod maybe;
mod offsets;
mod place;
mod room;
mod tree;
mod tuple;
mod variant;

pub use buffer::MAX_LEN;
pub use build::{normal_form, serialise, variant_bytes};
pub use fault::BuildFault;
