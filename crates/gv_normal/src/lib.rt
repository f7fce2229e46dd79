//! Whether bytes are those that are written for their value.
//!
//! [`is_normal`] and [`is_normal_counted`] tell it in place: they take no memory, and of n bytes at a type of t letters they
//! look at (n + 1)(n + 2t) values at most. [`is_normal_plain`] makes the value and writes it anew.
//!
//! ```
//! let truth = TypeStr::parse("b")?;
//! Ok(is_normal(View::new(truth, &[1])) && !is_normal(View::new(truth, &[5])))
//! ```
#![tactic(auto)]

mod array;
mod basic;
mod fixed;
mod in_place;
mod maybe;
mod padding;
mod plain;
mod tuple;
mod variant;

pub use in_place::{is_normal, is_normal_counted};
pub use plain::is_normal_plain;
