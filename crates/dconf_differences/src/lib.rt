//! What is seen otherwise through other layers: the keys whose value or lock differs, and whether two views show the same
//! value.
//!
//! A value in other bytes is the same one. A call for all keys looks at the name of each entry, and decodes the values
//! whose bytes are not the same.
#![tactic(auto)]

mod differences;
mod same_values;
mod twins;

pub use differences::{differing, differing_first, differs};
pub use same_values::show_same;
