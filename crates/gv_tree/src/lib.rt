//! Owned values of GVariant types, seen as trees.
//!
//! A [`Tree`] always is a value of its type, at most 128 levels deep, whose type's text lies within the limits of type
//! texts. It is made from the leaves up, and does not change.
//!
//! Making a container takes memory for the text of its type, and a copy for each value; looking at a tree takes none.
//!
//! ```
//! let size = Tree::basic(alloc, Basic::Int32(24))?;
//! let boxed = Tree::variant(alloc, size)?;
//! Ok(boxed.type_text().as_str() == "v" && boxed.depth() == 2)
//! ```
#![tactic(auto)]

mod basic;
mod copy;
mod equal;
mod fault;
mod make;
mod shape;
mod sums;
mod tree;
mod type_texts;

pub use basic::Basic;
pub use fault::{TreeFault, TreeFlaw};
pub use shape::Shape;
pub use tree::Tree;
