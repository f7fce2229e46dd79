//! Values of GVariant types, read in place.
//!
//! A [`View`] is a type and bytes: nothing is copied and no call takes memory. Any bytes have a value at
//! any type (GVariant Specification, "Handling Non-Normal Serialised Data"), so no call fails: an `as_` call is None
//! exactly at another type, and `child` exactly where there is no such child.
//!
//! ```
//! let numbers = View::new(TypeStr::parse("au")?, &[1, 0, 0, 0, 2, 0, 0, 0]);
//! let second = numbers.child(1).and_then(View::as_u32);
//! Ok(numbers.n_children() == 2 && second == Some(2))
//! ```
#![tactic(auto)]

mod children;
mod copy;
mod depth;
mod entry;
mod number;
mod owned;
mod parts;
mod text;
mod variant;
mod view;

pub use children::Children;
pub use owned::{TooLarge, ViewFault};
pub use parts::parts_are_lent;
pub use text::{text_in, utf8_of};
pub use variant::held_in_variant;
pub use view::View;
