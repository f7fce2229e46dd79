//! How GVariant values are laid out in bytes: how they are aligned, how wide they are, and where the
//! children of a container lie (GVariant Specification, "Serialisation Format").
//!
//! No call takes memory, and none fails: each has an answer for any bytes.
//!
//! ```
//! let pair = TypeStr::parse("(yu)")?;
//! let pairs = TypeStr::parse("a(yu)")?;
//! let bytes = [0; 24];
//! Ok(alignment(pair) == 4 && fixed_size(pair) == Some(8) && n_children(pairs, &bytes) == 3)
//! ```
#![tactic(auto)]

mod array;
mod bounds;
mod offset;
mod place;
mod size;
mod truth;
mod tuple;
mod walk;

pub use bounds::{member_bounds, n_children, place_of, places};
pub use offset::number;
pub use place::{Place, Places};
pub use size::{
    TypeInfo, aligned_after, alignment, fixed_size, least_width, offset_width, round_up, type_info,
};
pub use truth::is_true;
