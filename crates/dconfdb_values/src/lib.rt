//! Values as C reads them: the number, the text or the children that bytes are at the type that a
//! text spells.
//!
//! Any bytes have a value at any type (GVariant Specification, "Handling Non-Normal Serialised
//! Data"), so no call that reads them fails: it answers None exactly at another type, or where there
//! is no such child. Nothing is allocated for that, and whatever is handed out is lent from the bytes
//! and the type's text. [`value_of_text`] makes the bytes of a text's value. The crate dconfdb_c
//! exports each call to C.
//!
//! ```
//! let size = number(b"i", &[7, 0, 0, 0], b'i')?;
//! let second = child(b"as", b"one\0two\0\x04\x08", 1, &mut 0)?;
//! Some(size == 7 && text(second.type_text, second.value)? == "two")
//! ```
#![tactic(auto)]

mod entries;
mod listing;
mod numbers;
mod open_array;
mod parsing;
mod parts;
mod texts;
mod typed;

pub use listing::{DconfdbChild, put_children};
pub use numbers::number;
pub use parsing::{Parsed, Unparsed, value_of_text};
pub use parts::{DconfdbPart, child, lookup, n_children};
pub use texts::text;
