//! Texts of GVariant types, such as `a{sv}` and `(ii)`, checked once and then taken apart by slices.
//!
//! A [`TypeStr`] always holds the text of one type. No call takes memory, and none fails but
//! [`TypeStr::parse`]. [`Steps`] counts the steps of a walk.
//!
//! ```
//! let settings = TypeStr::parse("a{sv}")?;
//! let key = settings.element().and_then(TypeStr::key);
//! let wrong = TypeStr::parse("a{vs}");
//! Ok(key.map(TypeStr::as_str) == Some("s") && wrong.is_err())
//! ```
#![tactic(auto)]

mod as_text;
mod class;
mod fault;
mod grammar;
mod members;
mod object_path;
mod prefix;
mod signature;
mod steps;
mod type_str;

pub use class::{BasicType, Class};
pub use fault::TypeFault;
pub use members::Members;
pub use object_path::is_object_path;
pub use signature::is_signature;
pub use steps::Steps;
pub use type_str::TypeStr;
