//! A store over the bytes of its files: a profile's databases are opened, changed, saved, opened again, and read.
//!
//! These calls need no folder. Whoever has the bytes of the files, from disk or mapped, is told what a program that reads
//! them next will see.
//!
//! Each call opens the files, makes the changes, saves them and opens the result: it costs as much as all of that together.
//!
//! Where `user` and `site` are databases:
//!
//! ```
//! let profile = read_profile(alloc, "user-db:me\nsystem-db:site\n")?;
//! let (files, size) = ([Some(user), Some(site)], KeyPath::parse("/desk/size")?);
//! if profile.databases().len() != files.len() {
//!     return Ok(false);
//! }
//! let value = value_after(alloc, &profile, &files, &[Change::Reset(size)], size)?;
//! Ok(value.is_some())
//! ```
#![tactic(auto)]

mod change;
mod fault;
mod store;

pub use change::Change;
pub use fault::{StoreFault, StoreFlaw};
pub use store::{children_after, user_file_after, value_after};
