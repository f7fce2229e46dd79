//! The paths of settings, the locks of lock files and the databases of profiles, checked once.
//!
//! A [`KeyPath`], a [`DirPath`] or a [`LockPath`] always holds the text of one path. What is read is lent from its text,
//! and nothing of it is copied. [`read_locks`] and [`read_profile`] take memory for what they find; no other call takes
//! any. Each byte is looked at a fixed number of times. [`settings_text`] gives the text of a file of settings.
//!
//! ```
//! let name = KeyPath::parse("/org/desk/name")?;
//! let lock = LockPath::parse("/org/desk/")?;
//! Ok(lock.covers(name) && KeyPath::parse("org").is_err())
//! ```
#![tactic(auto)]

mod fault;
mod line_fault;
mod lock_path;
mod locks;
mod path;
mod plain;
mod profiles;
mod texts;

pub use fault::PathFault;
pub use line_fault::{LockNotKey, LocksFault, ProfileFault, ProfileFlaw};
pub use lock_path::LockPath;
pub use locks::{Lock, read_locks};
pub use path::{DirPath, KeyPath, MAX_PATH_LEN};
pub use profiles::{Database, DatabaseKind, MAX_DATABASES, Profile, read_profile};
pub use texts::{MAX_TEXT_LEN, TextFault, settings_text};
