//! Settings that are collected, and the bytes of a database that holds them.
//!
//! A [`Map`] keeps the bytes of a value at each path that has one, and the paths that are locked. [`write`] gives the
//! bytes of a database of them, from start to end in one buffer. Both are of [`gvdb_maps`]. [`salvage`] gives what can be
//! saved of a database that may not be sound.
//!
//! A map copies what it is given, but for the bytes that are handed over to it. [`write`] takes memory for its tables and for
//! that buffer, and its time is that of sorting the paths.
//!
//! ```
//! let mut map = Map::new(alloc);
//! map.insert(KeyPath::parse("/desk/size")?, &[24, 0, 0, 0, 0, b'i'])?;
//! map.lock(LockPath::parse("/desk/")?)?;
//! Ok(write(alloc, &map)?)
//! ```
#![tactic(auto)]

mod salvaged;

pub use gvdb_maps::{Keys, Locks, MAX_DATABASE_LEN, Map, MapBuilder, TooBig, WriteFault, write};
pub use salvaged::{SalvageFault, name_of, salvage};
