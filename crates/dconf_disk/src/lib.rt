//! The current folder of the host, and a file replaced in a folder, so that a crash leaves the old bytes or the new ones.
//!
//! [`StdFolder`] is the current folder of the host; all other folders are dconf_folders', whose names are here, too. [`replace`] works
//! in any: it writes the new file whole, under a name of its own, before that takes the name of the old one. That name is the same for
//! all, so several programs take turns: a [`FolderLock`] is one program's turn, for which [`FolderLock::take`] waits ten seconds at
//! most. No call on the host copies a file's bytes.
//!
//! Files are replaced by who holds the turn to. A `StdFolder` that can be written is had by [`StdFolder::in_turn`] alone, which takes
//! the lock and holds it; any other answers `Device` to each writing call, and does nothing.
//!
//! A host is not known, but what it was asked and answered is: a `StdFolder` notes that, for clauses alone. Its past is what was done before its
//! first call, which is any, and what it noted; it is honest as long as each answer is true of that. What stays to be believed is that it makes the
//! calls that it notes, that what a host says is synced stays, and that nobody else writes there meanwhile.
//!
//! ```
//! let mut folder = MemoryFolder::new(alloc);
//! replace(alloc, &mut folder, "me.user", b"new")?;
//! folder.crash(0)?;
//! let bytes = folder.read(alloc, "me.user")?;
//! Ok(bytes.is_some_and(|it| it.as_slice() == b"new".as_slice()))
//! ```
#![tactic(auto)]

mod flag;
mod host;
mod lock;
mod modes;
mod reading;
mod replacement;

pub use dconf_folders::{Folder, FolderFault, LARGEST_FILE, MemoryFolder, Old, Record, folder_of};
pub use host::StdFolder;
pub use lock::{FolderLock, LockFault};
pub use replacement::replace;
