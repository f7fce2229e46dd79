//! Folders of files, and one of them in memory.
//!
//! A [`Folder`] is known by what was done to it: its contracts speak of the list of those events, and the definitions of what a
//! name stands for, and of what a crash may leave, are dconf_model's. [`MemoryFolder`] is that list, with a device that fails
//! when it is told to, and crashes. The host's folder is dconf_disk's; of that, the [`Record`] of its calls is
//! here.
//!
//! No call stops the program or runs without end. A fault is a [`FolderFault`]: of the device, which the folder counts, of a file of more than [`LARGEST_FILE`] bytes, or of memory.
//!
//! A read holds a file's bytes once. A `MemoryFolder` is for tests: it keeps each byte that was ever appended, and its calls go back
//! through those before them.
#![tactic(auto)]

mod aside;
mod calls;
mod crash;
mod fault;
mod folder;
mod memory;
mod old;
mod parent;
mod record;

pub use aside::aside_name;
pub use fault::FolderFault;
pub use folder::{Folder, LARGEST_FILE};
pub use memory::MemoryFolder;
pub use old::Old;
pub use parent::folder_of;
pub use record::Record;
