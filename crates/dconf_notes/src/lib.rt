//! Notes of what was set, as they stand in a file that programs share: read from anybody's bytes, and written. What a turn notes of itself,
//! of the files that were left, and of what was set: by [`turn_written`], and again by [`turn_read`].
//!
//! What is read is whole, or nothing; and no bytes say two things. Nothing is opened here.
//!
//! Where `turn` left no file before, and `set` is a note of `/user/desk/size`:
//!
//! ```
//! let mut room = vec![in alloc; 0; 1000]?;
//! let len = turn_written(alloc, &[set], &turn, &mut room)?;
//! let read = turn_read(alloc, &room[..len.min(1000)])?;
//! Ok(read.set.len() == 1 && turn_read(alloc, b"dconfdb times 1")?.set.is_empty())
//! ```
#![tactic(auto)]

ghost use Rattle.dconf_notes.specs.Records.{SaysOneThing};
ghost use Rattle.dconf_notes.specs.Turned.{TheNextTurnReads};

mod reading;
mod turn;
mod writing;

/// A file of notes has no more bytes;
pub const MOST_BYTES: usize = 1_048_576;

/// and of what was set so many, and so many bytes of them, which leave room for that of the turn, and for that of the files that were left.
pub const MOST_SET_BYTES: usize = 1_044_480;

pub const MOST_SET_NOTES: usize = 8190;

pub use reading::notes_read;
pub use turn::{TurnLeaves, TurnRead, turn_read, turn_written};
pub use writing::notes_written;

/// No bytes are those of two lists of notes: what was written is what is read.
pub fn what_is_written_is_read()
    ensures { SaysOneThing }
{}

/// What a turn notes is what the next one reads, if it is no longer than a file may be.
pub fn what_a_turn_notes_is_read()
    ensures { TheNextTurnReads }
{}
