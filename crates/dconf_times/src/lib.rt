//! Who set what last, for programs that take turns to write: each notes what it sets, and when, and
//! leaves out what another one has set later, together with all that was to be made with it.
//!
//! A note is of a key, or of a directory of which all keys were reset. One of the future counts for
//! nothing: a clock was wrong. Nothing is kept here; the caller lends the notes, and stores what
//! [`note_times`] makes of them.
//!
//! Where `noted` says that `/desk/` was reset at 5, and `set` that `/desk/size` is set at 8:
//!
//! ```
//! let kept = note_times(alloc, noted, set, 9, 1024)?;
//! let is_older = is_overtaken(kept.as_slice(), b"/desk/size", 7, 9);
//! Ok(is_older && !is_overtaken(kept.as_slice(), b"/desk/name", 7, 9))
//! ```
#![tactic(auto)]

mod laws;
mod leaving;
mod moments;
mod notes;
mod resets;
mod room;
mod seeing;
mod times;

pub use laws::{
    a_change_is_whole, moments_are_kept, moments_are_timed, no_older_edit_wins, none_is_forgotten,
    none_is_later, one_edit_counts, the_latest_note_counts, the_latest_stands,
};
pub use leaving::{DconfdbAsked, leave_out};
pub use moments::{time_of_file, time_of_moment};
pub use notes::note_times;
pub use resets::moment_beside;
pub use room::newest;
pub use seeing::{DconfdbSeen, note_made, note_seen};
pub use times::{DconfdbTime, is_overtaken, latest_of};
