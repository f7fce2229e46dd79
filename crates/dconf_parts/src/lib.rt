//! What was made of a file once, beside what the file is now: whether it is kept, whether it is the newest, and whether a file is the one that a
//! change would have made. By [`beside`], and, of several files at once, by [`among`]. And how large a file may be, and whether it is mapped, by
//! [`largest`] and [`is_mapped`]; and what comes after a call that moves bytes into a file or out of it, by [`moved`].
//!
//! Nothing is kept here, and nothing is asked of the host.
#![tactic(auto)]

ghost use Rattle.dconf_parts.specs.Moving.{EachByteIsMoved};
ghost use Rattle.dconf_parts.specs.Several.{WhatDiffersIsSeen};
ghost use Rattle.dconf_parts.specs.Parts.{WhatIsKeptIsTheSame};

mod moving;
mod parts;
mod several;
mod sizes;

pub use moving::{NextMove, is_cut, moved, moved_number, moved_to};
pub use parts::{
    DconfdbPartSeen, Likeness, Purpose, beside, beside_number, is_one_file, known_after, placed,
};
pub use several::{among, among_number};
pub use sizes::{Kind, is_mapped, largest, largest_number};

/// What is kept is of the same file, as far as the host tells; and what was read and is kept is the same bytes, or fails by the same fault.
pub fn what_is_kept_is_the_same()
    ensures { WhatIsKeptIsTheSame }
{}

/// Of several files one that is another one is seen, wherever it stands among those of which nobody is sure; and all are the same only if each is.
pub fn what_differs_is_seen()
    ensures { WhatDiffersIsSeen }
{}

/// Of what is wanted each byte is moved once: what was moved stays so, all are moved only where each is, and another call is made only after one that moved
/// some, or that was interrupted. And a file ends with what was written last.
pub fn each_byte_is_moved()
    ensures { EachByteIsMoved }
{}
