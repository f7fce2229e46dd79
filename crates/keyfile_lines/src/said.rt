//! What is said of a line.
use crate::fault::LineFault;
use dconf_places::PathParts;

/// What is said of a line. The texts are lent from the line, or are this crate's own.
#[derive(Clone, Copy)]
pub enum Said<'a> {
    /// Nothing is to be said: it is empty, a comment, names a group, or has a key below a line that should name a group and names none.
    Nothing,
    /// A key of this path is set to the value of this text, of which nothing is known.
    Sets { path: PathParts<'a>, text: &'a [u8] },
    /// The path, of a key or of a directory, is locked.
    Locks(&'a [u8]),
    /// In a lock file: it locks nothing, though it is neither empty nor a comment.
    LocksNothing,
    /// It is refused.
    Fault(LineFault),
}
