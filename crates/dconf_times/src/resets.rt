//! When what waits counts as set, where the reset of a directory waits too.
ghost use Rattle.std.specs.Prelude.{◌≡◌, map};
ghost use Rattle.std.specs.List.{list_any};
ghost use Rattle.dconf_times.specs.Resets.{is_in, is_in_reset, is_reset, moment_beside};
ghost use Rattle.dconf_times.specs.Times.{note_of};

use crate::times::{DconfdbTime, covers};

/// The moment in which a change of these edits counts as made that was asked for in this one, beside the edits that are written with it. It
/// is the same; or the turn's, which is the last of all moments, if the change resets a directory, or sets something in one that is reset
/// with it. It looks at each edit of the change once, and once more for each directory.
pub fn moment_beside(change: &[DconfdbTime<'_>], others: &[DconfdbTime<'_>], moment: u64) -> u64
    ensures { result ≡ moment_beside (map note_of change.now) (map note_of others.now) moment }
{
    if has_reset(change) || is_in_reset(change, others) {
        u64::MAX
    } else {
        moment
    }
}

/// Whether it resets a directory.
fn has_reset(change: &[DconfdbTime<'_>]) -> bool
    ensures { result ≡ list_any is_reset (map note_of change.now) }
{
    for edit in change {
        if edit.path.ends_with(b"/") {
            return true;
        }
    }
    false
}

/// Whether something of it is in a directory that others reset.
fn is_in_reset(change: &[DconfdbTime<'_>], others: &[DconfdbTime<'_>]) -> bool
    ensures { result ≡ list_any (is_in_reset (map note_of change.now)) (map note_of others.now) }
{
    for other in others {
        if other.path.ends_with(b"/") && has_in(change, other.path) {
            return true;
        }
    }
    false
}

/// Whether an edit is of the directory itself, or of what is in it.
fn has_in(change: &[DconfdbTime<'_>], directory: &[u8]) -> bool
    ensures { result ≡ list_any (is_in directory.now) (map note_of change.now) }
{
    for edit in change {
        if covers(directory, edit.path) {
            return true;
        }
    }
    false
}
