//! Why a text is no path, in the words of the command.
ghost use Rattle.std.specs.Prelude.{◌≡◌};
ghost use Rattle.dconf_texts.specs.Refused.{TheFirstFaultIsTold, refused_as, refused_by_length};

use crate::kinds::{PathKind, is_short, kind_of};

/// Why a text is neither a key's path nor a directory's: 0 it is one, 1 it doesn't start with `/`, 2 it has a zero byte, 3 it has `//`, 4 it is too long. Of
/// several faults it is the first.
pub fn refused_as(text: &[u8]) -> u32
    ensures { result ≡ refused_as text.now }
{
    match kind_of(text) {
        PathKind::NotAbsolute => 1,
        PathKind::HasNul => 2,
        PathKind::DoubleSlash => 3,
        _ => refused_by_length(text),
    }
}

/// The same of a text in which nothing else is wrong.
fn refused_by_length(text: &[u8]) -> u32
    ensures { result ≡ refused_by_length text.now }
{
    if is_short(text) { 0 } else { 4 }
}

/// The fault that is told is the one that a lock's path would be refused by, which may be a key's or a directory's.
pub fn the_first_fault_is_told()
    ensures { TheFirstFaultIsTold }
{}
