//! Whether a number occurs twice in a list whose numbers don't rise. In dconf's they come in the order of their keys. Flags
//! tell which were seen.
ghost use Rattle.std.specs.Prelude.{◌%◌, ◌≡◌, ◌≢◌, ◌<◌, ℕ, IsTrue};
ghost use Rattle.dconf_model.specs.Table.{HasBytes, item_count};
ghost use Rattle.dconf_model.specs.Sound.{list_length, listed};
ghost use Rattle.gvdb_check.specs.Counted.{IsOnce, IsOnceInPart};
ghost use Rattle.gvdb_format.specs.Tables.{region};

use crate::flags::{FLAGS, is_set};
use crate::lists::{lists_once, numbers};
use gvdb_format::{RawTable, number};

/// So many numbers are quicker compared with each other.
const SHORT_LIST: usize = 64;

/// Whether no number is seen to occur twice in the list. Of a long one it looks at each once for each 32,768 items of the
/// table. It is kept apart, with its flags on the stack.
#[inline(never)]
pub(crate) fn is_once(table: RawTable<'_>, i: u32) -> bool
    requires counted { i < item_count (region table) }
    requires valid { HasBytes (region table) i }
    ensures { IsTrue result → IsOnce (region table.entry) i }
{
    if numbers(table, i).len() <= SHORT_LIST {
        return lists_once(table, i);
    }
    is_once_by_flags(table, i)
}

/// The same, by flags. So many parts of the items have a flag for each.
fn is_once_by_flags(table: RawTable<'_>, i: u32) -> bool
    requires counted { i < item_count (region table) }
    requires valid { HasBytes (region table) i }
    ensures { IsTrue result → IsOnce (region table.entry) i }
{
    let parts = table.n_items() / FLAGS as u32 + 1;
    for part in 0..parts {
        if !is_once_in_part(table, i, part, parts) {
            return false;
        }
    }
    true
}

/// The same, of the numbers of one part.
fn is_once_in_part(table: RawTable<'_>, i: u32, part: u32, parts: u32) -> bool
    requires counted { i < item_count (region table) }
    requires valid { HasBytes (region table) i }
    requires parts { 0 < parts }
    ensures { IsTrue result → IsOnceInPart (region table.entry) i part parts }
{
    let mut seen = [false; FLAGS];
    for bytes in numbers(table, i) {
        if is_set(number(bytes), part, parts, &mut seen) {
            return false;
        }
    }
    true
}
