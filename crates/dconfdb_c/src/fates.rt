//! What is said of a bad database.
ghost use Rattle.std.specs.Prelude.{◌≡◌, ◌≢◌};
ghost use Rattle.dconfdb_calls.specs.Fates.{text_by, counting_locks};
ghost use Rattle.dconfdb_calls.specs.Given.{HandsOut};

use dconfdb_calls::{Fate, Fault, hand_out};
use std::alloc::Global;

/// What is said of a bad database, after what is wrong with it: how many values and locks of it count, or, if a change put a new file into
/// its place (`is_aside`), how the text goes on after the name that it has now. `is_first` says whether it is the first database of the
/// profile, whose locks never count. The text is handed out as `dconfdb_list` does. Else it is the number of `Memory`, and nothing changes.
#[unsafe(no_mangle)]
pub extern "C" fn dconfdb_fate_text(
    alloc: Global,
    keys: usize,
    locks: usize,
    is_first: bool,
    is_aside: bool,
    room: &mut [u8],
    len: &mut usize,
) -> u32
    ensures done { result ≡ 0 → HandsOut (text_by is_aside keys (counting_locks is_first locks)) room.old room.new len.new }
    ensures memory { result ≢ 0 → result ≡ 1 }
    ensures kept { result ≢ 0 → (room.new ≡ room.old) × (len.new ≡ len.old) }
{
    let fate = Fate {
        keys,
        locks,
        is_first,
        is_aside,
    };
    match fate.text(alloc) {
        Ok(text) => {
            *len = hand_out(text.as_str().as_bytes(), room);
            0
        }
        Err(_) => Fault::Memory.number(),
    }
}
