//! The text of a value.
ghost use Rattle.std.specs.Prelude.{◌≡◌, ◌≢◌};
ghost use Rattle.dconfdb_calls.specs.Given.{SpellsType};
ghost use Rattle.dconfdb_calls.specs.Printed.{IsPrinted, IsUnprintedTold};

use dconfdb_calls::{hand_out, value_text};
use std::alloc::Global;

/// The text of the value that bytes have at the type that a text spells, annotated so that it can
/// be read back: what `dconfdb read` prints. It is handed out as `dconfdb_list` does. Else the
/// number of why there is none, and nothing changes.
#[unsafe(no_mangle)]
pub extern "C" fn dconfdb_print_value(
    alloc: Global,
    type_text: &[u8],
    value: &[u8],
    room: &mut [u8],
    len: &mut usize,
) -> u32
    ensures done { result ≡ 0 → IsPrinted type_text.now value.now room.old room.new len.new }
    ensures typed { result ≡ 0 → SpellsType type_text.now }
    ensures refused { result ≢ 0 → IsUnprintedTold type_text.now value.now result }
    ensures kept { result ≢ 0 → (room.new ≡ room.old) × (len.new ≡ len.old) }
{
    match value_text(alloc, type_text, value) {
        Ok(text) => {
            *len = hand_out(text.as_str().as_bytes(), room);
            0
        }
        Err(why) => why.number(),
    }
}
