//! The value of a text.
ghost use Rattle.std.specs.Prelude.{◌≡◌, ◌≢◌, ℕ, IsUtf8, List};
ghost use Rattle.dconfdb_calls.specs.Given.{HandsOut};
ghost use Rattle.dconfdb_values.specs.Parsed.{IsParsed, IsUnparsedTold};

use dconfdb_calls::hand_out;
use dconfdb_values::value_of_text;
use std::alloc::Global;

/// The value that a text has by its own type: its bytes in normal form, `size` of them, and behind
/// them the text of that type, handed out as `dconfdb_list` does. Else the number of why there is
/// none, and nothing changes but `start` and `end`: where the fault is in the text, or 0.
#[unsafe(no_mangle)]
pub extern "C" fn dconfdb_parse_value(
    alloc: Global,
    text: &[u8],
    room: &mut [u8],
    len: &mut usize,
    size: &mut usize,
    start: &mut usize,
    end: &mut usize,
) -> u32
    ensures done { result ≡ 0 → (block : List ℕ) × IsParsed text.now block size.new × HandsOut block room.old room.new len.new }
    ensures text { result ≡ 0 → IsUtf8 text.now }
    ensures silent { result ≡ 0 → (start.new ≡ start.old) × (end.new ≡ end.old) }
    ensures refused { result ≢ 0 → IsUnparsedTold text.now result start.new end.new }
    ensures kept { result ≢ 0 → (room.new ≡ room.old) × (len.new ≡ len.old) × (size.new ≡ size.old) }
{
    match value_of_text(alloc, text) {
        Ok(value) => {
            *len = hand_out(value.block.as_slice(), room);
            *size = value.size;
            0
        }
        Err(why) => {
            let place = why.place();
            *start = place.start;
            *end = place.end;
            why.number()
        }
    }
}
