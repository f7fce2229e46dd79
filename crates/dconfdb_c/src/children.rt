//! All children of a value at once.
ghost use Rattle.std.specs.Prelude.{◌≡◌};
ghost use Rattle.gv_model.specs.Decode.{decode};
ghost use Rattle.gv_model.specs.Parts.{parts};
ghost use Rattle.gv_model.specs.Tree.{children, trees_len};
ghost use Rattle.gv_model.specs.TypeText.{type_at};
ghost use Rattle.dconfdb_values.specs.Listing.{ArePut};

use dconfdb_values::{DconfdbChild, put_children};

/// Puts the children of a value into the room, in order, as many as it takes, lent from the value's bytes,
/// each with the origin that is given and with none of its own children passed; what is behind them stays. It says how many children there are: 0 if the
/// text spells no type.
#[unsafe(no_mangle)]
pub extern "C" fn dconfdb_put_children<'a>(
    type_text: &'a [u8],
    value: &'a [u8],
    origin: usize,
    room: &mut [DconfdbChild<'a>],
) -> usize
    ensures count { result ≡ trees_len (children (decode (type_at type_text.entry.now) value.entry.now)) }
    ensures put { ArePut origin (parts (type_at type_text.entry.now) value.entry.now) room.old room.new }
{
    put_children(type_text, value, origin, room)
}
