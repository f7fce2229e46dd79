//! All children of a container at once.
ghost use Rattle.std.specs.Prelude.{◌≡◌};
ghost use Rattle.gv_model.specs.Parts.{parts};
ghost use Rattle.gv_model.specs.Tree.{children, trees_len};
ghost use Rattle.gv_model.specs.TypeText.{type_at};
ghost use Rattle.gv_model.specs.Decode.{decode};
ghost use Rattle.gv_view.specs.Children.{children_left};
ghost use Rattle.gv_view.specs.Views.{shown};
ghost use Rattle.dconfdb_values.specs.Listing.{ArePut, told_child};

use crate::parts::n_children;
use crate::typed::view_of;
use gv_view::{Children, View};

/// A child: its bytes and the text of its type, both lent from where it was found or the library's own, the
/// index that was handed in with the whole, and how many of its own first children are known to be in order,
/// which is none. libdconfdb's own value has this layout, so that it is put in place.
#[repr(C)]
#[derive(Clone, Copy)]
pub struct DconfdbChild<'a> {
    pub value: &'a [u8],
    pub type_text: &'a [u8],
    pub origin: usize,
    pub passed: usize,
}

/// Puts the children of the value that the bytes are at the type that the text spells into the room, in
/// order, as many as it takes; what is behind them stays. It gives how many children there are, which is 0 if
/// the text spells no type.
///
/// It goes along them once: so each costs the same, whatever stands before it.
pub fn put_children<'a>(
    type_text: &'a [u8],
    bytes: &'a [u8],
    origin: usize,
    room: &mut [DconfdbChild<'a>],
) -> usize
    ensures count { result ≡ trees_len (children (decode (type_at type_text.entry.now) bytes.entry.now)) }
    ensures put { ArePut origin (parts (type_at type_text.entry.now) bytes.entry.now) room.old room.new }
{
    if let Some(view) = view_of(type_text, bytes) {
        fill(view.children(), origin, room);
    }
    n_children(type_text, bytes)
}

/// Puts the children that are left into the room, as many as it takes.
fn fill<'a>(children: Children<'a>, origin: usize, room: &mut [DconfdbChild<'a>])
    ensures { ArePut origin (children_left children.entry) room.old room.new }
{
    let mut left = children;
    for place in 0..room.len() {
        match left.next() {
            Some(child) => room[place] = child_of(child, origin),
            None => return,
        }
    }
}

/// What a view shows, as C takes it.
fn child_of<'a>(view: View<'a>, origin: usize) -> DconfdbChild<'a>
    ensures { told_child result ≡ (origin, (0, shown view.entry)) }
{
    DconfdbChild {
        value: view.bytes(),
        type_text: view.type_str().as_str().as_bytes(),
        origin,
        passed: 0,
    }
}
