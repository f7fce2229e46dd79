//! The room that a value's bytes take, as far as that is told at sight, so that a buffer seldom grows.

use crate::array::element_size;
use crate::buffer::MAX_LEN;
use gv_tree::{Basic, Shape, Tree};

/// How many of an array's texts are looked at.
const MEASURED: usize = 16;

/// About so many bytes: all of a basic value and of an array of values of a fixed size, and those of
/// the first texts of an array; of other values none.
pub(crate) fn room(tree: &Tree) -> usize {
    let room = match tree.shape() {
        Shape::Basic(value) => basic_room(value),
        Shape::Array(elements) => match element_size(tree.type_text()) {
            Some(size) => size.saturating_mul(elements.len()),
            None => texts_room(elements),
        },
        _ => 0,
    };
    room.min(MAX_LEN)
}

/// The bytes of a text, or as many as any number has at most.
fn basic_room(value: &Basic) -> usize {
    match value {
        Basic::Text(text) | Basic::ObjectPath(text) | Basic::Signature(text) => {
            text.len().saturating_add(1)
        }
        _ => 8,
    }
}

/// The bytes of the first texts of an array, and an offset of one byte for each. A long array's buffer
/// grows, which costs less than a look at each text.
fn texts_room(elements: &[Tree]) -> usize {
    let mut room: usize = 0;
    for element in elements.iter().take(MEASURED) {
        if let Shape::Basic(value) = element.shape() {
            room = room.saturating_add(basic_room(value)).saturating_add(1);
        }
    }
    room
}
