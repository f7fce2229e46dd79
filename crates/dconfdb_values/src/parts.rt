//! The children of a container.
ghost use Rattle.std.specs.Prelude.{◌≡◌, ◌≤◌, IfSome, option_map};
ghost use Rattle.gv_model.specs.Tree.{children, tree_at, trees_len};
ghost use Rattle.gv_model.specs.TypeText.{type_at};
ghost use Rattle.gv_model.specs.Decode.{decode};
ghost use Rattle.gv_model.specs.Ty.{spelling};
ghost use Rattle.gv_view.specs.Views.{shown, value, view_bytes, view_ty};
ghost use Rattle.dconfdb_values.specs.Order.{ArePassed};
ghost use Rattle.dconfdb_values.specs.OpenArrays.{IsFramed};
ghost use Rattle.dconfdb_values.specs.Parts.{IsFound, IsLentChild, part_value, shown_part};

use crate::entries::{entry_at_path, has_paths};
use crate::open_array::OpenArray;
use crate::typed::view_of;
use gv_view::View;

/// A value in a value: its bytes and the text of its type, both lent from where it was found, or the
/// library's own.
#[repr(C)]
#[derive(Clone, Copy)]
pub struct DconfdbPart<'a> {
    pub value: &'a [u8],
    pub type_text: &'a [u8],
}

/// How many children the value has that the bytes are at the type that the text spells: members,
/// elements, entries; 1 of a variant and of a maybe that has a value; 2 of an entry; 0 of any other
/// type, and where the text spells none.
///
/// It looks at the type's text and at the last framing offset of the bytes.
pub fn n_children(type_text: &[u8], bytes: &[u8]) -> usize
    ensures { result ≡ trees_len (children (decode (type_at type_text.now) bytes.now)) }
{
    match view_of(type_text, bytes) {
        Some(view) => view.n_children(),
        None => 0,
    }
}

/// The child at the index, from 0. None where there are no more.
///
/// `passed` says how many of the first children are known to be in order. Before any call it is 0, which is so
/// of all bytes; a call leaves there what the next one of the same bytes may begin with. So a walk over the
/// indices looks at each framing offset once, forwards, backwards or in any other order. A member is found along
/// the type's text.
pub fn child<'a>(
    type_text: &'a [u8],
    bytes: &'a [u8],
    index: usize,
    passed: &mut usize,
) -> Option<DconfdbPart<'a>>
    requires order { ArePassed (type_at type_text.now) bytes.now passed.now }
    ensures value { option_map part_value result ≡ tree_at (children (decode (type_at type_text.entry.now) bytes.entry.now)) index }
    ensures lent { IfSome result (IsLentChild type_text.entry.now bytes.entry.now index) }
    ensures order { ArePassed (type_at type_text.entry.now) bytes.entry.now passed.new }
    ensures onward { passed.old ≤ passed.new }
{
    if let Some(array) = OpenArray::of_texts(type_text, bytes) {
        return element(type_text, bytes, array, index, passed);
    }
    let view = view_of(type_text, bytes)?;
    match OpenArray::of(view) {
        Some(array) => element(type_text, bytes, array, index, passed),
        None => Some(part_of(view.child(index)?)),
    }
}

/// The element at the index of the array that these bytes are at the type that the text spells.
#[inline(always)]
fn element<'a>(
    type_text: &'a [u8],
    bytes: &'a [u8],
    array: OpenArray<'a>,
    index: usize,
    passed: &mut usize,
) -> Option<DconfdbPart<'a>>
    requires array { IsFramed (type_at type_text.now) bytes.now array }
    requires order { ArePassed (type_at type_text.now) bytes.now passed.now }
    ensures value { option_map part_value result ≡ tree_at (children (decode (type_at type_text.entry.now) bytes.entry.now)) index }
    ensures lent { IfSome result (IsLentChild type_text.entry.now bytes.entry.now index) }
    ensures order { ArePassed (type_at type_text.entry.now) bytes.entry.now passed.new }
    ensures onward { passed.old ≤ passed.new }
{
    let _of = type_text;
    let reached = array.reach(index, *passed)?;
    *passed = reached.passed;
    Some(DconfdbPart {
        value: &bytes[reached.from..reached.to],
        type_text: array.element,
    })
}

/// The value of the first entry with this key in a dictionary of strings, `a{sT}`, or of object paths,
/// `a{oT}`. None where no entry has it, and at any other type.
///
/// It goes over the entries once.
pub fn lookup<'a>(type_text: &'a [u8], bytes: &'a [u8], key: &str) -> Option<DconfdbPart<'a>>
    ensures { IsFound (decode (type_at type_text.entry.now) bytes.entry.now) key.now (option_map part_value result) }
{
    let found = entry_at(view_of(type_text, bytes)?, key)?;
    Some(part_of(found))
}

/// The value of the first entry with this key.
fn entry_at<'a>(view: View<'a>, key: &str) -> Option<View<'a>>
    ensures { IsFound (value view.entry) key.now (option_map value result) }
{
    if has_paths(view.type_str()) {
        entry_at_path(view, key)
    } else {
        view.entry(key)
    }
}

/// What a view shows, as C takes it.
fn part_of<'a>(view: View<'a>) -> DconfdbPart<'a>
    ensures shown { shown_part result ≡ shown view.entry }
    ensures value { result.value.now ≡ view_bytes view.entry }
    ensures type_text { result.type_text.now ≡ spelling (view_ty view.entry) }
{
    DconfdbPart {
        value: view.bytes(),
        type_text: view.type_str().as_str().as_bytes(),
    }
}
