//! Arrays (GVariant Specification, "Arrays"): elements of a fixed size one after the other, any others by the framing
//! offsets of their ends, which come behind them.
ghost use Rattle.std.specs.Prelude.{◌≡◌, ◌≤◌, ◌<◌, ◌+◌, ◌%◌, ◌^◌, ◌↔◌, suc, IsTrue, MatchOption, Some, None, length};
ghost use Rattle.gv_model.specs.Ty.{spelling, Ty.array};
ghost use Rattle.gv_model.specs.Layout.{alignment, fixed_size};
ghost use Rattle.gv_model.specs.Arrays.{elements_end};
ghost use Rattle.gv_types.specs.Classes.{basic_of};
ghost use Rattle.gv_types.specs.TypeStr.{ty};
ghost use Rattle.gv_normal.specs.InPlace.{IsNormalWithin, AreNormalNumbers};
ghost use Rattle.gv_model.specs.Laws.{most_values};
ghost use Rattle.gv_normal.specs.Tables.{HasTable};
ghost use Rattle.gv_model.specs.Tree.{nodes};
ghost use Rattle.gv_model.specs.Decode.{decode};

use crate::fixed::is_normal_fixed;
use crate::in_place::is_normal_open;
use crate::padding::{is_narrow, lies_after};
use gv_layout::{number, offset_width, round_up, type_info};
use gv_types::{BasicType, Class, Steps, TypeStr};

/// Whether bytes are normal at an array of this type, whose elements have no more than so many levels.
///
/// Of numbers it looks at the bytes of booleans alone, and counts a step for each.
#[cycle(normal)]
pub(crate) fn is_normal_array(
    element: TypeStr<'_>,
    bytes: &[u8],
    levels: u8,
    steps: &mut Steps,
) -> bool
    requires room { steps.old + most_values (length bytes.now) (suc (length (spelling (ty element)))) ≤ 2 ^ 128 }
    ensures normal { IsTrue result ↔ IsNormalWithin (suc levels) (array (ty element.entry)) bytes.now }
    ensures few { steps.new + 1 ≤ steps.old + most_values (length bytes.now) (suc (length (spelling (ty element.entry)))) }
    ensures exact { IsTrue result → steps.new + 1 ≡ steps.old + nodes (decode (array (ty element.entry)) bytes.now) }
    ensures grows { steps.old ≤ steps.new }
{
    if bytes.is_empty() {
        return true;
    }
    let layout = type_info(element);
    let Some(size) = layout.size else {
        return are_normal_elements(element, layout.alignment, bytes, levels, steps);
    };
    if bytes.len() % size != 0 {
        return false;
    }
    match element.class() {
        Class::Basic(of) => levels > 0 && are_normal_numbers(of, bytes, bytes.len() / size, steps),
        _ => are_normal_fixed_elements(element, size, bytes, levels, steps),
    }
}

/// Whether the bytes of so many numbers are normal in an array: booleans are 0 or 1.
fn are_normal_numbers(of: BasicType, bytes: &[u8], count: usize, steps: &mut Steps) -> bool
    requires room { steps.old + count < 2 ^ 128 }
    ensures normal { IsTrue result ↔ AreNormalNumbers (basic_of of) bytes.now }
    ensures counts { steps.new ≡ steps.old + count }
{
    for _ in 0..count {
        steps.tick();
    }
    match of {
        BasicType::Boolean => bytes.iter().all(|byte| *byte <= 1),
        _ => true,
    }
}

/// Whether whole elements of a fixed size are normal.
fn are_normal_fixed_elements(
    element: TypeStr<'_>,
    size: usize,
    bytes: &[u8],
    levels: u8,
    steps: &mut Steps,
) -> bool
    requires size { fixed_size (ty element) ≡ Some size }
    requires even { length bytes.now % size ≡ 0 }
    requires room { steps.old + most_values (length bytes.now) (suc (length (spelling (ty element)))) ≤ 2 ^ 128 }
    ensures normal { IsTrue result ↔ IsNormalWithin (suc levels) (array (ty element.entry)) bytes.now }
    ensures few { steps.new + 1 ≤ steps.old + most_values (length bytes.now) (suc (length (spelling (ty element.entry)))) }
    ensures exact { IsTrue result → steps.new + 1 ≡ steps.old + nodes (decode (array (ty element.entry)) bytes.now) }
    ensures grows { steps.old ≤ steps.new }
{
    for i in 0..bytes.len() / size {
        let from = i * size;
        if !is_normal_fixed(element, &bytes[from..from + size], levels, steps) {
            return false;
        }
    }
    true
}

/// Whether elements of no fixed size are normal, that are some bytes.
#[cycle(normal)]
fn are_normal_elements(
    element: TypeStr<'_>,
    aligned_to: u8,
    bytes: &[u8],
    levels: u8,
    steps: &mut Steps,
) -> bool
    requires some { 0 < length bytes.now }
    requires open { fixed_size (ty element) ≡ None }
    requires aligned { aligned_to ≡ alignment (ty element) }
    requires room { steps.old + most_values (length bytes.now) (suc (length (spelling (ty element)))) ≤ 2 ^ 128 }
    ensures normal { IsTrue result ↔ IsNormalWithin (suc levels) (array (ty element.entry)) bytes.now }
    ensures few { steps.new + 1 ≤ steps.old + most_values (length bytes.now) (suc (length (spelling (ty element.entry)))) }
    ensures exact { IsTrue result → steps.new + 1 ≡ steps.old + nodes (decode (array (ty element.entry)) bytes.now) }
    ensures grows { steps.old ≤ steps.new }
{
    let Some(begin) = table_begin(bytes) else {
        return false;
    };
    let (body, offsets) = bytes.split_at(begin);
    let width = usize::from(offset_width(bytes.len()));
    let mut end = 0;
    for i in 0..offsets.len() / width {
        let at = i * width;
        let to = number(&offsets[at..at + width]);
        let from = round_up(end, aligned_to);
        if !lies_after(body, end, from, to) {
            return false;
        }
        if !is_normal_open(element, &body[from..to], levels, steps) {
            return false;
        }
        end = to;
    }
    end == begin
}

/// Where the offsets begin, if they are whole and as narrow as they can be.
fn table_begin(bytes: &[u8]) -> Option<usize>
    requires { 0 < length bytes.now }
    ensures { MatchOption result (¬ HasTable bytes.now) (λ e. (e ≡ elements_end bytes.now None) × HasTable bytes.now) }
{
    let width = usize::from(offset_width(bytes.len()));
    let begin = number(&bytes[bytes.len() - width..]);
    if begin >= bytes.len() || (bytes.len() - begin) % width != 0 {
        return None;
    }
    if is_narrow(begin, (bytes.len() - begin) / width, width) {
        Some(begin)
    } else {
        None
    }
}
