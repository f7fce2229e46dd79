//! Tuples and entries of no fixed size (GVariant Specification, "Structures" and "Dictionary Entries"): each member
//! begins where the one before ends, aligned; the framing offsets come behind the members, the first one last.
ghost use Rattle.std.specs.Prelude.{◌≡◌, ◌≤◌, ◌<◌, ◌+◌, ◌^◌, ◌↔◌, suc, IsTrue, IfSome, None, length};
ghost use Rattle.gv_model.specs.Ty.{spelling};
ghost use Rattle.gv_model.specs.Layout.{fixed_size};
ghost use Rattle.gv_types.specs.TypeStr.{ty};
ghost use Rattle.gv_normal.specs.InPlace.{IsNormalWithin, HasMembers};
ghost use Rattle.gv_model.specs.Laws.{most_values};
ghost use Rattle.gv_normal.specs.Tables.{member_place};
ghost use Rattle.gv_model.specs.Tree.{nodes};
ghost use Rattle.gv_model.specs.Decode.{decode};

use crate::fixed::is_normal_fixed;
use crate::in_place::is_normal_open;
use crate::padding::{is_narrow, lies_after};
use gv_layout::{aligned_after, fixed_size, number, offset_width};
use gv_types::{Steps, TypeStr};

/// Whether the members of a tuple or an entry are normal, and no deeper than so many levels, and lie as they are
/// written.
#[cycle(normal)]
pub(crate) fn are_normal_members(
    of: TypeStr<'_>,
    bytes: &[u8],
    levels: u8,
    steps: &mut Steps,
) -> bool
    requires kind { HasMembers (ty of) }
    requires open { fixed_size (ty of) ≡ None }
    requires room { steps.old + most_values (length bytes.now) (length (spelling (ty of))) ≤ 2 ^ 128 }
    ensures normal { IsTrue result ↔ IsNormalWithin (suc levels) (ty of.entry) bytes.now }
    ensures few { steps.new + 1 ≤ steps.old + most_values (length bytes.now) (length (spelling (ty of.entry))) }
    ensures exact { IsTrue result → steps.new + 1 ≡ steps.old + nodes (decode (ty of.entry) bytes.now) }
    ensures grows { steps.old ≤ steps.new }
{
    let width = usize::from(offset_width(bytes.len()));
    let mut members = of.members();
    let mut end = 0;
    // Where the offsets begin that were read.
    let mut tail = bytes.len();
    while let Some(member) = members.next() {
        let size = fixed_size(member);
        let from = aligned_after(end, member);
        let is_last = members.is_empty();
        let Some((to, before)) = member_place(bytes, width, tail, from, size, is_last) else {
            return false;
        };
        if !lies_after(bytes, end, from, to) {
            return false;
        }
        if !is_normal_member(member, size, &bytes[from..to], levels, steps) {
            return false;
        }
        end = to;
        tail = before;
    }
    end == tail && (tail == bytes.len() || is_narrow(end, (bytes.len() - tail) / width, width))
}

/// Whether a member of this size, or of none, is normal.
#[cycle(normal)]
fn is_normal_member(
    member: TypeStr<'_>,
    size: Option<usize>,
    bytes: &[u8],
    levels: u8,
    steps: &mut Steps,
) -> bool
    requires size { fixed_size (ty member) ≡ size }
    requires fits { IfSome size (λ n. length bytes.now ≡ n) }
    requires room { steps.old + most_values (length bytes.now) (length (spelling (ty member))) < 2 ^ 128 }
    ensures normal { IsTrue result ↔ IsNormalWithin levels (ty member.entry) bytes.now }
    ensures few { steps.new ≤ steps.old + most_values (length bytes.now) (length (spelling (ty member.entry))) }
    ensures exact { IsTrue result → steps.new ≡ steps.old + nodes (decode (ty member.entry) bytes.now) }
    ensures grows { steps.old ≤ steps.new }
{
    match size {
        Some(_) => is_normal_fixed(member, bytes, levels, steps),
        None => is_normal_open(member, bytes, levels, steps),
    }
}

/// Where a member ends that begins at `from`, and where the offsets begin that are read then. Those from `tail` on were
/// read before. None where its offset isn't there.
fn member_place(
    bytes: &[u8],
    width: usize,
    tail: usize,
    from: usize,
    size: Option<usize>,
    is_last: bool,
) -> Option<(usize, usize)>
    requires within { tail ≤ length bytes.now }
    requires narrow { width ≤ 8 }
    requires small { IfSome size (λ n. from + n < 2 ^ 64) }
    ensures { result ≡ member_place width bytes.now tail from size is_last }
{
    if let Some(size) = size {
        return Some((from + size, tail));
    }
    if is_last {
        return Some((tail, tail));
    }
    if width == 0 || tail < width {
        return None;
    }
    let before = tail - width;
    Some((number(&bytes[before..tail]), before))
}
