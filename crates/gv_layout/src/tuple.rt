//! Where the members of a tuple or an entry lie (GVariant Specification, "Structures" and "Dictionary Entries").
//! Each begins where the one before ends, aligned; the framing offsets occur at the end, the first one last.
ghost use Rattle.std.specs.Prelude.{◌≡◌, ◌<◌, ◌≤◌, ◌^◌, ◌+◌, ◌*◌, ◌⊎◌, MatchOption, IfSome, IsTrue, option_map, length, drop, [], ◌∷◌};
ghost use Rattle.gv_model.specs.Ty.{members};
ghost use Rattle.gv_model.specs.Layout.{fixed_size};
ghost use Rattle.gv_model.specs.Tuples.{tuple_spans, next_offset, members_end, offset_count};
ghost use Rattle.gv_model.specs.Children.{children_at, ordered};
ghost use Rattle.gv_types.specs.TypeStr.{ty};
ghost use Rattle.gv_types.specs.Members.{members_left};
ghost use Rattle.gv_layout.specs.Bodies.{placed_body};

use crate::offset::framing_offset;
use crate::place::Place;
use crate::size::{fixed_size, offset_width};
use crate::walk::begin;
use gv_types::{Members, TypeStr};

/// Members, of which the one before ends at `previous`, if its end is known and all before are in order. The last `used`
/// framing offsets belong to members before.
#[derive(Clone, Copy, Debug)]
pub(crate) struct ByMembers<'a, 'b> {
    members: Members<'a>,
    bytes: &'b [u8],
    width: usize,
    used: usize,
    previous: Option<usize>,
    body: usize,
    ghost narrow: { width ≤ 8 },
    ghost inside: { body ≤ length bytes.now },
    ghost after: { width * used ≤ length bytes.now },
    ghost few: { length (members_left members) < 2 ^ 64 },
}

impl<'a, 'b> ByMembers<'a, 'b> {
    ghost use Rattle.gv_layout.specs.Places.{child_of, clamp, end_by, by_members_left, lie_nowhere, unplaced_after};

    /// The members of a tuple or an entry.
    pub(crate) fn of_tuple(of: TypeStr<'a>, bytes: &'b [u8]) -> ByMembers<'a, 'b>
        ensures { by_members_left result
            ≡ children_at (length bytes.entry.now)
            (ordered (members_end (fixed_size (ty of.entry)) (members (ty of.entry)) bytes.entry.now) (tuple_spans (ty of.entry) (members (ty of.entry)) bytes.entry.now)) }
    {
        let members = of.members();
        let width = usize::from(offset_width(bytes.len()));
        let Some(body) = body_of(of, bytes) else {
            return ByMembers {
                members,
                bytes,
                width,
                used: 0,
                previous: None,
                body: 0,
            };
        };
        ByMembers {
            members,
            bytes,
            width,
            used: 0,
            previous: Some(0),
            body,
        }
    }

    /// How many children are left.
    pub(crate) fn len(self) -> usize
        ensures { result ≡ length (by_members_left self.entry) }
    {
        self.members.count()
    }

    /// The types of the children that are left, if one before them was out of order, so that none of them lies anywhere.
    #[inline(always)]
    pub(crate) fn unplaced(&self) -> Option<Members<'a>>
        ensures types { option_map members_left result ≡ unplaced_after self.now.previous (members_left self.now.members) }
        ensures nowhere { IfSome result (λ ms. by_members_left self.now ≡ lie_nowhere (members_left ms)) }
    {
        match self.previous {
            Some(_) => None,
            None => Some(self.members),
        }
    }

    /// The first child, and those after it.
    #[inline(always)]
    pub(crate) fn split_first(self) -> Option<(Place<'a>, ByMembers<'a, 'b>)>
        ensures { MatchOption result (by_members_left self.entry ≡ [])
            (λ r. by_members_left self.entry ≡ child_of r.0 ∷ by_members_left r.1) }
    {
        let mut members = self.members;
        let member = members.next()?;
        let is_last = members.is_empty();
        let nowhere = Place::nowhere(member);
        let unplaced = ByMembers {
            members,
            bytes: self.bytes,
            width: self.width,
            used: self.used,
            previous: None,
            body: self.body,
        };
        let Some(previous) = self.previous else {
            return Some((nowhere, unplaced));
        };
        let from = begin(member, previous, self.bytes);
        let (member, size) = sized(member);
        let Some((to, used)) = self.end(size, from, is_last) else {
            return Some((nowhere, unplaced));
        };
        let Some(place) = Place::in_order(member, from, to, self.body) else {
            return Some((nowhere, unplaced));
        };
        let after = ByMembers {
            members,
            bytes: self.bytes,
            width: self.width,
            used,
            previous: Some(to),
            body: self.body,
        };
        Some((place, after))
    }

    /// The children after the first `i`.
    pub(crate) fn skip(self, i: usize) -> ByMembers<'a, 'b>
        ensures { by_members_left result ≡ drop i (by_members_left self.entry) }
    {
        let mut left = self;
        for _ in 0..i {
            match left.split_first() {
                Some((_, after)) => left = after,
                None => return left,
            }
        }
        left
    }

    /// Where a member ends that begins at `from`, and how many offsets are used then. None where its offset isn't
    /// there.
    fn end(self, size: Option<usize>, from: usize, is_last: bool) -> Option<(usize, usize)>
        ensures end { option_map (λ r. clamp (length self.entry.bytes.now) r.0) result
            ≡ option_map (clamp (length self.entry.bytes.now)) (end_by self.entry.width self.entry.bytes.now self.entry.used from size is_last) }
        ensures used { IfSome result (λ r. IsTrue is_last ⊎ (r.1 ≡ next_offset self.entry.used size)) }
        ensures after { IfSome result (λ r. self.entry.width * r.1 ≤ length self.entry.bytes.now) }
    {
        if let Some(size) = size {
            return Some((from.saturating_add(size), self.used));
        }
        if is_last {
            return Some((self.bytes.len() - self.width * self.used, self.used));
        }
        let end = framing_offset(self.width, self.bytes, self.used)?;
        Some((end, self.used + 1))
    }
}

/// The type and its size, or None where it has none, and the type is known to have none from then on.
fn sized(of: TypeStr<'_>) -> (TypeStr<'_>, Option<usize>)
    ensures same { ty result.0 ≡ ty of.entry }
    ensures size { result.1 ≡ fixed_size (ty of.entry) }
{
    match fixed_size(of) {
        Some(size) => (of, Some(size)),
        None => (of.as_open(), None),
    }
}

/// Where the body of a tuple or an entry ends, in which its members lie. None where no member is known to lie anywhere:
/// the bytes are not of the members' size, or fewer than their framing offsets take.
fn body_of(of: TypeStr<'_>, bytes: &[u8]) -> Option<usize>
    ensures { result ≡ placed_body (ty of.entry) bytes.now }
{
    let len = bytes.len();
    match fixed_size(of) {
        Some(size) if size == len => Some(len),
        Some(_) => None,
        None if len == 0 => Some(0),
        None => {
            let taken = usize::from(offset_width(len)) * offset_count(of);
            if taken <= len {
                Some(len - taken)
            } else {
                None
            }
        }
    }
}

/// How many framing offsets the members have if they are not all of fixed size: one for each of no fixed size but the
/// last.
fn offset_count(of: TypeStr<'_>) -> usize
    ensures count { result ≡ offset_count (members (ty of.entry)) }
    ensures few { result ≤ 67108864 }
{
    let mut count = 0;
    let mut is_open = false;
    for member in of.members() {
        if is_open {
            count += 1;
        }
        is_open = fixed_size(member).is_none();
    }
    count
}
