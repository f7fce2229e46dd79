//! Walks along the children of a container: of one size, by framing offsets, or along the members.
ghost use Rattle.std.specs.Prelude.{◌≡◌, ◌≢◌, ◌≤◌, ◌<◌, ◌+◌, ◌^◌, MatchOption, length, drop, [], ◌∷◌};
ghost use Rattle.gv_model.specs.Ty.{Ty.variant};
ghost use Rattle.gv_model.specs.Layout.{alignment, fixed_size, round_up};
ghost use Rattle.gv_model.specs.Decode.{cut};
ghost use Rattle.gv_types.specs.TypeStr.{ty};
ghost use Rattle.gv_layout.specs.Places.{child_of, clamp, walk_left};

use crate::array::{ByOffsets, FixedSize};
use crate::place::Place;
use crate::size::{aligned_after, fixed_size, round_up};
use crate::tuple::ByMembers;
use gv_types::{Class, TypeStr};

/// The first place from `from` on that is aligned, where all places past the end of `len` bytes are alike.
pub(crate) fn aligned(from: usize, alignment: u8, len: usize) -> usize
    requires some { 0 < alignment }
    requires small { len + 256 < 2 ^ 64 }
    ensures { clamp len result ≡ clamp len (round_up alignment from) }
{
    round_up(from.min(len + 1), alignment)
}

/// Where a member begins, if the one before ends at `previous`, where all places past the end of the bytes are alike.
pub(crate) fn begin(member: TypeStr<'_>, previous: usize, bytes: &[u8]) -> usize
    ensures { clamp (length bytes.now) result ≡ clamp (length bytes.now) (round_up (alignment (ty member.entry)) previous) }
{
    aligned_after(previous.min(bytes.len() + 1), member)
}

/// The children of a container that are left.
#[derive(Clone, Copy, Debug)]
pub(crate) enum Walk<'a, 'b> {
    /// Elements of a fixed size, the child of a maybe, or none.
    FixedSize(FixedSize<'a>),
    /// Elements of no fixed size.
    ByOffsets(ByOffsets<'a, 'b>),
    /// Members of a tuple or an entry.
    ByMembers(ByMembers<'a, 'b>),
}

impl<'a, 'b> Walk<'a, 'b> {
    /// All children of a container.
    #[inline(always)]
    pub(crate) fn new(of: TypeStr<'a>, bytes: &'b [u8]) -> Walk<'a, 'b>
        requires { ty of ≢ variant }
        ensures { walk_left result ≡ cut (ty of.entry) bytes.entry.now }
    {
        match of.class() {
            Class::Basic(_) | Class::Variant => Walk::FixedSize(FixedSize::none(of)),
            Class::Array => {
                let element = of.element().unwrap();
                if bytes.is_empty() {
                    return Walk::FixedSize(FixedSize::none(element));
                }
                match fixed_size(element) {
                    Some(size) => Walk::FixedSize(FixedSize::of_array(element, size, bytes)),
                    None => Walk::ByOffsets(ByOffsets::of_array(
                        element.as_open().as_read(),
                        bytes,
                    )),
                }
            }
            Class::Maybe => Walk::FixedSize(FixedSize::of_maybe(
                of.element().unwrap(),
                bytes.len(),
            )),
            Class::Tuple | Class::Entry => Walk::ByMembers(ByMembers::of_tuple(of, bytes)),
        }
    }

    /// How many children are left. Members are counted, all else is known.
    pub(crate) fn len(self) -> usize
        ensures { result ≡ length (walk_left self.entry) }
    {
        match self {
            Walk::FixedSize(fixed) => fixed.len(),
            Walk::ByOffsets(by_offsets) => by_offsets.len(),
            Walk::ByMembers(by_members) => by_members.len(),
        }
    }

    /// The first child, and those after it.
    #[inline(always)]
    pub(crate) fn split_first(self) -> Option<(Place<'a>, Walk<'a, 'b>)>
        ensures { MatchOption result (walk_left self.entry ≡ [])
            (λ r. walk_left self.entry ≡ child_of r.0 ∷ walk_left r.1) }
    {
        match self {
            Walk::FixedSize(fixed) => {
                let (place, after) = fixed.split_first()?;
                Some((place, Walk::FixedSize(after)))
            }
            Walk::ByOffsets(by_offsets) => {
                let (place, after) = by_offsets.split_first()?;
                Some((place, Walk::ByOffsets(after)))
            }
            Walk::ByMembers(by_members) => {
                let (place, after) = by_members.split_first()?;
                Some((place, Walk::ByMembers(after)))
            }
        }
    }

    /// The children after the first `i`. It passes elements of a fixed size at once, and all else one by one.
    pub(crate) fn skip(self, i: usize) -> Walk<'a, 'b>
        ensures { walk_left result ≡ drop i (walk_left self.entry) }
    {
        match self {
            Walk::FixedSize(fixed) => Walk::FixedSize(fixed.skip(i)),
            Walk::ByOffsets(by_offsets) => Walk::ByOffsets(by_offsets.skip(i)),
            Walk::ByMembers(by_members) => Walk::ByMembers(by_members.skip(i)),
        }
    }
}
