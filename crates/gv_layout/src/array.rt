//! Where the elements of an array lie (GVariant Specification, "Arrays"). Of a fixed size: one after the other.
//! Of no fixed size: the bytes end with the end of each element, as a framing offset.
ghost use Rattle.std.specs.Prelude.{◌≡◌, ◌<◌, ◌≤◌, ◌+◌, ◌*◌, ◌^◌, MatchOption, length, drop, [], ◌∷◌, Some, None};
ghost use Rattle.gv_model.specs.Layout.{alignment, fixed_size};
ghost use Rattle.gv_model.specs.Arrays.{element_spans, elements_end};
ghost use Rattle.gv_model.specs.Maybes.{just_span};
ghost use Rattle.gv_model.specs.Children.{children_at, ordered};
ghost use Rattle.gv_types.specs.TypeStr.{ty};

use crate::offset::number;
use crate::place::Place;
use crate::size::{alignment, fixed_size, offset_width};
use crate::walk::aligned;
use gv_types::TypeStr;

/// Children of one type and size, one after the other, from `at` on.
#[derive(Clone, Copy, Debug)]
pub(crate) struct FixedSize<'a> {
    element: TypeStr<'a>,
    size: usize,
    at: usize,
    left: usize,
    len: usize,
    ghost inside: { at + size * left ≤ len },
}

impl<'a> FixedSize<'a> {
    ghost use Rattle.gv_layout.specs.Places.{child_of, fixed_left};

    /// No children.
    pub(crate) fn none(element: TypeStr<'a>) -> FixedSize<'a>
        ensures { fixed_left result ≡ [] }
    {
        FixedSize {
            element,
            size: 0,
            at: 0,
            left: 0,
            len: 0,
        }
    }

    /// The elements of an array of `len` bytes, whose elements have this size.
    pub(crate) fn of_array(element: TypeStr<'a>, size: usize, bytes: &[u8]) -> FixedSize<'a>
        requires { fixed_size (ty element) ≡ Some size }
        ensures { fixed_left result ≡ children_at (length bytes.now) (element_spans (ty element.entry) bytes.now (Some size)) }
    {
        let len = bytes.len();
        let left = if len % size == 0 { len / size } else { 0 };
        FixedSize {
            element,
            size,
            at: 0,
            left,
            len,
        }
    }

    /// The child of a maybe of `len` bytes.
    pub(crate) fn of_maybe(child: TypeStr<'a>, len: usize) -> FixedSize<'a>
        ensures { fixed_left result ≡ children_at len (just_span (ty child.entry) len (fixed_size (ty child.entry))) }
    {
        if len == 0 {
            return FixedSize::none(child);
        }
        match fixed_size(child) {
            Some(size) if size == len => FixedSize::one(child, len, len),
            None => FixedSize::one(child.as_open(), len - 1, len),
            Some(_) => FixedSize::none(child),
        }
    }

    /// One child, in the first `to` bytes of `len`.
    fn one(element: TypeStr<'a>, to: usize, len: usize) -> FixedSize<'a>
        requires { to ≤ len }
        ensures { fixed_left result ≡ children_at len ((ty element.entry, Some (0, to)) ∷ []) }
    {
        FixedSize {
            element,
            size: to,
            at: 0,
            left: 1,
            len,
        }
    }

    /// How many children are left.
    pub(crate) fn len(self) -> usize
        ensures { result ≡ length (fixed_left self.entry) }
    {
        self.left
    }

    /// The first child, and those after it.
    #[inline(always)]
    pub(crate) fn split_first(self) -> Option<(Place<'a>, FixedSize<'a>)>
        ensures { MatchOption result (fixed_left self.entry ≡ [])
            (λ r. fixed_left self.entry ≡ child_of r.0 ∷ fixed_left r.1) }
    {
        let left = self.left.checked_sub(1)?;
        let to = self.at + self.size;
        let place = Place {
            type_str: self.element,
            from: self.at,
            to,
        };
        let after = FixedSize {
            element: self.element,
            size: self.size,
            at: to,
            left,
            len: self.len,
        };
        Some((place, after))
    }

    /// The children after the first `i`.
    pub(crate) fn skip(self, i: usize) -> FixedSize<'a>
        ensures { fixed_left result ≡ drop i (fixed_left self.entry) }
    {
        let passed = i.min(self.left);
        let at = self.at + self.size * passed;
        FixedSize {
            element: self.element,
            size: self.size,
            at,
            left: self.left - passed,
            len: self.len,
        }
    }
}

/// Elements whose ends are given by framing offsets, and the end of the one before, if that and all before it are in
/// order.
#[derive(Clone, Copy, Debug)]
pub(crate) struct ByOffsets<'a, 'b> {
    element: TypeStr<'a>,
    aligned_to: u8,
    previous: Option<usize>,
    offsets: &'b [u8],
    width: usize,
    left: usize,
    body: usize,
    len: usize,
    ghost aligned: { aligned_to ≡ alignment (ty element) },
    ghost narrow: { width ≤ 8 },
    ghost whole: { length offsets.now ≡ width * left },
    ghost inside: { body ≤ len },
    ghost small: { len + 256 < 2 ^ 64 },
}

impl<'a, 'b> ByOffsets<'a, 'b> {
    ghost use Rattle.gv_layout.specs.Places.{child_of, by_offsets_left};

    /// The elements of an array whose elements have no fixed size.
    pub(crate) fn of_array(element: TypeStr<'a>, bytes: &'b [u8]) -> ByOffsets<'a, 'b>
        ensures { by_offsets_left result
            ≡ children_at (length bytes.entry.now) (ordered (Some (elements_end bytes.entry.now None)) (element_spans (ty element.entry) bytes.entry.now None)) }
    {
        let len = bytes.len();
        let aligned_to = alignment(element);
        let width = usize::from(offset_width(len));
        let begin = number(&bytes[len - width..]);
        if width > 0 && begin <= len && (len - begin) % width == 0 {
            let left = (len - begin) / width;
            return ByOffsets {
                element,
                aligned_to,
                previous: Some(0),
                offsets: &bytes[begin..],
                width,
                left,
                body: begin,
                len,
            };
        }
        ByOffsets {
            element,
            aligned_to,
            previous: None,
            offsets: &[],
            width,
            left: 0,
            body: 0,
            len,
        }
    }

    /// How many children are left.
    pub(crate) fn len(self) -> usize
        ensures { result ≡ length (by_offsets_left self.entry) }
    {
        self.left
    }

    /// The first child, and those after it.
    #[inline(always)]
    pub(crate) fn split_first(self) -> Option<(Place<'a>, ByOffsets<'a, 'b>)>
        ensures { MatchOption result (by_offsets_left self.entry ≡ [])
            (λ r. by_offsets_left self.entry ≡ child_of r.0 ∷ by_offsets_left r.1) }
    {
        let left = self.left.checked_sub(1)?;
        let (offset, offsets) = self.offsets.split_at(self.width);
        let nowhere = Place::nowhere(self.element);
        let unplaced = ByOffsets {
            element: self.element,
            aligned_to: self.aligned_to,
            previous: None,
            offsets,
            width: self.width,
            left,
            body: self.body,
            len: self.len,
        };
        let Some(previous) = self.previous else {
            return Some((nowhere, unplaced));
        };
        let from = aligned(previous, self.aligned_to, self.len);
        let end = number(offset);
        let Some(place) = Place::in_order(self.element, from, end, self.body) else {
            return Some((nowhere, unplaced));
        };
        let after = ByOffsets {
            element: self.element,
            aligned_to: self.aligned_to,
            previous: Some(end),
            offsets,
            width: self.width,
            left,
            body: self.body,
            len: self.len,
        };
        Some((place, after))
    }

    /// The children after the first `i`, which are passed one by one: one that is out of order counts for all after it.
    pub(crate) fn skip(self, i: usize) -> ByOffsets<'a, 'b>
        ensures { by_offsets_left result ≡ drop i (by_offsets_left self.entry) }
    {
        let mut left = self;
        for _ in 0..i {
            match left.split_first() {
                Some((_, after)) => left = after,
                None => return left,
            }
        }
        left
    }
}
