//! Arrays whose elements have no fixed size: framing offsets say where each ends (GVariant Specification, "Arrays"),
//! and from the first on that is out of order none lies anywhere.
ghost use Rattle.std.specs.Prelude.{◌≡◌, ◌≤◌, ◌<◌, ◌+◌, ◌*◌, ◌^◌, ◌⊎◌, ◌↔◌, IfNone, IfSome, IsTrue, Some, length, slice_get};
ghost use Rattle.gv_model.specs.Layout.{alignment};
ghost use Rattle.gv_model.specs.Ty.{spelling};
ghost use Rattle.gv_model.specs.TypeText.{type_at};
ghost use Rattle.gv_view.specs.Views.{view_bytes, view_ty};

use gv_layout::{alignment, fixed_size, number, offset_width, round_up};
use gv_types::Class;
use gv_view::View;

/// An array whose elements have no fixed size: their ends, and where the first of these is, which is where the
/// elements' body ends.
#[derive(Clone, Copy)]
pub(crate) struct OpenArray<'a> {
    /// The text of its elements' type.
    pub(crate) element: &'a [u8],
    aligned_to: u8,
    offsets: &'a [u8],
    width: usize,
    count: usize,
    body: usize,
    ghost spelled: { element.now ≡ spelling (type_at element.now) },
    ghost aligned: { aligned_to ≡ alignment (type_at element.now) },
    ghost narrow: { width ≤ 8 },
    ghost whole: { length offsets.now ≡ width * count },
    ghost small: { body + 256 < 2 ^ 64 },
}

/// Where an element lies, (0, 0) if nowhere, and how many before it and with it are known to be in order.
#[derive(Clone, Copy)]
pub(crate) struct Reached {
    pub(crate) from: usize,
    pub(crate) to: usize,
    pub(crate) passed: usize,
}

impl<'a> OpenArray<'a> {
    ghost use Rattle.dconfdb_values.specs.OpenArrays.{AreElements, IsFramed, IsInOrder, IsPlaced, end_before, ends_of, in_order_of};

    /// The array that bytes are at the text of an array of texts, of which nothing has to be found out. None at another text, and
    /// where the bytes hold no elements.
    #[inline(always)]
    pub(crate) fn of_texts(type_text: &'a [u8], bytes: &'a [u8]) -> Option<OpenArray<'a>>
        ensures { IfSome result (IsFramed (type_at type_text.entry.now) bytes.entry.now) }
    {
        if type_text.len() != 2 || bytes.is_empty() {
            return None;
        }
        if type_text[0] != b'a' || !is_letter_of_texts(type_text[1]) {
            return None;
        }
        OpenArray::framed(&type_text[1..], 1, bytes)
    }

    /// The array that a view shows. None at another type, and where the bytes hold no elements.
    pub(crate) fn of(view: View<'a>) -> Option<OpenArray<'a>>
        ensures { IfSome result (IsFramed (view_ty view.entry) (view_bytes view.entry)) }
    {
        let (of, bytes) = (view.type_str(), view.bytes());
        let element = match of.class() {
            Class::Array if !bytes.is_empty() => of.element()?,
            _ => return None,
        };
        if fixed_size(element).is_some() {
            return None;
        }
        OpenArray::framed(element.as_str().as_bytes(), alignment(element), bytes)
    }

    /// The elements of this type of an array of these bytes. None where the last framing offset is none.
    #[inline(always)]
    fn framed(element: &'a [u8], aligned_to: u8, bytes: &'a [u8]) -> Option<OpenArray<'a>>
        requires some { 0 < length bytes.now }
        requires spelled { element.now ≡ spelling (type_at element.now) }
        requires aligned { aligned_to ≡ alignment (type_at element.now) }
        ensures { IfSome result (AreElements (type_at element.entry.now) bytes.entry.now) }
    {
        let width = usize::from(offset_width(bytes.len()));
        let body = number(&bytes[bytes.len() - width..]);
        if body > bytes.len() || (bytes.len() - body) % width != 0 {
            return None;
        }
        Some(OpenArray {
            element,
            aligned_to,
            offsets: &bytes[body..],
            width,
            count: (bytes.len() - body) / width,
            body,
        })
    }

    /// Element `index`, if there are so many, from where `passed` of them are known to be in order.
    ///
    /// It looks at the framing offsets between the two.
    #[inline(always)]
    pub(crate) fn reach(self, index: usize, passed: usize) -> Option<Reached>
        requires order { passed ≤ in_order_of self }
        ensures none { IfNone result (self.entry.count ≤ index) }
        ensures some { IfSome result (λ r. index < self.entry.count) }
        ensures place { IfSome result (λ r. IsPlaced self.entry index r) }
        ensures passed { IfSome result (λ r. (passed ≤ r.passed) × (r.passed ≤ in_order_of self.entry)) }
    {
        if index >= self.count {
            return None;
        }
        let at = self.in_order_to(index, passed.min(index));
        if at == index {
            if let Some((from, to)) = self.place(index) {
                return Some(Reached {
                    from,
                    to,
                    passed: passed.max(index + 1),
                });
            }
        }
        Some(Reached {
            from: 0,
            to: 0,
            passed: passed.max(at),
        })
    }

    /// The first element from `from` on that is out of order, or the one at `index`.
    #[inline(always)]
    fn in_order_to(self, index: usize, from: usize) -> usize
        requires below { index < self.count }
        requires before { from ≤ index }
        requires order { from ≤ in_order_of self }
        ensures order { result ≤ in_order_of self.entry }
        ensures first { (result ≡ index) ⊎ (in_order_of self.entry ≡ result) }
        ensures onward { (from ≤ result) × (result ≤ index) }
    {
        for k in from..index {
            if self.place(k).is_none() {
                return k;
            }
        }
        index
    }

    /// Where element `k` begins and ends, if it is in order and all before it are.
    #[inline(always)]
    fn place(self, k: usize) -> Option<(usize, usize)>
        requires below { k < self.count }
        requires order { k ≤ in_order_of self }
        ensures some { IfSome result (IsInOrder self.entry k) }
        ensures none { IfNone result (in_order_of self.entry ≡ k) }
    {
        let from = round_up(self.end_before(k), self.aligned_to);
        let to = self.end(k);
        if from <= to && to <= self.body {
            Some((from, to))
        } else {
            None
        }
    }

    /// Where the element before element `k` ends.
    #[inline(always)]
    fn end_before(self, k: usize) -> usize
        requires { k < self.count }
        ensures { result ≡ end_before 0 (ends_of self.entry) k }
    {
        if k == 0 { 0 } else { self.end(k - 1) }
    }

    /// The framing offset of element `k`.
    #[inline(always)]
    fn end(self, k: usize) -> usize
        requires { k < self.count }
        ensures { slice_get (ends_of self.entry) k ≡ Some result }
    {
        let at = self.width * k;
        number(&self.offsets[at..at + self.width])
    }
}

/// Whether it is the letter of a type of texts.
fn is_letter_of_texts(letter: u8) -> bool
    ensures { IsTrue result ↔ ((letter ≡ 115) ⊎ ((letter ≡ 111) ⊎ (letter ≡ 103))) }
{
    letter == b's' || (letter == b'o' || letter == b'g')
}
