//! The children of a value: how many there are, the one at an index, and all of them in order. A variant has one
//! child, whose type occurs in its bytes; any other container's children lie at places in its bytes.
ghost use Rattle.std.specs.Prelude.{◌≡◌, ◌↔◌, ◌<◌, All, IfSome, IsSome, length, option_map, slice_get};
ghost use Rattle.gv_model.specs.Tree.{children, trees_len, tree_at, defaults};
ghost use Rattle.gv_model.specs.Ty.{types_from};
ghost use Rattle.gv_model.specs.Decode.{cut};
ghost use Rattle.gv_model.specs.Parts.{part_of, parts};
ghost use Rattle.gv_layout.specs.Places.{child_of, places_left};
ghost use Rattle.gv_view.specs.Views.{shown};
ghost use Rattle.gv_model.specs.Laws.{LiesWithin};

use crate::view::View;
use gv_layout::{Place, Places};
use gv_types::{Class, Members};
use std::iter::FusedIterator;

/// The children of a value that are left, in order.
#[derive(Clone, Copy, Debug)]
pub struct Children<'a> {
    walk: Walk<'a>,
}

/// Where the children that are left come from.
#[derive(Clone, Copy, Debug)]
enum Walk<'a> {
    /// A variant's one child, until it is given.
    Alone(Option<View<'a>>),
    /// The children of any other value.
    Placed(Placed<'a>),
}

/// The children at the places that are left in a container's bytes.
#[derive(Clone, Copy, Debug)]
struct Placed<'a> {
    places: Places<'a>,
    bytes: &'a [u8],
    ghost within: { All (LiesWithin (length bytes.now)) (places_left places) },
}

impl<'a> View<'a> {
    ghost use Rattle.gv_view.specs.Views.{value, view_ty, view_bytes, Lends};
    ghost use Rattle.gv_view.specs.Children.{children_left};

    /// How many children the value has: a basic value has none, a variant has one.
    pub fn n_children(self) -> usize
        ensures { result ≡ trees_len (children (value self.entry)) }
    {
        gv_layout::n_children(self.type_str, self.bytes)
    }

    /// Child `i` with its type and its bytes. None exactly where `i` is not below `n_children`.
    ///
    /// It looks at the type's text and at none of the children's bytes, but in a variant for the child's type.
    pub fn child(self, i: usize) -> Option<View<'a>>
        ensures some { IsSome result ↔ (i < trees_len (children (value self.entry))) }
        ensures lends { Lends (view_bytes self.entry)
            (slice_get (cut (view_ty self.entry) (view_bytes self.entry)) i) result }
        ensures value { option_map value result ≡ tree_at (children (value self.entry)) i }
    {
        match self.type_str.class() {
            Class::Variant if i == 0 => Some(View::of_variant(self.bytes)),
            Class::Variant => None,
            _ => {
                let place = gv_layout::place_of(self.type_str, self.bytes, i)?;
                Some(view_at(self.bytes, place))
            }
        }
    }

    /// The children, in order.
    ///
    /// A walk goes along a tuple's types once, where `child` at each index begins anew.
    #[inline(always)]
    pub fn children(self) -> Children<'a>
        ensures { children_left result ≡ parts (view_ty self.entry) (view_bytes self.entry) }
    {
        let walk = match self.type_str.class() {
            Class::Variant => Walk::Alone(Some(View::of_variant(self.bytes))),
            _ => Walk::Placed(Placed {
                places: gv_layout::places(self.type_str, self.bytes),
                bytes: self.bytes,
            }),
        };
        Children { walk }
    }
}

impl<'a> Children<'a> {
    ghost use Rattle.gv_model.specs.Parts.{part_trees};
    ghost use Rattle.gv_types.specs.Members.{members_left};
    ghost use Rattle.gv_view.specs.Children.{children_left, unplaced_children};

    /// The types of the children that are left, if they are members and one before them was out of order: none of them has
    /// bytes, and all are defaults. None else. It looks at no byte.
    #[inline(always)]
    pub fn unplaced(&self) -> Option<Members<'a>>
        ensures types { option_map members_left result ≡ unplaced_children self.now }
        ensures defaults { IfSome result (λ ms. part_trees (children_left self.now) ≡ defaults (types_from (members_left ms))) }
    {
        match &self.walk {
            Walk::Placed(placed) => placed.places.unplaced(),
            Walk::Alone(_) => None,
        }
    }
}

impl<'a> Iterator for Children<'a> {
    type Item = View<'a>;

    ghost use Rattle.std.specs.Iterator.{YieldsFirstBy, item_count};
    ghost use Rattle.gv_view.specs.Views.{shown};
    ghost use Rattle.gv_view.specs.Children.{children_left};

    ghost next_gives = { YieldsFirstBy shown children_left };

    ghost remaining = { item_count children_left };

    #[inline(always)]
    fn next(&mut self) -> Option<View<'a>> {
        match &mut self.walk {
            Walk::Alone(child) => child.take(),
            Walk::Placed(placed) => placed.next(),
        }
    }
}

impl FusedIterator for Children<'_> {}

impl<'a> Iterator for Placed<'a> {
    type Item = View<'a>;

    ghost use Rattle.std.specs.Iterator.{YieldsFirstBy, item_count};
    ghost use Rattle.gv_view.specs.Views.{shown};
    ghost use Rattle.gv_view.specs.Children.{placed_left};

    ghost next_gives = { YieldsFirstBy shown placed_left };

    ghost remaining = { item_count placed_left };

    #[inline(always)]
    fn next(&mut self) -> Option<View<'a>> {
        let place = self.places.next()?;
        Some(view_at(self.bytes, place))
    }
}

/// The bytes at a place, read at the place's type.
fn view_at<'a>(bytes: &'a [u8], place: Place<'a>) -> View<'a>
    requires { LiesWithin (length bytes.now) (child_of place) }
    ensures { shown result ≡ part_of bytes.entry.now (child_of place.entry) }
{
    View::new(place.type_str, &bytes[place.from..place.to])
}
