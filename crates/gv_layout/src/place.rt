//! Places of children, one after the other.
ghost use Rattle.std.specs.Prelude.{◌≡◌, Some, IfSome, is_none, option_map};
ghost use Rattle.gv_model.specs.Children.{is_out};
ghost use Rattle.gv_types.specs.TypeStr.{ty};

use crate::walk::Walk;
use gv_types::{Members, TypeStr};

/// A child of a container: its type, and where its bytes start and end in the container's.
#[derive(Clone, Copy, Debug, PartialEq, Eq)]
pub struct Place<'a> {
    pub type_str: TypeStr<'a>,
    pub from: usize,
    pub to: usize,
}

impl<'a> Place<'a> {
    ghost use Rattle.gv_layout.specs.Places.{child_of};

    /// A child between these places, None where it is out of order in a body that ends there.
    pub(crate) fn in_order(
        type_str: TypeStr<'a>,
        from: usize,
        to: usize,
        body: usize,
    ) -> Option<Place<'a>>
        ensures order { is_none result ≡ is_out (Some body) (Some (from, to)) }
        ensures place { IfSome result (λ p. child_of p ≡ record { type = ty type_str.entry; from = from; to = to }) }
    {
        if from <= to && to <= body {
            Some(Place { type_str, from, to })
        } else {
            None
        }
    }

    /// A child that lies nowhere, and so has no bytes.
    pub(crate) fn nowhere(type_str: TypeStr<'a>) -> Place<'a>
        ensures { child_of result ≡ record { type = ty type_str.entry; from = 0; to = 0 } }
    {
        Place {
            type_str,
            from: 0,
            to: 0,
        }
    }
}

/// The places of a container's children that are left, in order.
#[derive(Clone, Copy, Debug)]
pub struct Places<'a> {
    pub(crate) walk: Walk<'a, 'a>,
}

impl<'a> Places<'a> {
    ghost use Rattle.gv_types.specs.Members.{members_left};
    ghost use Rattle.gv_layout.specs.Places.{lie_nowhere, unplaced_left, places_left};

    /// The types of the children that are left, if they are members, and one before them was out of order: they lie nowhere, and
    /// all are defaults. None else. It looks at no byte.
    #[inline(always)]
    pub fn unplaced(&self) -> Option<Members<'a>>
        ensures types { option_map members_left result ≡ unplaced_left self.now }
        ensures nowhere { IfSome result (λ ms. places_left self.now ≡ lie_nowhere (members_left ms)) }
    {
        match &self.walk {
            Walk::ByMembers(by_members) => by_members.unplaced(),
            _ => None,
        }
    }
}

impl<'a> Iterator for Places<'a> {
    type Item = Place<'a>;

    ghost use Rattle.std.specs.Iterator.{YieldsFirstBy, item_count};
    ghost use Rattle.gv_layout.specs.Places.{child_of, places_left};

    ghost next_gives = { YieldsFirstBy child_of places_left };

    ghost remaining = { item_count places_left };

    #[inline(always)]
    fn next(&mut self) -> Option<Place<'a>> {
        let (place, after) = self.walk.split_first()?;
        self.walk = after;
        Some(place)
    }
}
