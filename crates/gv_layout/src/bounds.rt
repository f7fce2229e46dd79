//! Where the children of a container lie.
ghost use Rattle.std.specs.Prelude.{◌≡◌, ◌≢◌, ◌<◌, ◌≤◌, length, slice_get, option_map, IfSome};
ghost use Rattle.gv_model.specs.Ty.{Ty.variant};
ghost use Rattle.gv_model.specs.Decode.{cut};
ghost use Rattle.gv_types.specs.TypeStr.{ty};
ghost use Rattle.gv_layout.specs.Places.{child_of, places_left};

use crate::place::{Place, Places};
use crate::walk::Walk;
use gv_types::{Class, TypeStr};

/// How many children a value of this type has that is read from these bytes.
///
/// Members are counted along the type's text, and of elements without a fixed size the type's text is read; all else is O(1).
pub fn n_children(of: TypeStr<'_>, bytes: &[u8]) -> usize
    ensures { result ≡ length (cut (ty of.entry) bytes.now) }
{
    match of.class() {
        Class::Variant => 1,
        _ => Walk::new(of, bytes).len(),
    }
}

/// Where child `i` of a container of this type starts and ends in the container's bytes, (0, 0) where it has no
/// valid bounds or comes after one that is out of order.
///
/// `i` is below the number of children. An element of fixed size is found in O(1), any other along the children before
/// it, a member along the type's text.
pub fn member_bounds(of: TypeStr<'_>, bytes: &[u8], i: usize) -> (usize, usize)
    requires kind { ty of ≢ variant }
    requires child { i < length (cut (ty of) bytes.now) }
    ensures within { (result.0 ≤ result.1) × (result.1 ≤ length bytes.now) }
    ensures bounds { IfSome (slice_get (cut (ty of.entry) bytes.now) i)
        (λ c. (result.0 ≡ c.from) × (result.1 ≡ c.to)) }
{
    let (place, _) = Walk::new(of, bytes).skip(i).split_first().unwrap();
    (place.from, place.to)
}

/// Child `i` of a container of this type: its type, and where it lies. None where there are not so many.
///
/// An element of fixed size is found in O(1), any other along the children before it, a member along the type's text.
pub fn place_of<'a>(of: TypeStr<'a>, bytes: &[u8], i: usize) -> Option<Place<'a>>
    requires { ty of ≢ variant }
    ensures { option_map child_of result ≡ slice_get (cut (ty of.entry) bytes.now) i }
{
    let (place, _) = Walk::new(of, bytes).skip(i).split_first()?;
    Some(place)
}

/// The places of the children of a container of this type, in order.
///
/// A step is O(1) along an array, and reads a member's type along a tuple or an entry.
#[inline(always)]
pub fn places<'a>(of: TypeStr<'a>, bytes: &'a [u8]) -> Places<'a>
    requires { ty of ≢ variant }
    ensures { places_left result ≡ cut (ty of.entry) bytes.entry.now }
{
    Places {
        walk: Walk::new(of, bytes),
    }
}
