//! How deep the values in a value lie. One deeper than 128 levels is too large to be copied or printed.
ghost use Rattle.std.specs.Prelude.{◌≡◌, nat_le, true, IsTrue};
ghost use Rattle.gv_model.specs.Tree.{default, depth};
ghost use Rattle.gv_model.specs.Printed.{is_too_large};
ghost use Rattle.gv_view.specs.Views.{value, view_ty};

use crate::view::View;
use gv_tree::Tree;
use gv_types::Class;

impl View<'_> {
    /// The most levels of a value that is copied or printed: the value is one, those in it lie on the next, and so on.
    pub const MAX_LEVELS: u8 = Tree::MAX_LEVELS;
}

impl<'a> View<'a> {
    /// Whether the value is more than 128 levels deep.
    ///
    /// It takes no memory, and looks at no value twice and at none below level 129. Of an array's elements without bytes it looks at one.
    pub fn is_too_large(self) -> bool
        ensures { result ≡ is_too_large (value self.entry) }
    {
        !fits(self, View::MAX_LEVELS, false)
    }
}

/// Whether the value has no more than these levels; `empty_fits` says that one of its type without bytes has no more.
fn fits(view: View<'_>, levels: u8, empty_fits: bool) -> bool
    requires { IsTrue empty_fits → nat_le (depth (default (view_ty view))) levels ≡ true }
    ensures { result ≡ nat_le (depth (value view.entry)) levels }
{
    if levels == 0 {
        return false;
    }
    // Most values are basic, and have no children to walk along.
    if view.type_str().is_basic() {
        return true;
    }
    if empty_fits && view.bytes().is_empty() {
        return true;
    }
    // Elements without bytes are alike: what one of them has tells of all.
    let in_array = view.type_str().class() == Class::Array;
    let mut element_fits = false;
    for child in view.children() {
        if !fits(child, levels - 1, element_fits) {
            return false;
        }
        element_fits |= child.bytes().is_empty() & in_array;
    }
    true
}
