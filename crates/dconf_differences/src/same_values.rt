//! Whether two views show the same value.
ghost use Rattle.std.specs.Prelude.{◌≡◌, ◌<◌, ◌+◌, ◌↔◌, true, IfOk, IsTrue, OnOk};
ghost use Rattle.gv_model.specs.Printed.{is_too_large};
ghost use Rattle.gv_model.specs.Tree.{children, nodes};
ghost use Rattle.gv_view.specs.Views.{value, view_ty};

use gv_normal::is_normal;
use gv_view::View;
use std::alloc::{AllocError, Global};

/// Two views that are compared.
#[derive(Clone, Copy)]
struct Compared<'a, 'b> {
    first: View<'a>,
    second: View<'b>,
}

/// Whether two views show the same value: of one type, and with the same in it.
///
/// An error comes where a growth is refused. The same bytes at one type are told without memory, and so
/// are other bytes that are normal, as a value has one normal form. Other values are copied, and those too
/// deep for that are gone through child by child, so none is too deep to be told.
pub fn show_same(alloc: Global, first: View<'_>, second: View<'_>) -> Result<bool, AllocError>
    ensures { IfOk result (λ same. IsTrue same ↔ (value first.entry ≡ value second.entry)) }
{
    let both = Compared { first, second };
    if both.are_alike() {
        return Ok(true);
    }
    if both.have_other_normal_forms() {
        return Ok(false);
    }
    let mut left = Vec::new(alloc);
    left.push(both)?;
    while let Some(pair) = left.pop() {
        if !pair.compare(alloc, &mut left)? {
            return Ok(false);
        }
    }
    Ok(true)
}

impl<'a, 'b> Compared<'a, 'b> {
    ghost use Rattle.dconf_differences.specs.Differing.{AreSame, IsSame, work};

    /// Whether they are the same bytes at one type.
    fn are_alike(self) -> bool
        ensures { IsTrue result → IsSame self.entry }
    {
        self.have_one_type() && self.first.bytes() == self.second.bytes()
    }

    /// Whether both are normal, in other bytes.
    fn have_other_normal_forms(self) -> bool
        ensures { IsTrue result → ¬ IsSame self.entry }
    {
        self.first.bytes() != self.second.bytes() && is_normal(self.first) && is_normal(self.second)
    }

    /// Whether they have one type.
    fn have_one_type(self) -> bool
        ensures { IsTrue result ↔ (view_ty self.entry.first ≡ view_ty self.entry.second) }
    {
        self.first.type_str().as_str() == self.second.type_str().as_str()
    }

    /// Compares them, or adds their children to what is left to compare. False where they differ.
    fn compare(self, alloc: Global, left: &mut Vec<Compared<'a, 'b>>) -> Result<bool, AllocError>
        ensures same { IfOk result (λ may. (IsTrue may × AreSame left.new.items) ↔ (IsSame self.entry × AreSame left.old.items)) }
        ensures less { OnOk result (work left.new.items < work left.old.items + nodes (value self.entry.first)) }
    {
        match (self.first.is_too_large(), self.second.is_too_large()) {
            (false, false) => self.are_one_tree(alloc),
            (true, true) => self.add_children(left),
            _ => Ok(false),
        }
    }

    /// Whether they are the same, of values that are not too deep to be copied.
    fn are_one_tree(self, alloc: Global) -> Result<bool, AllocError>
        ensures { IfOk result (λ same. IsTrue same ↔ IsSame self.entry) }
    {
        match (self.first.to_tree(alloc), self.second.to_tree(alloc)) {
            (Ok(first), Ok(second)) => Ok(first.equal(&second)),
            _ => Err(AllocError),
        }
    }

    /// Adds their children, each with that of the other, to what is left to compare. False where
    /// they have other types, or not as many children.
    fn add_children(self, left: &mut Vec<Compared<'a, 'b>>) -> Result<bool, AllocError>
        requires first { is_too_large (value self.first) ≡ true }
        requires second { is_too_large (value self.second) ≡ true }
        ensures same { IfOk result (λ may. (IsTrue may × AreSame left.new.items) ↔ (IsSame self.entry × AreSame left.old.items)) }
        ensures less { OnOk result (work left.new.items < work left.old.items + nodes (value self.entry.first)) }
    {
        if !self.have_one_type() {
            return Ok(false);
        }
        let mut others = self.second.children();
        for child in self.first.children() {
            let Some(other) = others.next() else {
                return Ok(false);
            };
            left.push(Compared {
                first: child,
                second: other,
            })?;
        }
        Ok(others.next().is_none())
    }
}
