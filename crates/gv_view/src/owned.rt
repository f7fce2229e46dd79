//! Copies of values as trees that own their parts. Of a value that is too large no part is left.
ghost use Rattle.std.specs.Prelude.{◌≡◌, true, false, IfOk, IfErr, OnOk};
ghost use Rattle.gv_model.specs.Printed.{is_too_large};
ghost use Rattle.refused.specs.Faults.{OfFault};

use crate::copy::copied;
use crate::view::View;
use gv_tree::Tree;
use refused::Refused;
use std::alloc::Global;
use std::error::Error;
use std::fmt;

/// Why no tree is made of a value: it is more than 128 levels deep, or memory ran out.
pub type ViewFault = Refused<TooLarge>;

/// A value beyond a limit.
#[derive(Clone, Copy, Debug, PartialEq, Eq)]
pub struct TooLarge;

impl fmt::Display for TooLarge {
    ghost use Rattle.std.specs.Prelude.{Some, codes};

    ghost output = { λ _. Some (codes "TooLarge") };

    fn fmt<W: fmt::Write>(&self, f: &mut fmt::Formatter<W>) -> fmt::Result {
        f.write_str("TooLarge")
    }
}

impl Error for TooLarge {}

impl<'a> View<'a> {
    ghost use Rattle.gv_view.specs.Views.{value};

    /// The value as a tree that owns its parts.
    ///
    /// `TooLarge` comes only where the value is more than 128 levels deep, and `Memory` where a growth is refused. It is one
    /// walk over the values, linear in them and in the bytes of their texts.
    pub fn to_tree(self, alloc: Global) -> Result<Tree, ViewFault>
        ensures tree { IfOk result (λ t. t ≡ value self.entry) }
        ensures fits { OnOk result (is_too_large (value self.entry) ≡ false) }
        ensures fault { IfErr result (OfFault (λ _. is_too_large (value self.entry) ≡ true)) }
    {
        copied(alloc, self, View::MAX_LEVELS)
    }
}
