//! Sets of basic types, and what two of them have in common.
ghost use Rattle.std.specs.Prelude.{◌≡◌};
ghost use Rattle.gv_model.specs.Patterns.{common_set, holds, only_if};
ghost use Rattle.gv_types.specs.Classes.{basic_of};
ghost use Rattle.gv_patterns.specs.BasicSets.{basic_set_of};

use gv_types::BasicType;

/// A set of basic types.
#[derive(Clone, Copy, PartialEq, Eq)]
pub(crate) enum BasicSet {
    Any,
    Numbers,
    Texts,
    Empty,
    Only(BasicType),
}

impl BasicSet {
    /// The types that are in both.
    pub(crate) fn common(self, other: BasicSet) -> BasicSet
        ensures { basic_set_of result ≡ common_set (basic_set_of self) (basic_set_of other) }
    {
        match self {
            BasicSet::Any => other,
            BasicSet::Only(one) => other.only(one),
            BasicSet::Numbers | BasicSet::Texts | BasicSet::Empty => match other {
                BasicSet::Any => self,
                BasicSet::Only(one) => self.only(one),
                _ if self == other => self,
                _ => BasicSet::Empty,
            },
        }
    }

    /// This type alone, if it is in the set.
    fn only(self, one: BasicType) -> BasicSet
        ensures { basic_set_of result ≡ only_if (holds (basic_set_of self) (basic_of one)) (basic_of one) }
    {
        if self.holds(one) {
            BasicSet::Only(one)
        } else {
            BasicSet::Empty
        }
    }

    /// Whether the type is in the set.
    fn holds(self, one: BasicType) -> bool
        ensures { result ≡ holds (basic_set_of self) (basic_of one) }
    {
        match self {
            BasicSet::Any => true,
            BasicSet::Numbers => one.is_number(),
            BasicSet::Texts => one.is_text(),
            BasicSet::Empty => false,
            BasicSet::Only(other) => other == one,
        }
    }
}
