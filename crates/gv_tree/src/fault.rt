//! Why a tree is not made.
ghost use Rattle.std.specs.Prelude.{◌≡◌};
ghost use Rattle.refused.specs.declared.Refused.TheVariants.{Fault};

use refused::Refused;
use std::error::Error;
use std::fmt;

/// Why a tree is not made.
pub type TreeFault = Refused<TreeFlaw>;

/// What is wrong with the parts of a tree.
#[derive(Clone, Copy, Debug, PartialEq, Eq)]
pub enum TreeFlaw {
    /// A text has a zero byte.
    HasNul,
    /// A text is no object path.
    BadObjectPath,
    /// A text is no signature.
    BadSignature,
    /// The tree at this index has another type than the array or the maybe holds.
    WrongType(usize),
    /// An entry's key is of no basic type.
    KeyNotBasic,
    /// The tree would have over 128 levels, or its type.
    TooDeep,
    /// The text of its type would have over 67,108,864 bytes.
    TooLarge,
}

impl TreeFlaw {
    ghost use Rattle.gv_tree.specs.FaultTexts.{tree_fault_name};

    /// Its name.
    fn name(self) -> &'static str
        ensures { result.now ≡ tree_fault_name self }
    {
        match self {
            TreeFlaw::HasNul => "HasNul",
            TreeFlaw::BadObjectPath => "BadObjectPath",
            TreeFlaw::BadSignature => "BadSignature",
            TreeFlaw::WrongType(_) => "WrongType",
            TreeFlaw::KeyNotBasic => "KeyNotBasic",
            TreeFlaw::TooDeep => "TooDeep",
            TreeFlaw::TooLarge => "TooLarge",
        }
    }
}

impl fmt::Display for TreeFlaw {
    ghost use Rattle.std.specs.Prelude.{Some};
    ghost use Rattle.gv_tree.specs.FaultTexts.{tree_fault_text};

    ghost output = { λ flaw. Some (tree_fault_text flaw) };

    fn fmt<W: fmt::Write>(&self, f: &mut fmt::Formatter<W>) -> fmt::Result {
        match self {
            TreeFlaw::WrongType(at) => write!(f, "{} at {at}", self.name()),
            _ => f.write_str(self.name()),
        }
    }
}

impl Error for TreeFlaw {}

impl From<TreeFlaw> for Refused<TreeFlaw> {
    ghost from_gives = { λ flaw e. e ≡ Fault flaw };

    fn from(flaw: TreeFlaw) -> Refused<TreeFlaw> {
        Refused::Fault(flaw)
    }
}
