//! A tree, and what it tells of itself.
ghost use Rattle.std.specs.Prelude.{◌≡◌, ◌-◌, ◌^◌, None, min};
ghost use Rattle.gv_model.specs.Tree.{type_of, depth, nodes};
ghost use Rattle.gv_types.specs.TypeStr.{ty};
ghost use Rattle.gv_tree.specs.Wholes.{IsWhole};
ghost use Rattle.gv_tree.specs.Shapes.{ShapeIs};

use crate::basic::Basic;
use crate::shape::{Shape, container_shape};
use gv_types::TypeStr;
use std::fmt;
use std::marker::Model;

/// A value of a type, which owns its parts.
#[cycle(tree)]
#[derive(Drop)]
pub struct Tree {
    pub(crate) node: Node,
    pub(crate) levels: u8,
    pub(crate) type_levels: u8,
    pub(crate) values: u64,
}

/// A basic value, or a container: the text of its type, and its children.
#[cycle(tree)]
#[derive(Drop)]
pub(crate) enum Node {
    Basic(Basic),
    Container(String, Vec<Tree>),
}

impl Model for Tree {
    ghost use Rattle.gv_model.specs.Tree.{Tree as Shown};
    ghost use Rattle.gv_tree.specs.Codes.{coded_tree};

    ghost Value = { Shown };

    ghost coded = { coded_tree };

    ghost use Rattle.gv_model.specs.Tree.{nodes};
    ghost use Rattle.gv_tree.specs.Nodes.{tree_of};

    ghost view = { λ a. tree_of a.node };

    ghost use Rattle.gv_tree.specs.Kept.{IsKept};

    ghost invariant = { IsKept };

    ghost size = { nodes };

    ghost use Rattle.gv_tree.specs.Falls.{deep-le_nodes};

    ghost size_decreases = { λ a h. deep-le_nodes a.node };
}

impl Tree {
    /// The most levels of a value.
    pub const MAX_LEVELS: u8 = 128;

    /// The text of its type. It looks at no part of the tree.
    pub fn type_text(&self) -> TypeStr<'_>
        ensures text { ty result ≡ type_of self.now }
        ensures whole { IsWhole self.now }
    {
        match &self.node {
            Node::Basic(value) => TypeStr::of_checked(value.type_text()),
            Node::Container(text, _) => TypeStr::of_checked(text.as_str()),
        }
    }

    /// What it is made of. It looks at the first byte of its type's text.
    pub fn shape(&self) -> Shape<'_>
        ensures shape { ShapeIs result self.now }
        ensures whole { IsWhole self.now }
    {
        match &self.node {
            Node::Basic(value) => Shape::Basic(value),
            Node::Container(_, children) => container_shape(self.type_text(), children.as_slice()),
        }
    }

    /// How many values it is, itself and each value in it: `u64::MAX` where there are more. It takes no walk.
    pub fn nodes(&self) -> u64
        ensures { result ≡ min (nodes self.now) (2 ^ 64 - 1) }
    {
        self.values
    }

    /// How many levels it has: 1 for a basic value and an empty container, else one more than its deepest child. It
    /// takes no walk.
    pub fn depth(&self) -> u8
        ensures { result ≡ depth self.now }
    {
        self.levels
    }
}

/// It shows the type alone: a value may be large, and gv_text prints it.
impl fmt::Debug for Tree {
    ghost debug_output = { λ _. None };

    fn fmt<W: fmt::Write>(&self, f: &mut fmt::Formatter<W>) -> fmt::Result {
        f.write_str("Tree { type: ")?;
        f.write_str(self.type_text().as_str())?;
        f.write_str(", .. }")
    }
}
