//! What a tree is made of.
ghost use Rattle.gv_model.specs.Tree.{Tree.node};
ghost use Rattle.gv_model.specs.Typed.{MayHold};
ghost use Rattle.gv_types.specs.TypeStr.{ty};
ghost use Rattle.gv_tree.specs.Nodes.{trees_of};
ghost use Rattle.gv_tree.specs.Shapes.{ShapeIs};

use crate::basic::Basic;
use crate::tree::Tree;
use gv_types::{Class, TypeStr};

/// What a tree is made of, lent from it.
#[derive(Clone, Copy, Debug)]
pub enum Shape<'a> {
    /// A value of a basic type.
    Basic(&'a Basic),
    /// A value, or Nothing.
    Maybe(Option<&'a Tree>),
    /// The elements of an array.
    Array(&'a [Tree]),
    /// The members of a tuple.
    Tuple(&'a [Tree]),
    /// The key and the value of an entry.
    Entry(&'a Tree, &'a Tree),
    /// The value in a variant.
    Variant(&'a Tree),
}

/// What a container of this type and these children is made of.
pub(crate) fn container_shape<'a>(of: TypeStr<'_>, children: &'a [Tree]) -> Shape<'a>
    requires { MayHold (ty of) (trees_of children.now) }
    ensures { ShapeIs result (node (ty of.entry) (trees_of children.entry.now)) }
{
    match of.class() {
        Class::Maybe => Shape::Maybe(children.first()),
        Class::Array => Shape::Array(children),
        Class::Tuple => Shape::Tuple(children),
        Class::Entry => Shape::Entry(&children[0], &children[1]),
        Class::Variant => Shape::Variant(&children[0]),
        Class::Basic(_) => unreachable!(),
    }
}
