//! The children of a container while they are built: none are kept where one of them is too deep.
ghost use Rattle.std.specs.Prelude.{IfOk, OnOk};
ghost use Rattle.gv_model.specs.Tree.{Tree as Value, Trees, Trees.none};

use gv_tree::Tree;
use std::alloc::{AllocError, Global};

/// Trees, one after the other, or nothing where one of them would have over 128 levels.
#[derive(Drop)]
pub(crate) struct BuiltTrees {
    trees: Vec<Tree>,
    shallow: bool,
}

impl BuiltTrees {
    ghost use Rattle.gv_infer.specs.Building.{BuildsTo};
    ghost use Rattle.gv_infer.specs.Children.{IsBuiltFrom, AllBuildTo, with_last};

    /// No children, with room for so many.
    pub(crate) fn with_capacity(alloc: Global, count: usize) -> Result<BuiltTrees, AllocError>
        ensures { IfOk result (λ children. IsBuiltFrom children none) }
    {
        Ok(BuiltTrees {
            trees: Vec::with_capacity(alloc, count)?,
            shallow: true,
        })
    }

    /// One child more, or None for one that is too deep.
    pub(crate) fn push(&mut self, child: Option<Tree>) -> Result<(), AllocError>
        ensures { OnOk result
            ((vs : Trees) (v : Value) → IsBuiltFrom self.old vs → BuildsTo child v → IsBuiltFrom self.new (with_last vs v)) }
    {
        match child {
            Some(tree) => self.trees.push(tree)?,
            None => self.shallow = false,
        }
        Ok(())
    }

    /// The children, or None where one of them is too deep.
    pub(crate) fn finish(self) -> Option<Vec<Tree>>
        ensures { (vs : Trees) → IsBuiltFrom self vs → AllBuildTo result vs }
    {
        if self.shallow { Some(self.trees) } else { None }
    }
}
