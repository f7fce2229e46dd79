//! Copies of trees.
ghost use Rattle.std.specs.Prelude.{◌≡◌, IfOk};

use crate::tree::{Node, Tree};
use std::alloc::{AllocError, Global};

impl Tree {
    /// A copy of the whole tree. It fails only by running out of memory.
    ///
    /// It takes time linear in the tree.
    pub fn try_copy(&self, alloc: Global) -> Result<Tree, AllocError>
        ensures { IfOk result (λ t. t ≡ self.now) }
    {
        let node = match &self.node {
            Node::Basic(value) => Node::Basic(value.try_copy(alloc)?),
            Node::Container(text, children) => {
                let text = String::from_str(alloc, text.as_str())?;
                let mut copies = Vec::with_capacity(alloc, children.len())?;
                for child in children {
                    copies.push(child.try_copy(alloc)?)?;
                }
                Node::Container(text, copies)
            }
        };
        Ok(Tree {
            node,
            levels: self.levels,
            type_levels: self.type_levels,
            values: self.values,
        })
    }
}
