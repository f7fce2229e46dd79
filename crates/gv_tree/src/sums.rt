//! The sizes of containers: what their children add up to, and their limits.
ghost use Rattle.std.specs.Prelude.{◌≡◌, ◌≤◌, ◌-◌, ◌^◌, min, length, MatchResult};
ghost use Rattle.gv_model.specs.Ty.{Ty, spelling, nesting};
ghost use Rattle.gv_model.specs.Tree.{Tree.node, Trees};
ghost use Rattle.gv_tree.specs.Nodes.{trees_of, tree_of};
ghost use Rattle.gv_tree.specs.Faults.{IsSizeFault};
ghost use Rattle.gv_tree.specs.Kept.{IsKept};
ghost use Rattle.gv_tree.specs.declared.tree.Node.TheVariants.{Container};

use crate::fault::TreeFlaw;
use crate::tree::{Node, Tree};
use gv_types::TypeStr;

/// The sizes of a tree, or the greatest and the sums of the sizes of some.
#[derive(Clone, Copy)]
pub(crate) struct Sums {
    /// Levels of the value.
    pub(crate) levels: u8,
    /// Levels of its type.
    pub(crate) type_levels: u8,
    /// Values, itself and those in it; `u64::MAX` where there are more.
    pub(crate) values: u64,
    /// Bytes of the text of its type; `usize::MAX` where there are more.
    pub(crate) type_bytes: usize,
}

impl Sums {
    ghost use Rattle.gv_tree.specs.Sums.{SumsAre, IsWith, IsSized};

    /// Those of no tree.
    pub(crate) fn none() -> Sums
        ensures { SumsAre result Trees.none }
    {
        Sums {
            levels: 0,
            type_levels: 0,
            values: 0,
            type_bytes: 0,
        }
    }

    /// Those of one tree more.
    pub(crate) fn with(self, tree: &Tree) -> Sums
        ensures { IsWith self tree.now result }
    {
        Sums {
            levels: self.levels.max(tree.levels),
            type_levels: self.type_levels.max(tree.type_levels),
            values: self.values.saturating_add(tree.values),
            type_bytes: self
                .type_bytes
                .saturating_add(tree.type_text().as_str().len()),
        }
    }

    /// Those of some trees.
    pub(crate) fn of(trees: &[Tree]) -> Sums
        ensures { SumsAre result (trees_of trees.now) }
    {
        let mut sums = Sums::none();
        for tree in trees {
            sums = sums.with(tree);
        }
        sums
    }

    /// Those of a container of trees of these sizes, whose type has so many levels and bytes.
    ///
    /// Refused is first a container or a type that is too deep, then a type whose text is too long.
    pub(crate) fn container(self, type_levels: u8, type_bytes: usize) -> Result<Sums, TreeFlaw>
        requires { self.levels ≤ 128 }
        ensures { (t : Ty) (vs : Trees) → SumsAre self vs → type_levels ≡ nesting t
            → type_bytes ≡ min (length (spelling t)) (2 ^ 64 - 1)
            → MatchResult result (λ sums. IsSized sums (node t vs)) (IsSizeFault (node t vs)) }
    {
        let levels = self.levels + 1;
        if levels > Tree::MAX_LEVELS || type_levels > TypeStr::MAX_LEVELS {
            return Err(TreeFlaw::TooDeep);
        }
        if type_bytes > TypeStr::MAX_LEN {
            return Err(TreeFlaw::TooLarge);
        }
        Ok(Sums {
            levels,
            type_levels,
            values: self.values.saturating_add(1),
            type_bytes,
        })
    }

    /// The container of these sizes.
    pub(crate) fn seal(self, type_text: String, children: Vec<Tree>) -> Tree
        requires { IsKept (record { node = Container type_text children; levels = self.levels; type_levels = self.type_levels; values = self.values }) }
        ensures { result ≡ tree_of (Container type_text children) }
    {
        Tree {
            node: Node::Container(type_text, children),
            levels: self.levels,
            type_levels: self.type_levels,
            values: self.values,
        }
    }
}
