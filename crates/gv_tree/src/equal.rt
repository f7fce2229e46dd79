//! Whether two trees are the same value of the same type.
ghost use Rattle.std.specs.Prelude.{◌≡◌, ◌↔◌, IsTrue};

use crate::tree::{Node, Tree};

impl Tree {
    /// Whether both have the same type and value; doubles are compared by their bits.
    ///
    /// It takes time linear in the smaller of the two.
    pub fn equal(&self, other: &Tree) -> bool
        ensures { IsTrue result ↔ (self.now ≡ other.now) }
    {
        match (&self.node, &other.node) {
            (Node::Basic(value), Node::Basic(other)) => value.equal(other),
            (Node::Container(text, children), Node::Container(other_text, others)) => {
                if text.as_str() != other_text.as_str() || children.len() != others.len() {
                    return false;
                }
                for i in 0..children.len() {
                    if !children[i].equal(&others[i]) {
                        return false;
                    }
                }
                true
            }
            _ => false,
        }
    }
}
