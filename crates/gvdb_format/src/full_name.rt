//! Full names of items, on any table that opens: the keys along an item's parents, the root's first.
ghost use Rattle.std.specs.Prelude.{◌≡◌, ◌+◌, ◌<◌, ◌≤◌, ◌^◌, ◌↔◌, ℕ, List, IfNone, IfSome, IsTrue, length};
ghost use Rattle.dconf_model.specs.Names.{HasName};

use crate::raw_table::RawTable;
use crate::suffix::before_suffix;
use gv_types::Steps;

impl<'a> RawTable<'a> {
    ghost use Rattle.gvdb_format.specs.Tables.{region};

    /// How many bytes item `i`'s full name has. None where it has none, and where it has more than `longest`.
    ///
    /// It looks at the item and at its parents, at `longest + 1` items at most: each item with a parent takes at least
    /// one byte of the name, so that it ends where parents go round in a circle.
    pub fn name_len(self, i: u32, longest: usize) -> Option<usize>
        ensures some { IfSome result (λ n. (name : List ℕ)
            × HasName (region self.entry) i name × (length name ≡ n)) }
        ensures short { IfSome result (λ n. n ≤ longest) }
        ensures none { IfNone result ((name : List ℕ) → HasName (region self.entry) i name → longest < length name) }
    {
        let mut at = i;
        let mut left = longest;
        loop {
            let link = self.name_link_at(at)?;
            left = left.checked_sub(link.key.len())?;
            let Some(parent) = link.parent else {
                return Some(longest - left);
            };
            at = parent;
        }
    }

    /// Writes item `i`'s full name. True exactly where it has one of as many bytes as the room; else what is in the
    /// room afterwards says nothing.
    ///
    /// It writes from the room's end, key by key up the parents, and looks at one item more than the room has bytes at
    /// most.
    pub fn write_name(self, i: u32, room: &mut [u8]) -> bool
        ensures fits { IsTrue result ↔ ((name : List ℕ)
            × HasName (region self.entry) i name × (length name ≡ length room.old)) }
        ensures name { IsTrue result → HasName (region self.entry) i room.new }
    {
        let mut at = i;
        let mut end = room.len();
        loop {
            let Some(link) = self.name_link_at(at) else {
                return false;
            };
            let Some(start) = end.checked_sub(link.key.len()) else {
                return false;
            };
            room[start..end].copy_from_slice(link.key);
            let Some(parent) = link.parent else {
                return start == 0;
            };
            (at, end) = (parent, start);
        }
    }

    /// Whether item `i` has this full name.
    ///
    /// It looks at one item more than the name has bytes at most, from the name's end up along the parents.
    pub fn has_name(self, i: u32, name: &str) -> bool
        ensures { IsTrue result ↔ HasName (region self.entry) i name.now }
    {
        let mut steps = Steps::new();
        self.is_named(i, name.as_bytes(), &mut steps)
    }

    /// Whether item `i` has this full name. It is compared from its end, key by key up the parents; each item with a
    /// parent takes at least one byte of it, so that it ends where parents go round in a circle.
    #[inline(always)]
    pub fn is_named(self, i: u32, name: &[u8], steps: &mut Steps) -> bool
        requires { steps.old + length name.now + 1 < 2 ^ 128 }
        ensures named { IsTrue result ↔ HasName (region self.entry) i name.now }
        ensures cost { steps.new ≤ steps.old + length name.now + 1 }
        ensures grows { steps.old ≤ steps.new }
    {
        let mut at = i;
        let mut rest = name;
        loop {
            steps.tick();
            let Some(link) = self.name_link_at(at) else {
                return false;
            };
            let Some(prefix) = before_suffix(rest, link.key) else {
                return false;
            };
            let Some(parent) = link.parent else {
                return prefix.is_empty();
            };
            at = parent;
            rest = prefix;
        }
    }
}
