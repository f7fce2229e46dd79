//! The keys of the items that a list names.
ghost use Rattle.std.specs.Prelude.{◌≡◌, ◌+◌, ◌*◌, ◌≤◌, [], ◌∷◌, MatchOption, length};
ghost use Rattle.dconf_model.specs.Listed.{listed_keys};
ghost use Rattle.gvdb_read.specs.Tables.{region};

use crate::table::Table;
use gvdb_format::{NUMBER_LEN, read_u32};
use std::iter::FusedIterator;

/// The keys of the items that a list names, in its order. The number of no item is passed over, and so is an item
/// whose key doesn't lie in the file.
#[derive(Clone, Copy, Debug)]
pub struct Names<'a> {
    pub(crate) table: Table<'a>,
    pub(crate) at: usize,
    pub(crate) left: usize,
    ghost inside: { at + 4 * left ≤ length (region table).file },
}

impl<'a> Iterator for Names<'a> {
    type Item = &'a [u8];

    ghost use Rattle.std.specs.Iterator.{YieldsFirstRef, item_count};
    ghost use Rattle.gvdb_read.specs.Lookups.{names_left};

    ghost next_gives = { YieldsFirstRef names_left };

    ghost remaining = { item_count names_left };

    fn next(&mut self) -> Option<&'a [u8]> {
        let (key, at, left) = self.table.first_key(self.at, self.left);
        self.at = at;
        self.left = left;
        key
    }
}

impl FusedIterator for Names<'_> {}

impl<'a> Table<'a> {
    /// The first key of the items whose numbers occur from there on, so many of them, and what is left of the numbers.
    fn first_key(self, at: usize, left: usize) -> (Option<&'a [u8]>, usize, usize)
        requires { at + 4 * left ≤ length (region self).file }
        ensures key { MatchOption result.0
            ((listed_keys (region self.entry) at left ≡ []) × (result.2 ≡ 0))
            (λ key. listed_keys (region self.entry) at left
            ≡ key.now ∷ listed_keys (region self.entry) result.1 result.2) }
        ensures inside { result.1 + 4 * result.2 ≤ at + 4 * left }
    {
        let mut at = at;
        let mut left = left;
        while left > 0 {
            let found = self.raw.link_at(read_u32(self.file(), at));
            at += NUMBER_LEN;
            left -= 1;
            if let Some(link) = found {
                return (Some(link.key), at, left);
            }
        }
        (None, at, 0)
    }
}
