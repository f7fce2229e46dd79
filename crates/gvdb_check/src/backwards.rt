//! An item's full name from its last byte on: its key backwards, and then its parent's full name.
ghost use Rattle.std.specs.Prelude.{◌≡◌, ◌<◌, [], IfNone, IfSome, length, reverse};
ghost use Rattle.std.specs.Option.{ForSome};
ghost use Rattle.dconf_model.specs.Table.{item_count};
ghost use Rattle.dconf_model.specs.Names.{full_name};
ghost use Rattle.dconf_model.specs.Sound.{KeepsAll};
ghost use Rattle.dconf_model.specs.Sound.Rule.{keys, chain};
ghost use Rattle.gvdb_check.specs.Joined.{HasNames};
ghost use Rattle.gvdb_format.specs.Tables.{region};

use gvdb_format::RawTable;
use std::iter::FusedIterator;

/// The bytes of an item's full name that are left, the last first: those of a key, and those of the name above it.
#[derive(Clone, Copy)]
pub(crate) struct Backwards<'a> {
    table: RawTable<'a>,
    key: &'a [u8],
    parent: Option<u32>,
    ghost named: { HasNames (region table) },
    ghost counted: { ForSome parent (λ p. p < item_count (region table)) },
}

impl<'a> Backwards<'a> {
    ghost use Rattle.gvdb_check.specs.Backwards.{backwards_left};

    /// The full name of item `i`.
    fn of(table: RawTable<'a>, i: u32) -> Backwards<'a>
        requires named { HasNames (region table) }
        requires counted { i < item_count (region table) }
        ensures left { backwards_left result ≡ reverse (full_name (region table.entry) i) }
        ensures some { 0 < length result.key.now }
    {
        let link = table.link_at(i).unwrap();
        Backwards {
            table,
            key: link.key,
            parent: link.parent,
        }
    }

    /// The full name of item `i` of a table that keeps S2 and S3.
    pub(crate) fn name_of(table: RawTable<'a>, i: u32) -> Backwards<'a>
        requires keys { KeepsAll (region table) keys }
        requires chain { KeepsAll (region table) chain }
        requires counted { i < item_count (region table) }
        ensures { backwards_left result ≡ reverse (full_name (region table.entry) i) }
    {
        Backwards::of(table, i)
    }

    /// The same bytes, the first of them in the key at hand. None where none is left.
    fn filled(self) -> Option<Backwards<'a>>
        ensures same { IfSome result (λ filled. backwards_left filled ≡ backwards_left self.entry) }
        ensures some { IfSome result (λ filled. 0 < length filled.key.now) }
        ensures none { IfNone result (backwards_left self.entry ≡ []) }
    {
        if !self.key.is_empty() {
            return Some(self);
        }
        let parent = self.parent?;
        Some(Backwards::of(self.table, parent))
    }
}

impl Iterator for Backwards<'_> {
    type Item = u8;

    ghost use Rattle.std.specs.Iterator.{YieldsFirst, item_count as count_left};
    ghost use Rattle.gvdb_check.specs.Backwards.{backwards_left};

    ghost next_gives = { YieldsFirst backwards_left };

    ghost remaining = { count_left backwards_left };

    fn next(&mut self) -> Option<u8> {
        *self = self.filled()?;
        let (last, prefix) = self.key.split_last()?;
        self.key = prefix;
        Some(*last)
    }
}

impl FusedIterator for Backwards<'_> {}
