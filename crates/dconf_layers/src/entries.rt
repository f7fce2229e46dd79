//! The entries of a layer: paths of keys, and the bytes of their values.
ghost use Rattle.std.specs.Prelude.{◌≡◌, ◌+◌, ◌-◌, ◌<◌, ◌≤◌, [], ◌∷◌, IfOk, IsTrue, MatchOption, Some, option_map, string_bytes};
ghost use Rattle.std.specs.FinMap.{get};
ghost use Rattle.dconf_model.specs.Paths.{is_key_path};
ghost use Rattle.gvdb_read.specs.Tables.{region};
ghost use Rattle.dconf_layers.specs.LayerRows.{items_of, layer_rows, rows_from, value_in};
ghost use Rattle.dconf_layers.specs.LayerSettings.{settings_of};

use crate::layer::Layer;
use gvdb_alike::has_elsewhere;
use gvdb_format::Kind;
use std::alloc::{AllocError, Global};
use std::iter::FusedIterator;

/// A path at which a layer has a value, and the value's bytes. The path is written when it is asked for.
#[derive(Clone, Copy)]
pub struct Entry<'a> {
    layer: Layer<'a>,
    index: u32,
    bytes: &'a [u8],
    ghost inside: { index < items_of layer },
    ghost is_value: { value_in layer index ≡ Some bytes.now },
}

impl<'a> Entry<'a> {
    ghost use Rattle.dconf_layers.specs.Entries.{entry_row};

    /// Its path, which is that of a key.
    ///
    /// An error comes if an allocation fails. It walks up the item's parents, and searches for nothing.
    pub fn path(self, alloc: Global) -> Result<String, AllocError>
        ensures path { IfOk result (λ path. string_bytes path ≡ (entry_row self.entry).0) }
        ensures key { IfOk result (λ path. IsTrue (is_key_path (string_bytes path))) }
    {
        let name = gvdb_write::name_of(alloc, self.layer.values, self.index)?;
        Ok(name.unwrap())
    }

    /// Whether another layer is seen to have the same bytes at its path. False says nothing.
    ///
    /// It looks at the items of the hash's bucket, and up the parents of those of the same hash.
    pub fn is_in(self, other: Layer<'_>) -> bool
        ensures { IsTrue result → get (settings_of other.entry).values (entry_row self.entry).0 ≡ Some (entry_row self.entry).1 }
    {
        has_elsewhere(self.layer.values, self.index, other.values)
    }

    /// The bytes of its value, which are a variant's.
    pub fn bytes(self) -> &'a [u8]
        ensures { result.now ≡ (entry_row self.entry).1 }
    {
        self.bytes
    }
}

/// The entries that are left of a layer, in the order of its file.
#[derive(Clone, Copy)]
pub struct Entries<'a> {
    layer: Layer<'a>,
    next: u32,
    left: u32,
    ghost inside: { next + left ≤ items_of layer },
}

impl<'a> Iterator for Entries<'a> {
    ghost use Rattle.std.specs.Iterator.{YieldsFirstBy, item_count};
    ghost use Rattle.dconf_layers.specs.Entries.{entries_left, entry_row};

    type Item = Entry<'a>;

    ghost next_gives = { YieldsFirstBy entry_row entries_left };

    ghost remaining = { item_count entries_left };

    fn next(&mut self) -> Option<Entry<'a>> {
        let (entry, next, left) = self.layer.first_entry(self.next, self.left);
        self.next = next;
        self.left = left;
        entry
    }
}

impl FusedIterator for Entries<'_> {}

impl<'a> Layer<'a> {
    ghost use Rattle.dconf_layers.specs.Entries.{entries_left, entry_row};

    /// Its entries, in the order of its file. They take no memory.
    pub fn entries(self) -> Entries<'a>
        ensures { entries_left result ≡ layer_rows self.entry }
    {
        self.entries_in(0, self.values.n_items())
    }

    /// Those of the items from the first on, up to the end.
    pub fn entries_in(self, first: u32, end: u32) -> Entries<'a>
        requires ordered { first ≤ end }
        requires inside { end ≤ items_of self }
        ensures { entries_left result ≡ rows_from (region self.entry.values) first (end - first) }
    {
        Entries {
            layer: self,
            next: first,
            left: end - first,
        }
    }

    /// The first entry of so many items from this one on, and which items are after it.
    fn first_entry(self, next: u32, left: u32) -> (Option<Entry<'a>>, u32, u32)
        requires { next + left ≤ items_of self }
        ensures entry { MatchOption result.0
            ((rows_from (region self.entry.values) next left ≡ []) × (result.2 ≡ 0))
            (λ e. rows_from (region self.entry.values) next left ≡ entry_row e ∷ rows_from (region self.entry.values) result.1 result.2) }
        ensures inside { result.1 + result.2 ≤ next + left }
    {
        let mut next = next;
        let mut left = left;
        while left > 0 {
            let index = next;
            next += 1;
            left -= 1;
            if let Some(bytes) = self.value_of(index) {
                let entry = Entry {
                    layer: self,
                    index,
                    bytes,
                };
                return (Some(entry), next, left);
            }
        }
        (None, next, 0)
    }

    /// The bytes of an item, if it is a value.
    pub(crate) fn value_of(self, i: u32) -> Option<&'a [u8]>
        requires { i < items_of self }
        ensures { option_map (λ bytes. bytes.now) result ≡ value_in self.entry i }
    {
        let item = self.values.item(i)?;
        if item.kind == Kind::Value.letter() {
            item.bytes
        } else {
            None
        }
    }
}
