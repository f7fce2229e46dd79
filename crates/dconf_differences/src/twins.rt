//! Layers at the same place in layers that are the same otherwise: what one has as the other has it is seen alike.
ghost use Rattle.std.specs.Prelude.{◌≡◌, true};
ghost use Rattle.gvdb_alike.specs.NamesAlike.{AreNamedAlike};
ghost use Rattle.gvdb_read.specs.Tables.{region};
ghost use Rattle.dconf_layers.specs.Entries.{entries_left};
ghost use Rattle.dconf_layers.specs.LayerRows.{AreOf};
ghost use Rattle.dconf_differences.specs.Differing.{AreAsked, HaveAlikeOutside};

use dconf_layers::{Entries, Layer};
use gvdb_alike::{ItemSpan, differing_items};

/// A layer, and the other one at its place. Items outside of the span have the same names and values in both.
#[derive(Clone, Copy)]
pub(crate) struct Twins<'a> {
    pub(crate) layer: Layer<'a>,
    pub(crate) other: Layer<'a>,
    are_named_alike: bool,
    items: ItemSpan,
    ghost named: { are_named_alike ≡ true → AreNamedAlike (region layer.values) (region other.values) },
    ghost alike: { HaveAlikeOutside layer other items.first items.end },
}

impl<'a> Twins<'a> {
    /// A layer, and the other one. It looks at the items once, as [`differing_items`] says.
    pub(crate) fn new(layer: Layer<'a>, other: Layer<'a>) -> Twins<'a>
        ensures layer { result.layer ≡ layer.entry }
        ensures other { result.other ≡ other.entry }
    {
        let Some(items) = differing_items(layer.table(), other.table()) else {
            return Twins::of_others(layer, other);
        };
        Twins {
            layer,
            other,
            are_named_alike: true,
            items,
        }
    }

    /// Those of which no item is known to be the same.
    fn of_others(layer: Layer<'a>, other: Layer<'a>) -> Twins<'a>
        ensures layer { result.layer ≡ layer.entry }
        ensures other { result.other ≡ other.entry }
    {
        Twins {
            layer,
            other,
            are_named_alike: false,
            items: ItemSpan {
                first: 0,
                end: layer.table().n_items(),
            },
        }
    }

    /// The same the other way round.
    pub(crate) fn turned(self) -> Twins<'a>
        ensures layer { result.layer ≡ self.entry.other }
        ensures other { result.other ≡ self.entry.layer }
    {
        if !self.are_named_alike {
            return Twins::of_others(self.other, self.layer);
        }
        Twins {
            layer: self.other,
            other: self.layer,
            are_named_alike: true,
            items: self.items,
        }
    }

    /// The entries of the layer that the other one may have otherwise.
    pub(crate) fn entries(self) -> Entries<'a>
        ensures of { AreOf self.entry.layer (entries_left result) }
        ensures all { AreAsked self.entry.layer self.entry.other (entries_left result) }
    {
        self.layer.entries_in(self.items.first, self.items.end)
    }
}
