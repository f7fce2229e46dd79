//! Walks up the parents that don't go where an earlier one has been.
//!
//! The items that were seen last are noted, and those above them. A walk ends where it comes to one of these, and so a long chain
//! of parents isn't walked again for each item of it, nor for each item below it.
ghost use Rattle.std.specs.Prelude.{◌≡◌, ◌<◌, List, ℕ, IfSome, length};
ghost use Rattle.dconf_model.specs.Table.{item_count};
ghost use Rattle.dconf_model.specs.Names.{full_name};
ghost use Rattle.dconf_model.specs.Searchable.{LeadsUp};
ghost use Rattle.dconf_model.specs.Sound.{KeepsAll};
ghost use Rattle.dconf_model.specs.Sound.Rule.{keys, chain};
ghost use Rattle.gvdb_check.specs.NotedItems.{DoEnd, AreLong};
ghost use Rattle.gvdb_format.specs.Tables.{region};

use gvdb_format::RawTable;

/// How many items are noted. An item's number tells its place, and there the last one counts.
const NOTED: usize = 256;

/// An item whose parents end, and how many bytes its full name has. S3, which asks for no lengths, has 0 there.
#[derive(Clone, Copy)]
struct Noted {
    item: u32,
    len: u16,
}

/// The items that are noted.
#[derive(Drop)]
pub(crate) struct NotedItems {
    places: [Option<Noted>; NOTED],
}

impl NotedItems {
    ghost use Rattle.gvdb_check.specs.NotedItems.{Has, none_noted, with_noted};

    /// None.
    pub(crate) fn none() -> NotedItems
        ensures { result ≡ none_noted }
    {
        NotedItems {
            places: [None; NOTED],
        }
    }

    /// The length that is noted of item `i`, if it is noted.
    pub(crate) fn get(&self, i: u32) -> Option<u16>
        ensures { IfSome result (λ len. Has self.now i len) }
    {
        let found = self.places[i as usize % NOTED];
        match found {
            Some(noted) if noted.item == i => Some(noted.len),
            _ => None,
        }
    }

    /// Notes item `i`.
    fn note(&mut self, i: u32, len: u16)
        ensures { self.new ≡ with_noted self.old i len }
    {
        self.places[i as usize % NOTED] = Some(Noted { item: i, len });
    }
}

/// Notes item `i`, whose parents end, and those above it, up to one that is noted, and no more than have a place.
pub(crate) fn note_up(table: RawTable<'_>, i: u32, len: u16, noted: &mut NotedItems)
    requires counted { i < item_count (region table) }
    requires keys { KeepsAll (region table) keys }
    requires ends { (parents : List ℕ) × LeadsUp (region table) i parents }
    ensures ends { DoEnd (region table.entry) noted.old → DoEnd (region table.entry) noted.new }
    ensures lens { KeepsAll (region table.entry) chain → length (full_name (region table.entry) i) ≡ len
        → AreLong (region table.entry) noted.old → AreLong (region table.entry) noted.new }
{
    let mut at = i;
    let mut len = len;
    for _ in 0..NOTED {
        if noted.get(at).is_some() {
            return;
        }
        noted.note(at, len);
        let Some(parent) = table.parent_at(at) else {
            return;
        };
        len = len.saturating_sub(table.key_size_at(at));
        at = parent;
    }
}
