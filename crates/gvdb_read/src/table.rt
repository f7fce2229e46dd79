//! A table, as callers see it.
ghost use Rattle.std.specs.Prelude.{◌≡◌, ◌<◌, ◌≤◌, ◌↔◌, ℕ, List, length, IsOk, IsSome, IsTrue, IfErr, IfNone, IfOk, IfSome};
ghost use Rattle.dconf_model.specs.Table.{item_count, table_of};
ghost use Rattle.dconf_model.specs.Names.{HasName};
ghost use Rattle.dconf_model.specs.Opening.{IsDatabase, IsOpenFault, root_of};
ghost use Rattle.dconf_model.specs.Sound.{IsFirstFault, IsSound};
ghost use Rattle.gvdb_format.specs.Faults.{open_fault_of};
ghost use Rattle.gvdb_format.specs.Tables.{IsShownAs, PointsToTable};
ghost use Rattle.gvdb_check.specs.Unsounds.{rule_of};

use gvdb_check::Unsound;
use gvdb_format::{Item, OpenFault, RawTable};

/// A table that opened, in the file where it was found. It may be handed to C and back.
#[repr(C)]
#[derive(Clone, Copy, Debug)]
pub struct Table<'a> {
    /// The same table, by its numbers and records.
    pub raw: RawTable<'a>,
}

impl<'a> Table<'a> {
    ghost use Rattle.gvdb_read.specs.Tables.{region};

    /// Opens a database: gives its root table.
    ///
    /// Other bytes are refused, with the first fault in the order of [`OpenFault`]. It looks at the header and at the
    /// two first numbers of the table, and at nothing else.
    pub fn open(file: &'a [u8]) -> Result<Table<'a>, OpenFault>
        ensures opens { IsOk result ↔ IsDatabase file.entry.now }
        ensures root { IfOk result (λ t. region t ≡ root_of file.entry.now) }
        ensures fault { IfErr result (λ e. IsOpenFault file.entry.now (open_fault_of e)) }
    {
        let raw = RawTable::open(file)?;
        Ok(Table { raw })
    }

    /// The bytes of the file that the table is in.
    #[inline(always)]
    pub fn file(self) -> &'a [u8]
        ensures { result.now ≡ (region self.entry).file }
    {
        self.raw.file()
    }

    /// How many items the table has.
    #[inline(always)]
    pub fn n_items(self) -> u32
        ensures { result ≡ item_count (region self.entry) }
    {
        self.raw.n_items()
    }

    /// Item `i`, which counts from 0. None exactly where there are not so many.
    #[inline(always)]
    pub fn item(self, i: u32) -> Option<Item<'a>>
        ensures some { IsSome result ↔ (i < item_count (region self.entry)) }
        ensures shows { IfSome result (IsShownAs (region self.entry) i) }
    {
        self.raw.item(i)
    }

    /// The table that item `i` points to. None where there is no such item, where it is of another kind than `H`, and
    /// where no table opens there.
    pub fn table_at(self, i: u32) -> Option<Table<'a>>
        ensures some { IsSome result ↔ PointsToTable (region self.entry) i }
        ensures table { IfSome result (λ t. region t ≡ table_of (region self.entry) i) }
    {
        let raw = self.raw.table_at(i)?;
        Some(Table { raw })
    }

    /// How many bytes item `i`'s full name has. None where it has none, and where it has more than `longest`.
    ///
    /// It looks at the item and at its parents, at `longest + 1` items at most.
    #[inline(always)]
    pub fn name_len(self, i: u32, longest: usize) -> Option<usize>
        ensures some { IfSome result (λ n. (name : List ℕ)
            × HasName (region self.entry) i name × (length name ≡ n)) }
        ensures short { IfSome result (λ n. n ≤ longest) }
        ensures none { IfNone result ((name : List ℕ) → HasName (region self.entry) i name → longest < length name) }
    {
        self.raw.name_len(i, longest)
    }

    /// Writes item `i`'s full name. True exactly where it has one of as many bytes as the room; else what is in the
    /// room afterwards says nothing.
    ///
    /// It looks at one item more than the room has bytes at most.
    #[inline(always)]
    pub fn write_name(self, i: u32, room: &mut [u8]) -> bool
        ensures fits { IsTrue result ↔ ((name : List ℕ)
            × HasName (region self.entry) i name × (length name ≡ length room.old)) }
        ensures name { IsTrue result → HasName (region self.entry) i room.new }
    {
        self.raw.write_name(i, room)
    }

    /// Whether item `i` has this full name.
    ///
    /// It looks at one item more than the name has bytes at most, from the name's end up along the parents.
    #[inline(always)]
    pub fn has_name(self, i: u32, name: &str) -> bool
        ensures { IsTrue result ↔ HasName (region self.entry) i name.now }
    {
        self.raw.has_name(i, name)
    }

    /// Whether the table, as the root of a database, is sound, as [`gvdb_check::check`] says.
    #[inline(always)]
    pub fn check(self) -> Result<(), Unsound>
        ensures sound { IfOk result (λ _. IsSound (region self.entry)) }
        ensures fault { IfErr result (λ e. IsFirstFault (region self.entry) (rule_of e.rule) e.item) }
    {
        gvdb_check::check(self.raw)
    }
}
