//! Where everything occurs in a database's bytes: header; root table; its keys; its lists; the table of locks and its
//! keys; values, the root table's and then the locks', equal bytes once.
ghost use Rattle.std.specs.Prelude.{ℕ, ◌≡◌, ◌+◌, ◌*◌, ◌/◌, ◌<◌, ◌≤◌, length, OnOk, IfOk, IfErr};
ghost use Rattle.gv_model.specs.Layout.{round_up};
ghost use Rattle.dconf_model.specs.Table.{list_kind};
ghost use Rattle.dconf_model.specs.Entries.{EachEntry, IsRootEntry, AreChildren};
ghost use Rattle.dconf_model.specs.Plans.{length_of, locks_end, values_end};
ghost use Rattle.gvdb_maps.specs.Limits.{limit, IsPast, IsOver};
ghost use Rattle.gvdb_maps.specs.PlanWords.{kind_at, entries_of, children_of, plan_of};
ghost use Rattle.gvdb_maps.specs.LayoutParts.{CanBeLaid, AreLocks, table_end, all_keys_end, laid_end, IsShort, ArePointers};
ghost use Rattle.gvdb_values.specs.WrittenValues.{bytes_of_each};
ghost use Rattle.gvdb_maps.specs.PlannedTables.{AreContentsOf, IsLayoutOf};

use crate::contents::Contents;
use crate::names::Named;
use crate::table::TablePlan;
use crate::values::PlacedValues;
use crate::write_fault::{TooBig, WriteFault};
use gvdb_format::{HEAD_LEN, HEADER_LEN, NUMBER_LEN, RECORD_LEN, WORD_LEN};
use std::alloc::Global;

/// How many bytes a database has at most.
pub const MAX_DATABASE_LEN: usize = 4_294_967_295;

/// How many bytes a table has for each item: its record, and a bucket.
const ITEM_LEN: usize = RECORD_LEN + WORD_LEN;

/// From where to where something is.
#[derive(Clone, Copy)]
pub(crate) struct Pointer {
    pub(crate) start: usize,
    pub(crate) end: usize,
}

/// Where the bytes go that are laid next.
#[derive(Drop)]
pub(crate) struct Cursor {
    pub(crate) at: usize,
    ghost within: { at ≤ limit },
}

impl Cursor {
    /// Lays so many bytes, unless there would be too many.
    fn lay(&mut self, len: usize) -> Result<Pointer, WriteFault>
        ensures start { IfOk result (λ pointer. pointer.start ≡ self.old.at) }
        ensures end { IfOk result (λ pointer. pointer.end ≡ self.old.at + len) }
        ensures at { OnOk result (self.new.at ≡ self.old.at + len) }
        ensures fault { IfErr result (IsPast (self.old.at + len)) }
    {
        if len > MAX_DATABASE_LEN - self.at {
            return Err(WriteFault::Fault(TooBig));
        }
        let start = self.at;
        self.at += len;
        Ok(Pointer {
            start,
            end: self.at,
        })
    }

    /// Goes on to the next multiple of a number.
    fn align(&mut self, to: usize) -> Result<(), WriteFault>
        requires { 0 < to }
        ensures at { OnOk result (self.new.at ≡ round_up to self.old.at) }
        ensures fault { IfErr result (IsPast (round_up to self.old.at)) }
    {
        let past = self.at % to;
        if past != 0 {
            self.lay(to - past)?;
        }
        Ok(())
    }
}

/// How many bloom words a table of so many items has.
pub(crate) fn bloom_words(items: usize) -> usize
    ensures { result ≡ (items + 15) / 16 }
{
    items.div_ceil(16)
}

/// Lays a table of so many items.
fn lay_table(cursor: &mut Cursor, items: usize) -> Result<Pointer, WriteFault>
    ensures start { IfOk result (λ pointer. pointer.start ≡ round_up 4 cursor.old.at) }
    ensures end { IfOk result (λ pointer. pointer.end ≡ table_end cursor.old.at items) }
    ensures at { OnOk result (cursor.new.at ≡ table_end cursor.old.at items) }
    ensures fault { IfErr result (IsPast (table_end cursor.old.at items)) }
{
    if items > MAX_DATABASE_LEN / ITEM_LEN {
        return Err(WriteFault::Fault(TooBig));
    }
    cursor.align(4)?;
    cursor.lay(HEAD_LEN + WORD_LEN * bloom_words(items) + ITEM_LEN * items)
}

/// Lays the keys of items, one after another.
fn lay_keys(cursor: &mut Cursor, items: &[Named<'_>]) -> Result<(), WriteFault>
    requires { CanBeLaid items.now }
    ensures at { OnOk result (cursor.new.at ≡ all_keys_end cursor.old.at items.now) }
    ensures fault { IfErr result (IsPast (all_keys_end cursor.old.at items.now)) }
{
    for named in items {
        cursor.lay(named.name.len() - named.from as usize)?;
    }
    Ok(())
}

/// Lays a table and its keys, which come right after it. Gives where the table is.
fn lay_items(cursor: &mut Cursor, items: &[Named<'_>]) -> Result<Pointer, WriteFault>
    requires { CanBeLaid items.now }
    ensures short { IfOk result IsShort }
    ensures start { IfOk result (λ pointer. pointer.start ≡ round_up 4 cursor.old.at) }
    ensures end { IfOk result (λ pointer. pointer.end ≡ table_end cursor.old.at (length items.now)) }
    ensures few { IfOk result (λ pointer. length items.now ≤ limit) }
    ensures keys { IfOk result (λ pointer. all_keys_end pointer.end items.now ≤ limit) }
    ensures at { OnOk result (cursor.new.at ≡ laid_end cursor.old.at items.now) }
    ensures fault { IfErr result (IsPast (laid_end cursor.old.at items.now)) }
{
    let pointer = lay_table(cursor, items.len())?;
    lay_keys(cursor, items)?;
    Ok(pointer)
}

/// Lays so many numbers in lists, which come one after another, since each has whole numbers. Gives where they start.
fn lay_lists(cursor: &mut Cursor, numbers: usize) -> Result<usize, WriteFault>
    ensures start { IfOk result (λ start. start ≡ round_up 4 cursor.old.at) }
    ensures within { IfOk result (λ start. start + 4 * numbers ≤ limit) }
    ensures at { OnOk result (cursor.new.at ≡ round_up 4 cursor.old.at + 4 * numbers) }
    ensures fault { IfErr result (IsPast (round_up 4 cursor.old.at + 4 * numbers)) }
{
    cursor.align(4)?;
    if numbers > MAX_DATABASE_LEN / NUMBER_LEN {
        return Err(WriteFault::Fault(TooBig));
    }
    let all = cursor.lay(NUMBER_LEN * numbers)?;
    Ok(all.start)
}

/// Lays the table of locks and its keys, unless there are none.
fn lay_locks(cursor: &mut Cursor, locks: &[Named<'_>]) -> Result<Pointer, WriteFault>
    requires { CanBeLaid locks.now }
    ensures short { IfOk result IsShort }
    ensures start { IfOk result (λ pointer. 0 < length locks.now → pointer.start ≡ round_up 4 cursor.old.at) }
    ensures end { IfOk result (λ pointer. 0 < length locks.now → pointer.end ≡ table_end cursor.old.at (length locks.now)) }
    ensures few { IfOk result (λ pointer. length locks.now ≤ limit) }
    ensures keys { IfOk result (λ pointer. all_keys_end pointer.end locks.now ≤ limit) }
    ensures at { OnOk result (cursor.new.at ≡ locks_end (entries_of locks.now) cursor.old.at) }
    ensures fault { IfErr result (IsPast (locks_end (entries_of locks.now) cursor.old.at)) }
{
    if locks.is_empty() {
        return Ok(Pointer { start: 0, end: 0 });
    }
    lay_items(cursor, locks)
}

/// Lays values, each at a multiple of 8.
fn lay_values(
    alloc: Global,
    cursor: &mut Cursor,
    values: &[&[u8]],
) -> Result<Vec<Pointer>, WriteFault>
    ensures pointers { IfOk result (λ pointers. ArePointers cursor.old.at (bytes_of_each values.now) pointers.items) }
    ensures at { OnOk result (cursor.new.at ≡ values_end cursor.old.at (bytes_of_each values.now)) }
    ensures fault { IfErr result (IsOver (values_end cursor.old.at (bytes_of_each values.now))) }
{
    let mut pointers = Vec::with_capacity(alloc, values.len())?;
    for value in values {
        cursor.align(8)?;
        pointers.push(cursor.lay(value.len())?)?;
    }
    Ok(pointers)
}

/// Where everything is.
#[derive(Drop)]
pub(crate) struct Layout<'a> {
    /// Where the root table is.
    pub(crate) root: Pointer,
    /// Where all lists start.
    pub(crate) lists: usize,
    /// Where the table of locks is. Without locks it says nothing, and no item has their table.
    pub(crate) locks: Pointer,
    /// The values that are stored, and which of them each item has.
    pub(crate) values: PlacedValues<'a>,
    /// Where each value is.
    pub(crate) pointers: Vec<Pointer>,
    /// How many bytes there are.
    pub(crate) end: usize,
}

impl<'a> Layout<'a> {
    /// Lays a database of a root table and a table of locks, which is left out where it has no item.
    pub(crate) fn new(
        alloc: Global,
        root: &TablePlan<'a>,
        locks: &TablePlan<'a>,
    ) -> Result<Layout<'a>, WriteFault>
        requires root { CanBeLaid root.now.items.items }
        requires locks { CanBeLaid locks.now.items.items }
        requires nothing { AreLocks locks.now.items.items }
        requires top { (i : ℕ) × (i < length root.now.items.items) × (kind_at root.now.items.items i ≡ list_kind) }
        requires entries { EachEntry (entries_of root.now.items.items) (IsRootEntry (entries_of root.now.items.items)) }
        requires children { AreChildren (entries_of root.now.items.items) (children_of root.now) }
        ensures layout { IfOk result (IsLayoutOf root.now locks.now) }
        ensures fault { IfErr result (IsOver (length_of (plan_of root.now locks.now))) }
    {
        let mut cursor = Cursor { at: HEADER_LEN };
        let root_at = lay_items(&mut cursor, &root.items)?;
        let lists = lay_lists(&mut cursor, root.children.len())?;
        let locks_at = lay_locks(&mut cursor, &locks.items)?;
        let values = PlacedValues::new(alloc, &root.items, &locks.items)?;
        let pointers = lay_values(alloc, &mut cursor, &values.distinct)?;
        Ok(Layout {
            root: root_at,
            lists,
            locks: locks_at,
            values,
            pointers,
            end: cursor.at,
        })
    }

    /// Where the contents of a table's items are, by the places of their first children and of their values.
    pub(crate) fn contents<'b>(&'b self, firsts: &'b [usize], places: &'b [usize]) -> Contents<'b>
        ensures { AreContentsOf self.now firsts.entry.now places.entry.now result }
    {
        Contents {
            lists: self.lists,
            firsts,
            table: self.locks,
            places,
            pointers: &self.pointers,
        }
    }
}
