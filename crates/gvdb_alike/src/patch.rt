//! What of a table has the same bytes in another file, where it lies at the same place.
ghost use Rattle.std.specs.Prelude.{◌≡◌, ◌+◌, ◌*◌, ◌-◌, ◌<◌, ◌≤◌, ℕ, IfSome, IsTrue, true};
ghost use Rattle.dconf_model.specs.Table.{item_count};
ghost use Rattle.gvdb_read.specs.Tables.{region};
ghost use Rattle.gvdb_alike.specs.NamesAlike.{AreStepsAlike};
ghost use Rattle.gvdb_alike.specs.SameBytes.{AreBucketsKept, HasSameHead, HasSameList, HasSameShape, HaveOnePlace, HaveSameRecords, IsSameRecord};
ghost use Rattle.gvdb_alike.specs.Spans.{AreSameOutside, LiesOutside};
ghost use Rattle.gvdb_alike.specs.ValuesAlike.{value_at};

use crate::span::{DifferingSpan, differing_span};
use gvdb_check::has_buckets;
use gvdb_format::{ItemRecord, Kind, RECORD_LEN};
use gvdb_read::Table;

/// Two tables, and what of them has the same bytes: the head; the records, but for those of some items; and the files, but
/// for a span.
#[derive(Clone, Copy)]
pub(crate) struct Patch<'a> {
    pub(crate) table: Table<'a>,
    pub(crate) other: Table<'a>,
    has_same_head: bool,
    span: DifferingSpan,
    first_item: u32,
    end_item: u32,
    ghost head: { has_same_head ≡ true → HasSameHead (region table) (region other) },
    ghost records: { HaveSameRecords (region table) (region other) span.first span.last first_item end_item },
}

impl<'a> Patch<'a> {
    /// What has the same bytes in both files. Nothing, unless they have one length and the tables lie at one place.
    pub(crate) fn of(table: Table<'a>, other: Table<'a>) -> Patch<'a>
        ensures table { result.table ≡ table.entry }
        ensures other { result.other ≡ other.entry }
    {
        if !have_one_place(table, other) {
            return Patch::of_nothing(table, other);
        }
        let span = differing(table.file(), other.file());
        let (start, end) = table.raw.bounds();
        let items = end - RECORD_LEN * table.n_items() as usize;
        if !is_outside(span, start, items) {
            return Patch::of_nothing(table, other);
        }
        let (first_item, end_item) = items_in(span, items, table.n_items());
        Patch {
            table,
            other,
            has_same_head: true,
            span,
            first_item,
            end_item,
        }
    }

    /// No bytes are known to be the same.
    fn of_nothing(table: Table<'a>, other: Table<'a>) -> Patch<'a>
        ensures table { result.table ≡ table.entry }
        ensures other { result.other ≡ other.entry }
    {
        Patch {
            table,
            other,
            has_same_head: false,
            span: DifferingSpan { first: 0, last: 0 },
            first_item: 0,
            end_item: table.n_items(),
        }
    }

    /// Whether the buckets of the table are good if those of the other one are.
    pub(crate) fn has_buckets(self) -> bool
        ensures { IsTrue result → AreBucketsKept (region self.entry.table) (region self.entry.other) }
    {
        self.has_same_head || has_buckets(self.table.raw)
    }

    /// The numbers of item `i`, if its record is the same.
    #[inline(always)]
    fn same_record(self, i: u32) -> Option<ItemRecord>
        requires { i < item_count (region self.table) }
        ensures { IfSome result (IsSameRecord (region self.entry.table) (region self.entry.other) self.entry.span.first self.entry.span.last i) }
    {
        if i >= self.first_item && i < self.end_item {
            return None;
        }
        Some(self.table.raw.stored(i))
    }

    /// Whether the record of item `i` is the same, and its key.
    #[inline(always)]
    pub(crate) fn has_same_key(self, i: u32) -> bool
        requires { i < item_count (region self.table) }
        ensures { IsTrue result → AreStepsAlike (region self.entry.table) (region self.entry.other) i }
    {
        let Some(item) = self.same_record(i) else {
            return false;
        };
        let start = item.key_start as usize;
        let end = start + usize::from(item.key_size);
        is_in_file_outside(self.span, self.table.file().len(), start, end)
    }

    /// Whether the record of item `i` is the same, and what it points to.
    #[inline(always)]
    pub(crate) fn has_same_value(self, i: u32) -> bool
        requires { i < item_count (region self.table) }
        ensures { IsTrue result → value_at (region self.entry.table) i ≡ value_at (region self.entry.other) i }
    {
        let Some(item) = self.same_record(i) else {
            return false;
        };
        is_outside(self.span, item.start as usize, item.end as usize)
    }

    /// Whether the record of item `i` is the same, and its key, and its list if it is one. A table is not.
    #[inline(always)]
    pub(crate) fn has_same_shape(self, i: u32) -> bool
        requires { i < item_count (region self.table) }
        ensures { IsTrue result → HasSameShape (region self.entry.table) (region self.entry.other) i }
    {
        self.has_same_key(i) && self.has_same_list(i)
    }

    /// Whether the record of item `i` is the same, of a value or of a list that is the same.
    #[inline(always)]
    fn has_same_list(self, i: u32) -> bool
        requires { i < item_count (region self.table) }
        ensures { IsTrue result → HasSameList (region self.entry.table) (region self.entry.other) i }
    {
        let Some(item) = self.same_record(i) else {
            return false;
        };
        if item.kind == Kind::Value.letter() {
            return true;
        }
        item.kind == Kind::List.letter()
            && is_outside(self.span, item.start as usize, item.end as usize)
    }
}

/// Whether both tables lie at the same place, in files of one length.
fn have_one_place(table: Table<'_>, other: Table<'_>) -> bool
    ensures { IsTrue result → HaveOnePlace (region table.entry) (region other.entry) }
{
    let (start, end) = table.raw.bounds();
    let (other_start, other_end) = other.raw.bounds();
    start == other_start && end == other_end && table.file().len() == other.file().len()
}

/// A span outside of which two files are the same.
fn differing(one: &[u8], other: &[u8]) -> DifferingSpan
    ensures { AreSameOutside one.now other.now result.first result.last }
{
    match differing_span(one, other) {
        Some(span) => span,
        None => DifferingSpan { first: 0, last: 0 },
    }
}

/// Which of so many items, whose records begin there, have a byte of it in the span: from the first up to the second.
fn items_in(span: DifferingSpan, items: usize, count: u32) -> (u32, u32)
    ensures before { (i : ℕ) → i < result.0 → items + 24 * i + 24 ≤ span.first }
    ensures after { (i : ℕ) → i < count → result.1 ≤ i → span.last < items + 24 * i }
{
    let most = count as usize;
    let first = (span.first.saturating_sub(items) / RECORD_LEN).min(most) as u32;
    if span.last < items {
        return (first, 0);
    }
    let end = ((span.last - items) / RECORD_LEN + 1).min(most) as u32;
    (first, end)
}

/// Whether bytes lie outside of a span.
#[inline(always)]
fn is_outside(span: DifferingSpan, start: usize, end: usize) -> bool
    ensures { IsTrue result → LiesOutside span.first span.last start end }
{
    end <= span.first || start > span.last
}

/// Whether bytes lie in a file of so many, outside of a span. Most come before it, which is asked first.
#[inline(always)]
fn is_in_file_outside(span: DifferingSpan, len: usize, start: usize, end: usize) -> bool
    ensures within { IsTrue result → end ≤ len }
    ensures outside { IsTrue result → LiesOutside span.first span.last start end }
{
    if end <= span.first.min(len) {
        return true;
    }
    end <= len && is_outside(span, start, end)
}
