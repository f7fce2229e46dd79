//! A table of a file: where it opens, and its items.
ghost use Rattle.std.specs.Prelude.{◌≡◌, ◌+◌, ◌*◌, ◌<◌, ◌≤◌, ◌^◌, ◌↔◌, length, slice_range, IsOk, IsSome, IsTrue, IfErr, IfNone, IfOk, IfSome};
ghost use Rattle.dconf_model.specs.Table.{HasHead, HasItems, IsValidPointer, Opens, alignment_of, bucket_count, item, item_count, items_start, table_of};
ghost use Rattle.dconf_model.specs.Opening.{IsDatabase, IsOpenFault, root_of};
ghost use Rattle.gvdb_format.specs.Faults.{open_fault_of};
ghost use Rattle.gvdb_format.specs.Opened.{IsOpened};

use crate::fault::OpenFault;
use crate::header::{HEAD_LEN, HEADER_LEN, SHIFT_UNIT, SIGNATURE, WORD_LEN};
use crate::item::Item;
use crate::kind::Kind;
use crate::little_endian::read_u32;
use crate::record::{ItemRecord, RECORD_LEN};

/// A table that opened, in the file where it was found. It may be handed to C and back.
#[repr(C)]
#[derive(Clone, Copy, Debug)]
pub struct RawTable<'a> {
    pub(crate) file: &'a [u8],
    pub(crate) start: usize,
    pub(crate) end: usize,
    pub(crate) bloom_words: u32,
    pub(crate) bloom_shift: u32,
    pub(crate) buckets: u32,
    pub(crate) first_item: usize,
    pub(crate) items: u32,
    ghost opened: { IsOpened (record { file = file.now; start = start; end = end })
        bloom_words bloom_shift buckets first_item items },
}

impl<'a> RawTable<'a> {
    ghost use Rattle.gvdb_format.specs.Tables.{region, item_of, key_at, content_at, IsKeyInside, IsPointer, IsShownAs, PointsToTable};

    /// Opens a database: gives its root table.
    ///
    /// Other bytes are refused, with the first fault in the order of [`OpenFault`]. It looks at the header and at the
    /// two first numbers of the table, and at nothing else.
    pub fn open(file: &'a [u8]) -> Result<RawTable<'a>, OpenFault>
        ensures opens { IsOk result ↔ IsDatabase file.entry.now }
        ensures root { IfOk result (λ t. region t ≡ root_of file.entry.now) }
        ensures fault { IfErr result (λ e. IsOpenFault file.entry.now (open_fault_of e)) }
    {
        if file.len() < HEADER_LEN {
            return Err(OpenFault::Short);
        }
        if !file.starts_with(SIGNATURE) {
            return Err(OpenFault::BadSignature);
        }
        if read_u32(file, 8) != 0 {
            return Err(OpenFault::BadVersion);
        }
        let start = read_u32(file, 16) as usize;
        let end = read_u32(file, 20) as usize;
        if !has_head(file, start, end) {
            return Err(OpenFault::BadRoot);
        }
        RawTable::within(file, start, end).ok_or(OpenFault::BadTable)
    }

    /// The bytes of the file that the table is in.
    pub fn file(self) -> &'a [u8]
        ensures { result.now ≡ (region self.entry).file }
    {
        self.file
    }

    /// Where in its file the table starts and ends.
    #[inline(always)]
    pub fn bounds(self) -> (usize, usize)
        ensures start { result.0 ≡ (region self.entry).start }
        ensures end { result.1 ≡ (region self.entry).end }
        ensures opens { Opens (region self.entry) }
    {
        (self.start, self.end)
    }

    /// How many buckets the table has.
    #[inline(always)]
    pub fn n_buckets(self) -> u32
        ensures { result ≡ bucket_count (region self.entry) }
    {
        self.buckets
    }

    /// How many items the table has.
    #[inline(always)]
    pub fn n_items(self) -> u32
        ensures { result ≡ item_count (region self.entry) }
    {
        self.items
    }

    /// Item `i`, which counts from 0. None exactly where there are not so many.
    #[inline(always)]
    pub fn item(self, i: u32) -> Option<Item<'a>>
        ensures some { IsSome result ↔ (i < item_count (region self.entry)) }
        ensures shows { IfSome result (IsShownAs (region self.entry) i) }
    {
        if i >= self.n_items() {
            return None;
        }
        let stored = self.stored(i);
        Some(Item {
            hash: stored.hash,
            parent: stored.parent,
            key: self.key_of(stored),
            kind: stored.kind,
            bytes: self.pointed(stored),
        })
    }

    /// The table that item `i` points to. None where there is no such item, where it is of another kind than `H`, and
    /// where no table opens there.
    pub fn table_at(self, i: u32) -> Option<RawTable<'a>>
        ensures some { IsSome result ↔ PointsToTable (region self.entry) i }
        ensures table { IfSome result (λ t. region t ≡ table_of (region self.entry) i) }
    {
        if i >= self.n_items() {
            return None;
        }
        let stored = self.stored(i);
        let (start, end) = (stored.start as usize, stored.end as usize);
        if stored.kind != Kind::Table.letter() || !has_head(self.file, start, end) {
            return None;
        }
        RawTable::within(self.file, start, end)
    }

    /// The table between two places where a table's head lies. None where no table opens there.
    fn within(file: &'a [u8], start: usize, end: usize) -> Option<RawTable<'a>>
        requires small { end < 2 ^ 32 }
        requires head { HasHead (record { file = file.now; start = start; end = end }) }
        ensures some { IsSome result ↔ HasItems (record { file = file.entry.now; start = start; end = end }) }
        ensures table { IfSome result (λ t. region t ≡ record { file = file.entry.now; start = start; end = end }) }
    {
        let head = read_u32(file, start);
        let bloom_words = head % SHIFT_UNIT;
        let buckets = read_u32(file, start + WORD_LEN);
        let first_item = start
            + HEAD_LEN
            + WORD_LEN * bloom_words as usize
            + WORD_LEN * buckets as usize;
        if first_item > end || (end - first_item) % RECORD_LEN != 0 {
            return None;
        }
        Some(RawTable {
            file,
            start,
            end,
            bloom_words,
            bloom_shift: head / SHIFT_UNIT,
            buckets,
            first_item,
            items: ((end - first_item) / RECORD_LEN) as u32,
        })
    }

    /// The numbers of item `i`, as they are stored.
    #[inline(always)]
    pub fn stored(self, i: u32) -> ItemRecord
        requires { i < item_count (region self) }
        ensures { item_of result ≡ item (region self.entry) i }
    {
        ItemRecord::read(self.file, self.record_at(i))
    }

    /// Where in the file the record of item `i` starts.
    #[inline(always)]
    pub(crate) fn record_at(self, i: u32) -> usize
        requires { i < item_count (region self) }
        ensures at { result ≡ items_start (region self.entry) + 24 * i }
        ensures inside { result + 24 ≤ length self.entry.file.now }
    {
        self.first_item + RECORD_LEN * i as usize
    }

    /// An item's key. None where its bytes don't lie in the file.
    #[inline(always)]
    pub fn key_of(self, stored: ItemRecord) -> Option<&'a [u8]>
        ensures lent { IfSome result (λ key. IsKeyInside self.entry.file.now (item_of stored)
            × (key.now ≡ key_at self.entry.file.now (item_of stored))) }
        ensures none { IfNone result (¬ IsKeyInside self.entry.file.now (item_of stored)) }
    {
        self.cut_key(stored.key_start, stored.key_size)
    }

    /// So many bytes from there on: the one place where a key is cut out of the file. None where they don't lie there.
    #[inline(always)]
    pub(crate) fn cut_key(self, start: u32, size: u16) -> Option<&'a [u8]>
        ensures lent { IfSome result (λ key. (start + size ≤ length self.entry.file.now)
            × (key.now ≡ slice_range self.entry.file.now start (start + size))) }
        ensures none { IfNone result (¬ (start + size ≤ length self.entry.file.now)) }
    {
        let start = start as usize;
        self.file.get(start..start + usize::from(size))
    }

    /// What an item points to. None where the pointer isn't valid.
    #[inline(always)]
    pub fn pointed(self, stored: ItemRecord) -> Option<&'a [u8]>
        ensures lent { IfSome result (λ bytes. IsPointer self.entry.file.now (item_of stored)
            × (bytes.now ≡ content_at self.entry.file.now (item_of stored))) }
        ensures none { IfNone result (¬ IsPointer self.entry.file.now (item_of stored)) }
    {
        self.follow(stored.kind, stored.start, stored.end)
    }

    /// The bytes to which an item of this kind points: the one place where one is followed to a content. None where it
    /// isn't valid.
    #[inline(always)]
    pub(crate) fn follow(self, kind: u8, start: u32, end: u32) -> Option<&'a [u8]>
        ensures lent { IfSome result (λ bytes. IsValidPointer self.entry.file.now (alignment_of kind) start end
            × (bytes.now ≡ slice_range self.entry.file.now start end)) }
        ensures none { IfNone result (¬ IsValidPointer self.entry.file.now (alignment_of kind) start end) }
    {
        let alignment = if kind == Kind::Value.letter() { 8 } else { 4 };
        if start % alignment != 0 {
            return None;
        }
        self.file.get(start as usize..end as usize)
    }
}

/// Whether a pointer to a table is valid, and spans its head.
fn has_head(file: &[u8], start: usize, end: usize) -> bool
    requires end_small { end < 2 ^ 32 }
    requires start_small { start < 2 ^ 32 }
    ensures { IsTrue result ↔ HasHead (record { file = file.now; start = start; end = end }) }
{
    end <= file.len() && start % 4 == 0 && start + HEAD_LEN <= end
}
