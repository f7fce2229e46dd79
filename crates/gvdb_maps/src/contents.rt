//! Where the contents of a table's items are, and the record of each item: its name's numbers, and where its content is.
ghost use Rattle.std.specs.Prelude.{ℕ, ◌≡◌, ◌≤◌, Some, length};
ghost use Rattle.gvdb_maps.specs.Limits.{limit};
ghost use Rattle.gvdb_maps.specs.PlanWords.{kind_of};
ghost use Rattle.gvdb_maps.specs.LayoutParts.{AreNumbersOf, HasPointer, IsShort, CanPointAt, content_pointer};

use crate::layout::Pointer;
use crate::names::{Content, Named};
use gvdb_format::{ItemRecord, Kind};

/// Where the contents of a table's items are.
#[derive(Clone, Copy)]
pub(crate) struct Contents<'a> {
    /// Where all lists start.
    pub(crate) lists: usize,
    /// The place of each item's first child in them.
    pub(crate) firsts: &'a [usize],
    /// Where the table of locks is.
    pub(crate) table: Pointer,
    /// The place of each item's value among all values.
    pub(crate) places: &'a [usize],
    /// Where each value is.
    pub(crate) pointers: &'a [Pointer],
}

impl Contents<'_> {
    /// Where the content of an item is.
    fn pointer(self, number: usize, content: Content<'_>) -> Pointer
        requires there { CanPointAt self number content }
        requires short { IsShort (content_pointer self number content) }
        ensures { result ≡ content_pointer self.entry number content.entry }
    {
        match content {
            Content::Value(_) => self.pointers[self.places[number]],
            Content::List => Pointer {
                start: self.lists + 4 * self.firsts[number],
                end: self.lists + 4 * self.firsts[number + 1],
            },
            Content::Locks => self.table,
        }
    }

    /// The record of an item of that number, whose key starts there.
    pub(crate) fn item_record(self, number: usize, named: Named<'_>, key_start: usize) -> ItemRecord
        requires there { CanPointAt self number named.content }
        requires short { IsShort (content_pointer self number named.content) }
        requires parent { (p : ℕ) → named.parent ≡ Some p → p ≤ limit }
        requires from { named.from ≤ length named.name.now }
        requires name { length named.name.now ≤ 65535 }
        requires key { key_start ≤ limit }
        ensures numbers { AreNumbersOf named.entry key_start result }
        ensures pointer { HasPointer result (content_pointer self.entry number named.entry.content).start (content_pointer self.entry number named.entry.content).end }
    {
        let pointer = self.pointer(number, named.content);
        ItemRecord {
            hash: named.hash,
            parent: short_parent(named.parent),
            key_start: key_start as u32,
            key_size: (named.name.len() - named.from as usize) as u16,
            kind: kind(named.content),
            start: pointer.start as u32,
            end: pointer.end as u32,
        }
    }
}

/// The number of a directory's item, in four bytes.
fn short_parent(parent: Option<usize>) -> Option<u32>
    requires { (p : ℕ) → parent ≡ Some p → p ≤ limit }
    ensures { result ≡ parent }
{
    match parent {
        Some(number) => Some(number as u32),
        None => None,
    }
}

/// The letter of an item's kind.
fn kind(content: Content<'_>) -> u8
    ensures { result ≡ kind_of content.entry }
{
    match content {
        Content::Value(_) => Kind::Value.letter(),
        Content::List => Kind::List.letter(),
        Content::Locks => Kind::Table.letter(),
    }
}
