//! Single fields of an item's record, read without the others.
ghost use Rattle.std.specs.Prelude.{◌≡◌, ◌+◌, ◌<◌, ◌↔◌, IfNone, IfSome, IsTrue};
ghost use Rattle.dconf_model.specs.Names.{IsItem};
ghost use Rattle.dconf_model.specs.Table.{HasBytes, bytes_of, item, item_count, key};
ghost use Rattle.gvdb_format.specs.Kinds.{letter_of};
ghost use Rattle.gvdb_format.specs.NameLinks.{MayLead};

use crate::kind::Kind;
use crate::little_endian::{read_u8, read_u16, read_u32};
use crate::raw_table::RawTable;
use crate::record::{END, KEY_SIZE, KEY_START, KIND, PARENT, START, parent};

/// What leads from an item up to the one above it.
#[derive(Clone, Copy)]
pub struct Link<'a> {
    pub parent: Option<u32>,
    pub key: &'a [u8],
}

impl<'a> RawTable<'a> {
    ghost use Rattle.gvdb_format.specs.Tables.{region};

    /// The hash of item `i`.
    #[inline(always)]
    pub fn hash_at(self, i: u32) -> u32
        requires { i < item_count (region self) }
        ensures { result ≡ (item (region self.entry) i).hash }
    {
        read_u32(self.file, self.record_at(i))
    }

    /// The parent of item `i`.
    #[inline(always)]
    pub fn parent_at(self, i: u32) -> Option<u32>
        requires { i < item_count (region self) }
        ensures { result ≡ (item (region self.entry) i).parent }
    {
        parent(read_u32(self.file, self.record_at(i) + PARENT))
    }

    /// How many bytes the key of item `i` has.
    #[inline(always)]
    pub fn key_size_at(self, i: u32) -> u16
        requires { i < item_count (region self) }
        ensures { (item (region self.entry) i).key_start + result ≡ (item (region self.entry) i).key_end }
    {
        read_u16(self.file, self.record_at(i) + KEY_SIZE)
    }

    /// Whether item `i` is of a kind.
    #[inline(always)]
    pub fn has_kind(self, i: u32, kind: Kind) -> bool
        requires { i < item_count (region self) }
        ensures { IsTrue result ↔ ((item (region self.entry) i).kind ≡ letter_of kind) }
    {
        read_u8(self.file, self.record_at(i) + KIND) == kind.letter()
    }

    /// The parent and the key of item `i`. None where there is no such item, and where its key doesn't lie in the file.
    #[inline(always)]
    pub fn link_at(self, i: u32) -> Option<Link<'a>>
        ensures some { IfSome result (λ link. IsItem (region self.entry) i
            × (link.parent ≡ (item (region self.entry) i).parent) × (link.key.now ≡ key (region self.entry) i)) }
        ensures none { IfNone result (¬ IsItem (region self.entry) i) }
    {
        if i >= self.items {
            return None;
        }
        let at = self.record_at(i);
        let key = self.cut_key(
            read_u32(self.file, at + KEY_START),
            read_u16(self.file, at + KEY_SIZE),
        )?;
        Some(Link {
            parent: parent(read_u32(self.file, at + PARENT)),
            key,
        })
    }

    /// The link of item `i` in a full name. None also where it has a parent and takes no byte of the name, as items may whose
    /// parents go round in a circle.
    #[inline(always)]
    pub(crate) fn name_link_at(self, i: u32) -> Option<Link<'a>>
        ensures some { IfSome result (λ link. MayLead (region self.entry) i
            × (link.parent ≡ (item (region self.entry) i).parent) × (link.key.now ≡ key (region self.entry) i)) }
        ensures none { IfNone result (¬ MayLead (region self.entry) i) }
    {
        let link = self.link_at(i)?;
        if link.parent.is_some() && link.key.is_empty() {
            return None;
        }
        Some(link)
    }

    /// What item `i`, which is of this kind, points to. None where the pointer isn't valid.
    #[inline(always)]
    pub fn pointed_at(self, i: u32, kind: Kind) -> Option<&'a [u8]>
        requires counted { i < item_count (region self) }
        requires of_kind { (item (region self) i).kind ≡ letter_of kind }
        ensures lent { IfSome result (λ bytes. HasBytes (region self.entry) i × (bytes.now ≡ bytes_of (region self.entry) i)) }
        ensures none { IfNone result (¬ HasBytes (region self.entry) i) }
    {
        let at = self.record_at(i);
        self.follow(
            kind.letter(),
            read_u32(self.file, at + START),
            read_u32(self.file, at + END),
        )
    }
}
