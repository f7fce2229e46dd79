//! Looking up names: values, lists and tables.
ghost use Rattle.std.specs.Prelude.{◌≡◌, ◌+◌, ◌*◌, ◌<◌, ◌≤◌, ◌^◌, ◌↔◌, IfNone, IfSome, IsTrue, None, length};
ghost use Rattle.dconf_model.specs.Bytes.{hash_of};
ghost use Rattle.dconf_model.specs.Table.{Table as Region, list_kind, value_kind};
ghost use Rattle.dconf_model.specs.Search.{Finds, PassesBloom, span_size};
ghost use Rattle.gvdb_read.specs.Lookups.{IsFound, IsItemListOf, IsListOf, IsTableAt, IsValueOf, IsViewOf};

use crate::hashed_name::HashedName;
use crate::item_list::ItemList;
use crate::names::Names;
use crate::table::Table;
use gv_types::Steps;
use gv_view::View;
use gvdb_format::{Kind, NUMBER_LEN};

impl<'a> Table<'a> {
    ghost use Rattle.gvdb_read.specs.Lookups.{name_text, names_left};
    ghost use Rattle.gvdb_read.specs.Tables.{region};

    /// The value of this name. None where the search finds none.
    ///
    /// It looks at the name once for its hash; then at the items of one bucket, each time from the name's end up along
    /// the parents, as far as the keys agree.
    pub fn find(self, name: &str) -> Option<View<'a>>
        ensures found { IfSome result (IsViewOf (region self.entry) name.now) }
        ensures none { IfNone result (Finds (region self.entry) name.now value_kind None) }
    {
        let bytes = self.find_bytes(name)?;
        Some(View::of_variant(bytes))
    }

    /// The bytes of the value of this name, which are a variant's. None exactly where `find` is.
    #[inline(always)]
    pub fn find_bytes(self, name: &str) -> Option<&'a [u8]>
        ensures found { IfSome result (λ bytes. IsValueOf (region self.entry) name.now bytes.now) }
        ensures none { IfNone result (Finds (region self.entry) name.now value_kind None) }
    {
        self.find_hashed_bytes(HashedName::new(name.as_bytes()))
    }

    /// As `find_bytes`, of a name that is hashed already: where the bloom words rule it out, it looks at no byte of it.
    #[inline(always)]
    pub fn find_hashed_bytes(self, name: HashedName<'_>) -> Option<&'a [u8]>
        ensures found { IfSome result (λ bytes. IsValueOf (region self.entry) (name_text name.entry) bytes.now) }
        ensures none { IfNone result (Finds (region self.entry) (name_text name.entry) value_kind None) }
    {
        let mut steps = Steps::new();
        let i = self.find_hashed(name.hash, name.bytes, Kind::Value, &mut steps)?;
        self.raw.pointed_at(i, Kind::Value)
    }

    /// As `find`. Each item that is looked at along a chain of parents is a step: at most as many for each item of the
    /// bucket as the name has bytes, and one. Where the bloom words rule the name out there is none.
    pub fn find_counted(self, name: &str, steps: &mut Steps) -> Option<View<'a>>
        requires { PassesBloom (region self) (hash_of name.now)
            → steps.old + span_size (region self) (hash_of name.now) * (length name.now + 1) < 2 ^ 128 }
        ensures found { IfSome result (IsViewOf (region self.entry) name.now) }
        ensures none { IfNone result (Finds (region self.entry) name.now value_kind None) }
        ensures cost { steps.new ≤ steps.old
            + span_size (region self.entry) (hash_of name.now) * (length name.now + 1) }
        ensures grows { steps.old ≤ steps.new }
        ensures spared { ¬ PassesBloom (region self.entry) (hash_of name.now) → steps.new ≡ steps.old }
    {
        let i = self.find_item(name.as_bytes(), Kind::Value, steps)?;
        let bytes = self.raw.pointed_at(i, Kind::Value)?;
        Some(View::of_variant(bytes))
    }

    /// Whether this name has a value: true exactly where `find` is Some.
    pub fn has(self, name: &str) -> bool
        ensures { IsTrue result ↔ IsFound (region self.entry) name.now value_kind }
    {
        self.has_hashed(HashedName::new(name.as_bytes()))
    }

    /// As `has`, of a name that is hashed already.
    #[inline(always)]
    pub fn has_hashed(self, name: HashedName<'_>) -> bool
        ensures { IsTrue result ↔ IsFound (region self.entry) (name_text name.entry) value_kind }
    {
        self.find_hashed_bytes(name).is_some()
    }

    /// The keys of the items that the list of this name names. None where the search finds no list.
    pub fn list(self, name: &str) -> Option<Names<'a>>
        ensures found { IfSome result (λ names. IsListOf (region self.entry) name.now (names_left names)) }
        ensures none { IfNone result (Finds (region self.entry) name.now list_kind None) }
    {
        let list = self.find_list(name)?;
        Some(Names {
            table: self,
            at: list.at,
            left: list.len,
        })
    }

    /// The list of this name itself. None exactly where `list` is.
    pub fn find_list(self, name: &str) -> Option<ItemList<'a>>
        ensures found { IfSome result (IsItemListOf (region self.entry) name.now) }
        ensures none { IfNone result (Finds (region self.entry) name.now list_kind None) }
    {
        let mut steps = Steps::new();
        let i = self.find_item(name.as_bytes(), Kind::List, &mut steps)?;
        let stored = self.raw.stored(i);
        let numbers = self.raw.pointed(stored)?;
        Some(ItemList {
            file: self.file(),
            at: stored.start as usize,
            len: numbers.len() / NUMBER_LEN,
        })
    }

    /// The table of this name. None where the search finds none, and where what it finds doesn't open.
    pub fn table(self, name: &str) -> Option<Table<'a>>
        ensures found { IfSome result (λ t. IsTableAt (region self.entry) name.now (region t)) }
        ensures none { IfNone result ((t : Region) → ¬ IsTableAt (region self.entry) name.now t) }
    {
        let mut steps = Steps::new();
        let i = self.find_item(name.as_bytes(), Kind::Table, &mut steps)?;
        self.table_at(i)
    }
}
