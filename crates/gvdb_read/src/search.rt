//! The search of a table for a name and kind: the bloom words may rule the name out, its hash names a bucket, and in
//! the bucket's span names are compared from their ends, along the parents.
ghost use Rattle.std.specs.Prelude.{◌≡◌, ◌+◌, ◌*◌, ◌<◌, ◌≤◌, ◌^◌, ◌↔◌, ℕ, IfNone, IfSome, IsTrue, length};
ghost use Rattle.dconf_model.specs.Bytes.{hash_of};
ghost use Rattle.dconf_model.specs.Table.{item_count};
ghost use Rattle.dconf_model.specs.Search.{Fits, IsLeast, IsWanted, PassesBloom, span_size};
ghost use Rattle.gvdb_format.specs.Kinds.{letter_of};

use crate::table::Table;
use gv_types::Steps;
use gvdb_format::{Kind, hash};

impl<'a> Table<'a> {
    ghost use Rattle.gvdb_read.specs.Tables.{region};

    /// The least item of the span with this hash, name and kind, whatever it points to. Each item that is looked at
    /// along a chain of parents is a step.
    #[inline(always)]
    pub(crate) fn find_item(self, name: &[u8], kind: Kind, steps: &mut Steps) -> Option<u32>
        requires { PassesBloom (region self) (hash_of name.now)
            → steps.old + span_size (region self) (hash_of name.now) * (length name.now + 1) < 2 ^ 128 }
        ensures found { IfSome result (IsLeast (region self.entry) name.now (letter_of kind)) }
        ensures none { IfNone result ((i : ℕ) → ¬ Fits (region self.entry) name.now (letter_of kind) i) }
        ensures cost { steps.new ≤ steps.old
            + span_size (region self.entry) (hash_of name.now) * (length name.now + 1) }
        ensures grows { steps.old ≤ steps.new }
        ensures spared { ¬ PassesBloom (region self.entry) (hash_of name.now) → steps.new ≡ steps.old }
    {
        self.find_hashed(hash(name), name, kind, steps)
    }

    /// As `find_item`, of a name whose hash is known.
    #[inline(always)]
    pub(crate) fn find_hashed(
        self,
        hash: u32,
        name: &[u8],
        kind: Kind,
        steps: &mut Steps,
    ) -> Option<u32>
        requires hash_is { hash ≡ hash_of name.now }
        requires room { PassesBloom (region self) (hash_of name.now)
            → steps.old + span_size (region self) (hash_of name.now) * (length name.now + 1) < 2 ^ 128 }
        ensures found { IfSome result (IsLeast (region self.entry) name.now (letter_of kind)) }
        ensures none { IfNone result ((i : ℕ) → ¬ Fits (region self.entry) name.now (letter_of kind) i) }
        ensures cost { steps.new ≤ steps.old
            + span_size (region self.entry) (hash_of name.now) * (length name.now + 1) }
        ensures grows { steps.old ≤ steps.new }
        ensures spared { ¬ PassesBloom (region self.entry) (hash_of name.now) → steps.new ≡ steps.old }
    {
        if !self.raw.passes_bloom(hash) {
            return None;
        }
        let (first, end) = self.raw.span(hash);
        for i in first..end {
            if self.is_wanted(i, hash, name, kind, steps) {
                return Some(i);
            }
        }
        None
    }

    /// Whether item `i` has this hash, name and kind. Where the hash is another it looks at nothing else.
    #[inline(always)]
    fn is_wanted(self, i: u32, hash: u32, name: &[u8], kind: Kind, steps: &mut Steps) -> bool
        requires counted { i < item_count (region self) }
        requires room { steps.old + length name.now + 1 < 2 ^ 128 }
        ensures wanted { IsTrue result ↔ IsWanted (region self.entry) hash name.now (letter_of kind) i }
        ensures cost { steps.new ≤ steps.old + length name.now + 1 }
        ensures grows { steps.old ≤ steps.new }
    {
        let raw = self.raw;
        raw.hash_at(i) == hash && raw.has_kind(i, kind) && raw.is_named(i, name, steps)
    }
}
