//! Where the items of a hash are: what the bloom words say of it, and the span of its bucket.
ghost use Rattle.std.specs.Prelude.{◌≡◌, ◌<◌, ◌≤◌, ◌↔◌, IsTrue};
ghost use Rattle.dconf_model.specs.Table.{bucket, bucket_count, item_count};
ghost use Rattle.dconf_model.specs.Search.{PassesBloom, span_end, span_start};

use crate::header::{HEAD_LEN, WORD_LEN};
use crate::little_endian::read_u32;
use crate::raw_table::RawTable;

impl RawTable<'_> {
    ghost use Rattle.gvdb_format.specs.Tables.{region};

    /// Whether the bloom words don't rule the hash out.
    #[tactic(auto, using(std::proofs::lemmas::Nat::bit_set_by_shift))]
    #[inline(always)]
    pub fn passes_bloom(self, hash: u32) -> bool
        ensures { IsTrue result ↔ PassesBloom (region self.entry) hash }
    {
        if self.bloom_words == 0 {
            return true;
        }
        let k = (hash / 32 % self.bloom_words) as usize;
        let word = read_u32(self.file, self.start + HEAD_LEN + WORD_LEN * k);
        (word >> (hash % 32)) & 1 == 1 && (word >> ((hash >> self.bloom_shift) % 32)) & 1 == 1
    }

    /// Where the items of a hash's bucket start and end.
    #[inline(always)]
    pub fn span(self, hash: u32) -> (u32, u32)
        ensures first { result.0 ≡ span_start (region self.entry) hash }
        ensures end { result.1 ≡ span_end (region self.entry) hash }
        ensures within { result.1 ≤ item_count (region self.entry) }
    {
        if self.buckets == 0 {
            return (0, 0);
        }
        let k = hash % self.buckets;
        let mut end = self.items;
        if k + 1 < self.buckets {
            let next = self.bucket(k + 1);
            if next <= self.items {
                end = next;
            }
        }
        (self.bucket(k), end)
    }

    /// The number of a bucket's first item.
    #[inline(always)]
    pub fn bucket(self, k: u32) -> u32
        requires { k < bucket_count (region self) }
        ensures { result ≡ bucket (region self.entry) k }
    {
        let buckets = self.start + HEAD_LEN + WORD_LEN * self.bloom_words as usize;
        read_u32(self.file, buckets + WORD_LEN * k as usize)
    }
}
