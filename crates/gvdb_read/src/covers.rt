//! Whether a table's names cover a path, as the names of locks do.
ghost use Rattle.std.specs.Prelude.{◌≡◌, ◌+◌, ◌<◌, ◌↔◌, ℕ, IfSome, List, IsTrue, length, slice_index, take, unwrap_or};
ghost use Rattle.dconf_model.specs.Bytes.{hash_of};
ghost use Rattle.dconf_model.specs.Locks.{covers};
ghost use Rattle.dconf_model.specs.Table.{item_count, value_kind};
ghost use Rattle.gvdb_read.specs.Lookups.{HasDirectoryValue, IsCover, IsDirectoryValue, IsFound};

use crate::hashed_name::HashedName;
use crate::table::Table;
use gvdb_format::{HASH_OF_NOTHING, Kind, hash_with};

impl Table<'_> {
    ghost use Rattle.gvdb_read.specs.Lookups.{name_text};
    ghost use Rattle.gvdb_read.specs.Tables.{region};

    /// Whether the name of some value covers a path: it is the path, or it ends in `/` and the path starts with it.
    ///
    /// It searches for the path, and for each prefix of it that ends in `/`. The prefixes are hashed in one walk, and each is
    /// compared with the names that have its hash alone. It is kept out of its callers, most of which have no locks.
    #[inline(never)]
    pub fn covers(self, path: HashedName<'_>) -> bool
        ensures { IsTrue result ↔ ((name : List ℕ) × IsTrue (covers name (name_text path.entry)) × IsFound (region self.entry) name value_kind) }
    {
        let bytes = path.bytes;
        let mut hash = HASH_OF_NOTHING;
        for i in 0..bytes.len() {
            hash = hash_with(hash, bytes[i]);
            if self.has_directory(hash, bytes, i) {
                return true;
            }
        }
        self.has_hashed(path)
    }

    /// How long the longest start of a path is, but for the empty one, that is the name of a value and covers the path: all of it,
    /// or a directory above it.
    ///
    /// It searches as `covers` does.
    pub fn nearest_cover(self, path: &str) -> Option<usize>
        ensures found { IfSome result (IsCover (region self.entry) path.now) }
        ensures nearest { (n : ℕ) → unwrap_or result 0 < n → ¬ IsCover (region self.entry) path.now n }
    {
        let path = path.as_bytes();
        let mut hash = HASH_OF_NOTHING;
        let mut nearest = None;
        for i in 0..path.len() {
            hash = hash_with(hash, path[i]);
            if self.has_cover(hash, path, i) {
                nearest = Some(i + 1);
            }
        }
        nearest
    }

    /// Whether the prefix up to a place, which has this hash, covers the path, and has a value.
    fn has_cover(self, hash: u32, path: &[u8], i: usize) -> bool
        requires within { i < length path.now }
        requires hash_is { hash ≡ hash_of (take (i + 1) path.now) }
        ensures { IsTrue result ↔ IsCover (region self.entry) path.now (i + 1) }
    {
        (i + 1 == path.len() || path[i] == b'/') && self.has_prefix(hash, path, i)
    }

    /// Whether some value's name ends in `/`, as far as its item's own key tells. Where none does, a path is covered by
    /// itself alone. It looks at each item.
    pub fn has_directory_value(self) -> bool
        ensures { IsTrue result ↔ HasDirectoryValue (region self.entry) }
    {
        for i in 0..self.n_items() {
            if self.is_directory_value(i) {
                return true;
            }
        }
        false
    }

    /// Whether item `i` is a value's, and its key ends in `/`.
    fn is_directory_value(self, i: u32) -> bool
        requires { i < item_count (region self) }
        ensures { IsTrue result ↔ IsDirectoryValue (region self.entry) i }
    {
        if !self.raw.has_kind(i, Kind::Value) {
            return false;
        }
        match self.raw.link_at(i) {
            Some(link) => link.key.ends_with(b"/"),
            None => false,
        }
    }

    /// Whether the byte at a place is a `/`, and the prefix up to it, which has this hash, has a value.
    #[inline(always)]
    fn has_directory(self, hash: u32, path: &[u8], i: usize) -> bool
        requires within { i < length path.now }
        requires hash_is { hash ≡ hash_of (take (i + 1) path.now) }
        ensures { IsTrue result ↔ ((slice_index path.now i ≡ 47) × IsFound (region self.entry) (take (i + 1) path.now) value_kind) }
    {
        path[i] == b'/' && self.has_prefix(hash, path, i)
    }

    /// Whether the prefix up to a place, which has this hash, has a value.
    #[inline(always)]
    fn has_prefix(self, hash: u32, path: &[u8], i: usize) -> bool
        requires within { i < length path.now }
        requires hash_is { hash ≡ hash_of (take (i + 1) path.now) }
        ensures { IsTrue result ↔ IsFound (region self.entry) (take (i + 1) path.now) value_kind }
    {
        let bytes = &path[..i + 1];
        self.has_hashed(HashedName { bytes, hash })
    }
}
