//! S9: an item without parent is `/` or the table of locks; any other is a key or a directory, and lies under a
//! list; full names are short (length.rt).
ghost use Rattle.std.specs.Prelude.{◌≡◌, ◌<◌, ◌⊎◌, ◌↔◌, Contains, IsTrue, codes};
ghost use Rattle.dconf_model.specs.Table.{item, item_count, key, list_kind, table_kind, value_kind};
ghost use Rattle.dconf_model.specs.Searchable.{HasGoodKey};
ghost use Rattle.dconf_model.specs.Sound.{HasParent, IsDirectoryPart};
ghost use Rattle.gvdb_format.specs.Tables.{region};

use gvdb_format::{Kind, LOCKS, RawTable};

/// Whether item `i` is where an item of its kind and key may occur.
#[inline(always)]
pub(crate) fn has_parent(table: RawTable<'_>, i: u32) -> bool
    requires good { HasGoodKey (region table) i }
    requires counted { i < item_count (region table) }
    ensures { IsTrue result ↔ HasParent (region table.entry) i (item (region table.entry) i).parent }
{
    let stored = table.stored(i);
    let key = key(table, i);
    match stored.parent {
        None => is_top(stored.kind, key),
        Some(parent) => table.has_kind(parent, Kind::List) && is_part(stored.kind, key),
    }
}

/// The key of an item. It is empty where the key's bytes don't lie in the file, which the rule on keys excludes.
#[inline(always)]
pub(crate) fn key<'a>(table: RawTable<'a>, i: u32) -> &'a [u8]
    requires good { HasGoodKey (region table) i }
    requires counted { i < item_count (region table) }
    ensures { result.now ≡ key (region table.entry) i }
{
    table.key_of(table.stored(i)).unwrap_or_default()
}

/// Whether this is the kind and the key of `/`, or of the table of locks.
#[inline(always)]
fn is_top(kind: u8, key: &[u8]) -> bool
    ensures { IsTrue result ↔ ((kind ≡ list_kind) × (key.now ≡ codes "/")
        ⊎ (kind ≡ table_kind) × (key.now ≡ codes ".locks")) }
{
    kind == Kind::List.letter() && key == b"/".as_slice()
        || kind == Kind::Table.letter() && key == LOCKS.as_bytes()
}

/// Whether this is the kind and the last part of the path of a key, or of a directory.
#[inline(always)]
fn is_part(kind: u8, key: &[u8]) -> bool
    ensures { IsTrue result ↔ ((kind ≡ value_kind) × ¬ Contains key.now 47
        ⊎ (kind ≡ list_kind) × IsDirectoryPart key.now) }
{
    kind == Kind::Value.letter() && !key.contains(&b'/')
        || kind == Kind::List.letter() && is_directory_part(key)
}

/// Whether the key has one slash, at its end and not alone.
#[inline(always)]
fn is_directory_part(key: &[u8]) -> bool
    ensures { IsTrue result ↔ IsDirectoryPart key.now }
{
    let Some(name) = key.strip_suffix(b"/") else {
        return false;
    };
    !name.is_empty() && !name.contains(&b'/')
}
