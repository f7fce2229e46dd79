//! S4: the stored hash is that of the full name. It is asked name by name where the fast pass (hash_by_parent.rt) doesn't
//! say that each is.
ghost use Rattle.std.specs.Prelude.{◌≡◌, ◌<◌, ◌↔◌, IsTrue};
ghost use Rattle.dconf_model.specs.Bytes.{hash_of};
ghost use Rattle.dconf_model.specs.Table.{item_count};
ghost use Rattle.dconf_model.specs.Names.{full_name};
ghost use Rattle.dconf_model.specs.Searchable.{HasHash};
ghost use Rattle.dconf_model.specs.Sound.{KeepsAll};
ghost use Rattle.dconf_model.specs.Sound.Rule.{keys, chain};
ghost use Rattle.gvdb_format.specs.Tables.{region};

use crate::backwards::Backwards;
use gvdb_format::{HASH_OF_NOTHING, RawTable, signed};

/// Whether item `i`'s hash is that of its full name. It looks at each byte of the name once.
pub(crate) fn has_hash_of_name(table: RawTable<'_>, i: u32) -> bool
    requires keys { KeepsAll (region table) keys }
    requires chain { KeepsAll (region table) chain }
    requires counted { i < item_count (region table) }
    ensures { IsTrue result ↔ HasHash (region table.entry) i }
{
    table.hash_at(i) == hash_of_name(table, i)
}

/// The hash of item `i`'s full name. From its end, each byte counts 33 times as much as the one after it, and what
/// a hash starts with as one byte more at the start.
fn hash_of_name(table: RawTable<'_>, i: u32) -> u32
    requires keys { KeepsAll (region table) keys }
    requires chain { KeepsAll (region table) chain }
    requires counted { i < item_count (region table) }
    ensures { result ≡ hash_of (full_name (region table.entry) i) }
{
    let mut factor = 1u32;
    let mut sum = 0u32;
    for byte in Backwards::name_of(table, i) {
        sum = sum.wrapping_add(factor.wrapping_mul(signed(byte)));
        factor = factor.wrapping_mul(33);
    }
    factor.wrapping_mul(HASH_OF_NOTHING).wrapping_add(sum)
}
