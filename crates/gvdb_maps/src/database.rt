//! The bytes of a database: header, tables, keys, lists and values, each where the layout says, with zero bytes between
//! them.
ghost use Rattle.std.specs.Prelude.{ℕ, ◌≡◌, ◌++◌, ◌+◌, ◌*◌, ◌/◌, ◌%◌, ◌^◌, ◌≤◌, ◌<◌, length, OnOk, IfOk, IfErr, IsBitSet};
ghost use Rattle.dconf_model.specs.Settings.{Settings};
ghost use Rattle.dconf_model.specs.TableBytes.{words_bytes, head_bytes, header_bytes};
ghost use Rattle.dconf_model.specs.Opening.{IsDatabase, root_of};
ghost use Rattle.dconf_model.specs.Databases.{IsDatabaseOf};
ghost use Rattle.dconf_model.specs.Sound.{IsSound};
ghost use Rattle.dconf_model.specs.Plans.{HoldsValues, HoldsLocks, HasLength};
ghost use Rattle.gvdb_maps.specs.Limits.{limit, IsRefusal};
ghost use Rattle.gvdb_maps.specs.Maps.{lent_entries, sorted_settings};
ghost use Rattle.gvdb_maps.specs.LayoutParts.{CanPoint, all_keys_end, CanBeLaid};
ghost use Rattle.gvdb_values.specs.WrittenValues.{with_padding};
ghost use Rattle.gvdb_maps.specs.PlannedTables.{IsLayoutOf, AreReady, IsFileOf};
ghost use Rattle.gvdb_maps.specs.WrittenParts.{CanBeWritten, HaveFourBytes, HaveNumbers, HaveKeys, HaveBits, HasItsTable, HasRecords, keys_bytes, numbers_of, HasTable, HasTableOfLocks};
ghost use Rattle.refused.specs.declared.Refused.TheVariants.{Memory};

use crate::contents::Contents;
use crate::entries::Sorted;
use crate::layout::{Layout, Pointer, bloom_words};
use crate::map::Map;
use crate::names::{Named, lock_names, root_names};
use crate::table::TablePlan;
use crate::write_fault::WriteFault;
use gvdb_format::{SIGNATURE, head_number, push_u32};
use gvdb_values::{pad, write_values};
use std::alloc::{AllocError, Global};

/// The second hash of a bloom word is the hash after so many bits.
const BLOOM_SHIFT: u32 = 5;

/// The bytes of a database that holds a map's values and locks.
///
/// `TooBig` comes where there would be over 4,294,967,295 bytes, and `Memory` where a growth is refused. Equal values
/// are stored once. It looks at each path and each value and writes each byte a fixed number of times, and compares a value
/// with the one that its hash leads to, and where that is another one, with as many as a map of such values is deep.
pub fn write(alloc: Global, map: &Map) -> Result<Vec<u8>, WriteFault>
    ensures opens { IfOk result (λ file. IsDatabase file.items) }
    ensures sound { IfOk result (λ file. IsSound (root_of file.items)) }
    ensures values { IfOk result (λ file. HoldsValues (root_of file.items) map.now) }
    ensures locks { IfOk result (λ file. HoldsLocks (root_of file.items) map.now) }
    ensures length { IfOk result (λ file. HasLength map.now (length file.items)) }
    ensures fits { IfOk result (λ file. length file.items ≤ limit) }
    ensures fault { IfErr result (IsRefusal map.now) }
{
    write_sorted(alloc, map.sorted()?)
}

/// The same, of settings in order.
pub(crate) fn write_sorted(alloc: Global, sorted: Sorted<'_>) -> Result<Vec<u8>, WriteFault>
    ensures database { IfOk result (λ file. IsDatabaseOf (sorted_settings (lent_entries sorted.entry.entries.items) sorted.entry.locks.now) file.items) }
    ensures fault { IfErr result (IsRefusal (sorted_settings (lent_entries sorted.entry.entries.items) sorted.entry.locks.now)) }
{
    let (root, locks) = tables(alloc, sorted)?;
    let layout = Layout::new(alloc, &root, &locks)?;
    write_parts(alloc, &root, &locks, &layout)
}

/// The root table of a database, and the table of its locks.
fn tables<'a>(
    alloc: Global,
    sorted: Sorted<'a>,
) -> Result<(TablePlan<'a>, TablePlan<'a>), WriteFault>
    ensures tables { IfOk result (λ tables. AreReady (sorted_settings (lent_entries sorted.entry.entries.items) sorted.entry.locks.now) tables.0 tables.1) }
    ensures fault { IfErr result (λ e. e ≡ Memory) }
{
    let names = root_names(alloc, &sorted)?;
    let locked = lock_names(alloc, &sorted)?;
    // The names lend the paths and the values themselves.
    drop(sorted);
    let root = TablePlan::new(alloc, names)?;
    let locks = TablePlan::new(alloc, locked)?;
    Ok((root, locks))
}

/// The bytes of a database that is laid: header, root table, its lists, table of locks where there are locks, values.
fn write_parts(
    alloc: Global,
    root: &TablePlan<'_>,
    locks: &TablePlan<'_>,
    layout: &Layout<'_>,
) -> Result<Vec<u8>, WriteFault>
    requires tables { (s : Settings) × AreReady s root.now locks.now }
    requires layout { IsLayoutOf root.now locks.now layout.now }
    ensures file { IfOk result (λ file. IsFileOf root.now locks.now file.items) }
    ensures fault { IfErr result (λ e. e ≡ Memory) }
{
    let contents = layout.contents(&root.firsts, &layout.values.root);
    let lock_contents = layout.contents(&root.firsts, &layout.values.locks);
    let mut out = Vec::with_capacity(alloc, layout.end)?;
    write_header(layout.root, &mut out)?;
    write_table(root, layout.root.end, contents, &mut out)?;
    write_children(&root.children, &mut out)?;
    write_locks(locks, layout.locks.end, lock_contents, &mut out)?;
    write_values(&layout.values.distinct, &mut out)?;
    Ok(out)
}

/// Appends the header of a file of version 0, whose root table is there.
fn write_header(root: Pointer, out: &mut Vec<u8>) -> Result<(), AllocError>
    requires start { root.start ≤ limit }
    requires end { root.end ≤ limit }
    ensures bytes { OnOk result (out.new.items ≡ out.old.items ++ header_bytes root.start root.end) }
{
    out.extend_from_slice(SIGNATURE)?;
    push_u32(0, out)?;
    push_u32(0, out)?;
    push_u32(root.start as u32, out)?;
    push_u32(root.end as u32, out)?;
    Ok(())
}

/// Appends a table and its keys, which come from there on, at a multiple of 4.
fn write_table(
    table: &TablePlan<'_>,
    keys_at: usize,
    contents: Contents<'_>,
    out: &mut Vec<u8>,
) -> Result<(), AllocError>
    requires out { length out.old.items ≤ limit }
    requires table { CanBeWritten table.now keys_at contents }
    ensures bytes { OnOk result (HasItsTable HasTable table.now keys_at contents.entry out.old.items out.new.items) }
{
    pad(out.len().next_multiple_of(4), out)?;
    let words = bloom(*out.allocator(), &table.items)?;
    write_head(words.len(), table.buckets.len(), out)?;
    write_words(&words, out)?;
    write_numbers(&table.buckets, out)?;
    write_records(&table.items, keys_at, contents, out)?;
    write_keys(&table.items, out)
}

/// Appends the table of locks and its keys, where there are locks.
fn write_locks(
    locks: &TablePlan<'_>,
    keys_at: usize,
    contents: Contents<'_>,
    out: &mut Vec<u8>,
) -> Result<(), AllocError>
    requires out { length out.old.items ≤ limit }
    requires table { CanBeWritten locks.now keys_at contents }
    ensures bytes { OnOk result (HasItsTable HasTableOfLocks locks.now keys_at contents.entry out.old.items out.new.items) }
{
    if locks.items.is_empty() {
        return Ok(());
    }
    write_table(locks, keys_at, contents, out)
}

/// Appends the two first numbers of a table of so many bloom words and buckets.
fn write_head(words: usize, buckets: usize, out: &mut Vec<u8>) -> Result<(), AllocError>
    requires words { words < 2 ^ 27 }
    requires buckets { buckets ≤ limit }
    ensures bytes { OnOk result (out.new.items ≡ out.old.items ++ head_bytes words buckets) }
{
    push_u32(head_number(words as u32, BLOOM_SHIFT), out)?;
    push_u32(buckets as u32, out)?;
    Ok(())
}

/// The bloom words: each hash sets two bits of the word that it chooses.
fn bloom(alloc: Global, items: &[Named<'_>]) -> Result<Vec<u32>, AllocError>
    ensures len { IfOk result (λ words. length words.items ≡ (length items.now + 15) / 16) }
    ensures bits { IfOk result (λ words. HaveBits words.items items.now) }
{
    let mut words = Vec::new(alloc);
    words.resize(bloom_words(items.len()), 0u32)?;
    for named in items {
        let place = (named.hash / 32) as usize % words.len();
        words[place] = with_bits(words[place], named.hash);
    }
    Ok(words)
}

/// A bloom word in which a hash's two bits are set.
fn with_bits(word: u32, hash: u32) -> u32
    ensures first { IsBitSet result (hash % 32) }
    ensures second { IsBitSet result (hash / 32 % 32) }
    ensures others { (k : ℕ) → IsBitSet word k → IsBitSet result k }
{
    word | 1 << (hash % 32) | 1 << ((hash >> BLOOM_SHIFT) % 32)
}

/// Appends bloom words.
fn write_words(words: &[u32], out: &mut Vec<u8>) -> Result<(), AllocError>
    ensures bytes { OnOk result (out.new.items ≡ out.old.items ++ words_bytes words.now) }
{
    for word in words {
        push_u32(*word, out)?;
    }
    Ok(())
}

/// Appends the numbers of items.
fn write_numbers(numbers: &[usize], out: &mut Vec<u8>) -> Result<(), AllocError>
    requires { HaveFourBytes numbers.now }
    ensures bytes { OnOk result (out.new.items ≡ out.old.items ++ words_bytes numbers.now) }
{
    for number in numbers {
        push_u32(*number as u32, out)?;
    }
    Ok(())
}

/// Appends the records of items, whose keys come one after another from there on.
fn write_records(
    items: &[Named<'_>],
    keys_at: usize,
    contents: Contents<'_>,
    out: &mut Vec<u8>,
) -> Result<(), AllocError>
    requires items { CanBeLaid items.now }
    requires few { length items.now ≤ limit }
    requires keys { all_keys_end keys_at items.now ≤ limit }
    requires contents { CanPoint items.now contents }
    ensures bytes { OnOk result (HasRecords items.now keys_at contents.entry out.old.items out.new.items) }
{
    let mut key_start = keys_at;
    for (number, named) in items.iter().enumerate() {
        let item = contents.item_record(number, *named, key_start);
        item.push(out)?;
        key_start += item.key_size as usize;
    }
    Ok(())
}

/// Appends the keys of items.
fn write_keys(items: &[Named<'_>], out: &mut Vec<u8>) -> Result<(), AllocError>
    requires { HaveKeys items.now }
    ensures bytes { OnOk result (out.new.items ≡ out.old.items ++ keys_bytes items.now) }
{
    for named in items {
        out.extend_from_slice(&named.name[named.from as usize..])?;
    }
    Ok(())
}

/// Appends the lists of all directories, at a multiple of 4.
fn write_children(children: &[(usize, usize)], out: &mut Vec<u8>) -> Result<(), AllocError>
    requires out { length out.old.items ≤ limit }
    requires children { HaveNumbers children.now }
    ensures bytes { OnOk result (out.new.items ≡ with_padding 4 out.old.items ++ words_bytes (numbers_of children.now)) }
{
    pad(out.len().next_multiple_of(4), out)?;
    for (_, child) in children {
        push_u32(*child as u32, out)?;
    }
    Ok(())
}
