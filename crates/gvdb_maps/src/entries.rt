//! Rows as entries: paths with the bytes of their values, lent, and put into order.
ghost use Rattle.std.specs.Prelude.{◌≡◌, ◌++◌, [], IfOk, OnOk};
ghost use Rattle.dconf_model.specs.Order.{in_order};
ghost use Rattle.dconf_model.specs.Settings.{IsSettings};
ghost use Rattle.gvdb_maps.specs.Maps.{AreSorted, lent_entries, sorted_settings, value_entries, StandForSame, kept, values_after};

use std::alloc::{AllocError, Global};
use std::collections::{BTreeMap, BTreeSet};

/// Settings: each path that has a value, in the order of the paths' bytes, with the bytes of its value; and the paths that are locked.
#[derive(Drop)]
pub(crate) struct Sorted<'a> {
    pub(crate) entries: Vec<(&'a str, &'a [u8])>,
    pub(crate) locks: &'a BTreeSet<String>,
    ghost settings: { IsSettings (sorted_settings (lent_entries entries.items) locks.now) },
    ghost rising: { AreSorted (lent_entries entries.items) },
}

/// Lends rows, in their order but that those which lie side by side in one directory are in order among themselves.
///
/// It looks at each byte of the paths a fixed number of times, and sorts each such stretch.
pub(crate) fn lent<'a>(
    alloc: Global,
    rows: &'a [(String, Vec<u8>)],
) -> Result<Vec<(&'a str, &'a [u8])>, AllocError>
    ensures { IfOk result (λ entries. values_after (lent_entries entries.items) ≡ values_after (value_entries rows.entry.now)) }
{
    let mut entries = Vec::with_capacity(alloc, rows.len())?;
    let mut stretch = Vec::new(alloc);
    for (path, value) in rows {
        begin_stretch(path.as_str(), &mut stretch, &mut entries)?;
        stretch.push((path.as_str(), value.as_slice()))?;
    }
    move_sorted(&mut stretch, &mut entries)?;
    Ok(entries)
}

/// Lends the values of a map, in the order of their paths.
pub(crate) fn listed<'a>(
    alloc: Global,
    values: &'a BTreeMap<String, Vec<u8>>,
) -> Result<Vec<(&'a str, &'a [u8])>, AllocError>
    ensures same { IfOk result (λ entries. lent_entries entries.items ≡ value_entries values.entry.now.entries) }
    ensures sorted { IfOk result (λ entries. AreSorted (lent_entries entries.items)) }
{
    let mut entries = Vec::with_capacity(alloc, values.len())?;
    let rest = values.iter();
    for (path, value) in rest {
        entries.push((path.as_str(), value.as_slice()))?;
    }
    Ok(entries)
}

/// Moves a stretch behind others, unless its first path begins with the directory of this one. No clause says which it does,
/// since a sort comes after.
fn begin_stretch<'a>(
    path: &str,
    stretch: &mut Vec<(&'a str, &'a [u8])>,
    entries: &mut Vec<(&'a str, &'a [u8])>,
) -> Result<(), AllocError>
    ensures { OnOk result (StandForSame (lent_entries entries.new.items ++ lent_entries stretch.new.items) (lent_entries entries.old.items ++ lent_entries stretch.old.items)) }
{
    if let Some((first, _)) = stretch.first() {
        let slash = path.rfind('/').unwrap_or(0);
        if first.as_bytes().get(..slash) == path.as_bytes().get(..slash) {
            return Ok(());
        }
    }
    move_sorted(stretch, entries)
}

/// Puts entries in order, and moves them behind others.
fn move_sorted<'a>(
    stretch: &mut Vec<(&'a str, &'a [u8])>,
    entries: &mut Vec<(&'a str, &'a [u8])>,
) -> Result<(), AllocError>
    ensures same { OnOk result (StandForSame (lent_entries entries.new.items ++ lent_entries stretch.new.items) (lent_entries entries.old.items ++ lent_entries stretch.old.items)) }
    ensures empty { OnOk result (stretch.new.items ≡ []) }
{
    sort_by_path(stretch)?;
    entries.append(stretch)?;
    Ok(())
}

/// Puts entries in the order of their paths. Those of one path keep their order.
pub(crate) fn sort_by_path(entries: &mut Vec<(&str, &[u8])>) -> Result<(), AllocError>
    ensures { OnOk result (lent_entries entries.new.items ≡ in_order (λ e. e.0) (lent_entries entries.old.items)) }
{
    entries.sort_by_key(|entry| entry.0)?;
    Ok(())
}

/// The last of the entries of each path, where they are in order.
pub(crate) fn last_of_each<'a>(
    alloc: Global,
    entries: &[(&'a str, &'a [u8])],
) -> Result<Vec<(&'a str, &'a [u8])>, AllocError>
    ensures { IfOk result (λ last. lent_entries last.items ≡ kept (lent_entries entries.entry.now)) }
{
    let mut last = Vec::with_capacity(alloc, entries.len())?;
    for (i, entry) in entries.iter().enumerate() {
        match entries.get(i + 1) {
            Some(next) if next.0 == entry.0 => {}
            _ => last.push(*entry)?,
        }
    }
    Ok(last)
}
