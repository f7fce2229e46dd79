//! Which paths came to be locked, or are no longer: keys, and directories as a whole.
ghost use Rattle.std.specs.Prelude.{◌≡◌, ◌∷◌, [], ℕ, List, IfOk, OnOk, drop, filter, if◌then◌else◌, map, string_bytes};
ghost use Rattle.dconf_model.specs.Order.{listing};
ghost use Rattle.dconf_layers.specs.LayerSettings.{seen_in};
ghost use Rattle.dconf_layers.specs.TextSets.{with_texts};
ghost use Rattle.dconf_told.specs.Relocking.{AreRelocked, have_same, hides, is_covered, locks_in, other_beside, outermost, told_between};
ghost use Rattle.dconf_told.specs.Telling.{before_in, ended};

use crate::sides::{Side, locks_of};
use crate::texts::texts_of;
use dconf_layers::{LentLayers, Texts};
use dconf_seen::covers;
use std::alloc::{AllocError, Global};

/// The paths of which it is otherwise than before whether they may be written: keys, and directories as a whole. What is below another
/// of them isn't told by itself. They are in the order of their bytes, once each. Where `same_others`, the layers before but for the
/// first count as those after.
///
/// An error comes where a growth is refused. It looks at each lock once; one that only one side has is compared with each of both.
pub fn relocked(
    alloc: Global,
    before: LentLayers<'_, '_>,
    after: LentLayers<'_, '_>,
    same_others: bool,
) -> Result<Vec<String>, AllocError>
    ensures { IfOk result (λ paths. AreRelocked (before_in same_others (seen_in before.entry) (seen_in after.entry)) (seen_in after.entry) (map string_bytes paths.items)) }
{
    let has_same = have_same(before, same_others);
    if has_same && before.writable == after.writable {
        return Ok(Vec::new(alloc));
    }
    let locks_before = locks_before(alloc, before, after, has_same)?;
    let locks_after = locks_of(alloc, after.layers)?;
    let first = Side::new(before.writable, locks_before.as_slice());
    let second = Side::new(after.writable, locks_after.as_slice());
    between(alloc, first, second)
}

/// Whether the layers before but for the first count as those after: there is a first one.
pub(crate) fn have_same(before: LentLayers<'_, '_>, same_others: bool) -> bool
    ensures { result ≡ have_same same_others (seen_in before.entry).layers }
{
    same_others && !before.layers.is_empty()
}

/// The locks before, which may be those after.
fn locks_before(
    alloc: Global,
    before: LentLayers<'_, '_>,
    after: LentLayers<'_, '_>,
    has_same: bool,
) -> Result<Vec<String>, AllocError>
    ensures { IfOk result (λ locks. map string_bytes locks.items ≡ (if has_same then locks_in (drop 1 (seen_in after.entry).layers) else locks_in (drop 1 (seen_in before.entry).layers))) }
{
    if has_same {
        locks_of(alloc, after.layers)
    } else {
        locks_of(alloc, before.layers)
    }
}

/// The same, as they are handed out: a zero byte after each.
pub fn relocked_texts(
    alloc: Global,
    before: LentLayers<'_, '_>,
    after: LentLayers<'_, '_>,
    same_others: bool,
) -> Result<Vec<u8>, AllocError>
    ensures { IfOk result (λ all. (paths : List (List ℕ)) × AreRelocked (before_in same_others (seen_in before.entry) (seen_in after.entry)) (seen_in after.entry) paths × (all.items ≡ ended paths)) }
{
    let paths = relocked(alloc, before, after, same_others)?;
    texts_of(alloc, paths.as_slice())
}

/// What is told by two sides.
fn between(alloc: Global, before: Side<'_>, after: Side<'_>) -> Result<Vec<String>, AllocError>
    ensures { IfOk result (λ paths. map string_bytes paths.items ≡ told_between before.entry after.entry) }
{
    let mut others = Texts::new(alloc);
    add_others(before, after, before.locks, &mut others)?;
    add_others(before, after, after.locks, &mut others)?;
    add_other(before, after, "/", &mut others)?;
    let others = others.list()?;
    outermost(alloc, others.as_slice())
}

/// Adds those of these paths of which it is otherwise.
fn add_others(
    before: Side<'_>,
    after: Side<'_>,
    paths: &[String],
    others: &mut Texts,
) -> Result<(), AllocError>
    ensures { OnOk result (others.new ≡ with_texts (filter (other_beside before.entry after.entry) (map string_bytes paths.now)) others.old) }
{
    for path in paths {
        add_other(before, after, path.as_str(), others)?;
    }
    Ok(())
}

/// Adds a path, if it is.
fn add_other(
    before: Side<'_>,
    after: Side<'_>,
    path: &str,
    others: &mut Texts,
) -> Result<(), AllocError>
    ensures { OnOk result (others.new ≡ with_texts (filter (other_beside before.entry after.entry) (path.now ∷ [])) others.old) }
{
    if before.is_other(after, path.as_bytes()) {
        return others.add(path);
    }
    Ok(())
}

/// Those that no other one covers.
fn outermost(alloc: Global, paths: &[String]) -> Result<Vec<String>, AllocError>
    ensures { IfOk result (λ left. map string_bytes left.items ≡ listing (outermost (map string_bytes paths.now))) }
{
    let mut left = Texts::new(alloc);
    for path in paths {
        if !is_covered(paths, path.as_str()) {
            left.add(path.as_str())?;
        }
    }
    left.list()
}

/// Whether another one of these covers a path.
fn is_covered(paths: &[String], path: &str) -> bool
    ensures { result ≡ is_covered (map string_bytes paths.now) path.now }
{
    paths.iter().any(|other| hides(other.as_str(), path))
}

/// Whether another path covers this one.
fn hides(other: &str, path: &str) -> bool
    ensures { result ≡ hides path.now other.now }
{
    other != path && covers(other.as_bytes(), path.as_bytes())
}
