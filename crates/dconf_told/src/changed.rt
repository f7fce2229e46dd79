//! Whether anything is otherwise than before, and what is remembered of what others changed between two looks.
ghost use Rattle.std.specs.Prelude.{◌≡◌, ◌≢◌, ◌↔◌, ◌||◌, ℕ, IfOk, IsTrue, List, map, string_bytes};
ghost use Rattle.dconf_layers.specs.LayerSettings.{seen_in, settings_of};
ghost use Rattle.dconf_told.specs.Changed.{AreRemembered, HasOtherLocks, TellsOfChange, TellsOfKeys, is_to_remember, users_alone};
ghost use Rattle.dconf_told.specs.Telling.{after_first, before_in, ended};

use crate::files::{DconfdbFileSeen, are_other_files};
use crate::news::most_layers;
use crate::relocking::have_same;
use crate::sides::locks_of;
use crate::texts::texts_of;
use dconf_differences::{differing, differing_first};
use dconf_layers::{Layer, LentLayers};
use std::alloc::{AllocError, Global};

/// Whether anything is otherwise than before: somebody else may write, a file is another one or has another fault, other locks count, or
/// a key is seen otherwise. Where `same_others`, the layers before but for the first count as those after.
///
/// An error comes where a growth is refused. It asks what [`differing`] asks, or [`differing_first`] where the others are the same.
pub fn is_changed<'a>(
    alloc: Global,
    before: LentLayers<'a, '_>,
    after: LentLayers<'a, '_>,
    same_others: bool,
    files_before: &[DconfdbFileSeen],
    files_after: &[DconfdbFileSeen],
) -> Result<bool, AllocError>
    ensures { IfOk result (λ is. TellsOfChange is (before_in same_others (seen_in before.entry) (seen_in after.entry)) (seen_in after.entry) files_before.now files_after.now) }
{
    let writer = is_other(before.writable, after.writable);
    let files = are_other_files(files_before, files_after);
    let locks = has_other_locks(alloc, before, after, same_others)?;
    let keys = some_key_differs(alloc, before, after, same_others)?;
    Ok(any_of(writer, files, locks, keys))
}

/// Whether two answers differ.
fn is_other(before: bool, after: bool) -> bool
    ensures { IsTrue result ↔ (before ≢ after) }
{
    match (before, after) {
        (true, true) | (false, false) => false,
        (true, false) | (false, true) => true,
    }
}

fn any_of(writer: bool, files: bool, locks: bool, keys: bool) -> bool
    ensures { result ≡ writer || (files || (locks || keys)) }
{
    writer || files || locks || keys
}

/// Whether other locks count.
fn has_other_locks(
    alloc: Global,
    before: LentLayers<'_, '_>,
    after: LentLayers<'_, '_>,
    same_others: bool,
) -> Result<bool, AllocError>
    ensures { IfOk result (λ is. IsTrue is ↔ HasOtherLocks (before_in same_others (seen_in before.entry) (seen_in after.entry)) (seen_in after.entry)) }
{
    if have_same(before, same_others) {
        return Ok(false);
    }
    let one = locks_of(alloc, before.layers)?;
    let other = locks_of(alloc, after.layers)?;
    Ok(!are_same_texts(one.as_slice(), other.as_slice()))
}

/// Whether two lists have the same texts.
fn are_same_texts(one: &[String], other: &[String]) -> bool
    ensures { IsTrue result ↔ (map string_bytes one.now ≡ map string_bytes other.now) }
{
    one == other
}

/// Whether a key is seen otherwise.
fn some_key_differs<'a>(
    alloc: Global,
    before: LentLayers<'a, '_>,
    after: LentLayers<'a, '_>,
    same_others: bool,
) -> Result<bool, AllocError>
    ensures { IfOk result (λ is. TellsOfKeys is (before_in same_others (seen_in before.entry) (seen_in after.entry)) (seen_in after.entry)) }
{
    if !same_others {
        return differs_in_all(alloc, before, after);
    }
    let Some((first, _)) = before.layers.split_first() else {
        return differs_in_all(alloc, before, after);
    };
    differs_in_first(alloc, *first, before.writable, after)
}

/// The same where all layers may differ.
fn differs_in_all(
    alloc: Global,
    before: LentLayers<'_, '_>,
    after: LentLayers<'_, '_>,
) -> Result<bool, AllocError>
    ensures { IfOk result (λ is. TellsOfKeys is (seen_in before.entry) (seen_in after.entry)) }
{
    let count = most_layers(before, after);
    let paths = differing(alloc, before, after, count)?;
    Ok(!paths.as_slice().is_empty())
}

/// The same where before only the first layer was another one, which was the user's if `was_writable`.
fn differs_in_first<'a>(
    alloc: Global,
    first: Layer<'a>,
    was_writable: bool,
    after: LentLayers<'a, '_>,
) -> Result<bool, AllocError>
    ensures { IfOk result (λ is. TellsOfKeys is (after_first was_writable (settings_of first.entry) (seen_in after.entry)) (seen_in after.entry)) }
{
    let paths = differing_first(alloc, after, first)?;
    Ok(!paths.as_slice().is_empty())
}

/// The keys that are remembered of what others changed between two looks: those of which the user's file has another value, or has one on
/// one side alone. Where it isn't the user's on both sides, or who left it noted what it changed (`is_noted`), that is none.
///
/// An error comes where a growth is refused.
pub fn remembered(
    alloc: Global,
    before: LentLayers<'_, '_>,
    after: LentLayers<'_, '_>,
    is_noted: bool,
) -> Result<Vec<String>, AllocError>
    ensures { IfOk result (λ paths. AreRemembered (seen_in before.entry) (seen_in after.entry) is_noted (map string_bytes paths.items)) }
{
    if !is_to_remember(before, after, is_noted) {
        return Ok(Vec::new(alloc));
    }
    differing(alloc, users_alone(after), users_alone(before), 1)
}

/// Whether both first layers are the user's, and nobody noted what was changed.
fn is_to_remember(before: LentLayers<'_, '_>, after: LentLayers<'_, '_>, is_noted: bool) -> bool
    ensures { result ≡ is_to_remember (seen_in before.entry) (seen_in after.entry) is_noted }
{
    before.writable && after.writable && !is_noted
}

/// The first layer alone.
fn users_alone<'a, 'l>(layers: LentLayers<'a, 'l>) -> LentLayers<'a, 'l>
    ensures { seen_in result ≡ users_alone (seen_in layers.entry) }
{
    LentLayers::new(true, layers.prefix(1).layers)
}

/// The same, as they are handed out: a zero byte after each.
pub fn remembered_texts(
    alloc: Global,
    before: LentLayers<'_, '_>,
    after: LentLayers<'_, '_>,
    is_noted: bool,
) -> Result<Vec<u8>, AllocError>
    ensures { IfOk result (λ all. (paths : List (List ℕ)) × AreRemembered (seen_in before.entry) (seen_in after.entry) is_noted paths × (all.items ≡ ended paths)) }
{
    let paths = remembered(alloc, before, after, is_noted)?;
    texts_of(alloc, paths.as_slice())
}
