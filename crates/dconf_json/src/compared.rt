//! What differs between two stores or databases: an object a line.
ghost use Rattle.std.specs.Prelude.{◌≡◌, ◌++◌, IfOk, IsTrue, OnOk, map, string_bytes};
ghost use Rattle.dconf_model.specs.Order.{IsRising};
ghost use Rattle.dconf_path.specs.Paths.{key_text};
ghost use Rattle.dconf_layers.specs.LayerSettings.{seen_in};
ghost use Rattle.dconf_json.specs.Compared.{IsDifferenceInLines, key_line, key_lines, key_tokens, lock_line, lock_lines, lock_members, lock_tokens, side_tokens, sides_tokens};
ghost use Rattle.dconf_json.specs.Lines.{line};

use crate::lines::line_of;
use crate::values::{push_bool, push_text, push_value};
use dconf_compared::{changed, is_none_of, locks_of};
use dconf_layers::LentLayers;
use dconf_path::KeyPath;
use json::Writer;
use std::alloc::{AllocError, Global};

/// A line for each key that is seen otherwise through the second layers than through the first, with what is seen before and after, and for each
/// lock that one of them has alone. The keys are in the order of their paths; the locks of the second come before those of the first.
///
/// The error is a failed allocation.
pub fn difference_lines(
    alloc: Global,
    first: LentLayers<'_, '_>,
    second: LentLayers<'_, '_>,
) -> Result<String, AllocError>
    ensures { IfOk result (λ text. IsDifferenceInLines (seen_in first.entry) (seen_in second.entry) (string_bytes text)) }
{
    let paths = changed(alloc, first, second)?;
    let before = locks_of(alloc, first)?;
    let after = locks_of(alloc, second)?;
    let keys = key_lines(alloc, first, second, &paths)?;
    let locked = lock_lines(alloc, true, &after, &before)?;
    let unlocked = lock_lines(alloc, false, &before, &after)?;
    format!(in alloc; "{keys}{locked}{unlocked}")
}

/// A line for each of these keys.
fn key_lines(
    alloc: Global,
    first: LentLayers<'_, '_>,
    second: LentLayers<'_, '_>,
    paths: &[String],
) -> Result<String, AllocError>
    ensures { IfOk result (λ text. string_bytes text ≡ key_lines (seen_in first.entry) (seen_in second.entry) (map string_bytes paths.now)) }
{
    let mut text = String::new(alloc);
    for path in paths {
        let line = line_at(alloc, first, second, path.as_str())?;
        text.push_str(line.as_str())?;
    }
    Ok(text)
}

/// A line for a path, if it is a key's.
fn line_at(
    alloc: Global,
    first: LentLayers<'_, '_>,
    second: LentLayers<'_, '_>,
    path: &str,
) -> Result<String, AllocError>
    ensures { IfOk result (λ text. string_bytes text ≡ key_line (seen_in first.entry) (seen_in second.entry) path.now) }
{
    match KeyPath::parse(path) {
        Ok(key) => key_line(alloc, first, second, key),
        Err(_) => Ok(String::new(alloc)),
    }
}

/// A key, before and after.
fn key_line(
    alloc: Global,
    first: LentLayers<'_, '_>,
    second: LentLayers<'_, '_>,
    key: KeyPath<'_>,
) -> Result<String, AllocError>
    ensures { IfOk result (λ text. string_bytes text ≡ line (key_tokens (seen_in first.entry) (seen_in second.entry) (key_text key.entry))) }
{
    let mut writer = Writer::new(Vec::new(alloc));
    writer.begin_object()?;
    push_text(&mut writer, "path", key.as_str())?;
    push_sides(alloc, &mut writer, first, second, key)?;
    writer.end_object()?;
    line_of(writer)
}

/// Both sides of a key.
fn push_sides(
    alloc: Global,
    writer: &mut Writer,
    first: LentLayers<'_, '_>,
    second: LentLayers<'_, '_>,
    key: KeyPath<'_>,
) -> Result<(), AllocError>
    ensures tokens { OnOk result (writer.new.tokens ≡ writer.old.tokens ++ sides_tokens (seen_in first.entry) (seen_in second.entry) (key_text key.entry)) }
    ensures before { OnOk result (writer.new.before ≡ writer.old.before) }
{
    writer.key("before")?;
    push_side(alloc, writer, first, key)?;
    writer.key("after")?;
    push_side(alloc, writer, second, key)
}

/// What is seen at a key, and whether it is locked.
fn push_side(
    alloc: Global,
    writer: &mut Writer,
    layers: LentLayers<'_, '_>,
    key: KeyPath<'_>,
) -> Result<(), AllocError>
    ensures tokens { OnOk result (writer.new.tokens ≡ writer.old.tokens ++ side_tokens (seen_in layers.entry) (key_text key.entry)) }
    ensures before { OnOk result (writer.new.before ≡ writer.old.before) }
{
    writer.begin_object()?;
    writer.key("value")?;
    let bytes = match layers.place_from(layers.level(key), key) {
        Some((_, bytes)) => Some(bytes),
        None => None,
    };
    push_value(alloc, writer, false, bytes)?;
    push_bool(writer, "locked", layers.is_locked(key))?;
    writer.end_object()
}

/// A line for each lock that the others, which are in the order of their bytes, don't have. `is_new` says that the second has it.
fn lock_lines(
    alloc: Global,
    is_new: bool,
    locks: &[String],
    others: &[String],
) -> Result<String, AllocError>
    requires { IsRising (map string_bytes others.now) }
    ensures { IfOk result (λ text. string_bytes text ≡ lock_lines is_new (map string_bytes locks.now) (map string_bytes others.now)) }
{
    let mut text = String::new(alloc);
    for lock in locks {
        let line = lock_line(alloc, is_new, lock.as_str(), others)?;
        text.push_str(line.as_str())?;
    }
    Ok(text)
}

/// A line for a lock, if none of the others is the same.
fn lock_line(
    alloc: Global,
    is_new: bool,
    lock: &str,
    others: &[String],
) -> Result<String, AllocError>
    requires { IsRising (map string_bytes others.now) }
    ensures { IfOk result (λ text. string_bytes text ≡ lock_line is_new (map string_bytes others.now) lock.now) }
{
    if is_none_of(others, lock) {
        lone_lock(alloc, is_new, lock)
    } else {
        Ok(String::new(alloc))
    }
}

/// A lock that the second or the first has alone.
fn lone_lock(alloc: Global, is_new: bool, lock: &str) -> Result<String, AllocError>
    ensures { IfOk result (λ text. string_bytes text ≡ line (lock_tokens is_new lock.now)) }
{
    let mut writer = Writer::new(Vec::new(alloc));
    writer.begin_object()?;
    push_lock(&mut writer, is_new, lock)?;
    writer.end_object()?;
    line_of(writer)
}

/// The members of a lock.
fn push_lock(writer: &mut Writer, is_new: bool, lock: &str) -> Result<(), AllocError>
    ensures tokens { OnOk result (writer.new.tokens ≡ writer.old.tokens ++ lock_members is_new lock.now) }
    ensures before { OnOk result (writer.new.before ≡ writer.old.before) }
{
    push_text(writer, "lock", lock)?;
    push_bool(writer, "before", !is_new)?;
    push_bool(writer, "after", is_new)
}
