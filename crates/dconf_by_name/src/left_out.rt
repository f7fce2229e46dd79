//! The keys that `load` and `reset` leave as they are.
ghost use Rattle.std.specs.Prelude.{◌≡◌, ◌++◌, IfOk, OnOk, map, string_bytes};
ghost use Rattle.dconf_model.specs.Keyfiles.{path_of};
ghost use Rattle.dconf_model.specs.Locks.{covers};
ghost use Rattle.keyfile_core.specs.Rows.{row_meant};
ghost use Rattle.dconf_by_name.specs.LeftOut.{double_warning_of, doubles, doubles_of, ignored, ignored_rows, is_ignored, is_locked, warning_if_locked, warning_of};

use crate::completions::lines;
use crate::paths::is_directory;
use keyfile_core::{KeyfileFault, Row, read};
use std::alloc::{AllocError, Global};

/// What dconf says of the locked keys in a keyfile that was loaded below a directory by `load -f`: a line for each, in the keyfile's order.
/// `listed` is what `list-locks /` printed.
///
/// It looks at each lock for each row. The only error is a failed allocation.
pub fn ignored(
    alloc: Global,
    listed: &str,
    directory: &str,
    keyfile: &[u8],
) -> Result<String, AllocError>
    ensures { IfOk result (λ text. string_bytes text ≡ ignored listed.now directory.now keyfile.now) }
{
    let locks = lines(alloc, listed)?;
    match read(alloc, keyfile) {
        Ok(rows) => ignored_rows(alloc, &locks, directory, &rows),
        Err(KeyfileFault::Fault(_)) => Ok(String::new(alloc)),
        Err(KeyfileFault::Memory) => Err(AllocError),
    }
}

fn ignored_rows(
    alloc: Global,
    locks: &[&str],
    directory: &str,
    rows: &[Row<'_>],
) -> Result<String, AllocError>
    ensures { IfOk result (λ text. string_bytes text ≡ ignored_rows (map (λ lock. lock.now) locks.now) directory.now (map row_meant rows.now)) }
{
    let mut text = String::new(alloc);
    for row in rows {
        let path = path_of(alloc, directory, *row)?;
        push_if_locked(alloc, &mut text, locks, path.as_str())?;
    }
    Ok(text)
}

fn path_of(alloc: Global, directory: &str, row: Row<'_>) -> Result<String, AllocError>
    ensures { IfOk result (λ path. string_bytes path ≡ path_of directory.now (row_meant row.entry)) }
{
    let group = row.group;
    let key = row.key;
    if group == "/" {
        format!(in alloc; "{directory}{key}")
    } else {
        format!(in alloc; "{directory}{group}/{key}")
    }
}

fn push_if_locked(
    alloc: Global,
    text: &mut String,
    locks: &[&str],
    path: &str,
) -> Result<(), AllocError>
    ensures { OnOk result (string_bytes text.new ≡ string_bytes text.old ++ warning_if_locked (map (λ lock. lock.now) locks.now) path.now) }
{
    if !is_locked(locks, path) {
        return Ok(());
    }
    let warning = warning_of(alloc, path)?;
    text.push_str(warning.as_str())
}

/// What dconf says of a locked key that stays as it is.
///
/// The only error is a failed allocation.
pub fn warning_of(alloc: Global, path: &str) -> Result<String, AllocError>
    ensures { IfOk result (λ warning. string_bytes warning ≡ warning_of path.now) }
{
    format!(in alloc; "warning: ignored non-writable key '{path}'\n")
}

/// Whether a key is locked. `listed` is what `list-locks /` printed.
///
/// It looks at each lock. The only error is a failed allocation.
pub fn is_ignored(alloc: Global, listed: &str, path: &str) -> Result<bool, AllocError>
    ensures { IfOk result (λ is. is ≡ is_ignored listed.now path.now) }
{
    let locks = lines(alloc, listed)?;
    Ok(is_locked(&locks, path))
}

fn is_locked(locks: &[&str], path: &str) -> bool
    ensures { result ≡ is_locked (map (λ lock. lock.now) locks.now) path.now }
{
    locks.iter().any(|lock| covers(lock, path))
}

/// Whether a lock is the key's, or that of a directory above it.
fn covers(lock: &str, path: &str) -> bool
    ensures { result ≡ covers lock.now path.now }
{
    lock == path || (is_directory(lock) && path.as_bytes().starts_with(lock.as_bytes()))
}

/// What is said of the keys that `load` leaves out for a double in their text: a line for each. `listed` is what `load --skip-doubles` printed.
///
/// The only error is a failed allocation.
pub fn doubles(alloc: Global, listed: &str) -> Result<String, AllocError>
    ensures { IfOk result (λ text. string_bytes text ≡ doubles listed.now) }
{
    let paths = lines(alloc, listed)?;
    doubles_of(alloc, &paths)
}

fn doubles_of(alloc: Global, paths: &[&str]) -> Result<String, AllocError>
    ensures { IfOk result (λ text. string_bytes text ≡ doubles_of (map (λ path. path.now) paths.now)) }
{
    let mut text = String::new(alloc);
    for path in paths {
        let warning = double_warning_of(alloc, *path)?;
        text.push_str(warning.as_str())?;
    }
    Ok(text)
}

/// Of an empty line nothing is said.
fn double_warning_of(alloc: Global, path: &str) -> Result<String, AllocError>
    ensures { IfOk result (λ warning. string_bytes warning ≡ double_warning_of path.now) }
{
    if path.is_empty() {
        return Ok(String::new(alloc));
    }
    format!(in alloc; "warning: ignored key '{path}': a double's text is not read\n")
}
