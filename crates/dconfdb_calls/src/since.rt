//! Whether something else is seen by now at the paths of changes.
ghost use Rattle.std.specs.Prelude.{◌≡◌, ◌↔◌, ◌++◌, IfErr, IfOk, IsTrue, map, string_bytes, true};
ghost use Rattle.std.specs.List.{list_any};
ghost use Rattle.dconf_model.specs.Layers.{all_paths};
ghost use Rattle.dconf_model.specs.Locks.{is_below};
ghost use Rattle.dconf_model.specs.Paths.{ends_with_slash};
ghost use Rattle.dconf_model.specs.Salvaging.{IsKeyText};
ghost use Rattle.dconf_path.specs.Paths.{directory_text};
ghost use Rattle.dconf_differences.specs.Differing.{AreDiffering, Differs};
ghost use Rattle.dconf_layers.specs.LayerSettings.{seen_in};
ghost use Rattle.dconfdb_calls.specs.Given.{IsDirectory};
ghost use Rattle.dconfdb_calls.specs.Seen.{layers_of};
ghost use Rattle.dconfdb_calls.specs.Since.{AreDifferingIfAsked, IsChangedSince, IsFirstSince, has_directory};
ghost use Rattle.dconfdb_calls.specs.declared.fault.Fault.TheVariants.{Memory};

use crate::changes::DconfdbChange;
use crate::fault::Fault;
use crate::given::{directory_path, key_path};
use dconf_differences::{differing, differs};
use dconf_layers::{Layer, LentLayers, is_under};
use dconf_path::DirPath;
use std::alloc::{AllocError, Global};

/// The index of the first change at whose path something else is seen through the layers than
/// through the expected ones: another value, or one where none was, or the key is locked through one
/// of them alone. A path that ends in `/` is a directory, of which all keys are looked at that a
/// database has. None if there is no such change; paths of no key and no directory are passed over.
///
/// The only error is `Memory`, if an allocation fails. If a change is of a directory, it looks at each key of both, once.
pub fn first_changed_since(
    alloc: Global,
    expected: &[Layer<'_>],
    layers: &[Layer<'_>],
    changes: &[DconfdbChange<'_>],
) -> Result<Option<usize>, Fault>
    ensures first { IfOk result (IsFirstSince (layers_of expected.now true) (layers_of layers.now true) changes.now) }
    ensures fault { IfErr result (λ e. e ≡ Memory) }
{
    let Ok(paths) = differing_if_asked(alloc, expected, layers, changes) else {
        return Err(Fault::Memory);
    };
    for at in 0..changes.len() {
        match is_changed_since(alloc, expected, layers, paths.as_slice(), changes[at].path) {
            Ok(false) => {}
            Ok(true) => return Ok(Some(at)),
            Err(_) => return Err(Fault::Memory),
        }
    }
    Ok(None)
}

/// The paths of all keys that are seen otherwise, if a change is of a directory; else none.
fn differing_if_asked(
    alloc: Global,
    expected: &[Layer<'_>],
    layers: &[Layer<'_>],
    changes: &[DconfdbChange<'_>],
) -> Result<Vec<String>, AllocError>
    ensures { IfOk result (λ paths. AreDifferingIfAsked (layers_of expected.now true) (layers_of layers.now true) changes.now (map string_bytes paths.items)) }
{
    if !any_directory(changes) {
        return Ok(Vec::new(alloc));
    }
    let count = expected.len().max(layers.len());
    let expected = LentLayers::new(true, expected);
    differing(alloc, expected, LentLayers::new(true, layers), count)
}

/// Whether one of the changes is of a directory.
fn any_directory(changes: &[DconfdbChange<'_>]) -> bool
    ensures { result ≡ has_directory changes.now }
{
    for change in changes {
        if change.path.ends_with(b"/") {
            return true;
        }
    }
    false
}

/// Whether something else is seen at a path, where these are the paths that differ, if it is a directory's.
fn is_changed_since(
    alloc: Global,
    expected: &[Layer<'_>],
    layers: &[Layer<'_>],
    paths: &[String],
    path: &[u8],
) -> Result<bool, AllocError>
    requires { ends_with_slash path.now ≡ true → AreDiffering (layers_of expected.now true) (layers_of layers.now true)
        (all_paths (layers_of expected.now true).layers ++ all_paths (layers_of layers.now true).layers) (map string_bytes paths.now) }
    ensures { IfOk result (λ is. IsTrue is ↔ IsChangedSince (layers_of expected.now true) (layers_of layers.now true) path.now) }
{
    if path.ends_with(b"/") {
        Ok(is_changed_below(paths, path))
    } else {
        let expected = LentLayers::new(true, expected);
        is_key_changed(alloc, expected, LentLayers::new(true, layers), path)
    }
}

/// Whether a key is seen otherwise. False where the bytes are not a key's path.
fn is_key_changed(
    alloc: Global,
    expected: LentLayers<'_, '_>,
    layers: LentLayers<'_, '_>,
    path: &[u8],
) -> Result<bool, AllocError>
    ensures { IfOk result (λ is. IsTrue is ↔ (IsKeyText path.now × Differs (seen_in expected.entry) (seen_in layers.entry) path.now)) }
{
    match key_path(path) {
        Some(path) => differs(alloc, expected, layers, path),
        None => Ok(false),
    }
}

/// Whether one of the paths lies below a directory. False where the bytes are not a directory's path.
fn is_changed_below(paths: &[String], directory: &[u8]) -> bool
    ensures { IsTrue result ↔ (IsDirectory directory.now × IsTrue (list_any (λ path. is_below (string_bytes path) directory.now) paths.now)) }
{
    match directory_path(directory) {
        Some(directory) => any_below(paths, directory),
        None => false,
    }
}

/// Whether one of these paths lies below a directory.
fn any_below(paths: &[String], directory: DirPath<'_>) -> bool
    ensures { result ≡ list_any (λ path. is_below (string_bytes path) (directory_text directory.entry)) paths.now }
{
    for path in paths {
        if is_under(path.as_str(), directory) {
            return true;
        }
    }
    false
}
