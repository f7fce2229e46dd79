//! Whether the user's database has what a change asks for.
ghost use Rattle.std.specs.Prelude.{◌≡◌, ◌↔◌, [], IfErr, IfOk, IsTrue, Ok, false, true};
ghost use Rattle.dconf_layers.specs.LayerSettings.{settings_of};
ghost use Rattle.dconfdb_calls.specs.Seen.{layers_of};
ghost use Rattle.dconfdb_calls.specs.declared.fault.Fault.TheVariants.{Memory};
ghost use Rattle.dconf_made.specs.Made.{AreMade, Has, HasNoneBelow, IsMade};

use dconf_layers::Layer;
use dconfdb_calls::{DconfdbChange, Fault, is_stored, paths_below, read_own};
use std::alloc::Global;

/// Whether the user's database, which is the first if it may be written, has what a change asks for: this value of the key or, if it
/// sets nothing, none, or none below the directory. At a path that is no key's, and no directory's, there is none.
///
/// The only error is `Memory`, if an allocation fails. The value is told as [`is_stored`] does; of a directory it names each key below.
pub fn is_made(
    alloc: Global,
    layers: &[Layer<'_>],
    writable: bool,
    change: &DconfdbChange<'_>,
) -> Result<bool, Fault>
    ensures made { IfOk result (λ is. IsTrue is ↔ IsMade (layers_of layers.now writable) change.now) }
    ensures fault { IfErr result (λ e. e ≡ Memory) }
{
    if !writable {
        return Ok(false);
    }
    match layers.split_first() {
        Some((own, _)) => has(alloc, own, change),
        None => Ok(false),
    }
}

/// Whether the user's database has what a change asks for that a write may have left there. If none can have (`may_be` is false), it isn't asked.
pub fn is_left(
    alloc: Global,
    layers: &[Layer<'_>],
    writable: bool,
    may_be: bool,
    change: &DconfdbChange<'_>,
) -> Result<bool, Fault>
    ensures left { may_be ≡ true → IfOk result (λ is. IsTrue is ↔ IsMade (layers_of layers.now writable) change.now) }
    ensures none { may_be ≡ false → result ≡ Ok false }
    ensures fault { IfErr result (λ e. e ≡ Memory) }
{
    if !may_be {
        return Ok(false);
    }
    is_made(alloc, layers, writable, change)
}

/// Whether the user's database has what each of the changes asks for.
pub(crate) fn are_made(
    alloc: Global,
    layers: &[Layer<'_>],
    writable: bool,
    changes: &[DconfdbChange<'_>],
) -> Result<bool, Fault>
    ensures made { IfOk result (λ are. IsTrue are ↔ AreMade (layers_of layers.now writable) changes.now) }
    ensures fault { IfErr result (λ e. e ≡ Memory) }
{
    for at in 0..changes.len() {
        match is_made(alloc, layers, writable, &changes[at]) {
            Ok(true) => {}
            Ok(false) => return Ok(false),
            Err(fault) => return Err(fault),
        }
    }
    Ok(true)
}

/// Whether a database has what a change asks for.
fn has(alloc: Global, own: &Layer<'_>, change: &DconfdbChange<'_>) -> Result<bool, Fault>
    ensures has { IfOk result (λ is. IsTrue is ↔ Has (settings_of own.now) change.now) }
    ensures fault { IfErr result (λ e. e ≡ Memory) }
{
    let path = change.path;
    if change.sets {
        return is_stored(alloc, own, path, change.value, change.type_text);
    }
    if path.ends_with(b"/") {
        return has_none_below(alloc, own, path);
    }
    Ok(read_own(own, path).is_none())
}

/// Whether a database has no key below a directory.
fn has_none_below(alloc: Global, own: &Layer<'_>, directory: &[u8]) -> Result<bool, Fault>
    ensures none { IfOk result (λ is. IsTrue is ↔ HasNoneBelow (settings_of own.now) directory.now) }
    ensures fault { IfErr result (λ e. e ≡ Memory) }
{
    match paths_below(alloc, &[*own], directory) {
        Ok(paths) => Ok(is_nothing(paths.as_slice())),
        Err(Fault::BadPath) => Ok(true),
        Err(_) => Err(Fault::Memory),
    }
}

fn is_nothing(bytes: &[u8]) -> bool
    ensures { IsTrue result ↔ (bytes.now ≡ []) }
{
    bytes.is_empty()
}
