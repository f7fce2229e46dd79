//! The keys that are seen otherwise through other layers.
ghost use Rattle.std.specs.Prelude.{◌≡◌, ◌++◌, ℕ, IfErr, IfOk, List, true};
ghost use Rattle.std.specs.FinMap.{keys};
ghost use Rattle.dconf_differences.specs.Differing.{AreDiffering, first_keys, with_first};
ghost use Rattle.dconf_layers.specs.LayerSettings.{settings_of};
ghost use Rattle.dconfdb_calls.specs.Listed.{ended};
ghost use Rattle.dconfdb_calls.specs.Seen.{layers_of};
ghost use Rattle.dconfdb_calls.specs.declared.fault.Fault.TheVariants.{Memory};

use crate::fault::Fault;
use crate::names::texts_of;
use dconf_layers::{Layer, LentLayers};
use std::alloc::{AllocError, Global};

/// The paths of the keys that are seen otherwise through other layers, a zero byte after each:
/// another value is seen, or one where none was, or only one side has the key locked. The same
/// value in other bytes is no difference. Only the keys of the first `count` layers of each side
/// are compared.
///
/// The only error is `Memory`, if an allocation fails.
pub fn differing_keys(
    alloc: Global,
    layers: &[Layer<'_>],
    other: &[Layer<'_>],
    count: usize,
) -> Result<Vec<u8>, Fault>
    ensures paths { IfOk result (λ all. (paths : List (List ℕ)) × AreDiffering (layers_of layers.now true) (layers_of other.now true)
        (first_keys count (layers_of layers.now true) ++ first_keys count (layers_of other.now true)) paths × (all.items ≡ ended paths)) }
    ensures fault { IfErr result (λ e. e ≡ Memory) }
{
    match differing(alloc, layers, other, count) {
        Ok(paths) => Ok(paths),
        Err(_) => Err(Fault::Memory),
    }
}

/// The same, with the error of an allocation.
fn differing(
    alloc: Global,
    layers: &[Layer<'_>],
    other: &[Layer<'_>],
    count: usize,
) -> Result<Vec<u8>, AllocError>
    ensures { IfOk result (λ all. (paths : List (List ℕ)) × AreDiffering (layers_of layers.now true) (layers_of other.now true)
        (first_keys count (layers_of layers.now true) ++ first_keys count (layers_of other.now true)) paths × (all.items ≡ ended paths)) }
{
    let layers = LentLayers::new(true, layers);
    let other = LentLayers::new(true, other);
    let paths = dconf_differences::differing(alloc, layers, other, count)?;
    texts_of(alloc, paths.as_slice())
}

/// The paths of the keys that would be seen otherwise if the first layer were this one, a zero byte
/// after each, as [`differing_keys`] gives them. Only the keys of the first layer and of this one are
/// compared.
///
/// The only error is `Memory`, if an allocation fails.
pub fn keys_differing_first(
    alloc: Global,
    layers: &[Layer<'_>],
    first: &Layer<'_>,
) -> Result<Vec<u8>, Fault>
    ensures paths { IfOk result (λ all. (paths : List (List ℕ)) × AreDiffering (layers_of layers.now true) (with_first (layers_of layers.now true) (settings_of first.now))
        (first_keys 1 (layers_of layers.now true) ++ keys (settings_of first.now).values) paths × (all.items ≡ ended paths)) }
    ensures fault { IfErr result (λ e. e ≡ Memory) }
{
    match differing_first(alloc, layers, *first) {
        Ok(paths) => Ok(paths),
        Err(_) => Err(Fault::Memory),
    }
}

/// The same, with the error of an allocation.
fn differing_first<'a>(
    alloc: Global,
    layers: &[Layer<'a>],
    first: Layer<'a>,
) -> Result<Vec<u8>, AllocError>
    ensures { IfOk result (λ all. (paths : List (List ℕ)) × AreDiffering (layers_of layers.now true) (with_first (layers_of layers.now true) (settings_of first.entry))
        (first_keys 1 (layers_of layers.now true) ++ keys (settings_of first.entry).values) paths × (all.items ≡ ended paths)) }
{
    let layers = LentLayers::new(true, layers);
    let paths = dconf_differences::differing_first(alloc, layers, first)?;
    texts_of(alloc, paths.as_slice())
}
