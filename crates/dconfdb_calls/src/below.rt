//! The keys below a directory.
ghost use Rattle.std.specs.Prelude.{◌≡◌, IfErr, IfOk, IsOk, map, true};
ghost use Rattle.dconf_model.specs.Layers.{all_paths};
ghost use Rattle.dconf_model.specs.Walks.{keys_below};
ghost use Rattle.dconf_path.specs.Paths.{directory_text};
ghost use Rattle.dconf_layers.specs.Children.{seen_path};
ghost use Rattle.dconfdb_calls.specs.Given.{IsDirectory};
ghost use Rattle.dconfdb_calls.specs.Listed.{IsNoListing, ended};
ghost use Rattle.dconfdb_calls.specs.Seen.{layers_of};

use crate::fault::Fault;
use crate::given::directory_path;
use crate::names::add_text;
use dconf_layers::{Layer, LentLayers, SeenKey};
use dconf_path::DirPath;
use std::alloc::{AllocError, Global};

/// The paths of the keys below a directory that any layer has, a zero byte after each, in the order of their
/// bytes, once each.
///
/// `BadPath` if the bytes are not a directory's path; `Memory` if an allocation fails. It doesn't matter how deep a key lies.
pub fn paths_below(alloc: Global, layers: &[Layer<'_>], directory: &[u8]) -> Result<Vec<u8>, Fault>
    ensures paths { IfOk result (λ all. all.items ≡ ended (keys_below (all_paths (layers_of layers.now true).layers) directory.now)) }
    ensures directory { IsOk result → IsDirectory directory.now }
    ensures fault { IfErr result (IsNoListing directory.now) }
{
    let directory = directory_path(directory).ok_or(Fault::BadPath)?;
    match walked(alloc, layers, directory) {
        Ok(paths) => Ok(paths),
        Err(_) => Err(Fault::Memory),
    }
}

/// The same, with the error of an allocation.
fn walked(
    alloc: Global,
    layers: &[Layer<'_>],
    directory: DirPath<'_>,
) -> Result<Vec<u8>, AllocError>
    ensures { IfOk result (λ all. all.items ≡ ended (keys_below (all_paths (layers_of layers.now true).layers) (directory_text directory.entry))) }
{
    let keys = LentLayers::new(true, layers).keys_below(alloc, directory)?;
    paths_of(alloc, keys.as_slice())
}

/// The keys' paths, a zero byte after each.
fn paths_of(alloc: Global, keys: &[SeenKey<'_>]) -> Result<Vec<u8>, AllocError>
    ensures { IfOk result (λ all. all.items ≡ ended (map seen_path keys.now)) }
{
    let mut all = Vec::new(alloc);
    for key in keys {
        add_text(key.path.as_str(), &mut all)?;
    }
    Ok(all)
}
