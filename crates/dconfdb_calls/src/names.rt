//! What a directory has, and the locks below it.
ghost use Rattle.std.specs.Prelude.{◌≡◌, ◌++◌, ◌∷◌, [], true, IfErr, IfOk, IsOk, OnOk, map, string_bytes};
ghost use Rattle.dconf_model.specs.Layers.{child_names, locks_below};
ghost use Rattle.dconf_path.specs.Paths.{directory_text};
ghost use Rattle.dconfdb_calls.specs.Given.{IsDirectory};
ghost use Rattle.dconfdb_calls.specs.Listed.{IsNoListing, ended};
ghost use Rattle.dconfdb_calls.specs.Seen.{layers_of};

use crate::fault::Fault;
use crate::given::directory_path;
use dconf_engine::Engine;
use dconf_layers::Layer;
use dconf_path::DirPath;
use std::alloc::{AllocError, Global};

/// The names of what a directory has in any layer, a zero byte after each: a key's name, and a
/// directory's with its `/`. They are in the order of their bytes, once each.
///
/// `BadPath` if the bytes are not a directory's path; `Memory` if an allocation fails.
pub fn directory_names(
    alloc: Global,
    layers: &[Layer<'_>],
    directory: &[u8],
) -> Result<Vec<u8>, Fault>
    ensures names { IfOk result (λ all. all.items ≡ ended (child_names (layers_of layers.now true) directory.now)) }
    ensures directory { IsOk result → IsDirectory directory.now }
    ensures fault { IfErr result (IsNoListing directory.now) }
{
    let directory = directory_path(directory).ok_or(Fault::BadPath)?;
    match listed(alloc, layers, directory) {
        Ok(names) => Ok(names),
        Err(_) => Err(Fault::Memory),
    }
}

/// The paths of the locks that start with a directory, a zero byte after each: those of the layers
/// from the second on. They are in the order of their bytes, once each. The errors are those of
/// [`directory_names`].
pub fn directory_locks(
    alloc: Global,
    layers: &[Layer<'_>],
    directory: &[u8],
) -> Result<Vec<u8>, Fault>
    ensures paths { IfOk result (λ all. all.items ≡ ended (locks_below (layers_of layers.now true) directory.now)) }
    ensures directory { IsOk result → IsDirectory directory.now }
    ensures fault { IfErr result (IsNoListing directory.now) }
{
    let below = directory_path(directory).ok_or(Fault::BadPath)?;
    match locked(alloc, layers, below) {
        Ok(paths) => Ok(paths),
        Err(_) => Err(Fault::Memory),
    }
}

/// The names of what a directory has, as they are handed out.
fn listed(
    alloc: Global,
    layers: &[Layer<'_>],
    directory: DirPath<'_>,
) -> Result<Vec<u8>, AllocError>
    ensures { IfOk result (λ all. all.items ≡ ended (child_names (layers_of layers.now true) (directory_text directory.entry))) }
{
    let engine = Engine::of_layers(alloc, true, layers)?;
    let names = engine.list(alloc, directory)?;
    texts_of(alloc, names.as_slice())
}

/// The locks below a directory, as they are handed out.
fn locked(
    alloc: Global,
    layers: &[Layer<'_>],
    directory: DirPath<'_>,
) -> Result<Vec<u8>, AllocError>
    ensures { IfOk result (λ all. all.items ≡ ended (locks_below (layers_of layers.now true) (directory_text directory.entry))) }
{
    let engine = Engine::of_layers(alloc, true, layers)?;
    let paths = engine.locks(alloc, directory)?;
    texts_of(alloc, paths.as_slice())
}

/// The texts, a zero byte after each.
pub(crate) fn texts_of(alloc: Global, texts: &[String]) -> Result<Vec<u8>, AllocError>
    ensures { IfOk result (λ all. all.items ≡ ended (map string_bytes texts.now)) }
{
    let mut all = Vec::new(alloc);
    for text in texts {
        add_text(text.as_str(), &mut all)?;
    }
    Ok(all)
}

/// Adds a text and a zero byte.
pub(crate) fn add_text(text: &str, all: &mut Vec<u8>) -> Result<(), AllocError>
    ensures { OnOk result (all.new.items ≡ all.old.items ++ (text.now ++ 0 ∷ [])) }
{
    all.extend_from_slice(text.as_bytes())?;
    all.push(0)?;
    Ok(())
}
