//! Names and paths that are listed: texts, a zero byte after each.
ghost use Rattle.std.specs.Prelude.{◌≡◌, ◌≢◌, ◌<◌, ◌++◌, ◌∷◌, [], ℕ, IfErr, IfOk, IsOk, List, false, true};
ghost use Rattle.dconf_model.specs.Layers.{all_paths, child_names, locks_below};
ghost use Rattle.dconf_model.specs.Walks.{keys_below};
ghost use Rattle.std.specs.FinMap.{keys};
ghost use Rattle.dconf_differences.specs.Differing.{AreDiffering, first_keys, with_first};
ghost use Rattle.dconf_layers.specs.LayerSettings.{settings_of};
ghost use Rattle.dconfdb_calls.specs.Given.{HandsOut, IsDirectory};
ghost use Rattle.dconfdb_calls.specs.Listed.{IsNoListing, IsNoListingTold, ended};
ghost use Rattle.dconfdb_calls.specs.Seen.{layers_of};
ghost use Rattle.dconfdb_c.specs.Own.{closed_below, own_of};

use dconf_layers::Layer;
use dconfdb_calls::{
    Fault, differing_keys, directory_locks, directory_names, hand_out, keys_differing_first,
    paths_below,
};
use std::alloc::{AllocError, Global};

/// What is listed of a directory, by `what`: 0 the names of what it has in any layer, a key's, and a directory's with its `/`; 1 the
/// same of the first layer alone, if that is the user's (`writable`), and else none; 2 the paths of the keys below it that any layer has;
/// 3 the paths of the locks that start with it, of the layers from the second on; and else the same, or, if no layer is the user's, the
/// directory itself.
///
/// They are in the order of their bytes, once each. `len` says how many bytes they take; a room that is too short for them stays as it
/// was. Else the number of a fault, and nothing changes.
#[unsafe(no_mangle)]
pub extern "C" fn dconfdb_list(
    alloc: Global,
    layers: &[Layer<'_>],
    writable: bool,
    directory: &[u8],
    what: u32,
    room: &mut [u8],
    len: &mut usize,
) -> u32
    ensures names { what ≡ 0 → result ≡ 0 → HandsOut (ended (child_names (layers_of layers.now true) directory.now)) room.old room.new len.new }
    ensures own { what ≡ 1 → result ≡ 0 → HandsOut (ended (child_names (layers_of (own_of writable layers.now) true) directory.now)) room.old room.new len.new }
    ensures paths { what ≡ 2 → result ≡ 0 → HandsOut (ended (keys_below (all_paths (layers_of layers.now true).layers) directory.now)) room.old room.new len.new }
    ensures locks { what ≡ 3 → result ≡ 0 → HandsOut (ended (locks_below (layers_of layers.now true) directory.now)) room.old room.new len.new }
    ensures closed { 3 < what → result ≡ 0 → HandsOut (ended (closed_below writable (layers_of layers.now true) directory.now)) room.old room.new len.new }
    ensures directory { result ≡ 0 → IsDirectory directory.now }
    ensures refused { result ≢ 0 → IsNoListingTold directory.now result }
    ensures kept { result ≢ 0 → (room.new ≡ room.old) × (len.new ≡ len.old) }
{
    match what {
        0 => list_names(alloc, layers, directory, room, len),
        1 => list_names(alloc, own_of(writable, layers), directory, room, len),
        2 => list_paths(alloc, layers, directory, room, len),
        3 => list_locks(alloc, layers, directory, room, len),
        _ => list_closed(alloc, layers, writable, directory, room, len),
    }
}

/// The layer of the user's values alone, if the first is that.
fn own_of<'a, 'l>(writable: bool, layers: &'l [Layer<'a>]) -> &'l [Layer<'a>]
    ensures { result.now ≡ own_of writable layers.entry.now }
{
    if !writable {
        return &[];
    }
    if layers.is_empty() {
        return layers;
    }
    &layers[..1]
}

/// The names of what a directory has in any layer.
fn list_names(
    alloc: Global,
    layers: &[Layer<'_>],
    directory: &[u8],
    room: &mut [u8],
    len: &mut usize,
) -> u32
    ensures done { result ≡ 0 → HandsOut (ended (child_names (layers_of layers.now true) directory.now)) room.old room.new len.new }
    ensures directory { result ≡ 0 → IsDirectory directory.now }
    ensures refused { result ≢ 0 → IsNoListingTold directory.now result }
    ensures kept { result ≢ 0 → (room.new ≡ room.old) × (len.new ≡ len.old) }
{
    match directory_names(alloc, layers, directory) {
        Ok(names) => {
            *len = hand_out(names.as_slice(), room);
            0
        }
        Err(fault) => fault.number(),
    }
}

/// The paths of the keys below a directory that any layer has.
fn list_paths(
    alloc: Global,
    layers: &[Layer<'_>],
    directory: &[u8],
    room: &mut [u8],
    len: &mut usize,
) -> u32
    ensures done { result ≡ 0 → HandsOut (ended (keys_below (all_paths (layers_of layers.now true).layers) directory.now)) room.old room.new len.new }
    ensures directory { result ≡ 0 → IsDirectory directory.now }
    ensures refused { result ≢ 0 → IsNoListingTold directory.now result }
    ensures kept { result ≢ 0 → (room.new ≡ room.old) × (len.new ≡ len.old) }
{
    match paths_below(alloc, layers, directory) {
        Ok(paths) => {
            *len = hand_out(paths.as_slice(), room);
            0
        }
        Err(fault) => fault.number(),
    }
}

/// The paths of the locks that start with a directory: those of the layers from the second on.
fn list_locks(
    alloc: Global,
    layers: &[Layer<'_>],
    directory: &[u8],
    room: &mut [u8],
    len: &mut usize,
) -> u32
    ensures done { result ≡ 0 → HandsOut (ended (locks_below (layers_of layers.now true) directory.now)) room.old room.new len.new }
    ensures directory { result ≡ 0 → IsDirectory directory.now }
    ensures refused { result ≢ 0 → IsNoListingTold directory.now result }
    ensures kept { result ≢ 0 → (room.new ≡ room.old) × (len.new ≡ len.old) }
{
    match directory_locks(alloc, layers, directory) {
        Ok(paths) => {
            *len = hand_out(paths.as_slice(), room);
            0
        }
        Err(fault) => fault.number(),
    }
}

/// What of a directory nobody may write: the locks that start with it, or, if no layer is the user's, the directory itself.
fn list_closed(
    alloc: Global,
    layers: &[Layer<'_>],
    writable: bool,
    directory: &[u8],
    room: &mut [u8],
    len: &mut usize,
) -> u32
    ensures done { result ≡ 0 → HandsOut (ended (closed_below writable (layers_of layers.now true) directory.now)) room.old room.new len.new }
    ensures directory { result ≡ 0 → IsDirectory directory.now }
    ensures refused { result ≢ 0 → IsNoListingTold directory.now result }
    ensures kept { result ≢ 0 → (room.new ≡ room.old) × (len.new ≡ len.old) }
{
    if writable {
        return list_locks(alloc, layers, directory, room, len);
    }
    match whole(alloc, directory) {
        Ok(path) => {
            *len = hand_out(path.as_slice(), room);
            0
        }
        Err(fault) => fault.number(),
    }
}

/// The path of a directory, a zero byte after it.
fn whole(alloc: Global, directory: &[u8]) -> Result<Vec<u8>, Fault>
    ensures path { IfOk result (λ all. all.items ≡ ended (directory.now ∷ [])) }
    ensures directory { IsOk result → IsDirectory directory.now }
    ensures fault { IfErr result (IsNoListing directory.now) }
{
    directory_locks(alloc, &[], directory)?;
    match with_zero(alloc, directory) {
        Ok(path) => Ok(path),
        Err(_) => Err(Fault::Memory),
    }
}

fn with_zero(alloc: Global, path: &[u8]) -> Result<Vec<u8>, AllocError>
    ensures { IfOk result (λ all. all.items ≡ path.now ++ (0 ∷ [])) }
{
    let mut all = Vec::new(alloc);
    all.extend_from_slice(path)?;
    all.push(0)?;
    Ok(all)
}

/// The paths of the keys that are seen otherwise through other layers: another value is seen, or one where none was, or only one side has
/// the key locked. The same value in other bytes is no difference. Only the keys of the first `count` layers of each side are compared.
/// Where `same_others`, the other layers are these, but that `first` is the first of them, and only its keys and those of the first of
/// these are compared. They are handed out as `dconfdb_list` does.
#[unsafe(no_mangle)]
pub extern "C" fn dconfdb_differs(
    alloc: Global,
    layers: &[Layer<'_>],
    other: &[Layer<'_>],
    count: usize,
    same_others: bool,
    first: &Layer<'_>,
    room: &mut [u8],
    len: &mut usize,
) -> u32
    ensures done { same_others ≡ false → result ≡ 0 → (paths : List (List ℕ)) × AreDiffering (layers_of layers.now true) (layers_of other.now true)
        (first_keys count (layers_of layers.now true) ++ first_keys count (layers_of other.now true)) paths × HandsOut (ended paths) room.old room.new len.new }
    ensures first { same_others ≡ true → result ≡ 0 → (paths : List (List ℕ)) × AreDiffering (layers_of layers.now true) (with_first (layers_of layers.now true) (settings_of first.now))
        (first_keys 1 (layers_of layers.now true) ++ keys (settings_of first.now).values) paths × HandsOut (ended paths) room.old room.new len.new }
    ensures refused { result ≢ 0 → result ≡ 1 }
    ensures kept { result ≢ 0 → (room.new ≡ room.old) × (len.new ≡ len.old) }
{
    if same_others {
        list_differing_first(alloc, layers, first, room, len)
    } else {
        list_differing(alloc, layers, other, count, room, len)
    }
}

/// Those where all layers may be others.
fn list_differing(
    alloc: Global,
    layers: &[Layer<'_>],
    other: &[Layer<'_>],
    count: usize,
    room: &mut [u8],
    len: &mut usize,
) -> u32
    ensures done { result ≡ 0 → (paths : List (List ℕ)) × AreDiffering (layers_of layers.now true) (layers_of other.now true)
        (first_keys count (layers_of layers.now true) ++ first_keys count (layers_of other.now true)) paths × HandsOut (ended paths) room.old room.new len.new }
    ensures refused { result ≢ 0 → result ≡ 1 }
    ensures kept { result ≢ 0 → (room.new ≡ room.old) × (len.new ≡ len.old) }
{
    match differing_keys(alloc, layers, other, count) {
        Ok(paths) => {
            *len = hand_out(paths.as_slice(), room);
            0
        }
        Err(fault) => fault.number(),
    }
}

/// Those where only the first layer is another one.
fn list_differing_first(
    alloc: Global,
    layers: &[Layer<'_>],
    first: &Layer<'_>,
    room: &mut [u8],
    len: &mut usize,
) -> u32
    ensures done { result ≡ 0 → (paths : List (List ℕ)) × AreDiffering (layers_of layers.now true) (with_first (layers_of layers.now true) (settings_of first.now))
        (first_keys 1 (layers_of layers.now true) ++ keys (settings_of first.now).values) paths × HandsOut (ended paths) room.old room.new len.new }
    ensures refused { result ≢ 0 → result ≡ 1 }
    ensures kept { result ≢ 0 → (room.new ≡ room.old) × (len.new ≡ len.old) }
{
    match keys_differing_first(alloc, layers, first) {
        Ok(paths) => {
            *len = hand_out(paths.as_slice(), room);
            0
        }
        Err(fault) => fault.number(),
    }
}
