//! What is seen of a key while an edit of it may wait, and which paths stand for which.
ghost use Rattle.std.specs.Prelude.{◌≡◌, ◌≢◌, ◌≤◌, ◌==◌, ℕ, List, false, map, true};
ghost use Rattle.dconf_model.specs.Paths.{is_short, starts_with_slash};
ghost use Rattle.dconf_layers.specs.LayerSettings.{settings_of};
ghost use Rattle.dconf_rounds.specs.Telling.{passes_over};
ghost use Rattle.dconf_seen.specs.Allowed.{may_be_made};
ghost use Rattle.dconf_seen.specs.Covering.{meets};
ghost use Rattle.dconf_seen.specs.Reading.{found_by, found_number, known_word};
ghost use Rattle.dconf_seen.specs.Waiting.{may_write};
ghost use Rattle.dconf_texts.specs.Kinds.{kind_at, kind_number, wanted_kind};
ghost use Rattle.dconf_told.specs.Own.{AreOwn, each_of};
ghost use Rattle.dconf_told.specs.Relocking.{AreRelocked};
ghost use Rattle.dconf_told.specs.Telling.{AreTold, before_in};
ghost use Rattle.dconfdb_calls.specs.Given.{HandsOut};
ghost use Rattle.dconfdb_calls.specs.Listed.{ended};
ghost use Rattle.dconfdb_calls.specs.Seen.{layers_of};

use crate::read::dconfdb_is_writable;
use dconf_layers::{Layer, LentLayers};
use dconf_rounds::passes_over;
use dconf_seen::{Known, found_by, found_number, may_be_made, meets};
use dconf_texts::{is_short, kind_at, number_of_kind, wanted_kind};
use dconf_told::{DconfdbKeyAsked, may_write, own_texts, relocked_texts, told_texts};
use dconfdb_calls::{Fault, hand_out};
use std::alloc::Global;

/// Where what is read of a key is found: 0 as it is stored, 1 without the user's value, 2 in the newest edit that waits of it, 3 in the
/// first database, 4 nowhere. The setting is read, or the user's own value (`of_user`), or what there is without that (`of_default`).
/// `is_odd`: who reads the setting passes over a value of another type, so that the key is to be asked for by its type.
#[unsafe(no_mangle)]
pub extern "C" fn dconfdb_found(
    of_user: bool,
    of_default: bool,
    known: &Known,
    is_odd: &mut bool,
) -> u32
    ensures odd { is_odd.new ≡ passes_over of_user of_default (known_word known.now) known.now.writable known.now.may_write known.now.edit_fits known.now.stored_fits }
    ensures found { result ≡ found_number (found_by of_user of_default (known_word known.now) known.now.writable known.now.may_write known.now.edit_fits known.now.stored_fits) }
{
    *is_odd = passes_over(of_user, of_default, known);
    found_number(found_by(of_user, of_default, *known))
}

/// Whether an edit may be made: somebody may write in the user's database (`is_open`), and the path may be written, or it is a directory's
/// that is reset.
#[unsafe(no_mangle)]
pub extern "C" fn dconfdb_may_be_made(
    path: &[u8],
    sets: bool,
    is_open: bool,
    may_write: bool,
) -> bool
    ensures { result ≡ may_be_made path.now sets is_open may_write }
{
    may_be_made(path, sets, is_open, may_write)
}

/// The paths of the keys that are seen otherwise than before: of those that are asked for by themselves, and of all others by what the
/// layers show. Where `same_others`, the layers before but for the first count as those after. They are handed out as `dconfdb_list`
/// does.
#[unsafe(no_mangle)]
pub extern "C" fn dconfdb_told(
    alloc: Global,
    before: &[Layer<'_>],
    after: &[Layer<'_>],
    was_writable: bool,
    is_writable: bool,
    same_others: bool,
    asked: &[DconfdbKeyAsked<'_>],
    room: &mut [u8],
    len: &mut usize,
) -> u32
    ensures done { result ≡ 0 → (paths : List (List ℕ)) × AreTold (before_in same_others (layers_of before.now was_writable) (layers_of after.now is_writable))
        (layers_of after.now is_writable) asked.now paths × HandsOut (ended paths) room.old room.new len.new }
    ensures refused { result ≢ 0 → result ≡ 1 }
    ensures kept { result ≢ 0 → (room.new ≡ room.old) × (len.new ≡ len.old) }
{
    let before = LentLayers::new(was_writable, before);
    let after = LentLayers::new(is_writable, after);
    match told_texts(alloc, before, after, same_others, asked) {
        Ok(paths) => {
            *len = hand_out(paths.as_slice(), room);
            0
        }
        Err(_) => Fault::Memory.number(),
    }
}

/// The paths of which it is otherwise than before whether they may be written: keys, and directories as a whole. What is below another of
/// them isn't told by itself. `same_others` is as for `dconfdb_told`, and so they are handed out.
#[unsafe(no_mangle)]
pub extern "C" fn dconfdb_relocked(
    alloc: Global,
    before: &[Layer<'_>],
    after: &[Layer<'_>],
    was_writable: bool,
    is_writable: bool,
    same_others: bool,
    room: &mut [u8],
    len: &mut usize,
) -> u32
    ensures done { result ≡ 0 → (paths : List (List ℕ)) × AreRelocked (before_in same_others (layers_of before.now was_writable) (layers_of after.now is_writable))
        (layers_of after.now is_writable) paths × HandsOut (ended paths) room.old room.new len.new }
    ensures refused { result ≢ 0 → result ≡ 1 }
    ensures kept { result ≢ 0 → (room.new ≡ room.old) × (len.new ≡ len.old) }
{
    let before = LentLayers::new(was_writable, before);
    let after = LentLayers::new(is_writable, after);
    match relocked_texts(alloc, before, after, same_others) {
        Ok(paths) => {
            *len = hand_out(paths.as_slice(), room);
            0
        }
        Err(_) => Fault::Memory.number(),
    }
}

/// The keys that edits are of: each key whose path an edit names, and each key below a directory that an edit names which the layers have
/// before or after. They are handed out as `dconfdb_list` does.
#[unsafe(no_mangle)]
pub extern "C" fn dconfdb_own_keys(
    alloc: Global,
    before: &[Layer<'_>],
    after: &[Layer<'_>],
    edits: &[&[u8]],
    room: &mut [u8],
    len: &mut usize,
) -> u32
    ensures done { result ≡ 0 → (paths : List (List ℕ)) × AreOwn (map settings_of before.now) (map settings_of after.now) (each_of edits.now) paths
        × HandsOut (ended paths) room.old room.new len.new }
    ensures refused { result ≢ 0 → result ≡ 1 }
    ensures kept { result ≢ 0 → (room.new ≡ room.old) × (len.new ≡ len.old) }
{
    match own_texts(alloc, before, after, edits) {
        Ok(paths) => {
            *len = hand_out(paths.as_slice(), room);
            0
        }
        Err(_) => Fault::Memory.number(),
    }
}

/// Whether a path may be written, a key, or all that is below a directory: somebody may write (`is_open`), the first layer is the user's, and no
/// lock covers it. What doesn't start with `/` is locked by nobody. 0 it may not, 1 it may, 2 no memory is left. A key that may be written takes
/// none.
#[unsafe(no_mangle)]
pub extern "C" fn dconfdb_may_write(
    alloc: Global,
    layers: &[Layer<'_>],
    writable: bool,
    is_open: bool,
    path: &[u8],
) -> u32
    ensures path { result ≢ 2 → starts_with_slash path.now ≡ true → (result == 1) ≡ may_be_made path.now true is_open (may_write (layers_of layers.now writable) path.now) }
    ensures none { result ≢ 2 → starts_with_slash path.now ≡ false → (result == 1) ≡ may_be_made path.now true is_open writable }
    ensures refused { result ≤ 2 }
{
    if !is_open {
        return 0;
    }
    if dconfdb_is_writable(layers, writable, path) {
        return 1;
    }
    may_write_all(alloc, layers, writable, path)
}

/// The same where somebody may write, of any path: so a key that may be written costs no more than a look at its locks.
#[inline(never)]
fn may_write_all(alloc: Global, layers: &[Layer<'_>], writable: bool, path: &[u8]) -> u32
    ensures path { result ≢ 2 → starts_with_slash path.now ≡ true → (result == 1) ≡ may_write (layers_of layers.now writable) path.now }
    ensures none { result ≢ 2 → starts_with_slash path.now ≡ false → (result == 1) ≡ writable }
    ensures refused { result ≤ 2 }
{
    match may_write(alloc, LentLayers::new(writable, layers), path) {
        Ok(true) => 1,
        Ok(false) => 0,
        Err(_) => 2,
    }
}

/// Whether one of two paths is the other, or a directory above it.
#[unsafe(no_mangle)]
pub extern "C" fn dconfdb_meets(one: &[u8], other: &[u8]) -> bool
    ensures { result ≡ meets one.now other.now }
{
    meets(one, other)
}

/// What a text is as a path, or, if `is_relative`, as what follows the slash of a directory, however long it is: 0 a key's, 1 a directory's,
/// 2 it doesn't start with `/`, 3 it has a zero byte, 4 it has `//`, 5 it is relative and starts with `/`; 6 it is a directory's, where a
/// key's is wanted (1), 7 a key's, where a directory's is wanted (2). The same, where `is_relative`, of what follows the slash of a directory, and 5 if it starts with `/`. `short` says whether it is no
/// longer than a path may be.
#[unsafe(no_mangle)]
pub extern "C" fn dconfdb_path_kind(
    text: &[u8],
    wanted: u32,
    is_relative: bool,
    short: &mut bool,
) -> u32
    ensures kind { result ≡ kind_number (wanted_kind wanted (kind_at is_relative text.now)) }
    ensures short { short.new ≡ is_short text.now }
{
    *short = is_short(text);
    number_of_kind(wanted_kind(wanted, kind_at(is_relative, text)))
}
