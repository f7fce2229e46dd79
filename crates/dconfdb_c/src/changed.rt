//! Whether anything is otherwise than before, and what is remembered of what others changed.
ghost use Rattle.std.specs.Prelude.{◌≡◌, ◌≢◌, ℕ, IsTrue, List};
ghost use Rattle.dconf_told.specs.Changed.{AreRemembered, TellsOfChange};
ghost use Rattle.dconf_told.specs.Telling.{before_in};
ghost use Rattle.dconfdb_calls.specs.Given.{HandsOut};
ghost use Rattle.dconfdb_calls.specs.Listed.{ended};
ghost use Rattle.dconfdb_calls.specs.Seen.{layers_of};

use dconf_layers::{Layer, LentLayers};
use dconf_told::{DconfdbFileSeen, is_changed, remembered_texts};
use dconfdb_calls::{Fault, hand_out};
use std::alloc::Global;

/// Whether anything is otherwise than before: somebody else may write, a file is another one or has another fault, other locks count, or
/// a key is seen otherwise. Where `same_others`, the layers before but for the first count as those after. Where memory is lacking it is.
#[unsafe(no_mangle)]
pub extern "C" fn dconfdb_is_changed(
    alloc: Global,
    before: &[Layer<'_>],
    after: &[Layer<'_>],
    was_writable: bool,
    is_writable: bool,
    same_others: bool,
    files_before: &[DconfdbFileSeen],
    files_after: &[DconfdbFileSeen],
    is: &mut bool,
) -> u32
    ensures done { result ≡ 0 → TellsOfChange is.new (before_in same_others (layers_of before.now was_writable) (layers_of after.now is_writable))
        (layers_of after.now is_writable) files_before.now files_after.now }
    ensures refused { result ≢ 0 → (result ≡ 1) × IsTrue is.new }
{
    let before = LentLayers::new(was_writable, before);
    let after = LentLayers::new(is_writable, after);
    match is_changed(alloc, before, after, same_others, files_before, files_after) {
        Ok(changed) => {
            *is = changed;
            0
        }
        Err(_) => {
            *is = true;
            Fault::Memory.number()
        }
    }
}

/// The keys that are remembered of what others changed between two looks: those of which the user's file has another value, or has one on
/// one side alone. Where it isn't the user's on both sides, or who left it noted what it changed (`is_noted`), that is none. They are handed
/// out as `dconfdb_list` does.
#[unsafe(no_mangle)]
pub extern "C" fn dconfdb_remembered(
    alloc: Global,
    before: &[Layer<'_>],
    after: &[Layer<'_>],
    was_writable: bool,
    is_writable: bool,
    is_noted: bool,
    room: &mut [u8],
    len: &mut usize,
) -> u32
    ensures done { result ≡ 0 → (paths : List (List ℕ)) × AreRemembered (layers_of before.now was_writable) (layers_of after.now is_writable) is_noted paths
        × HandsOut (ended paths) room.old room.new len.new }
    ensures refused { result ≢ 0 → result ≡ 1 }
    ensures kept { result ≢ 0 → (room.new ≡ room.old) × (len.new ≡ len.old) }
{
    let before = LentLayers::new(was_writable, before);
    let after = LentLayers::new(is_writable, after);
    match remembered_texts(alloc, before, after, is_noted) {
        Ok(paths) => {
            *len = hand_out(paths.as_slice(), room);
            0
        }
        Err(_) => Fault::Memory.number(),
    }
}
