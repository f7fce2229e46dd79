//! The user's database with changes, and what of them is there already.
ghost use Rattle.std.specs.Prelude.{◌≡◌, ◌≢◌, ◌↔◌, ◌⊎◌, ℕ, IsTrue, List, false, true};
ghost use Rattle.std.specs.List.{list_any};
ghost use Rattle.dconfdb_calls.specs.Changed.{IsChanged};
ghost use Rattle.dconfdb_calls.specs.Given.{HandsOut};
ghost use Rattle.dconfdb_calls.specs.Seen.{layers_of};
ghost use Rattle.dconf_made.specs.Made.{AreMade, IsMade, IsNoChangeTold};
ghost use Rattle.dconf_made.specs.Courses.{course_after, task_number};
ghost use Rattle.dconf_made.specs.Needs.{need_of, users_of};

use dconf_layers::Layer;
use dconf_made::{Course, changed_file, course_number, is_left};
use dconfdb_calls::{DconfdbChange, hand_out};
use std::alloc::Global;

/// The bytes of the first layer's database after all changes, each made in turn, without locks:
/// handed out as `dconfdb_list` does. `is_same` says whether the user's database has what each of them asks for, or the bytes are
/// `old`, those of its file. Else the number of a fault, and nothing changes but `at`: the index of the change at fault, or how many
/// there are if none is.
#[unsafe(no_mangle)]
pub extern "C" fn dconfdb_change(
    alloc: Global,
    layers: &[Layer<'_>],
    writable: bool,
    changes: &[DconfdbChange<'_>],
    old: &[u8],
    room: &mut [u8],
    len: &mut usize,
    at: &mut usize,
    is_same: &mut bool,
) -> u32
    ensures done { result ≡ 0 → (file : List ℕ) × IsChanged (layers_of layers.now writable) changes.now file × HandsOut file room.old room.new len.new
        × (IsTrue is_same.new ↔ (AreMade (layers_of layers.now writable) changes.now ⊎ (file ≡ old.now))) }
    ensures silent { result ≡ 0 → at.new ≡ at.old }
    ensures refused { result ≢ 0 → IsNoChangeTold (layers_of layers.now writable) changes.now result at.new }
    ensures kept { result ≢ 0 → (room.new ≡ room.old) × (len.new ≡ len.old) × (is_same.new ≡ is_same.old) }
{
    match changed_file(alloc, layers, writable, changes, old) {
        Ok(changed) => {
            *len = hand_out(changed.file.as_slice(), room);
            *is_same = changed.is_same;
            0
        }
        Err(unchanged) => {
            *at = unchanged.at;
            unchanged.fault.number()
        }
    }
}

/// Whether the user's database, which is the first if it may be written (`writable`), has what a change asks for already: this value
/// of the key or, if it sets nothing, none, or none below the directory. If nothing can have left it there (`may_be` is false), it isn't asked, and
/// hasn't. Where memory is lacking, it counts as what it hasn't.
#[unsafe(no_mangle)]
pub extern "C" fn dconfdb_is_made(
    alloc: Global,
    layers: &[Layer<'_>],
    writable: bool,
    may_be: bool,
    change: &DconfdbChange<'_>,
    is: &mut bool,
) -> u32
    ensures done { may_be ≡ true → result ≡ 0 → IsTrue is.new ↔ IsMade (layers_of layers.now writable) change.now }
    ensures none { may_be ≡ false → (result ≡ 0) × (is.new ≡ false) }
    ensures refused { result ≢ 0 → (result ≡ 1) × (is.new ≡ false) }
{
    match is_left(alloc, layers, writable, may_be, change) {
        Ok(made) => {
            *is = made;
            0
        }
        Err(fault) => {
            *is = false;
            fault.number()
        }
    }
}

/// What is done for changes after that task, by its answer, and by what stands at the name of the user's file. The numbers are those of
/// [`course_number`](dconf_made::course_number).
#[unsafe(no_mangle)]
pub extern "C" fn dconfdb_course_after(
    task: u32,
    yes: bool,
    users: u32,
    changes: &[DconfdbChange<'_>],
    known: &Course,
) -> u32
    ensures { result ≡ task_number (course_after task yes (need_of (users_of users) (list_any (λ c. c.sets) changes.now)) known.now) }
{
    course_number(task, yes, users, changes, known)
}
