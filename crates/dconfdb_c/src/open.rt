//! Opening the layers of a store, reading its profile, and what the numbers of faults say.
ghost use Rattle.std.specs.Prelude.{◌≡◌, ◌≢◌, ◌⊎◌, IfErr, IfOk, IsTrue, false, option_map};
ghost use Rattle.dconf_model.specs.Databases.{IsLayer};
ghost use Rattle.dconf_layers.specs.LayerSettings.{settings_of};
ghost use Rattle.dconf_mended.specs.Profiles.{IsTaken, said_by, telling_of};
ghost use Rattle.dconf_places.specs.Numbers.{telling_number};
ghost use Rattle.dconfdb_calls.specs.GoodLines.{line_fault, or_none};
ghost use Rattle.dconfdb_calls.specs.Numbers.{IsNumber, IsTextOf, number_of};
ghost use Rattle.dconfdb_calls.specs.Opened.{IsToldOf, bytes_if};

use dconf_layers::Layer;
use dconf_mended::{read_lines, said_by, telling_of};
use dconfdb_calls::{
    BadFile, BadProfile, DconfdbName, DconfdbUnsound, Fault, hand_out, open_layer, open_layer_after,
};
use std::alloc::Global;

/// Opens a layer: a database of a file's bytes, or an empty one if there is no file. Else the number
/// of the fault, and what is unsound: all zeros, unless the fault is `Unsound`; the layer stays as it
/// was. `old` is the layer of the file that this one replaced, or any layer: what is as in that isn't
/// asked anew, but where its bytes may be others by now (`was_mapped`): then it isn't looked at.
/// `telling` is as what the fault is told: 0 there is none, 1 it refuses; 2 whoever is lenient keeps it, and
/// what can be read of the file counts.
#[unsafe(no_mangle)]
pub extern "C" fn dconfdb_open<'a>(
    old: &Layer<'_>,
    was_mapped: bool,
    file: &'a [u8],
    is_there: bool,
    is_lenient: bool,
    layer: &mut Layer<'a>,
    unsound: &mut DconfdbUnsound,
    telling: &mut u32,
) -> u32
    ensures opened { result ≡ 0 → IsLayer (bytes_if is_there file.entry.now) (settings_of layer.new) }
    ensures silent { result ≡ 0 → unsound.new ≡ unsound.old }
    ensures refused { result ≢ 0 → IsToldOf (bytes_if is_there file.entry.now) result unsound.new }
    ensures kept { result ≢ 0 → layer.new ≡ layer.old }
    ensures telling { telling.new ≡ telling_number (telling_of result is_lenient false) }
{
    match open_beside(old, was_mapped, file, is_there) {
        Ok(opened) => {
            *layer = opened;
            *telling = telling_of(0, is_lenient, false).number();
            0
        }
        Err(bad) => {
            let number = bad.fault.number();
            *unsound = bad.unsound;
            *telling = telling_of(number, is_lenient, false).number();
            number
        }
    }
}

/// That layer.
fn open_beside<'a>(
    old: &Layer<'_>,
    was_mapped: bool,
    file: &'a [u8],
    is_there: bool,
) -> Result<Layer<'a>, BadFile>
    ensures opened { IfOk result (λ layer. IsLayer (bytes_if is_there file.entry.now) (settings_of layer)) }
    ensures fault { IfErr result (λ e. IsToldOf (bytes_if is_there file.entry.now) (number_of e.fault) e.unsound) }
{
    if was_mapped {
        open_layer(file, is_there)
    } else {
        open_layer_after(old, file, is_there)
    }
}

/// The databases that a profile names, at most 64, by the number of the step to which the looks at profiles came, and by the file's text: handed out as
/// `dconfdb_list` does. `fault` is the number of the first bad line's fault, and `line` its number, counted from 1: both are 0 if no line is bad. Whoever
/// is lenient takes the good lines, whoever is strict takes none of a bad profile; without memory, which is a fault of no line, nobody takes any. Given is as
/// what the fault is told: 0 there is nothing to tell, 1 it refuses, 2 it is kept by whoever has kept none (`has_kept`).
#[unsafe(no_mangle)]
pub extern "C" fn dconfdb_profile<'a>(
    alloc: Global,
    step: u32,
    text: &'a [u8],
    is_lenient: bool,
    has_kept: bool,
    room: &mut [DconfdbName<'a>],
    len: &mut usize,
    fault: &mut u32,
    line: &mut usize,
) -> u32
    ensures taken { ((fault.new ≡ 1) × (line.new ≡ 0) × (room.new ≡ room.old) × (len.new ≡ len.old)) ⊎ IsTaken is_lenient (said_by step text.entry.now) room.old room.new len.new (fault.new, line.new) }
    ensures telling { result ≡ telling_number (telling_of fault.new is_lenient has_kept) }
{
    match read_lines(alloc, said_by(step, text), is_lenient) {
        Ok(read) => {
            *len = hand_out(read.names.as_slice(), room);
            (*fault, *line) = number_and_line(read.bad);
        }
        Err(memory) => (*fault, *line) = (memory.number(), 0),
    }
    telling_of(*fault, is_lenient, has_kept).number()
}

/// The number of a bad line's fault, and the line; zeros if there is none.
fn number_and_line(bad: Option<BadProfile>) -> (u32, usize)
    ensures { result ≡ or_none (option_map line_fault bad) }
{
    match bad {
        Some(bad) => (bad.fault.number(), bad.line),
        None => (0, 0),
    }
}

/// A text that is handed out.
#[repr(C)]
#[derive(Clone, Copy)]
pub struct DconfdbText<'a> {
    pub text: &'a [u8],
}

/// What the number of a fault says. False if no fault has that number; then the text stays as it
/// was.
#[unsafe(no_mangle)]
pub extern "C" fn dconfdb_fault_text<'a>(number: u32, text: &mut DconfdbText<'a>) -> bool
    ensures text { IsTrue result → IsTextOf number text.new.text.now }
    ensures none { result ≡ false → ¬ IsNumber number }
    ensures kept { result ≡ false → text.new ≡ text.old }
{
    match Fault::of_number(number) {
        Some(fault) => {
            *text = DconfdbText {
                text: fault.text().as_bytes(),
            };
            true
        }
        None => false,
    }
}
