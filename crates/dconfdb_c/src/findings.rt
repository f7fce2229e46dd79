//! What `lint` prints of a finding; who reads a text of a keyfile, where it stands, and why it is no value; and why a text is no path.
ghost use Rattle.std.specs.Prelude.{◌≡◌, ◌≢◌, ◌+◌, ◌==◌};
ghost use Rattle.std.specs.List.{count_by};
ghost use Rattle.dconf_texts.specs.Findings.{printed};
ghost use Rattle.dconf_texts.specs.Readings.{cause_number, cause_of, is_glibs};
ghost use Rattle.dconf_texts.specs.Refused.{refused_as};
ghost use Rattle.dconfdb_calls.specs.Given.{HandsOut};

use dconf_texts::{cause_number, finding_line, is_glibs, line_behind, refused_as};
use dconfdb_calls::{Fault, hand_out};
use std::alloc::Global;

/// What is printed of a finding, with its line feed: as a line, or as an object of JSON. It is handed out as `dconfdb_list` does. Else it is the number of
/// `Memory`, and nothing changes.
#[unsafe(no_mangle)]
pub extern "C" fn dconfdb_finding_line(
    alloc: Global,
    is_json: bool,
    kind: u32,
    file: &[u8],
    line: u64,
    text: &[u8],
    has_nearest: bool,
    nearest: &[u8],
    room: &mut [u8],
    len: &mut usize,
) -> u32
    ensures done { result ≡ 0 → HandsOut (printed is_json kind file.now line text.now has_nearest nearest.now) room.old room.new len.new }
    ensures refused { result ≢ 0 → result ≡ 1 }
    ensures kept { result ≢ 0 → (room.new ≡ room.old) × (len.new ≡ len.old) }
{
    match finding_line(alloc, is_json, kind, file, line, text, has_nearest, nearest) {
        Ok(bytes) => {
            *len = hand_out(&bytes, room);
            0
        }
        Err(_) => Fault::Memory.number(),
    }
}

/// The number of the line that begins behind these bytes, or goes on there, counted from 1.
#[unsafe(no_mangle)]
pub extern "C" fn dconfdb_line_behind(before: &[u8]) -> usize
    ensures { result ≡ count_by (λ c. c == 10) before.now + 1 }
{
    line_behind(before)
}

/// Whether GLib is asked for the value of a text that ours refuses by this number.
#[unsafe(no_mangle)]
pub extern "C" fn dconfdb_is_glibs(fault: u32) -> bool
    ensures { result ≡ is_glibs fault }
{
    is_glibs(fault)
}

/// Whose cause is told, of a text that ours refused by this number, or took (0), and that GLib refused, if it was asked: 0 GLib's, 1 ours, 2 that by which no
/// database holds its value.
#[unsafe(no_mangle)]
pub extern "C" fn dconfdb_text_cause(fault: u32, is_refused: bool) -> u32
    ensures { result ≡ cause_number (cause_of fault is_refused) }
{
    cause_number(fault, is_refused)
}

/// Why a text is neither a key's path nor a directory's: 0 it is one, 1 it doesn't start with `/`, 2 it has a zero byte, 3 it has `//`, 4 it is too long.
#[unsafe(no_mangle)]
pub extern "C" fn dconfdb_refused_as(text: &[u8]) -> u32
    ensures { result ≡ refused_as text.now }
{
    refused_as(text)
}
