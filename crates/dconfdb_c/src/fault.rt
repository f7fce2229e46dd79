//! What a fault of the host means, and what becomes of a file by what the host says of it.
ghost use Rattle.std.specs.Prelude.{◌≡◌, ◌==◌};
ghost use Rattle.dconf_making.specs.Renamings.{renamed_of};
ghost use Rattle.dconf_verdicts.specs.Answers.{answer_number, answer_of, call_of};
ghost use Rattle.dconf_verdicts.specs.Brought.{bring_after, bring_number};
ghost use Rattle.dconf_verdicts.specs.Errnos.{is_list_refused, kind_of};
ghost use Rattle.dconf_verdicts.specs.Standings.{purpose_of, standing_fault, standing_number, standing_of};

use dconf_making::{Renamed, renamed_of};
use dconf_verdicts::{Seen, answer_number, bring_number, is_list_refused, standing_numbers};

/// What comes of a fault of that errno, or of 0, of that call. The numbers are those of [`answer_number`](dconf_verdicts::answer_number). `renamed`: of
/// a call that gives the old file another name, too, or (3) by which both files change places.
#[unsafe(no_mangle)]
pub extern "C" fn dconfdb_fault_answer(call: u32, errno: u32, renamed: &mut Renamed) -> u32
    ensures answer { result ≡ answer_number (answer_of (call_of call) (kind_of errno)) }
    ensures renamed { renamed.new ≡ renamed_of (call == 3) errno }
{
    *renamed = renamed_of(call == 3, errno);
    answer_number(call, errno)
}

/// What becomes of what has a name, or is open. The numbers are those of [`standing_numbers`](dconf_verdicts::standing_numbers). `fault` is an
/// errno, or 0.
#[unsafe(no_mangle)]
pub extern "C" fn dconfdb_standing(purpose: u32, seen: &Seen, fault: &mut u32) -> u32
    ensures number { result ≡ standing_number (standing_of (purpose_of purpose) seen.now) }
    ensures fault { fault.new ≡ standing_fault (standing_of (purpose_of purpose) seen.now) }
{
    let (number, errno) = standing_numbers(purpose, seen);
    *fault = errno;
    number
}

/// What is brought to the disk next, once the task `done` was done, with that errno: of a folder that is made in another one (`what` is 0), of a file
/// in a folder (1), or of both (2). 1 the name of the folder is, 2 what is missing is made in it, 3 the bytes of the file are, if there is one that can be read,
/// 4 the names in the folder are, 5 it is over, by that errno.
#[unsafe(no_mangle)]
pub extern "C" fn dconfdb_bring_after(what: u32, done: u32, errno: u32, has_file: bool) -> u32
    ensures { result ≡ bring_number (bring_after what done errno has_file) }
{
    bring_number(what, done, errno, has_file)
}

/// Whether what was wrong with the profile, by that code, keeps the files of a store from being listed: no memory is left.
#[unsafe(no_mangle)]
pub extern "C" fn dconfdb_is_list_refused(code: u32) -> bool
    ensures { result ≡ is_list_refused code }
{
    is_list_refused(code)
}
