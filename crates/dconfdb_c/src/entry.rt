//! What becomes of a change that is asked for, and what a fault means to it.
ghost use Rattle.std.specs.Prelude.{◌≡◌};
ghost use Rattle.std.specs.List.{list_all};
ghost use Rattle.dconf_verdicts.specs.Entries.{entry_number, entry_of, is_there};
ghost use Rattle.dconf_verdicts.specs.Faults.{fault_of, verdict_number, verdict_of};

use dconf_verdicts::{NewEdit, entry_number, is_there, verdict_number};

/// What becomes of a change: 0 it is refused, 1 nothing is left of it, 2 it renews the one that waits,
/// 3 it waits, though nothing is seen otherwise, 4 it waits: of one edit alone, exactly if something else is seen by it. `there` says
/// whether all that it asks for is there already, so that nothing is to be written.
#[unsafe(no_mangle)]
pub extern "C" fn dconfdb_entry(edits: &[NewEdit], there: &mut bool) -> u32
    ensures entry { result ≡ entry_number (entry_of edits.now) }
    ensures there { there.new ≡ list_all is_there edits.now }
{
    *there = is_there(edits);
    entry_number(edits)
}

/// What becomes of what waits after a change that was not made, by the header's code of what it failed by, and its errno: 1 what sets keys
/// that may not be written is refused, 4 the same of all, since nobody may write there, 2 that edit's change is, 5 the newest change that
/// sets something is, since the file would be too large; 6 all goes on waiting, mostly for a moment, 3 or longer.
#[unsafe(no_mangle)]
pub extern "C" fn dconfdb_verdict(code: u32, errno: u32) -> u32
    ensures { result ≡ verdict_number (verdict_of (fault_of code errno)) }
{
    verdict_number(code, errno)
}
