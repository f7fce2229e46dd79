//! What a crash after some calls may leave. A folder in memory has each outcome under a number.
use super::steps::answered;
use dconf_disk::MemoryFolder;
use std::alloc::{AllocError, Global};
use std::fmt::Write;
use test_rows::number;

/// The calls of a name.
fn calls_of(name: &str) -> &'static str {
    match name {
        "replaced" => {
            "replace me.user old, create me.user.new, append me.user.new new, sync me.user.new, rename me.user.new me.user, settle"
        }
        "unsynced" => "create me.user, append me.user abc, settle",
        "renamed" => "create a, append a x, sync a, settle, rename a b",
        "aside" => "create a, append a x, sync a, settle, aside a",
        _ => "",
    }
}

/// Makes the first calls of some. Whether none failed.
fn are_done(alloc: Global, folder: &mut MemoryFolder, calls: &str, count: usize) -> bool {
    for call in calls.split(", ").take(count) {
        if answered(alloc, folder, call) != "done" {
            return false;
        }
    }
    true
}

/// Whether a look, the answer of a call, is so.
fn is_so(alloc: Global, folder: &mut MemoryFolder, look: &str) -> bool {
    let (wanted, call) = look.split_once(' ').unwrap_or((look, ""));
    answered(alloc, folder, call) == wanted
}

/// Which of four cases is seen in the outcome of this number of a crash after the first calls of
/// some: neither look is so, the second alone is, the first alone is, both are. None where a call failed.
fn case(
    alloc: Global,
    (calls, count): (&str, usize),
    outcome: u64,
    (first, second): (&str, &str),
) -> Option<usize> {
    let mut folder = MemoryFolder::new(alloc);
    if !are_done(alloc, &mut folder, calls, count) || folder.crash(outcome).is_err() {
        return None;
    }
    let is_first = is_so(alloc, &mut folder, first);
    let is_second = is_so(alloc, &mut folder, second);
    Some(usize::from(is_first) * 2 + usize::from(is_second))
}

/// Which cases are seen in so many outcomes. None where a call failed.
fn cases(
    alloc: Global,
    calls: (&str, usize),
    outcomes: u64,
    looks: (&str, &str),
) -> Option<[bool; 4]> {
    let mut seen = [false; 4];
    for outcome in 0..outcomes {
        if let Some(case) = seen.get_mut(case(alloc, calls, outcome, looks)?) {
            *case = true;
        }
    }
    Some(seen)
}

/// Which cases are seen of two looks, after so many of the calls of a name, in so many outcomes.
pub(crate) fn crashed(alloc: Global, asked: &str, found: &mut String) -> Result<(), AllocError> {
    let (calls, looks) = asked.split_once(": ").unwrap_or((asked, ""));
    let (name, rest) = calls.split_once(' ').unwrap_or((calls, ""));
    let (count, outcomes) = rest.split_once(' ').unwrap_or((rest, ""));
    let calls = (calls_of(name), number(count) as usize);
    let looks = looks.split_once("; ").unwrap_or((looks, ""));
    let seen = cases(alloc, calls, u64::from(number(outcomes)), looks);
    write!(found, "{seen:?}")
}

pub(super) const CRASHES: &str = "
-- up to the sync of the new file it is the old one
-- once the folder is synced it is the new one; in between, either
replaced 1 400: done read me.user old; done read me.user new | Some([false, false, true, false])
replaced 2 400: done read me.user old; done read me.user new | Some([false, false, true, false])
replaced 3 400: done read me.user old; done read me.user new | Some([false, false, true, false])
replaced 4 400: done read me.user old; done read me.user new | Some([false, false, true, false])
replaced 5 400: done read me.user old; done read me.user new | Some([false, true, true, false])
replaced 6 400: done read me.user old; done read me.user new | Some([false, true, false, false])
-- unsynced bytes may be any
unsynced 3 2000: done read me.user; done read me.user | Some([true, false, false, true])
unsynced 3 2000: done read me.user a; done read me.user a | Some([true, false, false, true])
unsynced 3 2000: done read me.user ab; done read me.user ab | Some([true, false, false, true])
unsynced 3 2000: done read me.user abc; done read me.user abc | Some([true, false, false, true])
unsynced 3 2000: done read me.user \0; done read me.user \0 | Some([true, false, false, true])
unsynced 3 2000: done read me.user ff; done read me.user ff | Some([true, false, false, true])
-- each name is old or new, after a rename
renamed 5 16: done read a x; done read b x | Some([true, true, true, true])
-- what is set aside keeps its name, and may have another one
aside 5 16: done read a x; done read a~1 x | Some([false, false, true, true])
-- a file that no sync of the folder saw may be gone
renamed 3 16: missing read a x; done read a x | Some([false, true, true, false])
";
