//! The host's folder: files, none, and what is no file. That a big file is replaced, and that one keeps its permission bits, is in
//! tests/program.d.
use super::steps::calls;
use dconf_disk::{FolderLock, StdFolder};
use std::fs;
use std::test::Fail;

const FILES: &str = "
folder_of me.user | .
folder_of ./me.user | .
folder_of a/me.user | a
folder_of a/b/me.user | a/b
folder_of /me.user | /
create store_tests_first | done
append store_tests_first one  | done
append store_tests_first two | done
sync store_tests_first | done
rename store_tests_first store_tests_folder/second | done
settle | done
read store_tests_first | missing
read store_tests_folder/second one two | done
create store_tests_folder/second | done
read store_tests_folder/second | done
create store_tests_gone | done
remove store_tests_gone | done
read store_tests_gone | missing
remove store_tests_gone | device
create store_tests_linked | done
append store_tests_linked old | done
aside store_tests_linked | done
aside store_tests_linked | done
read store_tests_linked~1 old | done
read store_tests_linked~2 | missing
remove store_tests_linked~1 | done
replace store_tests_folder/second new | done
read store_tests_folder/second new | done
read store_tests_folder/second.new | missing
replace store_tests_folder/second | done
read store_tests_folder/second | done
failures 0 | done
";

// One file of two names, as a crash in the middle of a rename might leave it. Of what is no file the third says that it is empty, and
// isn't. A folder opens, and its reading fails; a path through a plain file does not open.
const NO_FILES: &str = "
create store_tests_linked.new | done
read store_tests_linked old | done
read /no/such/file | missing
read /dev/null | done
read /proc/self/comm | other
failures 0 | done
read / | device
read /proc/self/comm/x | device
failures 2 | done
append /no/such/file x | device
sync /no/such/file | device
rename /no/such/file store_tests_no | device
create /no/such/file | device
failures 6 | done
";

const READ_ONLY: &str = "
create store_tests_unmade | device
rename /dev/null store_tests_unmade | device
remove store_tests_linked | device
append store_tests_linked x | device
sync store_tests_linked | device
aside store_tests_linked | device
settle | device
read store_tests_linked old | done
replace store_tests_unmade x | device
read store_tests_unmade | missing
read /dev/null | done
failures 7 | done
";

const MADE: &str = "
remove store_tests_folder/second | done
remove store_tests_linked | done
remove store_tests_linked.new | done
";

/// Makes the calls of a table in a turn.
fn calls_in_turn(rt: HostRuntime, rows: &str) -> Result<(), Fail> {
    let lock = FolderLock::take(&rt, rt.alloc(), ".")?;
    calls(rt.alloc(), &mut StdFolder::in_turn(rt, lock), rows)
}

/// Whether a folder can be locked. The lock is given up then.
fn can_lock(rt: HostRuntime, folder: &str) -> bool {
    FolderLock::take(&rt, rt.alloc(), folder).is_ok()
}

/// Whether a folder is locked by any name; others can't be locked.
fn are_locked(rt: HostRuntime) -> bool {
    can_lock(rt, ".")
        && can_lock(rt, "./.")
        && can_lock(rt, ".")
        && !can_lock(rt, "store_tests_none")
        && !can_lock(rt, "/proc/self/comm/x")
}

#[test]
fn files_of_the_host_are_made_renamed_replaced_and_locked(rt: HostRuntime) -> Result<(), Fail> {
    fs::create_dir(&rt, "store_tests_folder")?;
    calls_in_turn(rt, FILES)?;
    fs::hard_link(&rt, "store_tests_linked", "store_tests_linked.new")?;
    calls_in_turn(rt, NO_FILES)?;
    calls(rt.alloc(), &mut StdFolder::read_only(rt), READ_ONLY)?;
    calls_in_turn(rt, MADE)?;
    fs::remove_dir(&rt, "store_tests_folder")?;
    assert!(rt; are_locked(rt));
    Ok(())
}
