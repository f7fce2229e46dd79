//! A folder in memory: files that grow, and what a replacement leaves where each of its calls fails once.
use super::crashes::CRASHES;
use super::steps::{answered, calls};
use crate::questions::TableOf;
use dconf_disk::MemoryFolder;
use std::alloc::{AllocError, Global};
use std::fmt::Write;
use std::test::Fail;
use test_rows::{number, table};

/// How the replacement by `old` is answered, and after it the one by `new`, whose call of this number fails; whether one call failed then,
/// whether the file has `new`, and `old`, and that none is left by the other name; and another replacement.
fn show_replaced(
    alloc: Global,
    folder: &mut MemoryFolder,
    failing: u32,
    found: &mut String,
) -> Result<(), AllocError> {
    found.push_str(answered(alloc, folder, "replace me.user old"))?;
    folder.fail_at(u64::from(failing));
    for call in [
        "replace me.user new",
        "read me.user new",
        "failures 1",
        "read me.user new",
        "read me.user old",
        "read me.user.new",
        "replace me.user",
        "read me.user",
    ] {
        write!(found, " {}", answered(alloc, folder, call))?;
    }
    Ok(())
}

/// What a replacement leaves whose call of this number fails.
pub(crate) fn replaced(alloc: Global, asked: &str, found: &mut String) -> Result<(), AllocError> {
    show_replaced(alloc, &mut MemoryFolder::new(alloc), number(asked), found)
}

// The fourth is the rename, which is done though it fails; the fifth is the sync of the folder. The
// sixth is the first one after the replacement.
const ROWS: &str = "
0 | done done done other done other missing done done
1 | done device other done other done missing done done
2 | done device other done other done missing done done
3 | done device other done other done missing done done
4 | done device done done done other missing done done
5 | done device done done done other missing done done
6 | done done device done done other missing done done
";

const GROWN: &str = "
read me.user | missing
create me.user | done
append me.user one  | done
append me.user two | done
read me.user one two | done
sync me.user | done
settle | done
create me.user | done
read me.user | done
remove me.user | done
read me.user | missing
failures 0 | done
";

#[test]
fn files_grow_and_calls_fail_and_a_crash_comes(rt: HostRuntime) -> Result<(), Fail> {
    let alloc = rt.alloc();
    calls(alloc, &mut MemoryFolder::new(alloc), GROWN)?;
    table(alloc, &mut TableOf::Replaced, ROWS)?;
    table(alloc, &mut TableOf::Crash, CRASHES)
}
