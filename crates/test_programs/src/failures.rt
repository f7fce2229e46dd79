//! Runs where the k-th call of the folder fails, or where the folder refuses every read.
use crate::layers::{settle, two_layers};
use crate::script::{add_line, bytes_of, left_on, put, put_all, runs};
use crate::streams::{Refusing, Source, Streams};
use dconf_folders::{Folder, FolderFault, MemoryFolder};
use std::alloc::Global;
use std::fmt::Write;
use std::test::Fail;
use test_rows::{Question, bytes_of as words, table};

const FILES: [(&str, &str); 5] = [
    ("k", "[/]\nk=5\n"),
    ("g", "[/]\nk=6\n"),
    ("locks", "/k\n"),
    ("made", "file-db:out.db\n"),
    ("saved", "file-db:empty\n"),
];

/// Two layers with a lock of `/x`, and besides the numbers 1 and 2 as `v`, two keyfiles, an older database `out.db` of the first, and two
/// databases by hand. A crash leaves all of them.
pub(crate) fn store(alloc: Global) -> Result<MemoryFolder, Fail> {
    let mut folder = two_layers(alloc, "/x\n")?;
    put(alloc, &mut folder, "v", b"\x01\0\0\0\x02\0\0\0")?;
    put_all(alloc, &mut folder, &FILES)?;
    put(alloc, &mut folder, "hash", &words(alloc, "%plain 60=190")?)?;
    put(
        alloc,
        &mut folder,
        "empty",
        &words(alloc, "%plain :32 20=32 27=40 28=0")?,
    )?;
    runs(alloc, "$ compile out.db k => 0\n", &mut folder)?;
    settle(&mut folder, &FILES)?;
    settle(&mut folder, &[("v", ""), ("hash", ""), ("empty", "")])?;
    Ok(folder)
}

/// A run in such a folder, of which a call fails, and a database.
#[derive(Clone, Copy)]
struct RunFailing<'a> {
    asked: &'a str,
    database: &'a str,
}

impl Question for RunFailing<'_> {
    /// What the run leaves whose call of this number fails, the first counted as 1; how many failed, and how many bytes the database then
    /// has, which must be sound.
    fn answer(&mut self, alloc: Global, asked: &str, found: &mut String) -> Result<(), Fail> {
        let mut folder = store(alloc)?;
        folder.fail_at(asked.parse()?);
        let mut streams = Streams::calm(alloc, Source::bytes(b""));
        add_line(
            &left_on(alloc, self.asked, &mut folder, &mut streams)?,
            found,
        )?;
        let failures = folder.failures();
        folder.fail_at(0);
        let length = bytes_of(alloc, &mut folder, self.database)?.len();
        write!(found, ", {failures} failed, {length} bytes")?;
        let sound = format!(in alloc; "$ check {} => 0\nsound\n", self.database)?;
        runs(alloc, &sound, &mut folder)
    }
}

/// A rename that fails is done all the same.
const COMPILED: &str = "
0 | 0, 0 failed, 187 bytes
1 | 1 ! error: Device k, 1 failed, 110 bytes
2 | 1 ! error: Device g, 1 failed, 110 bytes
3 | 1 ! error: Device locks, 1 failed, 110 bytes
4 | 1 ! error: Device out.db, 1 failed, 110 bytes
5 | 1 ! error: Device out.db, 1 failed, 110 bytes
6 | 1 ! error: Device out.db, 1 failed, 110 bytes
7 | 1 ! error: Device out.db, 1 failed, 187 bytes
8 | 1 ! error: Device out.db, 1 failed, 187 bytes
";

const REPAIRED: &str = "
0 | 0 kept 1 keys, 0 locks, 0 failed, 110 bytes
1 | 1 ! error: Device hash, 1 failed, 32 bytes
2 | 1 ! error: Device empty, 1 failed, 32 bytes
3 | 1 ! error: Device empty, 1 failed, 32 bytes
4 | 1 ! error: Device empty, 1 failed, 32 bytes
5 | 1 ! error: Device empty, 1 failed, 110 bytes
6 | 1 ! error: Device empty, 1 failed, 110 bytes
";

/// Of a run that reads the file `v` alone.
const ONE_FILE: &str = "1 | 1 ! error: Device v, 1 failed, 110 bytes";

const SHOWN: &str = "
0 | 0 [uint32 1, 2], 0 failed, 110 bytes
2 | 0 [uint32 1, 2], 0 failed, 110 bytes
3 | 0 [uint32 1, 2], 0 failed, 110 bytes
";

const CHECKED: &str = "
0 | 1 ! error: Short, 0 failed, 110 bytes
2 | 1 ! error: Short, 0 failed, 110 bytes
3 | 1 ! error: Short, 0 failed, 110 bytes
";

/// Of a run that reads each database of the profile.
const READ: &str = "
1 | 1 ! error: Device profile, 1 failed, 110 bytes
2 | 1 ! error: Device me.user, 1 failed, 110 bytes
3 | 1 ! error: Device site.db, 1 failed, 110 bytes
";

/// All databases are read before one is opened.
const LATE: &str = "3 | 1 ! error: Device site.db, 1 failed, 110 bytes";

#[test]
fn calls_of_the_folder_that_fail(rt: HostRuntime) -> Result<(), Fail> {
    let tables = [
        ("compile --locks locks out.db k g", "out.db", COMPILED),
        ("repair hash empty", "empty", REPAIRED),
        ("load / -p late", "out.db", LATE),
        ("show q v", "out.db", ONE_FILE),
        ("show au v", "out.db", ONE_FILE),
        ("show au v", "out.db", SHOWN),
        ("check v", "out.db", ONE_FILE),
        ("check v", "out.db", CHECKED),
        ("read /a/k", "out.db", READ),
        ("read -d /a/k", "out.db", READ),
        ("origin /a/k", "out.db", READ),
        ("explain /a/k", "out.db", READ),
        ("list /a/", "out.db", READ),
        ("list-locks /", "out.db", READ),
        ("dump /", "out.db", READ),
        ("dump /b/", "out.db", READ),
    ];
    for (asked, database, rows) in tables {
        table(rt.alloc(), &mut RunFailing { asked, database }, rows)?;
    }
    Ok(())
}

#[test]
fn a_folder_that_refuses_a_read(rt: HostRuntime) -> Result<(), Fail> {
    let alloc = rt.alloc();
    let mut big = Refusing {
        fault: FolderFault::TooBig,
    };
    let too_big = "$ show q f => 1\n! error: TooBig\n$ check f => 1\n! error: TooBig\n";
    runs(alloc, too_big, &mut big)?;
    let mut poor = Refusing {
        fault: FolderFault::Memory,
    };
    let memory = "$ show q f => 1\n! error: Memory\n$ check f => 1\n! error: Memory\n";
    runs(alloc, memory, &mut poor)
}
