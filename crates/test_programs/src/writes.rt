//! Runs where the k-th write to out or to err fails.
use crate::failures::store;
use crate::script::{bytes_of, left_on};
use crate::streams::{Source, Streams, Writes};
use dconf_folders::MemoryFolder;
use std::alloc::Global;
use std::io::ErrorKind;
use std::test::Fail;
use test_rows::{Question, is_so, script};

/// How many bytes a write takes, and in which way the k-th write fails.
#[derive(Clone, Copy)]
struct Failing {
    most: usize,
    kind: Option<ErrorKind>,
    lasting: bool,
}

impl Failing {
    /// A stream whose k-th write fails; with 0 none does.
    fn at(self, k: usize) -> Writes {
        Writes {
            most: self.most,
            fails_in: k,
            kind: self.kind,
            lasting: self.lasting,
        }
    }

    /// How many writes a text takes.
    fn writes_of(self, text: &str) -> usize {
        let last = self.most.saturating_sub(1);
        text.len()
            .saturating_add(last)
            .checked_div(self.most)
            .unwrap_or(0)
    }

    /// The part of a text that is written before the k-th write fails.
    fn before(self, k: usize, text: &str) -> &str {
        text.get(..self.most.saturating_mul(k.saturating_sub(1)))
            .unwrap_or(text)
    }
}

/// Runs the words on such streams. An error says that they leave something else, or that another number of writes failed.
fn leaves_with(
    alloc: Global,
    words: &str,
    folder: &mut MemoryFolder,
    (out, err): (Writes, Writes),
    (wanted, failures): (&str, u64),
) -> Result<(), Fail> {
    let mut streams = Streams::new(alloc, Source::bytes(b""), out, err);
    let left = left_on(alloc, words, folder, &mut streams)?;
    is_so(alloc, words, &left, wanted)?;
    let failed = streams
        .out
        .failures()
        .saturating_add(streams.err.failures());
    if failed == failures {
        Ok(())
    } else {
        Err(Fail::new(format!(in alloc; "{failed} failures of {words}")?))
    }
}

/// The folder in which each write of a run fails once.
#[derive(Drop)]
struct FailingIn<'a> {
    folder: &'a mut MemoryFolder,
    failing: Failing,
}

impl FailingIn<'_> {
    /// Streams of which the one that this mark is for fails at its k-th write.
    fn streams_at(&self, k: usize, mark: &str) -> (Writes, Writes) {
        let (failing, calm) = (self.failing.at(k), self.failing.at(0));
        if mark.is_empty() {
            (failing, calm)
        } else {
            (calm, failing)
        }
    }

    /// Each write of what a run leaves fails once: the status is 1 then, and what was written before it is left, and no more.
    fn each(&mut self, alloc: Global, words: &str, left: &str) -> Result<(), Fail> {
        let (_, text) = left.split_once('\n').unwrap_or((left, ""));
        let (mark, text) = match text.strip_prefix("! ") {
            Some(line) => ("! ", line),
            None => ("", text),
        };
        let writes = self.failing.writes_of(text);
        for k in 1..=writes {
            let part = self.failing.before(k, text);
            let before = if part.is_empty() { "" } else { mark };
            let wanted = format!(in alloc; "1\n{before}{part}")?;
            let streams = self.streams_at(k, mark);
            leaves_with(alloc, words, self.folder, streams, (&wanted, 1))?;
        }
        let after = self.streams_at(writes.saturating_add(1), mark);
        leaves_with(alloc, words, self.folder, after, (left, 0))
    }
}

impl Question for FailingIn<'_> {
    /// What a run leaves where no write fails.
    fn answer(&mut self, alloc: Global, asked: &str, found: &mut String) -> Result<(), Fail> {
        let mut streams = Streams::calm(alloc, Source::bytes(b""));
        let left = left_on(alloc, asked, self.folder, &mut streams)?;
        self.each(alloc, asked, &left)?;
        Ok(found.push_str(&left)?)
    }
}

/// What each command writes to out; those that change a file write nothing, but for `repair`. Then what each writes to err.
const RUNS: &str = "
$ show au v => 0
[uint32 1, 2]
$ read /a/k => 0
1
$ read -d /a/k => 0
2
$ read /none => 0
$ list / => 0
a/
$ list-locks / => 0
/x
$ dump / => 0
[a]
k=1
$ origin /a/k => 0
0 user-db:me
$ explain /a/k => 0
0 user-db:me\t1\t
1 system-db:site\t2\t
seen\t1\t0 user-db:me
writable\tyes\t
$ check site.db => 0
sound
$ repair hash empty => 0
kept 1 keys, 0 locks
$ compile out.db k => 0
$ write /a/k 1 => 0
$ reset /a/j => 0
$ reset -f /b/ => 0
$ load / => 0
$ check empty => 0
sound
$ show au missing => 1
! error: NoFile missing
$ read a => 1
! error: NotAbsolute
$ read -d /a/ => 1
! error: EndsInSlash
$ list a => 1
! error: NotAbsolute
$ list-locks /a => 1
! error: NoEndSlash
$ dump /a => 1
! error: NoEndSlash
$ origin a => 1
! error: NotAbsolute
$ explain /a/ => 1
! error: EndsInSlash
$ check v => 1
! error: Short
$ compile out.db v => 1
! error: v:1: BadLine
$ repair v empty => 1
! error: Short
$ write /x 3 => 1
! error: Locked /x
$ reset /x => 1
! error: Locked /x
$ reset -f /a => 1
! error: NoEndSlash
$ load /a => 1
! error: NoEndSlash
";

#[test]
fn writes_that_fail(rt: HostRuntime) -> Result<(), Fail> {
    let alloc = rt.alloc();
    let kinds = [
        Some(ErrorKind::Interrupted),
        Some(ErrorKind::BrokenPipe),
        None,
    ];
    for kind in kinds {
        for (most, lasting) in [(4, false), (4, true), (1, false), (100, true)] {
            let mut folder = store(alloc)?;
            let failing = Failing {
                most,
                kind,
                lasting,
            };
            let mut runs = FailingIn {
                folder: &mut folder,
                failing,
            };
            script(alloc, &mut runs, RUNS)?;
            assert!(rt; bytes_of(alloc, &mut folder, "empty")?.len() == 110);
        }
    }
    Ok(())
}
