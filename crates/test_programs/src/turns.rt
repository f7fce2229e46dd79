//! Runs one after another in one folder, and runs some of which a crash stops.
use crate::layers::two_layers;
use crate::questions::RowsOf;
use crate::script::words_of;
use crate::streams::{Source, Streams};
use dconf_cli::{Asked, Command, command};
use dconf_folders::{FolderFault, MemoryFolder};
use dconf_runs::{Attempt, End, Ended, Left, Request, run_after, run_through_crashes};
use std::alloc::{AllocError, Global};
use std::test::Fail;
use test_rows::script;

/// The request of these words, which stand before their input.
fn request(alloc: Global, asked: &str) -> Result<Request, Fail> {
    let (words, input) = asked.split_once('\n').unwrap_or((asked, ""));
    match command(alloc, &words_of(alloc, words)?) {
        Ok(Asked::Run { command, .. }) => Ok(Request {
            command,
            input: input.as_bytes().to_vec(alloc)?,
        }),
        _ => Err(Fail::new("the words are refused")),
    }
}

/// The statuses of runs, whose texts are added.
fn statuses_left(
    alloc: Global,
    lefts: &[Ended],
    texts: &mut String,
) -> Result<Vec<u8>, AllocError> {
    let mut statuses = Vec::new(alloc);
    for left in lefts {
        texts.push_str(str::from_utf8(left.out.as_slice()).unwrap_or("?"))?;
        statuses.push(left.status)?;
    }
    Ok(statuses)
}

/// Does the runs, between which is a `;`. What they leave is the statuses of those before the last, and then its own, and the texts of all.
fn left_after(alloc: Global, folder: &mut MemoryFolder, asked: &str) -> Result<String, Fail> {
    let mut requests = Vec::new(alloc);
    for each in asked.split(';') {
        requests.push(request(alloc, each)?)?;
    }
    let Some(last) = requests.pop() else {
        return Err(Fail::new("no run"));
    };
    let mut streams = Streams::calm(alloc, Source::bytes(b""));
    let left = run_on(alloc, requests, last.command, folder, &mut streams)?;
    let mut texts = String::new(alloc);
    let earlier = statuses_left(alloc, left.earlier.as_slice(), &mut texts)?;
    let text = String::from_utf8_lossy(alloc, streams.out.get_ref().taken.as_slice())?;
    Ok(format!(in alloc; "{earlier:?} {}\n{texts}{text}", left.last)?)
}

/// Does the runs, of which the last one has these streams.
fn run_on(
    alloc: Global,
    earlier: Vec<Request>,
    last: Command,
    folder: &mut MemoryFolder,
    streams: &mut Streams<'_>,
) -> Result<Left, FolderFault> {
    let err = &mut streams.err;
    run_after(alloc, earlier, last, folder, &mut streams.out, err)
}

/// Runs, and what they leave. `/x` is locked.
const PROGRAMS: &str = "
$ read /a/k => [] 0
1
$ write /b 1;write /b 2;reset /a/k;read /b => [0, 0, 0] 0
2
$ write /b 1;read /b;reset /a/k;read /a/k => [0, 0, 0] 0
1
2
$ write /x 1;write /b 'y';write /b y;write b 1;dump / => [1, 0, 1, 1] 0
[/]
b='y'

[a]
k=1
$ load /
[b]
j=1
[a]
k=3
l=4
;reset -f /b/;list /a/ => [0, 0] 0
k
l
$ write /b 1;reset -f /;read /b => [0, 0] 0
$ write /b 1;list-locks / => [0] 0
/x
";

/// What runs leave in a folder of two layers.
pub(crate) fn program_left(alloc: Global, asked: &str, found: &mut String) -> Result<(), Fail> {
    let mut folder = two_layers(alloc, "/x\n")?;
    let left = left_after(alloc, &mut folder, asked)?;
    Ok(found.push_str(&left)?)
}

#[test]
fn a_program_gives_what_was_written(rt: HostRuntime) -> Result<(), Fail> {
    script(rt.alloc(), &mut RowsOf::Program, PROGRAMS)
}

/// Writes that come to their end, one that a crash stops at its call of that number, one before which a crash comes, and another.
fn attempts(alloc: Global, call: u64, outcome: u64) -> Result<Vec<Attempt>, Fail> {
    let ends = [
        ("write /b 1", End::Whole),
        ("write /b 2", End::Stopped { call, outcome }),
        ("write /c 1", End::Crashed { outcome }),
        ("reset /a/k", End::Whole),
    ];
    let mut attempts = Vec::new(alloc);
    for (asked, end) in ends {
        let request = request(alloc, asked)?;
        attempts.push(Attempt { request, end })?;
    }
    Ok(attempts)
}

/// What they leave, with this value of `/b`.
fn with_value(alloc: Global, value: u8) -> Result<String, AllocError> {
    let dump = format!(in alloc; "[/]\nb={value}\n\n[a]\nk=2\n")?;
    format!(in alloc; "[Some(0), None, None, Some(0)] [] 0\n{dump}")
}

/// The statuses of those that came to their end.
fn statuses_of(alloc: Global, all: Vec<Option<Ended>>) -> Result<Vec<Option<u8>>, Fail> {
    let mut statuses = Vec::new(alloc);
    for ended in all {
        match ended {
            Some(ended) => statuses.push(Some(ended.status))?,
            None => statuses.push(None)?,
        }
    }
    Ok(statuses)
}

/// How many crashes are tried. Each has another number, and there are fewer kinds.
const CRASHES: u64 = 16;

/// Whether crashes leave the older value, and whether they leave the newer one. An error says that one leaves something else.
fn seen_after(alloc: Global, call: u64) -> Result<(bool, bool), Fail> {
    let (mut old, mut new) = (false, false);
    for outcome in 0..CRASHES {
        let mut folder = two_layers(alloc, "/x\n")?;
        let attempts = attempts(alloc, call, outcome)?;
        let statuses = statuses_of(alloc, run_through_crashes(alloc, attempts, &mut folder)?)?;
        let dumped = left_after(alloc, &mut folder, "dump /")?;
        let left = format!(in alloc; "{statuses:?} {dumped}")?;
        let is_old = left == with_value(alloc, 1)?;
        let is_new = left == with_value(alloc, 2)?;
        if !is_old && !is_new {
            return Err(Fail::new(format!(in alloc; "{call}, {outcome}: {left}")?));
        }
        old = old || is_old;
        new = new || is_new;
    }
    Ok((old, new))
}

#[test]
fn nothing_is_lost_by_a_crash(rt: HostRuntime) -> Result<(), Fail> {
    // Three calls read; then come create, append, sync, rename, and the sync of the folder.
    for call in 0..10 {
        let is_made = call == 0 || call > 8;
        let seen = seen_after(rt.alloc(), call)?;
        assert!(rt;
            seen == (!is_made, is_made || call >= 7),
            "{call}: {seen:?}"
        );
    }
    Ok(())
}
