//! Crashes after a run, and after one whose k-th call of the folder failed.
use crate::failures::store;
use crate::script::{left_on, runs};
use crate::streams::{Source, Streams};
use dconf_folders::Folder;
use std::alloc::Global;
use std::test::Fail;

/// A run that replaces a file.
struct Change<'a> {
    /// Its words and its input.
    asked: &'a str,
    /// The files that it reads, in their order.
    reads: &'a [&'a str],
    /// The file that it replaces.
    file: &'a str,
    /// What it leaves on out.
    text: &'a str,
    /// The words that read a key of the file, and what they leave before and after the change.
    look: &'a str,
    before: &'a str,
    after: &'a str,
}

const LAYERS: &[&str] = &["profile", "me.user", "site.db"];

const CHANGES: [Change<'_>; 7] = [
    Change {
        asked: "write /b 1 ",
        reads: LAYERS,
        file: "me.user",
        text: "",
        look: "read /b",
        before: "0\n",
        after: "0\n1\n",
    },
    Change {
        asked: "reset /a/k ",
        reads: LAYERS,
        file: "me.user",
        text: "",
        look: "read -p own /a/k",
        before: "0\n1\n",
        after: "0\n",
    },
    Change {
        asked: "reset -f /a/ ",
        reads: LAYERS,
        file: "me.user",
        text: "",
        look: "read -p own /a/k",
        before: "0\n1\n",
        after: "0\n",
    },
    Change {
        asked: "load /\n[b]\nj=1\n",
        reads: LAYERS,
        file: "me.user",
        text: "",
        look: "read /b/j",
        before: "0\n",
        after: "0\n1\n",
    },
    Change {
        asked: "load -f /\n[b]\nj=1\n",
        reads: LAYERS,
        file: "me.user",
        text: "",
        look: "read /b/j",
        before: "0\n",
        after: "0\n1\n",
    },
    Change {
        asked: "compile --locks locks out.db g ",
        reads: &["g", "locks"],
        file: "out.db",
        text: "",
        look: "read -p made /k",
        before: "0\n5\n",
        after: "0\n6\n",
    },
    Change {
        asked: "repair hash empty ",
        reads: &["hash"],
        file: "empty",
        text: "kept 1 keys, 0 locks\n",
        look: "read -p saved /k",
        before: "0\n",
        after: "0\n5\n",
    },
];

/// How many crashes are tried. Each has another number, and there are fewer kinds.
const CRASHES: u64 = 16;

/// What the look finds after a change whose k-th call fails, and then a crash. An error says that the run leaves something else.
fn left_after(
    alloc: Global,
    change: &Change<'_>,
    row: &str,
    (k, crash): (u64, u64),
) -> Result<String, Fail> {
    let mut folder = store(alloc)?;
    folder.fail_at(k);
    runs(alloc, row, &mut folder)?;
    // Where the run made fewer calls, none is left to fail.
    folder.fail_at(0);
    folder.crash(crash)?;
    let mut streams = Streams::calm(alloc, Source::bytes(b""));
    left_on(alloc, change.look, &mut folder, &mut streams)
}

/// Whether crashes leave the old settings, and whether they leave the new ones. An error says that one leaves something else.
fn seen_after(alloc: Global, change: &Change<'_>, row: &str, k: u64) -> Result<(bool, bool), Fail> {
    let (mut old, mut new) = (false, false);
    for crash in 0..CRASHES {
        let left = left_after(alloc, change, row, (k, crash))?;
        let is_old = left.as_str() == change.before;
        let is_new = left.as_str() == change.after;
        if !is_old && !is_new {
            return Err(Fail::new(format!(in alloc; "{row} at {k}, {crash}: {left}")?));
        }
        old = old || is_old;
        new = new || is_new;
    }
    Ok((old, new))
}

/// What a change leaves whose k-th call fails, the first counted as 1, and whether a crash may then leave its old settings and its new ones.
fn ending(alloc: Global, change: &Change<'_>, k: usize) -> Result<(String, (bool, bool)), Fail> {
    let Change {
        asked,
        reads,
        file,
        text,
        ..
    } = change;
    // The five that write are create, append, sync, rename, and the sync of the folder.
    let writes = k.saturating_sub(reads.len());
    let row = match reads.get(k.saturating_sub(1)) {
        Some(read) => format!(in alloc; "$ {asked}=> 1\n! error: Device {read}\n")?,
        None if writes <= 5 => format!(in alloc; "$ {asked}=> 1\n! error: Device {file}\n")?,
        None => format!(in alloc; "$ {asked}=> 0\n{text}")?,
    };
    Ok((row, (writes <= 5, writes >= 4)))
}

#[test]
fn a_crash_leaves_the_old_or_the_new_settings(rt: HostRuntime) -> Result<(), Fail> {
    let alloc = rt.alloc();
    for change in &CHANGES {
        for k in 1..change.reads.len().saturating_add(7) {
            let (row, wanted) = ending(alloc, change, k)?;
            let seen = seen_after(alloc, change, &row, k as u64)?;
            assert!(rt; seen == wanted, "{row} at {k}: {seen:?}");
        }
    }
    Ok(())
}
