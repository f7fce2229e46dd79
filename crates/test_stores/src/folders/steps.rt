//! Calls of a folder as rows of a table, and how each is answered.
use dconf_disk::{Folder, FolderFault, folder_of, replace};
use std::alloc::Global;
use std::test::Fail;
use test_rows::{Question, number, table};

/// The bytes of a word; `ff` is the byte 255.
fn bytes_of(word: &str) -> &[u8] {
    match word {
        "ff" => b"\xff",
        _ => word.as_bytes(),
    }
}

/// The answer of a call that reads nothing: it is done, the device failed, or it failed otherwise.
fn answer_of(answer: Result<(), FolderFault>) -> &'static str {
    match answer {
        Ok(()) => "done",
        Err(FolderFault::Device) => "device",
        Err(_) => "fault",
    }
}

/// The answer of a read: it is done if a file has these bytes; else it has others, or there is no
/// file, or it failed.
fn answer_of_read<F: Folder>(
    alloc: Global,
    folder: &mut F,
    name: &str,
    bytes: &[u8],
) -> &'static str {
    match folder.read(alloc, name) {
        Ok(Some(found)) if found.as_slice() == bytes => "done",
        Ok(Some(_)) => "other",
        Ok(None) => "missing",
        Err(fault) => answer_of(Err(fault)),
    }
}

/// Whether so many calls failed.
fn answer_of_count(failures: u64, wanted: &str) -> &'static str {
    if failures == u64::from(number(wanted)) {
        "done"
    } else {
        "other"
    }
}

/// The answer of a call: a word, the name of a file, and bytes or another name. `failures` has how
/// many calls failed so far.
pub(crate) fn answered<'a, F: Folder>(alloc: Global, folder: &mut F, call: &'a str) -> &'a str {
    let (word, rest) = call.split_once(' ').unwrap_or((call, ""));
    let (name, other) = rest.split_once(' ').unwrap_or((rest, ""));
    answer_of(match word {
        "create" => folder.create(alloc, name, 0o666),
        "append" => folder.append(name, other.as_bytes()),
        "sync" => folder.sync(name, None),
        "rename" => folder.rename(name, other),
        "aside" => folder.set_aside(alloc, name),
        "settle" => folder.sync_folder(),
        "replace" => replace(alloc, folder, name, other.as_bytes()),
        "remove" => return if folder.remove(name) {
            "done"
        } else {
            "device"
        },
        "folder_of" => return folder_of(name),
        "read" => return answer_of_read(alloc, folder, name, bytes_of(other)),
        "failures" => return answer_of_count(folder.failures(), name),
        _ => return "no call",
    })
}

/// The folder of which a table asks calls.
#[derive(Drop)]
struct CallsOf<'a, F: Folder> {
    folder: &'a mut F,
}

impl<F: Folder> Question for CallsOf<'_, F> {
    fn answer(&mut self, alloc: Global, asked: &str, found: &mut String) -> Result<(), Fail> {
        Ok(found.push_str(answered(alloc, self.folder, asked))?)
    }
}

/// Makes the calls of a table.
pub(crate) fn calls<F: Folder>(alloc: Global, folder: &mut F, rows: &str) -> Result<(), Fail> {
    table(alloc, &mut CallsOf { folder }, rows)
}
