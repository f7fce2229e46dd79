//! Runs of the program in one folder, and what each of them leaves: its status, the lines on out, and after `! ` what is on err.
use crate::streams::{Source, Streams};
use dconf_cli::{Asked, Command, command, run};
use dconf_folders::{Folder, MemoryFolder};
use std::alloc::{AllocError, Global};
use std::test::Fail;
use test_rows::{Question, script};

/// The folder in which the runs of a script are done.
#[derive(Drop)]
struct RunsIn<'a, F: Folder> {
    folder: &'a mut F,
}

impl<F: Folder> Question for RunsIn<'_, F> {
    /// Runs the words, which stand before their input, on streams that don't fail.
    fn answer(&mut self, alloc: Global, asked: &str, found: &mut String) -> Result<(), Fail> {
        let (words, input) = asked.split_once('\n').unwrap_or((asked, ""));
        let mut streams = Streams::calm(alloc, Source::bytes(input.as_bytes()));
        let left = left_on(alloc, words, self.folder, &mut streams)?;
        Ok(found.push_str(&left)?)
    }
}

/// Does the runs of a script. An error names the first that leaves something else.
pub(crate) fn runs<F: Folder>(alloc: Global, rows: &str, folder: &mut F) -> Result<(), Fail> {
    script(alloc, &mut RunsIn { folder }, rows)
}

/// Runs the words on these streams, and says what they leave.
pub(crate) fn left_on<F: Folder>(
    alloc: Global,
    words: &str,
    folder: &mut F,
    streams: &mut Streams<'_>,
) -> Result<String, Fail> {
    match command(alloc, &words_of(alloc, words)?) {
        Ok(Asked::Run { command, .. }) => Ok(left_by(alloc, command, folder, streams)?),
        Ok(Asked::Update { .. }) => Err(Fail::new("an update is no command of one folder")),
        Ok(Asked::Diff { .. }) => Err(Fail::new("a diff is no command of one folder")),
        Err(_) => Err(Fail::new("the words are refused")),
    }
}

/// The program's name and the words of a line, of which an empty one has none.
pub(crate) fn words_of(alloc: Global, line: &str) -> Result<Vec<String>, AllocError> {
    let mut words = Vec::new(alloc);
    words.push(String::from_str(alloc, "dconfdb")?)?;
    if line.is_empty() {
        return Ok(words);
    }
    for word in line.split(' ') {
        words.push(String::from_str(alloc, word)?)?;
    }
    Ok(words)
}

/// What a run leaves, in the words of a script: its status, out and err.
pub(crate) fn left_by<F: Folder>(
    alloc: Global,
    asked: Command,
    folder: &mut F,
    streams: &mut Streams<'_>,
) -> Result<String, AllocError> {
    let input = &mut streams.input;
    let status = run(
        alloc,
        asked,
        folder,
        input,
        &mut streams.out,
        &mut streams.err,
    );
    let out = String::from_utf8_lossy(alloc, streams.out.get_ref().taken.as_slice())?;
    let err = String::from_utf8_lossy(alloc, streams.err.get_ref().taken.as_slice())?;
    let mark = if err.is_empty() { "" } else { "! " };
    format!(in alloc; "{status}\n{out}{mark}{err}")
}

/// Adds what a run leaves as words of a line.
pub(crate) fn add_line(left: &str, found: &mut String) -> Result<(), AllocError> {
    for line in left.split_terminator('\n') {
        found.push(' ')?;
        found.push_str(line)?;
    }
    Ok(())
}

pub(crate) fn put(
    alloc: Global,
    folder: &mut MemoryFolder,
    name: &str,
    bytes: &[u8],
) -> Result<(), Fail> {
    folder.create(alloc, name, 0o666)?;
    folder.append(name, bytes)?;
    Ok(())
}

/// Puts files of these texts into the folder.
pub(crate) fn put_all(
    alloc: Global,
    folder: &mut MemoryFolder,
    files: &[(&str, &str)],
) -> Result<(), Fail> {
    for (name, text) in files {
        put(alloc, folder, name, text.as_bytes())?;
    }
    Ok(())
}

/// A folder with files of these texts.
pub(crate) fn folder_of(alloc: Global, files: &[(&str, &str)]) -> Result<MemoryFolder, Fail> {
    let mut folder = MemoryFolder::new(alloc);
    put_all(alloc, &mut folder, files)?;
    Ok(folder)
}

/// The bytes of a file.
pub(crate) fn bytes_of(
    alloc: Global,
    folder: &mut MemoryFolder,
    name: &str,
) -> Result<Vec<u8>, Fail> {
    match folder.read(alloc, name)? {
        Some(bytes) => Ok(bytes),
        None => Err(Fail::new(format!(in alloc; "{name} is missing")?)),
    }
}
