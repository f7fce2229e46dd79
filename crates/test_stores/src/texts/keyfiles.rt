//! Rows of a keyfile that are written, and rows below a directory with their values.
ghost use Rattle.std.specs.Prelude.{◌↔◌, IsTrue, nat_eq};
ghost use Rattle.std.specs.List.{starts_with};
ghost use Rattle.dconf_path.specs.Paths.{directory_text, key_text};
ghost use Rattle.keyfile_core.specs.DumpRows.{AreBelow};

use dconf_compile::{CompileCause, LineStop, RowsBelow, value_of_text};
use dconf_path::{DirPath, KeyPath};
use gv_tree::Tree;
use keyfile_core::write_rows;
use std::alloc::Global;
use std::test::Fail;

/// Whether a path starts with the directory's.
fn is_below(path: KeyPath<'_>, directory: DirPath<'_>) -> bool
    ensures { IsTrue result ↔ IsTrue (starts_with nat_eq (key_text path.entry) (directory_text directory.entry)) }
{
    path.as_str()
        .as_bytes()
        .starts_with(directory.as_str().as_bytes())
}

/// Whether each path starts with the directory's.
fn are_below(settings: &[(KeyPath<'_>, String)], directory: DirPath<'_>) -> bool
    ensures { IsTrue result → AreBelow (directory_text directory.entry) settings.now }
{
    settings
        .iter()
        .all(|setting| is_below(setting.0, directory))
}

/// How two settings are written below a directory.
fn written(alloc: Global, directory: DirPath<'_>) -> Result<String, Fail> {
    let paths = (KeyPath::parse("/a/x")?, KeyPath::parse("/a/b/k")?);
    let settings = [
        (paths.0, String::from_str(alloc, "'hi'")?),
        (paths.1, String::from_str(alloc, "uint32 5")?),
    ];
    if !are_below(&settings, directory) {
        return Err(Fail::new("a setting of another directory"));
    }
    Ok(write_rows(alloc, &settings, directory)?)
}

/// The path of the one row of a keyfile below a directory, and whether its value is this one.
fn only_row(
    alloc: Global,
    directory: DirPath<'_>,
    bytes: &[u8],
    value: &Tree,
) -> Result<String, LineStop> {
    let rows = RowsBelow::read(alloc, directory, bytes)?;
    let loaded = rows.values(alloc, false)?;
    match loaded.values.as_slice() {
        [(path, found)] if found.equal(value) => Ok(String::from_str(alloc, path.as_str())?),
        _ => Ok(String::new(alloc)),
    }
}

/// The path of the one row of a keyfile that is left out where doubles are skipped, and one other has a value.
fn only_double(alloc: Global, directory: DirPath<'_>, bytes: &[u8]) -> Result<String, LineStop> {
    let rows = RowsBelow::read(alloc, directory, bytes)?;
    let loaded = rows.values(alloc, true)?;
    match (loaded.values.as_slice(), loaded.left_out.as_slice()) {
        ([_], [path]) => Ok(String::from_str(alloc, *path)?),
        _ => Ok(String::new(alloc)),
    }
}

/// Whether the row of `k` was found, or with a number the line is at fault.
fn is_so(answer: Result<String, LineStop>, line: usize) -> bool {
    match answer {
        Ok(path) => line == 0 && path.as_str() == "/a/b/k",
        Err(stop) => stop.line == line && stop.cause != CompileCause::Memory,
    }
}

/// Whether a row with a double is left out, and the line of another is named, whose value is none.
fn is_left_out(alloc: Global, directory: DirPath<'_>) -> bool {
    is_so(only_double(alloc, directory, b"[b]\nk=[1.5]\nj=1\n"), 0)
        && is_so(only_double(alloc, directory, b"[b]\nk=[1.5]\nj=oops\n"), 3)
}

/// Whether a row has this value below a directory, and the line of another is named, whose value is none.
fn is_read(alloc: Global, directory: DirPath<'_>, value: &Tree) -> bool {
    is_so(only_row(alloc, directory, b"[b]\nk=[1, 2]\n", value), 0)
        && is_so(only_row(alloc, directory, b"[b]\n\nk=oops\n", value), 3)
        && value.type_text().as_str() == "ai"
}

/// Whether rows are read that have a text's value.
fn are_read(alloc: Global, directory: DirPath<'_>) -> bool {
    match value_of_text(alloc, "[1, 2]") {
        Ok(value) => is_read(alloc, directory, &value),
        Err(_) => false,
    }
}

#[test]
fn rows_are_written_and_read_below_a_directory(rt: HostRuntime) -> Result<(), Fail> {
    let (alloc, directory) = (rt.alloc(), DirPath::parse("/a/")?);
    assert!(rt; are_read(alloc, directory));
    assert!(rt; is_left_out(alloc, directory));
    let text = written(alloc, directory)?;
    assert!(rt; text.as_str() == "[/]\nx='hi'\n\n[b]\nk=uint32 5\n");
    Ok(())
}
