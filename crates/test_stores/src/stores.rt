//! Each call of dconf_store: over a user's database of one key, and a site's that locks it.
use dconf_path::{DirPath, KeyPath, Profile, read_profile};
use dconf_store::{Change, StoreFault, children_after, user_file_after, value_after};
use gv_tree::{Basic, Tree};
use gv_view::View;
use gvdb_read::Table;
use std::alloc::{AllocError, Global};
use std::test::Fail;
use test_rows::sample;

/// Whether these are a directory and a key.
fn are_both(names: &[String]) -> bool {
    match names {
        [first, last] => first.as_str() == "a/" && last.as_str() == "k",
        _ => false,
    }
}

/// Whether a file is sound, and has 7 at `/a/j`.
fn has_seven(file: &[u8]) -> bool {
    match Table::open(file) {
        Ok(table) => {
            table.check().is_ok() && table.find("/a/j").and_then(View::as_i32) == Some(7)
        }
        Err(_) => false,
    }
}

/// Whether no value is told, since the second change is refused.
fn is_refused(alloc: Global, value: Result<Option<Tree>, StoreFault>) -> Result<bool, AllocError> {
    match value {
        Ok(_) => Ok(false),
        Err(fault) => Ok(format!(in alloc; "{fault}")?.as_str() == "Refused 1: Locked"),
    }
}

/// Whether a store has what changes leave, and refuses others.
fn is_right(alloc: Global, profile: &Profile<'_>, seven: &Tree) -> Result<bool, Fail> {
    let (path, locked) = (KeyPath::parse("/a/j")?, KeyPath::parse("/k")?);
    let (below, root) = (DirPath::parse("/a/")?, DirPath::parse("/")?);
    let files = [Some(sample("plain")), Some(sample("locked"))];
    if files.len() != profile.databases().len() {
        return Ok(false);
    }
    let set = Change::Set(path, seven);
    let changes = [set, Change::ResetBelow(below), set];
    let reset = [set, Change::Reset(path)];
    let is_none = value_after(alloc, profile, &files, &reset, path)?.is_none();
    let is_listed = are_both(&children_after(alloc, profile, &files, &changes, root)?);
    let is_saved = has_seven(&user_file_after(alloc, profile, &files, &changes)?);
    let refused = [set, Change::Reset(locked)];
    let is_refused = is_refused(alloc, value_after(alloc, profile, &files, &refused, path))?;
    Ok(is_none && is_listed && is_saved && is_refused)
}

#[test]
fn a_store_is_seen_again_after_its_changes(rt: HostRuntime) -> Result<(), Fail> {
    let alloc = rt.alloc();
    let profile = read_profile(alloc, "user-db:me\nsystem-db:site")?;
    let seven = Tree::basic(alloc, Basic::Int32(7))?;
    assert!(rt; is_right(alloc, &profile, &seven)?);
    Ok(())
}
