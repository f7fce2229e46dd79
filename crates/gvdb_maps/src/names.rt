//! The names of a database in the order of their bytes: each directory that a key lies in, and each key. A name's
//! own key is its last part, a directory's with its slash.
ghost use Rattle.std.specs.Prelude.{◌≡◌, ◌<◌, ◌+◌, ℕ, length, take, None, IfOk, IfErr, IsTrue, IsUtf8};
ghost use Rattle.dconf_model.specs.Bytes.{hash_of};
ghost use Rattle.dconf_model.specs.Table.{list_kind};
ghost use Rattle.gvdb_maps.specs.Maps.{lent_entries, sorted_settings};
ghost use Rattle.gvdb_maps.specs.PlanWords.{kind_of, entry_of, ArePlaced, AreGood, IsDirectoryAt, IsBeyond, IsAdded, AreNamesOf, AreLockNames, last_name, name_at, kind_at, IsSlash};
ghost use Rattle.dconf_model.specs.Paths.{is_key_path};
ghost use Rattle.refused.specs.declared.Refused.TheVariants.{Memory};

use crate::entries::Sorted;
use crate::map::Locks;
use crate::write_fault::WriteFault;
use gvdb_format::{LOCKS, hash, hash_with};
use std::alloc::Global;

/// What occurs at a name.
#[derive(Clone, Copy)]
pub(crate) enum Content<'a> {
    /// The bytes of a value.
    Value(&'a [u8]),
    /// The numbers of the items in a directory.
    List,
    /// The table of locks.
    Locks,
}

/// A name, and what is there.
#[derive(Clone, Copy)]
pub(crate) struct Named<'a> {
    /// The full name.
    pub(crate) name: &'a [u8],
    /// Where its own part of it begins, its key. A name has 65,535 bytes at most.
    pub(crate) from: u16,
    pub(crate) hash: u32,
    /// The number of its directory among the names.
    pub(crate) parent: Option<usize>,
    pub(crate) content: Content<'a>,
}

/// The bytes of a `v` that holds the empty string: the value at each lock.
const NOTHING: &[u8] = &[0, 0, b's'];

/// The names of the root table, in the order of their bytes, each after its directory.
///
/// It looks at each byte of the paths a fixed number of times.
pub(crate) fn root_names<'a>(
    alloc: Global,
    sorted: &Sorted<'a>,
) -> Result<Vec<Named<'a>>, WriteFault>
    ensures names { IfOk result (λ names. AreNamesOf (sorted_settings (lent_entries sorted.now.entries.items) sorted.now.locks.now) names.items) }
    ensures fault { IfErr result (λ e. e ≡ Memory) }
{
    let mut names = Vec::new(alloc);
    if Locks::of(sorted.locks).next().is_some() {
        names.push(top(LOCKS.as_bytes(), Content::Locks))?;
    }
    let mut directory = names.len();
    names.push(top(b"/", Content::List))?;
    for &(path, value) in &sorted.entries {
        let text = path.as_bytes();
        directory = innermost(&names, directory, text);
        directory = add(text, value, directory, &mut names)?;
    }
    Ok(names)
}

/// The names of the table of locks, each with the value that occurs at a lock.
pub(crate) fn lock_names<'a>(
    alloc: Global,
    sorted: &Sorted<'a>,
) -> Result<Vec<Named<'a>>, WriteFault>
    ensures names { IfOk result (λ names. AreLockNames (sorted_settings (lent_entries sorted.now.entries.items) sorted.now.locks.now) names.items) }
    ensures fault { IfErr result (λ e. e ≡ Memory) }
{
    let mut names = Vec::new(alloc);
    for path in Locks::of(sorted.locks) {
        names.push(top(path.as_str().as_bytes(), Content::Value(NOTHING)))?;
    }
    Ok(names)
}

/// A name without a directory.
fn top<'a>(name: &'a [u8], content: Content<'a>) -> Named<'a>
    ensures hash { result.hash ≡ hash_of name.now }
    ensures from { result.from ≡ 0 }
    ensures entry { entry_of result ≡ record { name = name.now; key = name.now; parent = None; kind = kind_of content.entry } }
    ensures content { result.content ≡ content.entry }
{
    Named {
        name,
        from: 0,
        hash: hash(name),
        parent: None,
        content,
    }
}

/// The innermost directory that a path lies in, of a directory and those that it lies in.
fn innermost(names: &[Named<'_>], directory: usize, text: &[u8]) -> usize
    requires within { directory < length names.now }
    requires placed { ArePlaced names.now }
    requires list { kind_at names.now directory ≡ list_kind }
    requires first { IsSlash text.now 0 }
    ensures lies { IsDirectoryAt names.now text.now result }
    ensures most { (i : ℕ) → IsSlash (name_at names.now directory) i
        → take (i + 1) (name_at names.now directory) ≡ take (i + 1) text.now → i < length (name_at names.now result) }
{
    let mut at = directory;
    while !text.starts_with(names[at].name) {
        match names[at].parent {
            Some(parent) => at = parent,
            None => return at,
        }
    }
    at
}

/// Adds a key that lies in a directory, and before it the directories between them. Gives the one that it lies in.
fn add<'a>(
    text: &'a [u8],
    value: &'a [u8],
    directory: usize,
    names: &mut Vec<Named<'a>>,
) -> Result<usize, WriteFault>
    requires path { IsTrue (is_key_path text.now) }
    requires utf8 { IsUtf8 text.now }
    requires good { AreGood names.old.items }
    requires lies { IsDirectoryAt names.old.items text.now directory }
    requires beyond { IsBeyond (last_name names.old.items) text.now (length (name_at names.old.items directory)) }
    ensures added { IfOk result (IsAdded names.old.items names.new.items text.now value.now) }
    ensures fault { IfErr result (λ e. e ≡ Memory) }
{
    let mut parent = directory;
    let mut from = names[directory].name.len();
    let mut hash = names[directory].hash;
    for i in from..text.len() {
        hash = hash_with(hash, text[i]);
        if text[i] == b'/' {
            let place = names.len();
            names.push(Named {
                name: &text[..i + 1],
                from: from as u16,
                hash,
                parent: Some(parent),
                content: Content::List,
            })?;
            parent = place;
            from = i + 1;
        }
    }
    names.push(Named {
        name: text,
        from: from as u16,
        hash,
        parent: Some(parent),
        content: Content::Value(value),
    })?;
    Ok(parent)
}
