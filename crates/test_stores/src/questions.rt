//! What the tables of texts ask; each is said where it is answered.
use crate::calls::opened;
use crate::calls_rows::{fate, keyless, names, saved, stored, value_shown};
use crate::folders::crashes::crashed;
use crate::folders::failures::replaced;
use crate::homes::{homed, lined, reached, sought};
use crate::machines::{looked, noticed, queued, waited};
use crate::places::{filed, placed, stepped};
use crate::tables::{alike, item_shown, searched};
use crate::texts::lines::{keyfile_shown, kind_shown, locks_shown};
use crate::texts::paths::path_read;
use crate::times::{counted, guessed, kept, noted, overtaken};
use crate::turns::steps_shown;
use std::alloc::Global;
use std::test::Fail;
use test_rows::{Question, bytes_of};

/// What a table asks of its texts.
#[derive(Clone, Copy)]
pub(crate) enum TableOf {
    Counted,
    Crash,
    Filed,
    Guessed,
    Homed,
    Kept,
    Lined,
    Looked,
    Noted,
    Noticed,
    Overtaken,
    Path,
    Placed,
    Queued,
    Reached,
    Replaced,
    Sought,
    Stepped,
    Steps,
    Waited,
}

impl Question for TableOf {
    fn answer(&mut self, alloc: Global, asked: &str, found: &mut String) -> Result<(), Fail> {
        let shown = match *self {
            TableOf::Counted => counted(asked, found),
            TableOf::Crash => crashed(alloc, asked, found),
            TableOf::Filed => filed(alloc, asked, found),
            TableOf::Guessed => guessed(alloc, asked, found),
            TableOf::Homed => homed(alloc, asked, found),
            TableOf::Kept => kept(alloc, asked, found),
            TableOf::Lined => lined(alloc, asked, found),
            TableOf::Looked => looked(asked, found),
            TableOf::Noted => noted(alloc, asked, found),
            TableOf::Noticed => noticed(asked, found),
            TableOf::Overtaken => overtaken(asked, found),
            TableOf::Path => path_read(asked, found),
            TableOf::Placed => placed(alloc, asked, found),
            TableOf::Queued => queued(asked, found),
            TableOf::Reached => reached(asked, found),
            TableOf::Replaced => replaced(alloc, asked, found),
            TableOf::Sought => sought(alloc, asked, found),
            TableOf::Stepped => stepped(alloc, asked, found),
            TableOf::Steps => steps_shown(asked, found),
            TableOf::Waited => waited(asked, found),
        };
        Ok(shown?)
    }
}

/// What a table asks of bytes, whose words stand before a `; `.
#[derive(Clone, Copy)]
pub(crate) enum BytesOf {
    Alike,
    Fate,
    Item,
    Keyfile,
    Keyless,
    LockFile,
    Names,
    Opened,
    Saved,
    Searched,
    Stored,
    TextKind,
    Value,
}

impl BytesOf {
    fn show(self, alloc: Global, of: &[u8], rest: &str, found: &mut String) -> Result<(), Fail> {
        match self {
            BytesOf::Alike => alike(of, &bytes_of(alloc, rest)?, found),
            BytesOf::Fate => Ok(fate(alloc, of, found)?),
            BytesOf::Item => item_shown(of, rest, found),
            BytesOf::Keyfile => Ok(keyfile_shown(alloc, of, found)?),
            BytesOf::Keyless => Ok(keyless(alloc, of, found)?),
            BytesOf::LockFile => Ok(locks_shown(alloc, of, found)?),
            BytesOf::Names => names(alloc, of, found),
            BytesOf::Opened => opened(of, rest, found),
            BytesOf::Saved => Ok(saved(alloc, of, found)?),
            BytesOf::Searched => searched(of, rest, found),
            BytesOf::Stored => stored(alloc, of, rest, found),
            BytesOf::TextKind => Ok(kind_shown(of, found)?),
            BytesOf::Value => Ok(value_shown(alloc, of, rest, found)?),
        }
    }
}

impl Question for BytesOf {
    fn answer(&mut self, alloc: Global, asked: &str, found: &mut String) -> Result<(), Fail> {
        let (words, rest) = asked.split_once("; ").unwrap_or((asked, ""));
        self.show(alloc, &bytes_of(alloc, words)?, rest, found)
    }
}
