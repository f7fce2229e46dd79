//! The rows of a keyfile: each key of a group with the text of its value.
ghost use Rattle.std.specs.Prelude.{◌≡◌, ◌≤◌, ◌+◌, Err, IfOk, IfErr, length, map, option_map};
ghost use Rattle.std.specs.List.{slice_split};
ghost use Rattle.refused.specs.Faults.{OfFault};
ghost use Rattle.dconf_model.specs.Lines.{longest_text};
ghost use Rattle.dconf_model.specs.Keyfiles.{without_blanks, rows_of};
ghost use Rattle.keyfile_core.specs.Feeds.{is_feed};
ghost use Rattle.keyfile_core.specs.KeyfileFaults.{fault_of};
ghost use Rattle.keyfile_core.specs.Readings.{read_below, line_meant, reading_of, row_read, row_reading, group_after};
ghost use Rattle.keyfile_core.specs.Rows.{row_meant};

use crate::fault::{KeyfileCause, KeyfileFault, KeyfileFlaw};
use crate::keys::is_key;
use crate::lines::{Line, split_line};
use dconf_path::settings_text;
use std::alloc::Global;

/// A line `key=value` in its group, lent from the file.
#[derive(Clone, Copy, Debug, PartialEq, Eq)]
pub struct Row<'a> {
    /// The number of the line, from 1 on.
    pub line: usize,
    /// `/`, or the parts of a directory's path with a slash between: `org/gnome/desktop`.
    pub group: &'a str,
    /// The key's name, which is not empty.
    pub key: &'a str,
    /// The text of the value; it may be empty, and nothing is known of it.
    pub text: &'a str,
}

/// Reads a keyfile: its rows, in order, or its first fault.
///
/// The faults come in this order: `TooBig` at line 0, `NotUtf8` at the line of the first byte that is no part of a whole
/// character, and then the first line that is `BadLine`, `NoGroup`, `BadGroup` or `BadKeyName`. `Memory`
/// may come at any row. Each byte is looked at a fixed number of times.
pub fn read<'a>(alloc: Global, bytes: &'a [u8]) -> Result<Vec<Row<'a>>, KeyfileFault>
    ensures rows { IfOk result (λ rows. rows_of bytes.entry.now ≡ Ok (map row_meant rows.items)) }
    ensures fault { IfErr result (OfFault (λ fault. rows_of bytes.entry.now ≡ Err (fault_of fault))) }
{
    match settings_text(bytes) {
        Ok(text) => read_text(alloc, text),
        Err(fault) => Err(KeyfileFault::Fault(KeyfileFlaw::of_text(fault))),
    }
}

/// Reads the text of a keyfile, line by line.
fn read_text<'a>(alloc: Global, text: &'a str) -> Result<Vec<Row<'a>>, KeyfileFault>
    requires { length text.now ≤ longest_text }
    ensures rows { IfOk result (λ rows. read_below None 0 (slice_split is_feed text.entry.now) ≡ Ok (map row_meant rows.items)) }
    ensures fault { IfErr result (OfFault (λ fault. read_below None 0 (slice_split is_feed text.entry.now) ≡ Err (fault_of fault))) }
{
    let mut rows = Vec::new(alloc);
    let mut reader = Reader {
        line: 0,
        group: None,
    };
    let mut rest = Some(text);
    while let Some(text) = rest {
        let (line, after) = split_line(text);
        match reader.read(line) {
            Ok(Some(row)) => rows.push(row)?,
            Ok(None) => {}
            Err(cause) => {
                let line = reader.line;
                return Err(KeyfileFault::Fault(KeyfileFlaw { line, cause }));
            }
        }
        rest = after;
    }
    Ok(rows)
}

/// Where the reading of a keyfile has come.
#[derive(Clone, Copy)]
struct Reader<'a> {
    /// How many lines were read.
    line: usize,
    /// The group of the lines that come.
    group: Option<&'a str>,
}

impl<'a> Reader<'a> {
    /// The row of the next line, if it has one.
    fn read(&mut self, line: &'a str) -> Result<Option<Row<'a>>, KeyfileCause>
        requires { self.old.line ≤ longest_text }
        ensures reading { line_meant (option_map (λ text. text.now) self.old.group) (self.old.line + 1) (without_blanks line.entry.now) ≡ reading_of result }
        ensures group { option_map (λ text. text.now) self.new.group ≡ group_after (option_map (λ text. text.now) self.old.group) (without_blanks line.entry.now) }
        ensures line { self.new.line ≡ self.old.line + 1 }
    {
        self.line += 1;
        match Line::parse(line)? {
            Line::Empty => Ok(None),
            Line::Group(group) => {
                self.group = Some(group);
                Ok(None)
            }
            Line::Entry { key, text } => Ok(Some(self.row(key, text)?)),
        }
    }

    /// The row of the line that is read.
    fn row(&self, key: &'a str, text: &'a str) -> Result<Row<'a>, KeyfileCause>
        ensures { row_read (option_map (λ text. text.now) self.now.group) self.now.line key.entry.now text.entry.now ≡ row_reading result }
    {
        let group = self.group.ok_or(KeyfileCause::NoGroup)?;
        if !is_key(key) {
            return Err(KeyfileCause::BadKeyName);
        }
        Ok(Row {
            line: self.line,
            group,
            key,
            text,
        })
    }
}
