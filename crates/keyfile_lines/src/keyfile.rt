//! Keyfiles, line by line.
ghost use Rattle.std.specs.Prelude.{◌≡◌, ◌<◌, ◌+◌, ◌∷◌, [], IfSome, IfNone};
ghost use Rattle.dconf_model.specs.Lines.LineReading.{found};
ghost use Rattle.keyfile_lines.specs.Answers.{answer_of, entry_read, place_after, reading_in};
ghost use Rattle.keyfile_lines.specs.Cursors.{keyfile_answers, place_below, place_of};
ghost use Rattle.keyfile_lines.specs.Sayings.{answer_said};

use crate::cursor::Cursor;
use crate::fault::LineFault;
use crate::keys::{is_key, is_short, path_of};
use crate::lines::Line;
use crate::said::Said;

/// What a line of a keyfile stands below.
#[derive(Clone, Copy)]
enum Below<'a> {
    /// No line in brackets.
    Nothing,
    /// A group.
    Group(&'a [u8]),
    /// A line in brackets that names no group.
    Unnamed,
}

impl<'a> Cursor<'a> {
    /// What the next line of a keyfile says; None if there is none. The answers, one after another, are those of the lines that are left.
    pub fn next_of_keyfile(&mut self) -> Option<Said<'a>>
        ensures some { IfSome result (λ said. keyfile_answers self.old ≡ answer_said said ∷ keyfile_answers self.new) }
        ensures counted { IfSome result (λ _. self.old.line < 18446744073709551615 → self.new.line ≡ self.old.line + 1) }
        ensures none { IfNone result (keyfile_answers self.old ≡ []) }
        ensures kept { IfNone result (self.new ≡ self.old) }
    {
        let line = self.take_line()?;
        let (said, below) = self.below().read(line);
        self.enter(below);
        Some(said)
    }

    /// What the next line stands below.
    fn below(&self) -> Below<'a>
        ensures { place_below result ≡ place_of self.now }
    {
        match self.place {
            0 => Below::Nothing,
            1 => Below::Group(self.group),
            _ => Below::Unnamed,
        }
    }

    /// The lines that come stand below this.
    fn enter(&mut self, below: Below<'a>)
        ensures place { place_of self.new ≡ place_below below.entry }
        ensures kept { (self.new.rest ≡ self.old.rest) × (self.new.line ≡ self.old.line) }
    {
        match below {
            Below::Nothing => self.place = 0,
            Below::Group(group) => {
                self.place = 1;
                self.group = group;
            }
            Below::Unnamed => self.place = 2,
        }
    }
}

impl<'a> Below<'a> {
    /// What a line says here, and what the next one stands below.
    fn read(self, line: &'a [u8]) -> (Said<'a>, Below<'a>)
        ensures said { answer_said result.0 ≡ answer_of (reading_in (place_below self.entry) line.entry.now) }
        ensures below { place_below result.1 ≡ place_after (place_below self.entry) line.entry.now }
    {
        let Ok(text) = str::from_utf8(line) else {
            return (Said::Fault(LineFault::NotUtf8), self);
        };
        match Line::parse(text) {
            Line::Empty => (Said::Nothing, self),
            Line::Group(group) => (Said::Nothing, Below::Group(group.as_bytes())),
            Line::Unnamed => (Said::Fault(LineFault::BadGroup), Below::Unnamed),
            Line::Entry { key, text } => (self.entry(key, text), self),
            Line::Bad => (Said::Fault(LineFault::BadLine), self),
        }
    }

    /// What a key with its value's text says here.
    fn entry(self, key: &'a str, text: &'a str) -> Said<'a>
        ensures { answer_said result ≡ answer_of (entry_read (place_below self.entry) key.entry.now text.entry.now) }
    {
        match self {
            Below::Nothing => Said::Fault(LineFault::NoGroup),
            _ if !is_key(key) => Said::Fault(LineFault::BadKeyName),
            Below::Group(group) => setting(group, key.as_bytes(), text.as_bytes()),
            Below::Unnamed => Said::Nothing,
        }
    }
}

/// What a key of a group says, unless its path is too long.
fn setting<'a>(group: &'a [u8], key: &'a [u8], text: &'a [u8]) -> Said<'a>
    ensures { answer_said result ≡ answer_of (found (record { line = 0; group = group.entry.now; key = key.entry.now; text = text.entry.now })) }
{
    let path = path_of(group, key);
    if is_short(&path) {
        Said::Sets { path, text }
    } else {
        Said::Fault(LineFault::TooLong)
    }
}
