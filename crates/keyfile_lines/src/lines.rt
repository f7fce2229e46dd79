//! The lines of a text, and what one of a keyfile says by itself (Desktop Entry Specification, "Basic format of the file").
ghost use Rattle.std.specs.Prelude.{◌≡◌, ◌≢◌, ◌<◌, ◌∷◌, length};
ghost use Rattle.dconf_model.specs.Keyfiles.{line_kind, without_blanks};
ghost use Rattle.dconf_model.specs.Keyfiles.LineKind.{entry};
ghost use Rattle.dconf_model.specs.Lines.{lines_of};

use crate::blanks::{trim_end, trim_line, trim_start};
use crate::groups::group_in;
use memchr::memchr;

/// What a line of a keyfile says by itself.
#[derive(Clone, Copy)]
pub(crate) enum Line<'a> {
    /// Nothing: it is empty or a comment.
    Empty,
    /// The group of the lines after it.
    Group(&'a str),
    /// It begins with a bracket, and names no group.
    Unnamed,
    /// A key, whose name is not looked at yet, and the text of its value.
    Entry { key: &'a str, text: &'a str },
    /// It is none of these.
    Bad,
}

impl<'a> Line<'a> {
    ghost use Rattle.keyfile_lines.specs.Lines.{IsSaid};

    /// Reads one line by itself.
    pub(crate) fn parse(line: &'a str) -> Line<'a>
        ensures { IsSaid (without_blanks line.entry.now) result }
    {
        let line = trim_line(line);
        if line.is_empty() || line.starts_with("#") {
            return Line::Empty;
        }
        match line.strip_prefix("[") {
            Some(rest) => match group_in(rest) {
                Some(group) => Line::Group(group),
                None => Line::Unnamed,
            },
            None => Line::entry(line),
        }
    }

    /// Reads a line that is neither empty nor a comment nor in brackets.
    fn entry(line: &'a str) -> Line<'a>
        requires { line_kind line.now ≡ entry }
        ensures { IsSaid line.entry.now result }
    {
        if line.as_bytes().contains(&0) {
            return Line::Bad;
        }
        match line.split_once('=') {
            Some((key, text)) => Line::Entry {
                key: trim_end(key),
                text: trim_start(text),
            },
            None => Line::Bad,
        }
    }
}

/// The first line of a text without its line feed, and what follows that.
pub(crate) fn split_line(text: &[u8]) -> (&[u8], &[u8])
    requires { length text.now ≢ 0 }
    ensures lines { lines_of text.now ≡ result.0.now ∷ lines_of result.1.now }
    ensures shorter { length result.1.now < length text.now }
{
    match memchr(b'\n', text) {
        Some(end) => (&text[..end], &text[end + 1..]),
        None => (text, b""),
    }
}
