//! The lines of a keyfile: one says nothing, names a group, or is a key with its value (Desktop Entry Specification,
//! "Basic format of the file").
ghost use Rattle.std.specs.Prelude.{◌≡◌, ◌<◌, ◌∷◌, IfSome, MatchResult, length, option_map};
ghost use Rattle.std.specs.List.{slice_split};
ghost use Rattle.dconf_model.specs.Keyfiles.{line_kind, without_blanks};
ghost use Rattle.dconf_model.specs.Keyfiles.LineKind.{entry};
ghost use Rattle.keyfile_core.specs.Feeds.{is_feed, lines_in};

use crate::blanks::{trim_end, trim_line_end, trim_start};
use crate::fault::KeyfileCause;
use crate::groups::group_in;
use memchr::memchr;

/// What a line says.
#[derive(Clone, Copy)]
pub(crate) enum Line<'a> {
    /// Nothing: it is empty or a comment.
    Empty,
    /// The group of the lines after it.
    Group(&'a str),
    /// A key, whose name is not looked at yet, and the text of its value.
    Entry { key: &'a str, text: &'a str },
}

impl<'a> Line<'a> {
    ghost use Rattle.keyfile_core.specs.LineMeanings.{Says, IsWrong};

    /// Reads one line by itself. It is `BadGroup` or `BadLine` otherwise.
    pub(crate) fn parse(line: &'a str) -> Result<Line<'a>, KeyfileCause>
        ensures { MatchResult result (Says (without_blanks line.entry.now)) (IsWrong (without_blanks line.entry.now)) }
    {
        let line = trim_start(trim_line_end(line));
        if line.is_empty() || line.starts_with("#") {
            return Ok(Line::Empty);
        }
        match line.strip_prefix("[") {
            Some(rest) => {
                let group = group_in(rest).ok_or(KeyfileCause::BadGroup)?;
                Ok(Line::Group(group))
            }
            None => Line::entry(line),
        }
    }

    /// Reads a line that is neither empty nor a comment nor in brackets.
    fn entry(line: &'a str) -> Result<Line<'a>, KeyfileCause>
        requires { line_kind line.now ≡ entry }
        ensures { MatchResult result (Says line.entry.now) (IsWrong line.entry.now) }
    {
        if line.as_bytes().contains(&0) {
            return Err(KeyfileCause::BadLine);
        }
        match line.split_once('=') {
            Some((key, text)) => Ok(Line::Entry {
                key: trim_end(key),
                text: trim_start(text),
            }),
            None => Err(KeyfileCause::BadLine),
        }
    }
}

/// The first line of a text without its line feed, and what follows that, if there was one.
pub(crate) fn split_line(text: &str) -> (&str, Option<&str>)
    ensures parts { slice_split is_feed text.now ≡ result.0.now ∷ lines_in (option_map (λ rest. rest.now) result.1) }
    ensures shorter { IfSome result.1 (λ rest. length rest.now < length text.now) }
{
    match memchr(b'\n', text.as_bytes()) {
        Some(end) => (&text[..end], Some(&text[end + 1..])),
        None => (text, None),
    }
}
