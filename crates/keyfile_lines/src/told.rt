//! What C is told of a line.
ghost use Rattle.std.specs.Prelude.{◌≡◌};
ghost use Rattle.dconf_places.specs.Told.{text_of};
ghost use Rattle.keyfile_lines.specs.Sayings.{answer_said};
ghost use Rattle.keyfile_lines.specs.Told.{IsTold};

use crate::said::Said;
use dconf_places::PathParts;

/// What C is told of a line: 0 nothing, 1 a path is set to the value of a text, 2 a path is locked, 3 what is wrong, in words. What isn't
/// told of it is empty.
#[repr(C)]
#[derive(Clone, Copy)]
pub struct ToldLine<'a> {
    pub kind: u32,
    pub path: PathParts<'a>,
    /// The value's text, or the words.
    pub text: &'a [u8],
}

impl<'a> ToldLine<'a> {
    /// Of what is said of a line.
    pub fn of(said: Said<'a>) -> ToldLine<'a>
        ensures { IsTold (answer_said said.entry) result }
    {
        match said {
            Said::Nothing => told(0, whole(b""), b""),
            Said::Sets { path, text } => told(1, path, text),
            Said::Locks(path) => told(2, whole(path), b""),
            Said::LocksNothing => refused(LOCKS_NOTHING),
            Said::Fault(fault) => refused(fault.words()),
        }
    }
}

const LOCKS_NOTHING: &str = "the line locks nothing: it doesn't start with '/'";

/// What is wrong.
fn refused(words: &'static str) -> ToldLine<'static>
    ensures kind { result.kind ≡ 3 }
    ensures text { result.text.now ≡ words.entry.now }
{
    told(3, whole(b""), words.as_bytes())
}

/// What C is told.
fn told<'a>(kind: u32, path: PathParts<'a>, text: &'a [u8]) -> ToldLine<'a>
    ensures kind { result.kind ≡ kind }
    ensures path { text_of result.path ≡ text_of path.entry }
    ensures text { result.text.now ≡ text.entry.now }
{
    ToldLine { kind, path, text }
}

/// A path that is one text.
fn whole(path: &[u8]) -> PathParts<'_>
    ensures { text_of result ≡ path.entry.now }
{
    PathParts {
        first: b"",
        second: b"",
        third: b"",
        fourth: path,
    }
}
