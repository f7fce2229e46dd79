//! What a text is, by its lines: a keyfile, a lock file or a profile.
ghost use Rattle.std.specs.Prelude.{◌≡◌, map, true};
ghost use Rattle.dconf_model.specs.Keyfiles.{line_kind, without_blanks};
ghost use Rattle.dconf_model.specs.Lines.{lines_of};
ghost use Rattle.keyfile_lines.specs.Kinds.{kind_from, kind_number, names_database, sign_by, sign_meant, sign_of};

use crate::blanks::trim_line;
use crate::cursor::Cursor;
use crate::lines::Line;

/// What a text is.
#[derive(Clone, Copy, Debug, PartialEq, Eq)]
pub enum TextKind {
    Keyfile,
    Locks,
    Profile,
    /// It has nothing but comments and empty lines: so it is a keyfile without keys, too.
    Empty,
    /// None of these.
    Neither,
}

/// What a line says of its text.
#[derive(Clone, Copy)]
enum Sign {
    /// Nothing: it is empty or a comment.
    Silent,
    /// What the text is.
    Says(TextKind),
    /// It is a profile, if no line before said anything.
    Database,
    /// Nothing, and it is no comment.
    Other,
}

impl TextKind {
    /// What a text is, by the first line that says it: one that begins with `[`, one that starts with `/`, one with a zero byte, or, if all
    /// before it are comments, one that names a database. It looks at each byte a fixed number of times.
    pub fn of(text: &[u8]) -> TextKind
        ensures { result ≡ kind_from true (map sign_of (lines_of text.now)) }
    {
        let mut cursor = Cursor::new(text);
        let mut is_first = true;
        while let Some(line) = cursor.take_line() {
            match Sign::of(line) {
                Sign::Silent => {}
                Sign::Says(kind) => return kind,
                Sign::Database if is_first => return TextKind::Profile,
                Sign::Database | Sign::Other => is_first = false,
            }
        }
        if is_first {
            TextKind::Empty
        } else {
            TextKind::Neither
        }
    }

    /// Its number: 0 a keyfile, 1 a lock file, 2 a profile, 3 empty, 4 neither.
    pub fn number(self) -> u32
        ensures { result ≡ kind_number self }
    {
        match self {
            TextKind::Keyfile => 0,
            TextKind::Locks => 1,
            TextKind::Profile => 2,
            TextKind::Empty => 3,
            TextKind::Neither => 4,
        }
    }
}

impl Sign {
    /// That of a line.
    fn of(line: &[u8]) -> Sign
        ensures { sign_meant result ≡ sign_of line.now }
    {
        if line.contains(&0) {
            return Sign::Says(TextKind::Neither);
        }
        if line.starts_with(b"/") {
            return Sign::Says(TextKind::Locks);
        }
        match str::from_utf8(line) {
            Ok(text) => Sign::of_text(text),
            Err(_) => Sign::Other,
        }
    }

    /// That of a line that is UTF-8.
    fn of_text(line: &str) -> Sign
        ensures { sign_meant result ≡ sign_by (line_kind (without_blanks line.now)) (without_blanks line.now) }
    {
        match Line::parse(line) {
            Line::Empty => Sign::Silent,
            Line::Group(_) | Line::Unnamed => Sign::Says(TextKind::Keyfile),
            Line::Entry { .. } | Line::Bad => {
                if names_database(trim_line(line)) {
                    Sign::Database
                } else {
                    Sign::Other
                }
            }
        }
    }
}

/// Whether a line names a database, of a kind that is read or of a service.
fn names_database(line: &str) -> bool
    ensures { result ≡ names_database line.now }
{
    let line = line.as_bytes();
    line.starts_with(b"user-db:")
        || line.starts_with(b"system-db:")
        || line.starts_with(b"file-db:")
        || line.starts_with(b"service-db:")
}
