//! What a text is as a path, however long it is: a key's, a directory's, or none.
ghost use Rattle.std.specs.Prelude.{◌≡◌, ◌==◌, ◌&&◌};
ghost use Rattle.dconf_model.specs.Paths.{has_two_slashes, has_zero_byte, is_short as short, starts_with_slash};
ghost use Rattle.dconf_texts.specs.Kinds.{end_of, kind_at, kind_below, kind_number, kind_of, wanted_kind};

use dconf_path::MAX_PATH_LEN;

/// What a text is as a path.
#[derive(Clone, Copy, Debug, PartialEq, Eq)]
pub enum PathKind {
    /// A key's.
    Key,
    /// A directory's: it ends in `/`.
    Directory,
    /// None: it doesn't start with `/`.
    NotAbsolute,
    /// None: it has a zero byte.
    HasNul,
    /// None: it has `//`.
    DoubleSlash,
    /// No relative one: it starts with `/`.
    Absolute,
    /// A directory's, where a key's is wanted.
    NoKey,
    /// A key's, where a directory's is wanted.
    NoDirectory,
}

/// What a text is as a path. Of several faults it is the first, in the order of [`PathKind`].
pub fn kind_of(text: &[u8]) -> PathKind
    ensures { result ≡ kind_of text.now }
{
    if !text.starts_with(b"/") {
        return PathKind::NotAbsolute;
    }
    kind_after_slash(text)
}

/// What a text is as what follows the slash of a directory. The empty one is the directory itself.
pub fn kind_below(text: &[u8]) -> PathKind
    ensures { result ≡ kind_below text.now }
{
    if text.starts_with(b"/") {
        return PathKind::Absolute;
    }
    if text.is_empty() {
        return PathKind::Directory;
    }
    kind_after_slash(text)
}

/// What a text is as a path, or, if `is_relative`, as what follows the slash of a directory.
pub fn kind_at(is_relative: bool, text: &[u8]) -> PathKind
    ensures { result ≡ kind_at is_relative text.now }
{
    if is_relative {
        return kind_below(text);
    }
    kind_of(text)
}

/// What a path of that kind is to who wants a key's (1), a directory's (2), or any.
pub fn wanted_kind(wanted: u32, kind: PathKind) -> PathKind
    ensures { result ≡ wanted_kind wanted kind }
{
    match kind {
        PathKind::Key if wanted == 2 => PathKind::NoDirectory,
        PathKind::Directory if wanted == 1 => PathKind::NoKey,
        other => other,
    }
}

/// What a text is, its start left aside.
fn kind_after_slash(text: &[u8]) -> PathKind
    ensures { result ≡ end_of text.now }
{
    if text.contains(&0) {
        return PathKind::HasNul;
    }
    if has_two_slashes(text) {
        return PathKind::DoubleSlash;
    }
    if text.ends_with(b"/") {
        return PathKind::Directory;
    }
    PathKind::Key
}

/// Whether a slash comes after another.
fn has_two_slashes(text: &[u8]) -> bool
    ensures { result ≡ has_two_slashes text.now }
{
    let mut after_slash = false;
    for byte in text {
        if is_second(*byte, after_slash) {
            return true;
        }
        after_slash = *byte == b'/';
    }
    false
}

/// Whether a byte is a slash after another.
fn is_second(byte: u8, after_slash: bool) -> bool
    ensures { result ≡ (byte == 47 && after_slash) }
{
    byte == b'/' && after_slash
}

/// Whether a text is no longer than a path may be.
pub fn is_short(text: &[u8]) -> bool
    ensures { result ≡ short text.now }
{
    text.len() <= MAX_PATH_LEN
}

/// A kind's number: 0 key, 1 directory, 2 not absolute, 3 has a zero byte, 4 has `//`, 5 absolute, 6 no key, 7 no directory.
pub fn number_of_kind(kind: PathKind) -> u32
    ensures { result ≡ kind_number kind }
{
    match kind {
        PathKind::Key => 0,
        PathKind::Directory => 1,
        PathKind::NotAbsolute => 2,
        PathKind::HasNul => 3,
        PathKind::DoubleSlash => 4,
        PathKind::Absolute => 5,
        PathKind::NoKey => 6,
        PathKind::NoDirectory => 7,
    }
}
