//! Keys of a keyfile: their names, and their paths.
ghost use Rattle.std.specs.Prelude.{◌≡◌, [], codes};
ghost use Rattle.dconf_model.specs.Keyfiles.{is_key, path_of};
ghost use Rattle.dconf_model.specs.Paths.{is_short};
ghost use Rattle.dconf_places.specs.Told.{text_of};

use crate::groups::is_plain;
use dconf_path::MAX_PATH_LEN;
use dconf_places::PathParts;

/// Whether a text is the name of a key: it is not empty, and has no slash, no bracket and no control character.
pub(crate) fn is_key(text: &str) -> bool
    ensures { result ≡ is_key text.now }
{
    !text.is_empty() && !text.as_bytes().contains(&b'/') && is_plain(text)
}

/// The path of a group's key.
pub(crate) fn path_of<'a>(group: &'a [u8], key: &'a [u8]) -> PathParts<'a>
    ensures { text_of result ≡ path_of (codes "/") (record { line = 0; group = group.entry.now; key = key.entry.now; text = [] }) }
{
    if group == b"/".as_slice() {
        return PathParts {
            first: b"/",
            second: b"",
            third: b"",
            fourth: key,
        };
    }
    PathParts {
        first: b"/",
        second: group,
        third: b"/",
        fourth: key,
    }
}

/// Whether the parts of a path are no longer than a path may be.
pub(crate) fn is_short(path: &PathParts<'_>) -> bool
    ensures { result ≡ is_short (text_of path.now) }
{
    path.first.len() <= MAX_PATH_LEN
        && path.second.len() <= MAX_PATH_LEN
        && path.third.len() <= MAX_PATH_LEN
        && path.fourth.len() <= MAX_PATH_LEN
        && path.first.len() + path.second.len() + path.third.len() + path.fourth.len()
            <= MAX_PATH_LEN
}
