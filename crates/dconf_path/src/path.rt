//! Paths of keys and of directories: they start with `/`, and have no `//` and no zero byte. A key's doesn't end in
//! `/`; a directory's does.
ghost use Rattle.std.specs.Prelude.{◌≡◌, ◌↔◌, Some, None, IfOk, IfErr, IfSome, IsOk, IsSome, IsUtf8, OnOk, IsTrue};
ghost use Rattle.dconf_model.specs.Paths.{is_key_path, is_directory_path, key_fault, directory_fault, first_path_fault, questions_of_bytes};
ghost use Rattle.dconf_path.specs.Faults.{path_fault_of};

use crate::fault::PathFault;
use crate::plain::is_plain_key;
use std::convert::AsStr;
use std::fmt;

/// How many bytes a path has at most.
pub const MAX_PATH_LEN: usize = 65_535;

/// The path of a key, lent from where it was found, such as `/org/gnome/desktop/cursor-size`.
#[derive(Clone, Copy, Debug, PartialEq, Eq)]
pub struct KeyPath<'a> {
    text: &'a str,
    ghost is_of_key: { IsTrue (is_key_path text.now) },
}

impl<'a> KeyPath<'a> {
    ghost use Rattle.dconf_path.specs.Paths.{key_text};

    /// Takes a text that is the path of a key, of at most 65,535 bytes.
    ///
    /// Any other is refused with its first fault, in the order of [`PathFault`].
    pub fn parse(text: &'a str) -> Result<KeyPath<'a>, PathFault>
        ensures accepts { IsOk result ↔ IsTrue (is_key_path text.entry.now) }
        ensures found { IfOk result (λ path. key_text path ≡ text.entry.now) }
        ensures fault { IfErr result (λ e. key_fault text.entry.now ≡ Some (path_fault_of e)) }
    {
        if is_plain_key(text.as_bytes()) {
            return Ok(KeyPath { text });
        }
        check_bytes(text)?;
        if text.ends_with("/") {
            return Err(PathFault::EndsInSlash);
        }
        if text.len() > MAX_PATH_LEN {
            return Err(PathFault::TooLong);
        }
        Ok(KeyPath { text })
    }

    /// Takes bytes that are a text, and the path of a key; None where they aren't.
    #[inline(always)]
    pub fn of_bytes(bytes: &'a [u8]) -> Option<KeyPath<'a>>
        ensures some { IsSome result ↔ (IsUtf8 bytes.entry.now × IsTrue (is_key_path bytes.entry.now)) }
        ensures path { IfSome result (λ path. key_text path ≡ bytes.entry.now) }
    {
        if is_plain_key(bytes) {
            let text = unsafe { str::from_utf8_unchecked(bytes) };
            return Some(KeyPath { text });
        }
        KeyPath::of_other_bytes(bytes)
    }

    /// As `of_bytes`. It is kept apart, since nearly all bytes are plain.
    #[inline(never)]
    fn of_other_bytes(bytes: &'a [u8]) -> Option<KeyPath<'a>>
        ensures some { IsSome result ↔ (IsUtf8 bytes.entry.now × IsTrue (is_key_path bytes.entry.now)) }
        ensures path { IfSome result (λ path. key_text path ≡ bytes.entry.now) }
    {
        let text = str::from_utf8(bytes).ok()?;
        KeyPath::parse(text).ok()
    }

    /// The text itself. It looks at no byte.
    pub fn as_str(self) -> &'a str
        ensures { result.now ≡ key_text self.entry }
    {
        self.text
    }
}

impl AsStr for KeyPath<'_> {
    ghost use Rattle.dconf_path.specs.Paths.{key_text};

    ghost text = { key_text };

    fn as_str(&self) -> &str {
        self.text
    }
}

impl fmt::Display for KeyPath<'_> {
    ghost use Rattle.dconf_path.specs.Paths.{key_text};

    ghost output = { λ path. Some (key_text path) };

    fn fmt<W: fmt::Write>(&self, f: &mut fmt::Formatter<W>) -> fmt::Result {
        f.write_str(self.text)
    }
}

/// The path of a directory, lent from where it was found, such as `/org/gnome/` or `/`.
#[derive(Clone, Copy, Debug, PartialEq, Eq)]
pub struct DirPath<'a> {
    text: &'a str,
    ghost is_of_directory: { IsTrue (is_directory_path text.now) },
}

impl<'a> DirPath<'a> {
    ghost use Rattle.dconf_path.specs.Paths.{directory_text};

    /// Takes a text that is the path of a directory, of at most 65,535 bytes.
    ///
    /// Any other is refused with its first fault, in the order of [`PathFault`].
    pub fn parse(text: &'a str) -> Result<DirPath<'a>, PathFault>
        ensures accepts { IsOk result ↔ IsTrue (is_directory_path text.entry.now) }
        ensures found { IfOk result (λ path. directory_text path ≡ text.entry.now) }
        ensures fault { IfErr result (λ e. directory_fault text.entry.now ≡ Some (path_fault_of e)) }
    {
        check_bytes(text)?;
        if !text.ends_with("/") {
            return Err(PathFault::NoEndSlash);
        }
        if text.len() > MAX_PATH_LEN {
            return Err(PathFault::TooLong);
        }
        Ok(DirPath { text })
    }

    /// The text itself. It looks at no byte.
    pub fn as_str(self) -> &'a str
        ensures { result.now ≡ directory_text self.entry }
    {
        self.text
    }
}

impl AsStr for DirPath<'_> {
    ghost use Rattle.dconf_path.specs.Paths.{directory_text};

    ghost text = { directory_text };

    fn as_str(&self) -> &str {
        self.text
    }
}

impl fmt::Display for DirPath<'_> {
    ghost use Rattle.dconf_path.specs.Paths.{directory_text};

    ghost output = { λ path. Some (directory_text path) };

    fn fmt<W: fmt::Write>(&self, f: &mut fmt::Formatter<W>) -> fmt::Result {
        f.write_str(self.text)
    }
}

/// Refuses a text that is no path, whatever its end and its length.
fn check_bytes(text: &str) -> Result<(), PathFault>
    ensures passes { OnOk result (first_path_fault (questions_of_bytes text.now) ≡ None) }
    ensures fault { IfErr result (λ e. first_path_fault (questions_of_bytes text.now) ≡ Some (path_fault_of e)) }
{
    if !text.starts_with("/") {
        return Err(PathFault::NotAbsolute);
    }
    if text.as_bytes().contains(&0) {
        return Err(PathFault::HasNul);
    }
    if text.contains("//") {
        return Err(PathFault::DoubleSlash);
    }
    Ok(())
}
