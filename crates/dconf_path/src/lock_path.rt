//! The path of a lock: that of a key, which locks that key, or that of a directory, which locks all keys below it.
//! dconf(7), "Locks".
ghost use Rattle.std.specs.Prelude.{◌≡◌, ◌↔◌, Some, IfOk, IfErr, IsOk, IsTrue};
ghost use Rattle.dconf_model.specs.Paths.{is_path};
ghost use Rattle.dconf_model.specs.Locks.{lock_fault, covers};
ghost use Rattle.dconf_path.specs.Faults.{path_fault_of};
ghost use Rattle.dconf_path.specs.Paths.{key_text, lock_text};

use crate::fault::PathFault;
use crate::path::{DirPath, KeyPath};
use std::convert::AsStr;
use std::fmt;

/// The path of a lock, lent from where it was found.
#[derive(Clone, Copy, Debug, PartialEq, Eq)]
pub enum LockPath<'a> {
    /// Locks the key.
    Key(KeyPath<'a>),
    /// Locks all keys below the directory.
    Directory(DirPath<'a>),
}

impl<'a> LockPath<'a> {
    /// Takes a text that is the path of a key or of a directory, of at most 65,535 bytes.
    ///
    /// Any other is refused with its first fault: `NotAbsolute`, `HasNul`, `DoubleSlash` or `TooLong`, in this order.
    pub fn parse(text: &'a str) -> Result<LockPath<'a>, PathFault>
        ensures accepts { IsOk result ↔ IsTrue (is_path text.entry.now) }
        ensures found { IfOk result (λ lock. lock_text lock ≡ text.entry.now) }
        ensures fault { IfErr result (λ e. lock_fault text.entry.now ≡ Some (path_fault_of e)) }
    {
        if text.ends_with("/") {
            Ok(LockPath::Directory(DirPath::parse(text)?))
        } else {
            Ok(LockPath::Key(KeyPath::parse(text)?))
        }
    }

    /// The text of the path. It looks at no byte.
    pub fn as_str(self) -> &'a str
        ensures { result.now ≡ lock_text self.entry }
    {
        match self {
            LockPath::Key(path) => path.as_str(),
            LockPath::Directory(path) => path.as_str(),
        }
    }

    /// Whether it locks a key: the key is its own, or is below its directory. It looks at each byte of its text once.
    pub fn covers(self, key: KeyPath<'_>) -> bool
        ensures { result ≡ covers (lock_text self.entry) (key_text key.entry) }
    {
        match self {
            LockPath::Key(path) => path.as_str() == key.as_str(),
            LockPath::Directory(path) => key.as_str().starts_with(path.as_str()),
        }
    }
}

impl AsStr for LockPath<'_> {
    ghost text = { lock_text };

    fn as_str(&self) -> &str {
        LockPath::as_str(*self)
    }
}

impl fmt::Display for LockPath<'_> {
    ghost output = { λ path. Some (lock_text path) };

    fn fmt<W: fmt::Write>(&self, f: &mut fmt::Formatter<W>) -> fmt::Result {
        f.write_str(LockPath::as_str(*self))
    }
}
