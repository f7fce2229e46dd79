//! Lock files: a line that starts with `/` is a lock, blanks and all, and any other says nothing. dconf(7), "Locks".
ghost use Rattle.std.specs.Prelude.{◌≡◌, map, Ok, Err, IfOk, IfErr};
ghost use Rattle.refused.specs.Faults.{OfFault};
ghost use Rattle.dconf_model.specs.Locks.{locks_in};
ghost use Rattle.dconf_path.specs.Faults.{locks_fault_of};
ghost use Rattle.dconf_path.specs.Paths.{lock_line_of};

use crate::line_fault::{LockNotKey, LocksFault};
use crate::lock_path::LockPath;
use std::alloc::Global;

/// A lock of a lock file.
#[derive(Clone, Copy, Debug, PartialEq, Eq)]
pub struct Lock<'a> {
    /// What it locks, lent from the file's text.
    pub path: LockPath<'a>,
    /// Its line, counted from 1.
    pub line: usize,
}

/// The locks of a lock file's text, in its order. A last line needs no line feed.
///
/// `LockNotKey` has the first line that starts with `/` and is no path; `Memory` comes where a growth is refused. It
/// looks at each byte a fixed number of times, and takes memory for the locks alone.
pub fn read_locks<'a>(alloc: Global, text: &'a str) -> Result<Vec<Lock<'a>>, LocksFault>
    ensures found { IfOk result (λ locks. locks_in text.entry.now ≡ Ok (map lock_line_of locks.items)) }
    ensures fault { IfErr result (OfFault (λ fault. locks_in text.entry.now ≡ Err (locks_fault_of fault))) }
{
    let mut locks = Vec::new(alloc);
    for (before, line) in text.split('\n').enumerate() {
        if !line.starts_with("/") {
            continue;
        }
        let number = before + 1;
        match LockPath::parse(line) {
            Ok(path) => locks.push(Lock { path, line: number })?,
            Err(_) => return Err(LocksFault::Fault(LockNotKey(number))),
        }
    }
    Ok(locks)
}
