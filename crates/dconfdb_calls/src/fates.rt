//! What is said of a bad database, in the words of the command and of the library.
ghost use Rattle.std.specs.Prelude.{◌≡◌, IfOk, Some, string_bytes};
ghost use Rattle.dconfdb_calls.specs.Fates.{counting_locks, fate_text};

use std::alloc::{AllocError, Global};
use std::fmt;

/// What became of a bad database. It is printed as what is said of it, after what is wrong with it.
#[derive(Clone, Copy)]
pub struct Fate {
    /// How many of its values and locks could be read.
    pub keys: usize,
    pub locks: usize,
    /// Whether it is the first database of the profile, whose locks never count.
    pub is_first: bool,
    /// Whether a change put a new file into its place. The text goes on after the name that it has now.
    pub is_aside: bool,
}

impl Fate {
    /// How many of its locks count.
    fn counting_locks(self) -> usize
        ensures { result ≡ counting_locks self.is_first self.locks }
    {
        if self.is_first { 0 } else { self.locks }
    }

    /// What is said of it. The only error is a failed allocation.
    pub fn text(self, alloc: Global) -> Result<String, AllocError>
        ensures { IfOk result (λ text. string_bytes text ≡ fate_text self) }
    {
        format!(in alloc; "{self}")
    }
}

impl fmt::Display for Fate {
    ghost output = { λ fate. Some (fate_text fate) };

    fn fmt<W: fmt::Write>(&self, f: &mut fmt::Formatter<W>) -> fmt::Result {
        match (self.is_aside, self.keys, self.counting_locks()) {
            (true, 0, _) => f.write_str(", and a new file was begun"),
            (true, keys, _) => write!(f, ", and a new file has the {keys} keys that could be read"),
            (false, 0, 0) => f.write_str("; kept nothing of it"),
            (false, keys, locks) => write!(f, "; kept {keys} keys, {locks} locks of it"),
        }
    }
}
