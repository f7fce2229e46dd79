//! Why one file is refused, its name aside.
ghost use Rattle.std.specs.Prelude.{◌≡◌, None, Some};
ghost use Rattle.dconf_path.specs.Faults.{locks_fault_of, text_fault_of};
ghost use Rattle.keyfile_core.specs.KeyfileFaults.{fault_of};
ghost use Rattle.refused.specs.Faults.{fault_in};
ghost use Rattle.dconf_compile.specs.LineStops.{line_fault_of};

use crate::fault::CompileCause;
use dconf_path::{LockNotKey, LocksFault, TextFault};
use keyfile_core::{KeyfileFault, KeyfileFlaw};
use std::alloc::{AllocError, AllocFailed};
use std::error::Error;
use std::fmt;

/// What is wrong at a line of a file. It is printed as its cause: the line is for who knows the file's name.
#[derive(Clone, Copy, Debug, PartialEq, Eq)]
pub struct LineStop {
    /// The number of the line, from 1 on, or 0 where it is none.
    pub line: usize,
    pub cause: CompileCause,
}

impl fmt::Display for LineStop {
    ghost use Rattle.dconf_compile.specs.CompileFaults.{compile_cause_text};

    ghost output = { λ stop. Some (compile_cause_text stop.cause) };

    fn fmt<W: fmt::Write>(&self, f: &mut fmt::Formatter<W>) -> fmt::Result {
        self.cause.fmt(f)
    }
}

impl Error for LineStop {}

impl From<KeyfileFault> for LineStop {
    ghost from_gives = { λ fault stop. line_fault_of stop ≡ fault_in fault_of fault };

    fn from(fault: KeyfileFault) -> LineStop {
        match fault {
            KeyfileFault::Fault(KeyfileFlaw { line, cause }) => LineStop {
                line,
                cause: CompileCause::from(cause),
            },
            KeyfileFault::Memory => LineStop::from(AllocError),
        }
    }
}

impl From<TextFault> for LineStop {
    ghost from_gives = { λ fault stop. line_fault_of stop ≡ Some (text_fault_of fault) };

    fn from(fault: TextFault) -> LineStop {
        match fault {
            TextFault::TooBig => LineStop {
                line: 0,
                cause: CompileCause::TooBig,
            },
            TextFault::NotUtf8(line) => LineStop {
                line,
                cause: CompileCause::NotUtf8,
            },
        }
    }
}

impl From<LocksFault> for LineStop {
    ghost from_gives = { λ fault stop. line_fault_of stop ≡ fault_in locks_fault_of fault };

    fn from(fault: LocksFault) -> LineStop {
        match fault {
            LocksFault::Fault(LockNotKey(line)) => LineStop {
                line,
                cause: CompileCause::LockNotKey,
            },
            LocksFault::Memory => LineStop::from(AllocError),
        }
    }
}

impl From<AllocError> for LineStop {
    ghost from_gives = { λ _ stop. line_fault_of stop ≡ None };

    fn from(_error: AllocError) -> LineStop {
        LineStop {
            line: 0,
            cause: CompileCause::Memory,
        }
    }
}

impl<T: Drop> From<AllocFailed<T>> for LineStop {
    ghost from_gives = { λ _ stop. line_fault_of stop ≡ None };

    fn from(_error: AllocFailed<T>) -> LineStop {
        LineStop::from(AllocError)
    }
}
