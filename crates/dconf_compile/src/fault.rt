//! Why files are not compiled.
ghost use Rattle.std.specs.Prelude.{◌≡◌, None};
ghost use Rattle.dconf_compile.specs.CompileFaults.{cause_of, fault_at, fault_of, file_of, no_memory};

use gv_infer::{ReadFlaw, ValueFlaw};
use gv_syntax::TextCause;
use keyfile_core::KeyfileCause;
use std::alloc::AllocError;
use std::error::Error;
use std::fmt;

/// Which file is at fault, by its number as it was handed in.
#[derive(Clone, Copy, Debug, PartialEq, Eq)]
pub enum FileRef {
    /// A keyfile.
    Keyfile(usize),
    /// A lock file.
    LockFile(usize),
    /// None of them: a growth was refused.
    Whole,
}

/// What is wrong with a file. It is printed as its name, and that of a value's text with its place.
#[derive(Clone, Copy, Debug, PartialEq, Eq)]
pub enum CompileCause {
    /// The file has more than 16,777,216 bytes, or the database would have more than 4,294,967,295.
    TooBig,
    /// A byte is no part of a whole character.
    NotUtf8,
    /// A line of a keyfile is neither empty, nor a comment, nor in brackets, and has no `=`, or has a zero byte.
    BadLine,
    /// A key comes before the first group.
    NoGroup,
    /// A line that starts with `[` doesn't end with `]`, or what is between is no group.
    BadGroup,
    /// A key is empty, or has a slash, a bracket or a control character.
    BadKeyName,
    /// A line of a lock file starts with `/` and is no path.
    LockNotKey,
    /// The path of a key has more than 65,535 bytes.
    TooLong,
    /// The text of a value has none.
    Value(ReadFlaw),
    /// A value has 128 levels, or more than 4,294,967,295 bytes would be stored for it.
    TooLarge,
    /// A growth was refused, also one while the text of a value was read.
    Memory,
}

/// Why files are not compiled: the first fault, with its file and line. It is printed as its cause.
#[derive(Clone, Copy, Debug, PartialEq, Eq)]
pub struct CompileFault {
    /// `Whole` for `Memory` alone.
    pub file: FileRef,
    /// The number of the line, from 1 on. It is 0 for `TooBig` and for `Memory`.
    pub line: usize,
    pub cause: CompileCause,
}

impl CompileFault {
    /// A fault of a file, unless it is that a growth was refused.
    pub(crate) fn at(file: FileRef, line: usize, cause: CompileCause) -> CompileFault
        ensures fault { fault_of result ≡ fault_at (file_of file) line (cause_of cause) }
        ensures memory { cause_of cause ≡ None → result ≡ no_memory }
    {
        match cause {
            CompileCause::Memory => CompileFault::from(AllocError),
            _ => CompileFault { file, line, cause },
        }
    }
}

impl CompileCause {
    ghost use Rattle.dconf_model.specs.Doubles.{is_double_cause_if_any};

    /// Whether the text of a value is refused for a double in it.
    pub(crate) fn is_double(self) -> bool
        ensures { result ≡ is_double_cause_if_any (cause_of self) }
    {
        match self {
            CompileCause::Value(ReadFlaw::Text(flaw)) => flaw.cause == TextCause::DoubleText,
            CompileCause::Value(ReadFlaw::Value(flaw)) => flaw == ValueFlaw::DoubleText,
            _ => false,
        }
    }
}

impl fmt::Display for CompileCause {
    ghost use Rattle.std.specs.Prelude.{Some};
    ghost use Rattle.dconf_compile.specs.CompileFaults.{compile_cause_text};

    ghost output = { λ cause. Some (compile_cause_text cause) };

    fn fmt<W: fmt::Write>(&self, f: &mut fmt::Formatter<W>) -> fmt::Result {
        match self {
            CompileCause::TooBig => f.write_str("TooBig"),
            CompileCause::NotUtf8 => f.write_str("NotUtf8"),
            CompileCause::BadLine => f.write_str("BadLine"),
            CompileCause::NoGroup => f.write_str("NoGroup"),
            CompileCause::BadGroup => f.write_str("BadGroup"),
            CompileCause::BadKeyName => f.write_str("BadKeyName"),
            CompileCause::LockNotKey => f.write_str("LockNotKey"),
            CompileCause::TooLong => f.write_str("TooLong"),
            CompileCause::Value(flaw) => flaw.fmt(f),
            CompileCause::TooLarge => f.write_str("TooLarge"),
            CompileCause::Memory => f.write_str("Memory"),
        }
    }
}

impl fmt::Display for CompileFault {
    ghost use Rattle.std.specs.Prelude.{Some};
    ghost use Rattle.dconf_compile.specs.CompileFaults.{compile_cause_text};

    ghost output = { λ fault. Some (compile_cause_text fault.cause) };

    fn fmt<W: fmt::Write>(&self, f: &mut fmt::Formatter<W>) -> fmt::Result {
        self.cause.fmt(f)
    }
}

impl Error for CompileCause {}

impl Error for CompileFault {}

impl From<KeyfileCause> for CompileCause {
    ghost use Rattle.std.specs.Prelude.{Some};
    ghost use Rattle.keyfile_core.specs.KeyfileFaults.{cause_of as keyfile_cause_of};

    ghost from_gives = { λ keyfile_cause cause. cause_of cause ≡ Some (keyfile_cause_of keyfile_cause) };

    fn from(cause: KeyfileCause) -> CompileCause {
        match cause {
            KeyfileCause::TooBig => CompileCause::TooBig,
            KeyfileCause::NotUtf8 => CompileCause::NotUtf8,
            KeyfileCause::BadLine => CompileCause::BadLine,
            KeyfileCause::NoGroup => CompileCause::NoGroup,
            KeyfileCause::BadGroup => CompileCause::BadGroup,
            KeyfileCause::BadKeyName => CompileCause::BadKeyName,
        }
    }
}

impl From<AllocError> for CompileCause {
    ghost use Rattle.dconf_compile.specs.declared.fault.CompileCause.TheVariants.{Memory};

    ghost from_gives = { λ _ cause. cause ≡ Memory };

    fn from(_error: AllocError) -> CompileCause {
        CompileCause::Memory
    }
}

impl From<AllocError> for CompileFault {
    ghost from_gives = { λ _ fault. fault ≡ no_memory };

    fn from(_error: AllocError) -> CompileFault {
        CompileFault {
            file: FileRef::Whole,
            line: 0,
            cause: CompileCause::Memory,
        }
    }
}
