//! Why a text is refused as a path.
use std::error::Error;
use std::fmt;

/// Why a text is refused as a path: the first of these that it has, in this order. A fault is printed as its name.
#[derive(Clone, Copy, Debug, PartialEq, Eq)]
pub enum PathFault {
    /// It doesn't start with `/`; it may be empty.
    NotAbsolute,
    /// It has a zero byte.
    HasNul,
    /// It has `//`.
    DoubleSlash,
    /// A key's path ends in `/`.
    EndsInSlash,
    /// A directory's path doesn't end in `/`.
    NoEndSlash,
    /// It has more than 65,535 bytes.
    TooLong,
}

impl fmt::Display for PathFault {
    ghost use Rattle.std.specs.Prelude.{Some};
    ghost use Rattle.dconf_model.specs.FaultTexts.{path_fault_text};
    ghost use Rattle.dconf_path.specs.Faults.{path_fault_of};

    ghost output = { λ fault. Some (path_fault_text (path_fault_of fault)) };

    fn fmt<W: fmt::Write>(&self, f: &mut fmt::Formatter<W>) -> fmt::Result {
        f.write_str(match self {
            PathFault::NotAbsolute => "NotAbsolute",
            PathFault::HasNul => "HasNul",
            PathFault::DoubleSlash => "DoubleSlash",
            PathFault::EndsInSlash => "EndsInSlash",
            PathFault::NoEndSlash => "NoEndSlash",
            PathFault::TooLong => "TooLong",
        })
    }
}

impl Error for PathFault {}
