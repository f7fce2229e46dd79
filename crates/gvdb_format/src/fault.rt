//! Why bytes are refused as a database.
use std::error::Error;
use std::fmt;

/// Why bytes are refused as a database: the first of these that is so. A fault is printed as its name.
#[derive(Clone, Copy, Debug, PartialEq, Eq)]
pub enum OpenFault {
    /// There are fewer than the 24 bytes of a header.
    Short,
    /// The first eight bytes are not `GVariant`.
    BadSignature,
    /// The version is not 0.
    BadVersion,
    /// The pointer to the root table isn't valid, or spans fewer than the eight bytes of a table's head.
    BadRoot,
    /// The root table's bloom words or buckets don't fit in it, or its rest isn't a number of whole items.
    BadTable,
}

impl fmt::Display for OpenFault {
    ghost use Rattle.std.specs.Prelude.{Some};
    ghost use Rattle.dconf_model.specs.FaultTexts.{open_fault_text};
    ghost use Rattle.gvdb_format.specs.Faults.{open_fault_of};

    ghost output = { λ fault. Some (open_fault_text (open_fault_of fault)) };

    fn fmt<W: fmt::Write>(&self, f: &mut fmt::Formatter<W>) -> fmt::Result {
        f.write_str(match self {
            OpenFault::Short => "Short",
            OpenFault::BadSignature => "BadSignature",
            OpenFault::BadVersion => "BadVersion",
            OpenFault::BadRoot => "BadRoot",
            OpenFault::BadTable => "BadTable",
        })
    }
}

impl Error for OpenFault {}
