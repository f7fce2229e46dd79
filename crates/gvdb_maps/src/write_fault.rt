//! Why a database is not written.
use refused::Refused;
use std::error::Error;
use std::fmt;

/// Why a database is not written.
pub type WriteFault = Refused<TooBig>;

/// There would be over 4,294,967,295 bytes. It is printed as its name.
#[derive(Clone, Copy, Debug, PartialEq, Eq)]
pub struct TooBig;

impl fmt::Display for TooBig {
    ghost use Rattle.std.specs.Prelude.{Some, codes};

    ghost output = { λ _. Some (codes "TooBig") };

    fn fmt<W: fmt::Write>(&self, f: &mut fmt::Formatter<W>) -> fmt::Result {
        f.write_str("TooBig")
    }
}

impl Error for TooBig {}
