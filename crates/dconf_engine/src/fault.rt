//! Why an engine doesn't open.
use dconf_layers::DatabaseFault;
use refused::Refused;
use std::error::Error;
use std::fmt;

/// Why an engine doesn't open.
pub type EngineFault = Refused<BadDatabase>;

/// The database of this index, counted from 0, is no sound one. It is printed with its index and its fault.
#[derive(Clone, Copy, Debug, PartialEq, Eq)]
pub struct BadDatabase(pub usize, pub DatabaseFault);

impl fmt::Display for BadDatabase {
    ghost use Rattle.std.specs.Prelude.{Some};
    ghost use Rattle.dconf_model.specs.FaultTexts.{bad_database_text};
    ghost use Rattle.dconf_model.specs.Outcomes.{verdict_text};
    ghost use Rattle.dconf_layers.specs.Verdicts.{verdict_of};

    ghost output = { λ bad. Some (bad_database_text bad.0 (verdict_text (verdict_of bad.1))) };

    fn fmt<W: fmt::Write>(&self, f: &mut fmt::Formatter<W>) -> fmt::Result {
        write!(f, "BadDatabase {}: {}", self.0, self.1)
    }
}

impl Error for BadDatabase {}
