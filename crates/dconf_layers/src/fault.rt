//! Why a database is refused.
use gvdb_read::{OpenFault, Unsound};
use std::error::Error;
use std::fmt;

/// Why bytes are refused as a database of a profile. A fault is printed as that of the two which it is, with `unsound: `
/// before a broken rule.
#[derive(Clone, Copy, Debug, PartialEq, Eq)]
pub enum DatabaseFault {
    /// The bytes open as no database.
    NoDatabase(OpenFault),
    /// They open, and break a rule of sound databases.
    Unsound(Unsound),
}

impl fmt::Display for DatabaseFault {
    ghost use Rattle.std.specs.Prelude.{Some};
    ghost use Rattle.dconf_model.specs.Outcomes.{verdict_text};
    ghost use Rattle.dconf_layers.specs.Verdicts.{verdict_of};

    ghost output = { λ fault. Some (verdict_text (verdict_of fault)) };

    fn fmt<W: fmt::Write>(&self, f: &mut fmt::Formatter<W>) -> fmt::Result {
        match self {
            DatabaseFault::NoDatabase(fault) => write!(f, "{fault}"),
            DatabaseFault::Unsound(unsound) => write!(f, "unsound: {unsound}"),
        }
    }
}

impl Error for DatabaseFault {}
