//! What a text is that somebody wrote: as a path, by [`kind_of`], and at which line it stands; and what `lint` prints of it, by [`finding_line`].
//!
//! Nothing is kept here. No call takes memory but `finding_line`, for the line, and for what is said in it.
#![tactic(auto)]

ghost use Rattle.dconf_texts.specs.Kinds.{KindsArePaths, TheWantedFits};
ghost use Rattle.dconf_texts.specs.Readings.{CausesAreThere};

mod findings;
mod kinds;
mod readings;
mod refusals;
mod strings;

pub use findings::finding_line;
pub use kinds::{PathKind, is_short, kind_at, kind_below, kind_of, number_of_kind, wanted_kind};
pub use readings::{TextCause, cause_number, cause_of, is_glibs, line_behind};
pub use refusals::{refused_as, the_first_fault_is_told};

/// A text is the path of a key exactly if it is of a key's kind and not too long, and so is a directory's.
pub fn kinds_are_paths()
    ensures { KindsArePaths }
{}

/// A text fits where a key is wanted exactly if it is of a key's kind, and so with a directory; any of both fits where any is.
pub fn the_wanted_fits()
    ensures { TheWantedFits }
{}

/// Of a text that is no value that a database has a cause is told that there is.
pub fn causes_are_there()
    ensures { CausesAreThere }
{}
