//! The folder of a store that was found for somebody: in it a bad database is no refusal. What can be saved of it counts, and
//! what was wrong is kept to be said.
//!
//! A [`FoundFolder`] shows what counts of the files of another folder: the profile as it is, that of all users with its
//! databases of the system beside it, and of a database what [`counted`] makes of it.
//! dconf_commands' commands run on it as on any. It is for one run, which reads, and then replaces a file.
//!
//! What can never happen: a read gives of a sound database another one, or of a bad one anything but what is saved of it; a database of
//! which something was lost is not said to be bad. What a run does to the folder that is shown, it asks of the other one, call by call, but for an
//! append or a sync that is refused. That two reads of one bad file give the same bytes is not proved.
//!
//! What a call costs: a read asks of a database each rule of sound ones; of a bad one it takes memory for what is saved.
#![tactic(auto)]

ghost use Rattle.dconf_found.specs.DconfsLines.{OneFileForALine};
ghost use Rattle.dconf_found.specs.EitherKind.{TurnIsWholeInEitherKind};

mod bad;
mod bad_databases;
mod dconfs;
mod everyones;
mod found;
mod kinds;
mod lookup;
mod renamed;

pub use bad::BadDatabase;
pub use bad_databases::{Counting, Loss, counted};
pub use dconfs::{InPlace, profile_in_place};
pub use found::FoundFolder;
pub use kinds::{MACHINE_FILE, store_line};
pub use renamed::{RenamedFolder, Renames};

/// For a line of a profile in dconf's places a command reads the file that the library reads.
pub fn a_line_means_one_file()
    ensures { OneFileForALine }
{}

/// What a turn leaves of the user's file, by the name by which a folder of either kind is shown, it leaves of it by the name that it has there: a crash
/// at any moment, a failure and a cut at any step leave the old bytes or the new ones, and every other file but the new one as it was.
pub fn a_turn_is_whole_in_either_kind()
    ensures { TurnIsWholeInEitherKind }
{}
