//! Where a store is, which profile it has, and which file a line of that means: one set of rules for the command, the library for C
//! and whoever uses it.
//!
//! Nothing is opened or asked here, and no memory is taken. Whoever asks says what the environment and the system say, and what a look at a
//! file found; a path is lent in its parts. A call looks at each byte once at most.
#![tactic(auto)]

ghost use Rattle.dconf_places.specs.PlaceLaws.{FolderIsWhole, NamedIsNeverPassedOver, NoVariableCounts, NoneIsPassedOverSilently, SitesFileIsNoUsers, UsersFileIsInTheFolder};

mod files;
mod location;
mod parts;
mod profile;

pub use files::{
    EVERYONES_FOLDER, EVERYONES_PROFILE, OWN_PROFILE, USERS_PROFILE, database_path, end_of,
    file_name, is_beside, kind_of_number,
};
pub use location::{Environment, Given, Location};
pub use parts::PathParts;
pub use profile::{Candidate, Found, ProfileStep, Telling, is_told, profile_step, told_as};

/// A program that has more rights than whoever started it finds the same store and profile, whatever the variables say.
pub fn no_variable_counts_for_more_rights()
    ensures { NoVariableCounts }
{}

/// The path of a store's folder is a whole one, whoever says where it is.
pub fn a_folder_has_a_whole_path()
    ensures { FolderIsWhole }
{}

/// No other profile takes the place of one that is named.
pub fn a_named_profile_is_never_passed_over()
    ensures { NamedIsNeverPassedOver }
{}

/// A profile counts, or it isn't there, or it is told why it doesn't count.
pub fn no_profile_is_passed_over_silently()
    ensures { NoneIsPassedOverSilently }
{}

/// Whatever profile names it, a user's file is in the store's folder.
pub fn the_users_file_is_in_the_folder()
    ensures { UsersFileIsInTheFolder }
{}

/// The file that the profile of all users names for a site is the same one for each user.
pub fn a_sites_file_is_no_users()
    ensures { SitesFileIsNoUsers }
{}
