//! Which kind of store a machine has, and where dconf's own is: its folder, its profiles, its databases, by dconf(7).
//!
//! A store that nobody gives a folder for is our own kind, or dconf's, in dconf's places, as `/etc/dconfdb/store` says. Nothing is opened or asked
//! here, and no memory is taken: whoever asks says what the environment, the system and a look at a file say. A call looks at each byte of
//! what it is given a fixed number of times, but at `$XDG_DATA_DIRS` for each folder of it anew.
#![tactic(auto)]

ghost use Rattle.dconf_homes.specs.HomeLaws.{AllAreListed, FilesAreDconfs, FolderIsWhole, GivenIsOurs, NoneIsPassedOverSilently, OthersAreOurs, WhatIsNotAsked};

mod dirs;
mod homes;
mod looks;
mod sought;

pub use homes::{Around, DATABASES_FOLDER, FoundKind, Place, Wanted, is_users};
pub use looks::{DconfdbProfileLook, DconfdbProfileNext};
pub use sought::{MANDATORY_FOLDER, MOST_DIRS, PROFILES_FOLDER, Sought, SoughtStep};

/// Whoever gives a folder has our own kind of store there, whatever the machine's file says.
pub fn a_given_folder_is_ours()
    ensures { GivenIsOurs }
{}

/// The path of a store's folder is a whole one, of whichever kind it is.
pub fn a_folder_has_a_whole_path()
    ensures { FolderIsWhole }
{}

/// In dconf's places a file is where dconf has it.
pub fn dconfs_files_are_where_dconf_has_them()
    ensures { FilesAreDconfs }
{}

/// Elsewhere a file is where our own kind of store has it.
pub fn other_files_are_where_ours_are()
    ensures { OthersAreOurs }
{}

/// A profile counts, or it isn't there, or it is told why it doesn't count.
pub fn no_profile_is_passed_over_silently()
    ensures { NoneIsPassedOverSilently }
{}

/// Whatever a look at a profile finds, the one that is looked at next is the one that is listed next.
pub fn all_that_may_count_are_listed()
    ensures { AllAreListed }
{}

/// What isn't asked makes no difference to where a store is.
pub fn what_is_not_asked_makes_no_difference()
    ensures { WhatIsNotAsked }
{}
