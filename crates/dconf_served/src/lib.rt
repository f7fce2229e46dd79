//! What the D-Bus service answers to a call that changes settings, and when: once it came, once it is read, after each try to write it, and
//! at the service's end; which database a call is of, and which store has that; which file stays open that was replaced; and what it does before it serves.
//!
//! Nothing is kept here: each call is told what is known, and says what becomes of the change.
#![tactic(auto)]

ghost use Rattle.dconf_served.specs.Begins.{OthersAreToldOfFromTheStart};
ghost use Rattle.dconf_served.specs.Folders.{ProfilesHaveAFolder};
ghost use Rattle.dconf_served.specs.Served.{LocksCountWhereTheyAreKnown, NothingIsAnsweredUnwritten, WhatCameFirstIsFirst, WhatIsAskedIsSaid, WhatIsMadeIsTold, WhatIsSentCounts, WhatWaitsIsBounded, WhoWaitsIsToldAtTheEnd};

mod begins;
mod calls;
mod folders;
mod served;

pub use begins::{Begins, begins_after, begins_number};
pub use calls::changed_database;
pub use folders::{Folder, folder_for, folder_number, is_kept_open};
pub use served::{Served, ServedKnown, served_after, served_number};

/// A change is acknowledged only if all that can be made of it is on the disk, or nothing of it was to be made; and once it is written, or
/// the fault lasts by which it can't be, or the service ends, it is answered.
pub fn nothing_is_answered_unwritten()
    ensures { NothingIsAnsweredUnwritten }
{}

/// However much is asked for, so many changes wait at most, each of so many bytes, and of so many databases, none of which is one that no profile
/// can name; and a notice names so many bytes of paths. Only a small change is read where others wait for that, and only a few edits are told in the turn.
pub fn what_waits_is_bounded()
    ensures { WhatWaitsIsBounded }
{}

/// At the service's end whoever isn't answered is told so, and nothing of that is written any more; only a change that is being written is
/// answered by that try. That something isn't on the disk is said at last only if somebody isn't answered.
pub fn who_waits_is_told_at_the_end()
    ensures { WhoWaitsIsToldAtTheEnd }
{}

/// The locks of the profile count for the database that it has as its user's; and nothing is written while they can't be known. What is there as the
/// profile of a database by itself is left as it is only if it says so.
pub fn locks_count_where_they_are_known()
    ensures { LocksCountWhereTheyAreKnown }
{}

/// What is sent of a path is made, or left out, which is told, and no value is set at a directory; a set stays unless a later one has its path, and a reset unless a directory's stands
/// for it; and who listens is told of no site's database.
pub fn what_is_sent_counts()
    ensures { WhatIsSentCounts }
{}

/// Of each edit of a change that is written it is told that it is made, or that it isn't; and of no other. What can't be made is left out by itself.
pub fn what_is_made_is_told()
    ensures { WhatIsMadeIsTold }
{}

/// Whichever thread takes a change, it is made behind all that came before it, and is refused for the same; and the main thread takes each that is noted.
pub fn what_came_first_is_first()
    ensures { WhatCameFirstIsFirst }
{}

/// Who calls is answered unless no answer is wanted, and calls are noted only where the environment asks for it.
pub fn what_is_asked_is_said()
    ensures { WhatIsAskedIsSaid }
{}

/// Before it serves anybody the database `user` is open, and dconf's folders are there, where the store is of dconf's kind, that of flags if the user has a runtime folder.
pub fn others_are_told_of_from_the_start()
    ensures { OthersAreToldOfFromTheStart }
{}

/// The profile of a database by itself is in a folder that has an absolute path, if there is one.
pub fn profiles_have_a_folder()
    ensures { ProfilesHaveAFolder }
{}
