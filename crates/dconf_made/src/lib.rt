//! Whether a change changes anything: an edit that the user's database has already, by [`is_made`]; a whole change, by
//! [`changed_file`]; whether a file is to be made for it at all, by [`need_of`]; and what is done for a change, from its beginning to its end,
//! by [`course_after`].
//!
//! Nothing is kept here.
#![tactic(auto)]

ghost use Rattle.dconf_made.specs.Courses.{EachChangeIsDone};
ghost use Rattle.dconf_made.specs.Made.{EachIsThereAlready};
ghost use Rattle.dconf_made.specs.Needs.{NothingIsLost};

mod changed;
mod course;
mod made;
mod need;

pub use changed::{Changed, Unchanged, changed_file};
pub use course::{Course, Task, course_after, course_number};
pub use made::{is_left, is_made};
pub use need::{Need, Users, need_number, need_of};

/// Where the user's database has each edit of a change already, all of them in order change nothing that is seen.
pub fn each_is_there_already()
    ensures { EachIsThereAlready }
{}

/// Where no file is made, there is no user's database, or it has what each edit asks for.
pub fn nothing_is_lost()
    ensures { NothingIsLost }
{}

/// A change is done exactly if it asks for nothing, or was made in its turn where a file is to be made, or else nothing is wrong with it.
pub fn each_change_is_done()
    ensures { EachChangeIsDone }
{}
