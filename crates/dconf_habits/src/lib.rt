//! What dconf's commands take, and ours would refuse, in ours: `reset -f KEY`, and `write KEY -5`; and what `update` makes in dconf's places.
//!
//! What can never happen: a command that is none of these becomes another one.
//!
//! What a call costs: `with_dashes` takes memory for one short word, and the others none.
#![tactic(auto)]

ghost use Rattle.dconf_habits.specs.Updates.{NamesDconfs};

mod resets;
mod typed;
mod updates;

pub use resets::as_in_dconf;
pub use typed::with_dashes;
pub use updates::in_dconfs_place;

/// The database of the folder NAME.d is NAME then.
pub fn an_update_names_dconfs_database()
    ensures { NamesDconfs }
{}
