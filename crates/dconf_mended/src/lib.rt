//! What a database's file counts as that isn't sound, by [`mended_file`]; which bytes a file of a database can begin with, by
//! [`may_be_database`]; and what a profile with bad lines counts as, by [`read_lines`].
//!
//! Nothing is opened here but bytes that are lent.
#![tactic(auto)]

ghost use Rattle.dconf_mended.specs.Heads.{HeadsTell};
ghost use Rattle.dconf_mended.specs.Mending.{MendedOpens};

mod head;
mod mended;
mod profile;

pub use head::may_be_database;
pub use mended::{Mended, Standing, is_told, mended_file, standing_number};
pub use profile::{ProfileRead, read_lines, said_by, telling_of};

/// What is kept of a file is a sound database: it opens.
pub fn mended_opens()
    ensures { MendedOpens }
{}

/// A file that is a database begins only with bytes that may be one's.
pub fn heads_tell()
    ensures { HeadsTell }
{}
