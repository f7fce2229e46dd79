//! As what the files are looked at that a site makes its databases of: by what stands in them, and below a folder NAME.d as `update` reads
//! them; what is found wrong there, by what the installed schemas have, and which name is the nearest to one that they don't have; and where a
//! machine has its own.
//!
//! A path is gone through folder by folder: of each comes the [`Role`] of the files in it. Nothing is opened here.
#![tactic(auto)]

ghost use Rattle.dconf_roles.specs.Findings.{NoAlarmIsFalse};
ghost use Rattle.dconf_roles.specs.Places.{EachPlaceComesOnce};
ghost use Rattle.dconf_roles.specs.Roles.{WhatUpdateReadsIsRead};
ghost use Rattle.dconf_roles.specs.Sites.{WhatUpdateCompilesIsTaken};

mod asked;
mod findings;
mod folders;
mod machines;
mod nearness;
mod numbers;
mod places;
mod readings;
mod roles;
mod sites;
mod slips;

pub use asked::{FileBeside, begins_sources, beside_number, reads_on};
pub use findings::{Finding, FindingKnown, finding_for, finding_number, finding_of};
pub use folders::{is_read, role_of, sources_in, within_number};
pub use machines::machines_folder;
pub use nearness::{Nearing, is_nearer};
pub use numbers::{entry_number, reading_number};
pub use places::{Place, is_over, next_place};
pub use readings::{ReadAs, reading, reading_of_part};
pub use roles::{Role, role_among};
pub use sites::{EntryKnown, Kind, Part, Within, part_of, stem_len};
pub use slips::{Name, has_slip};

/// A file in a folder NAME.d, or in its folder `locks`, is a keyfile, or one of locks, if `update` reads it, and else it is hidden.
pub fn what_update_reads_is_read()
    ensures { WhatUpdateReadsIsRead }
{}

/// In the folder of a site the files that are taken for keyfiles and for locks are those that `update` compiles, in its order.
pub fn what_update_compiles_is_taken()
    ensures { WhatUpdateCompilesIsTaken }
{}

/// What no schema has is found, unless one without a path may have it; and so is a value that no key takes, a text that is none, and a database of the
/// system that isn't there, in the profile of a folder. Nothing else is.
pub fn no_alarm_is_false()
    ensures { NoAlarmIsFalse }
{}

/// The nearest name is looked for in five places at most: none comes twice.
pub fn each_place_comes_once()
    ensures { EachPlaceComesOnce }
{}
