//! Which program a command line is for; and the words of `dconfdb watch` and `dconfdb lint`: which are options, whose arguments follow, and which are
//! refused; and with which status `lint` ends.
//!
//! Words are read one after another: each call is told what those before said, and takes no memory.
#![tactic(auto)]

ghost use Rattle.dconf_options.specs.OptionLaws.{NoWordIsLost};
ghost use Rattle.dconf_options.specs.Programs.{OneProgramRuns};
ghost use Rattle.dconf_options.specs.Statuses.{NothingIsFoundByZero};

mod options;
mod placing;
mod programs;
mod statuses;
mod words;

pub use options::{OptionsRead, Said, Taken, option_after, options_end, said_number};
pub use placing::{Placing, placing_number, placing_of};
pub use programs::{Line, Program, asks_home, forgets, program_number, program_of};
pub use statuses::lint_status;

/// `--store FOLDER` is `--store=FOLDER`, a word behind `--` is a name, and one that begins as an option never is; `watch` has one name, and `lint` looks at the
/// machine's folder only if it has none.
pub fn no_word_is_lost()
    ensures { NoWordIsLost }
{}

/// Nobody is noted who didn't ask for it, by an environment that counts; and who is run without an environment is told of the user's home. What is for neither `watch` nor `lint`, nor, of dconf, for `blame`, and asks for no help is the proved
/// program's.
pub fn one_program_runs()
    ensures { OneProgramRuns }
{}

/// By the status 0 of `lint` its caller knows that nothing was found.
pub fn nothing_is_found_by_zero()
    ensures { NothingIsFoundByZero }
{}
