//! The command line of dconf(1), for a program that is run by the name `dconf`: what its words ask for, in the commands of `dconfdb`, and what
//! is said of wrong ones.
//!
//! What can never happen: words that dconf refuses change anything; a command of dconf's becomes another one of ours.
//!
//! What a call costs: it takes memory for the words of its answer, or for the text.
#![tactic(auto)]

mod completions;
mod folders;
mod left_out;
mod names;
mod order;
mod paths;
mod request;
mod texts;
mod values;
mod verb;
mod why;
mod words;

pub use completions::{directory_of, offers};
pub use folders::compile_of_folder;
pub use left_out::{doubles, ignored, is_ignored, warning_of};
pub use names::is_run_as_dconf;
pub use order::in_dconfs_order;
pub use request::Asked;
pub use texts::{refusal, usage};
pub use values::{dconfs_sentence, is_wrong_value};
pub use verb::Verb;
pub use why::{Noun, Why};
pub use words::{asked, list_of, locks_of};
