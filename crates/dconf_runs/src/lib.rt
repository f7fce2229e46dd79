//! Runs of the program one after another, in one folder.
//!
//! What dconf_model says of whole programs, and of programs that crashes stop, is said of lists of runs. Here the runs are
//! calls of `run`, so that the prover sees that its clauses fit those laws.
//!
//! What can never happen: a run is left out, or comes in another place.
//!
//! What a call costs: what its runs cost, and memory for what each leaves.
#![tactic(auto)]

mod attempt;
mod laws;
mod program;
mod request;

pub use attempt::{Attempt, End, run_through_crashes};
pub use laws::{counts_are_sound, files_count_alike, mixed_turns_mend_all};
pub use program::{Left, run_after};
pub use request::{Ended, Request};
