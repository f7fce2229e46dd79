//! The store that `--user` or `--store` names, as the library for C finds it: its folder, its kind and its profile, by what the environment
//! and the system say.
//!
//! Where things are is dconf_places' and dconf_homes' to say, and what a profile means dconf_found's. Here the host is asked what they go by.
//!
//! What a call costs: [`enter`] asks for eight variables, for the file that says which kind of store the machine has, and for each
//! profile that may count, until one does.
#![tactic(auto)]

mod find;
mod profiles;
mod surroundings;

pub use find::{Found, NotFound, enter};
pub use profiles::Profile;
pub use surroundings::Surroundings;
