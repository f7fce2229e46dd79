//! The calls of the library for C: each exports one of dconfdb_calls, and puts what that returns
//! where C can take it.
//!
//! C owns all memory. A call keeps nothing and frees nothing of the caller's.
#![tactic(auto)]

mod change;
mod changed;
mod changesets;
mod children;
mod due;
mod entry;
mod fates;
mod fault;
mod file;
mod findings;
mod get;
mod keyfile;
mod left;
mod list;
mod look;
mod making;
mod notice;
mod open;
mod options;
mod order;
mod parsing;
mod places;
mod printing;
mod queue;
mod read;
mod repair;
mod roles;
mod rounds;
mod seen;
mod served;
mod since;
mod turn;
mod wait;
mod waiting;
mod watched;
