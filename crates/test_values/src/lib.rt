//! Tests of types, of how values are laid out, of views and trees, and of texts and values: each public call, and what no run of the program
//! shows. All else is in tests/program.d. There is no other code here.
#![tactic(auto)]

#[cfg(test)]
mod examples;
#[cfg(test)]
mod forms;
#[cfg(test)]
mod generated;
#[cfg(test)]
mod layout;
#[cfg(test)]
mod samples;
#[cfg(test)]
mod table;
#[cfg(test)]
mod texts;
#[cfg(test)]
mod trees;
#[cfg(test)]
mod typed_reads;
#[cfg(test)]
mod types;
#[cfg(test)]
mod views;
