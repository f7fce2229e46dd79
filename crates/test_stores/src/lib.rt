//! Tests of a store's parts: each public call with ample memory, and what the program can't be asked. There is no other code here; what
//! the program can be asked is in tests/program.d.
#![tactic(auto)]

#[cfg(test)]
mod calls;
#[cfg(test)]
mod calls_rows;
#[cfg(test)]
mod engines;
#[cfg(test)]
mod examples;
#[cfg(test)]
mod folders;
#[cfg(test)]
mod homes;
#[cfg(test)]
mod machines;
#[cfg(test)]
mod made;
#[cfg(test)]
mod maps;
#[cfg(test)]
mod places;
#[cfg(test)]
mod questions;
#[cfg(test)]
mod seen;
#[cfg(test)]
mod stores;
#[cfg(test)]
mod tables;
#[cfg(test)]
mod texts;
#[cfg(test)]
mod times;
#[cfg(test)]
mod turns;
