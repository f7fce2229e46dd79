//! Tests of the program that no run of the real one can ask: streams and folders that fail, crashes, counted calls, and single calls.
//! All else is in tests/program.d. There is no other code here.
#![tactic(auto)]

#[cfg(test)]
mod compared;
#[cfg(test)]
mod counted;
#[cfg(test)]
mod crashes;
#[cfg(test)]
mod failures;
#[cfg(test)]
mod faults;
#[cfg(test)]
mod found;
#[cfg(test)]
mod input;
#[cfg(test)]
mod json_lines;
#[cfg(test)]
mod layers;
#[cfg(test)]
mod loads;
#[cfg(test)]
mod long_type;
#[cfg(test)]
mod questions;
#[cfg(test)]
mod script;
#[cfg(test)]
mod streams;
#[cfg(test)]
mod turns;
#[cfg(test)]
mod words;
#[cfg(test)]
mod writes;
