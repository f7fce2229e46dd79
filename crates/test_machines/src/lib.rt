//! Tests of what is decided without a file, a lock or a clock: each public call of the machines, and what no run of a program shows. There is no
//! other code here.
#![tactic(auto)]

#[cfg(test)]
mod changesets;
#[cfg(test)]
mod left;
#[cfg(test)]
mod options;
#[cfg(test)]
mod parts;
#[cfg(test)]
mod roles;
#[cfg(test)]
mod rounds;
#[cfg(test)]
mod sentences;
#[cfg(test)]
mod served;
#[cfg(test)]
mod takings;
#[cfg(test)]
mod verdicts;
#[cfg(test)]
mod watches;
