//! Paths, lock files, profiles, keyfiles and rows of them, and faults that no command prints.
mod keyfiles;
pub(crate) mod lines;
pub(crate) mod paths;
mod settings;
