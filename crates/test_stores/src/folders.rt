//! Folders and `replace`: each call failing in turn, a crash after each call, and files of the host.
pub(crate) mod crashes;
pub(crate) mod failures;
mod host;
mod steps;
