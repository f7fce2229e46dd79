//! What a run has besides its command and its store.
use dconf_cli::Counted;
use dconf_words::Heard;
use std::alloc::Global;
use std::io::{Read, Write};

/// The streams of a run, and its habits.
#[derive(Drop)]
pub(crate) struct Session<I, O, E> {
    pub(crate) input: Counted<I>,
    pub(crate) out: Counted<O>,
    pub(crate) err: Counted<Heard<E>>,
    /// Whether a file that holds already what a change would give it stays as it is.
    pub(crate) leaves_made: bool,
    /// Whether it is said what is wrong with the store.
    pub(crate) warns: bool,
}

impl<I: Read, O: Write, E: Write> Session<I, O, E> {
    /// On these streams.
    pub(crate) fn on(alloc: Global, input: I, out: O, err: E) -> Session<I, O, E> {
        Session {
            input: Counted::new(input),
            out: Counted::new(out),
            err: Counted::new(Heard::new(alloc, err)),
            leaves_made: false,
            warns: true,
        }
    }
}
