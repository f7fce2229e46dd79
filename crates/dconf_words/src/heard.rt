//! A stream that keeps what goes through it, so that what was written can be explained.
ghost use Rattle.std.specs.Prelude.{◌≡◌, []};

use std::alloc::Global;
use std::io::{self, Read, Write};

/// A stream, and what went through it.
#[derive(Drop)]
pub struct Heard<S> {
    stream: S,
    text: Vec<u8>,
}

impl<S> Heard<S> {
    ghost use Rattle.dconf_words.specs.Hearing.{heard_of, stream_of};

    /// The stream, through which nothing went yet.
    pub fn new(alloc: Global, stream: S) -> Heard<S>
        ensures text { heard_of result ≡ [] }
        ensures stream { stream_of result ≡ stream }
    {
        Heard {
            stream,
            text: Vec::new(alloc),
        }
    }

    /// What went through it; where memory ran out for that, only what came after.
    pub fn text(&self) -> &[u8]
        ensures { result.now ≡ heard_of self.now }
    {
        self.text.as_slice()
    }

    fn hear(&mut self, bytes: &[u8])
        ensures { stream_of self.new ≡ stream_of self.old }
    {
        if self.text.extend_from_slice(bytes).is_err() {
            self.text.clear();
        }
    }
}

impl<W: Write> Write for Heard<W> {
    ghost use Rattle.dconf_words.specs.Hearing.{passed_on};

    ghost contents = { passed_on W.contents };

    fn write(&mut self, buf: &[u8]) -> io::Result<usize> {
        let took = self.stream.write(buf)?;
        if took <= buf.len() {
            self.hear(&buf[..took]);
        }
        Ok(took)
    }

    fn flush(&mut self) -> io::Result<()> {
        self.stream.flush()
    }
}

impl<R: Read> Read for Heard<R> {
    ghost use Rattle.dconf_words.specs.Hearing.{passed_on};

    ghost remaining = { passed_on R.remaining };

    fn read(&mut self, buf: &mut [u8]) -> io::Result<usize> {
        let got = self.stream.read(buf)?;
        if got <= buf.len() {
            self.hear(&buf[..got]);
        }
        Ok(got)
    }
}
