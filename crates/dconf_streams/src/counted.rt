//! Streams that count their failures. Nothing outside this file reaches a stream or its count but by one call of
//! `read_once` or of `write_once`, so no loop can hide a failure, blame a stream that had none, or try again.
ghost use Rattle.std.specs.Prelude.{◌≡◌, ◌<◌, ◌++◌, ◌∷◌, [], OnOk, OnErr, IfOk, length};
ghost use Rattle.std.specs.Io.{ReadsAtMost, WritesAtMost};
ghost use Rattle.std.specs.Io.KnownBytes.{ReadConsumes, WriteAppends};
ghost use Rattle.dconf_streams.specs.Transfers.{transfer_of, counts_of};
ghost use Rattle.dconf_streams.specs.Streams.{one_more};

use crate::trace::Trace;
use std::io;
use std::io::{Read, Write};

/// A reader or a writer, and how often it failed.
///
/// The count starts at 0, and rises by one with a read or a write that fails and with a write of at
/// least one byte that takes none. At `u64::MAX` it stays. No call here is tried again.
///
/// Clauses know its calls, and which bytes each moved, of any stream. That takes no memory and no time.
#[derive(Drop)]
pub struct Counted<S> {
    inner: S,
    failures: u64,
    trace: Trace,
}

impl<S> Counted<S> {
    ghost use Rattle.dconf_streams.specs.Counted.{transfers_of, failures_of, inner_of};

    /// The stream, with no failure yet.
    pub fn new(inner: S) -> Counted<S>
        ensures inner { inner_of result ≡ inner }
        ensures failures { failures_of result ≡ 0 }
        ensures transfers { transfers_of result ≡ [] }
    {
        Counted {
            inner,
            failures: 0,
            trace: Trace::new(),
        }
    }

    /// How often the stream failed.
    pub fn failures(&self) -> u64
        ensures { result ≡ failures_of self.now }
    {
        self.failures
    }

    /// Counts one failure more.
    fn count_failure(&mut self)
        ensures count { failures_of self.new ≡ one_more (failures_of self.old) }
        ensures inner { inner_of self.new ≡ inner_of self.old }
        ensures transfers { transfers_of self.new ≡ transfers_of self.old }
    {
        self.failures = self.failures.saturating_add(1);
    }

    /// Notes a call of this buffer, by what it returned.
    fn note(&mut self, buf: &[u8], returned: &io::Result<usize>)
        ensures transfers { transfers_of self.new ≡ transfers_of self.old ++ transfer_of (counts_of returned.now) buf.now ∷ [] }
        ensures failures { failures_of self.new ≡ failures_of self.old }
        ensures inner { inner_of self.new ≡ inner_of self.old }
    {
        match returned {
            Ok(n) => self.trace.note(&[*n], buf),
            Err(_) => self.trace.note(&[], buf),
        }
    }

    /// The stream, to look at what a writer in memory holds.
    pub fn get_ref(&self) -> &S
        ensures { result.now ≡ inner_of self.now }
    {
        &self.inner
    }
}

impl<R: Read> Counted<R> {
    ghost use Rattle.dconf_streams.specs.Counted.{transfers_of, failures_of, inner_of};

    /// One read. `Ok(0)` is the end, or no room in `buf`.
    pub fn read_once(&mut self, buf: &mut [u8]) -> io::Result<usize>
        ensures bound { ReadsAtMost result buf.new }
        ensures bytes { ReadConsumes (R.remaining (inner_of self.old))
            (R.remaining (inner_of self.new)) result buf.new }
        ensures transfer { transfers_of self.new ≡ transfers_of self.old ++ transfer_of (counts_of result) buf.new ∷ [] }
        ensures ok { OnOk result (failures_of self.new ≡ failures_of self.old) }
        ensures err { OnErr result (failures_of self.new ≡ one_more (failures_of self.old)) }
    {
        let got = self.inner.read(buf);
        self.note(buf, &got);
        if got.is_err() {
            self.count_failure();
        }
        got
    }
}

impl<W: Write> Counted<W> {
    ghost use Rattle.dconf_streams.specs.Counted.{transfers_of, failures_of, inner_of};

    /// One write, which may take fewer bytes than it is given.
    pub fn write_once(&mut self, buf: &[u8]) -> io::Result<usize>
        ensures bound { WritesAtMost result buf.now }
        ensures bytes { WriteAppends (W.contents (inner_of self.old))
            (W.contents (inner_of self.new)) result buf.now }
        ensures transfer { transfers_of self.new ≡ transfers_of self.old ++ transfer_of (counts_of result) buf.now ∷ [] }
        ensures took { IfOk result (λ n. 0 < n → failures_of self.new ≡ failures_of self.old) }
        ensures nothing_asked { length buf.now ≡ 0
            → OnOk result (failures_of self.new ≡ failures_of self.old) }
        ensures took_none { IfOk result (λ n. n ≡ 0 → 0 < length buf.now
            → failures_of self.new ≡ one_more (failures_of self.old)) }
        ensures err { OnErr result (failures_of self.new ≡ one_more (failures_of self.old)) }
    {
        let took = self.inner.write(buf);
        self.note(buf, &took);
        let failed = match &took {
            Ok(n) => *n == 0 && !buf.is_empty(),
            Err(_) => true,
        };
        if failed {
            self.count_failure();
        }
        took
    }
}
