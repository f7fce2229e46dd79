//! Writing all of some bytes.
ghost use Rattle.std.specs.Prelude.{◌≡◌, ℕ, [], IfErr, OnOk, OnErr, take};
ghost use Rattle.dconf_streams.specs.Streams.{one_more};

use crate::counted::Counted;
use std::io;
use std::io::{Error, ErrorKind, Write};

impl<W: Write> Counted<W> {
    ghost use Rattle.dconf_streams.specs.Counted.{Grew, failures_of};

    /// Writes all of the bytes, up to the first failure. A short write goes on with the rest, and
    /// nothing else is tried again. After an `Err` the stream holds a first part of the bytes. Of no
    /// bytes nothing is written, so that nothing fails.
    pub fn put(&mut self, bytes: &[u8]) -> io::Result<()>
        ensures written { OnOk result (Grew W.contents self.old self.new bytes.now) }
        ensures ok { OnOk result (failures_of self.new ≡ failures_of self.old) }
        ensures nothing { bytes.now ≡ [] → (self.new ≡ self.old) × IfErr result (λ _. ⊥) }
        ensures err { OnErr result (failures_of self.new ≡ one_more (failures_of self.old)) }
        ensures part { OnErr result ((n : ℕ) × Grew W.contents self.old self.new (take n bytes.now)) }
    {
        let mut rest = bytes;
        while !rest.is_empty() {
            let n = self.write_once(rest)?;
            if n == 0 {
                return Err(Error::from(ErrorKind::WriteZero));
            }
            rest = &rest[n..];
        }
        Ok(())
    }
}
