//! The streams of a run, which fail at a call that is named, and a folder that refuses every read.
use dconf_cli::Counted;
use dconf_folders::{Folder, FolderFault, Old};
use std::alloc::Global;
use std::io;
use std::io::{Error, ErrorKind, Read, Write};

/// An input of these bytes and then of so many `#`, whose k-th read fails. With 0 none does.
#[derive(Drop)]
pub(crate) struct Source<'a> {
    pub(crate) bytes: &'a [u8],
    pub(crate) marks: usize,
    fails_in: usize,
    kind: ErrorKind,
}

impl<'a> Source<'a> {
    pub(crate) fn bytes(bytes: &'a [u8]) -> Source<'a> {
        Source {
            bytes,
            marks: 0,
            fails_in: 0,
            kind: ErrorKind::Other,
        }
    }

    pub(crate) fn marks(marks: usize, fails_in: usize, kind: ErrorKind) -> Source<'a> {
        Source {
            bytes: b"",
            marks,
            fails_in,
            kind,
        }
    }
}

impl Read for Source<'_> {
    fn read(&mut self, buf: &mut [u8]) -> io::Result<usize> {
        if self.fails_in == 1 {
            self.fails_in = 0;
            return Err(Error::from(self.kind));
        }
        self.fails_in = self.fails_in.saturating_sub(1);
        if !self.bytes.is_empty() {
            return self.bytes.read(buf);
        }
        let n = buf.len().min(self.marks);
        buf[..n].fill(b'#');
        self.marks -= n;
        Ok(n)
    }
}

/// How a stream takes what is written to it.
#[derive(Clone, Copy)]
pub(crate) struct Writes {
    /// The most bytes that a write takes.
    pub(crate) most: usize,
    /// Which write fails, the first counted as 1. With 0 none does.
    pub(crate) fails_in: usize,
    /// How it fails. With `None` it takes nothing.
    pub(crate) kind: Option<ErrorKind>,
    /// Whether all writes after it fail too.
    pub(crate) lasting: bool,
}

/// What was written.
#[derive(Drop)]
pub(crate) struct Sink {
    pub(crate) taken: Vec<u8>,
    writes: Writes,
}

impl Sink {
    pub(crate) fn counted(alloc: Global, writes: Writes) -> Counted<Sink> {
        let taken = Vec::new(alloc);
        Counted::new(Sink { taken, writes })
    }
}

impl Write for Sink {
    fn write(&mut self, buf: &[u8]) -> io::Result<usize> {
        if self.writes.fails_in == 1 {
            if !self.writes.lasting {
                self.writes.fails_in = 0;
            }
            return match self.writes.kind {
                Some(kind) => Err(Error::from(kind)),
                None => Ok(0),
            };
        }
        self.writes.fails_in = self.writes.fails_in.saturating_sub(1);
        let part = &buf[..buf.len().min(self.writes.most)];
        self.taken.extend_from_slice(part)?;
        Ok(part.len())
    }

    fn flush(&mut self) -> io::Result<()> {
        Ok(())
    }
}

/// What a run reads, and what takes its out and its err.
#[derive(Drop)]
pub(crate) struct Streams<'a> {
    pub(crate) input: Counted<Source<'a>>,
    pub(crate) out: Counted<Sink>,
    pub(crate) err: Counted<Sink>,
}

impl<'a> Streams<'a> {
    /// Each write takes all.
    pub(crate) fn calm(alloc: Global, source: Source<'a>) -> Streams<'a> {
        let calm = Writes {
            most: usize::MAX,
            fails_in: 0,
            kind: None,
            lasting: false,
        };
        Streams::new(alloc, source, calm, calm)
    }

    pub(crate) fn new(alloc: Global, source: Source<'a>, out: Writes, err: Writes) -> Streams<'a> {
        Streams {
            input: Counted::new(source),
            out: Sink::counted(alloc, out),
            err: Sink::counted(alloc, err),
        }
    }
}

/// A folder whose every read is refused, but not by its device.
#[derive(Drop)]
pub(crate) struct Refusing {
    pub(crate) fault: FolderFault,
}

impl Folder for Refusing {
    ghost use Rattle.std.specs.Prelude.{false, true};

    ghost past = { λ _ _. ⊥ };

    ghost honest = { λ _. true };

    ghost holds_turn = { λ _. true };

    ghost failed = { λ _. 0 };

    ghost hides = { false };

    fn failures(&self) -> u64 {
        0
    }

    fn read(&mut self, _alloc: Global, _name: &str) -> Result<Option<Vec<u8>>, FolderFault> {
        match self.fault {
            FolderFault::TooBig => Err(FolderFault::TooBig),
            _ => Err(FolderFault::Memory),
        }
    }

    fn take_turn(&mut self) -> Result<(), FolderFault> {
        Ok(())
    }

    fn look(&mut self, _name: &str) -> Result<Old, FolderFault> {
        Ok(Old::Absent)
    }

    fn create(&mut self, _alloc: Global, _name: &str, _bits: u32) -> Result<(), FolderFault> {
        Ok(())
    }

    fn append(&mut self, _name: &str, _bytes: &[u8]) -> Result<(), FolderFault> {
        Ok(())
    }

    fn sync(&mut self, _name: &str, _bits: Option<u32>) -> Result<(), FolderFault> {
        Ok(())
    }

    fn set_aside(&mut self, _alloc: Global, _name: &str) -> Result<(), FolderFault> {
        Ok(())
    }

    fn rename(&mut self, _from: &str, _to: &str) -> Result<(), FolderFault> {
        Ok(())
    }

    fn remove(&mut self, _name: &str) -> bool {
        true
    }

    fn sync_folder(&mut self) -> Result<(), FolderFault> {
        Ok(())
    }
}
