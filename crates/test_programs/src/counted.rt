//! Streams that count their failures.
use crate::streams::{Sink, Source, Streams, Writes};
use std::alloc::Global;
use std::io::ErrorKind;
use std::test::Fail;

/// What a writer of one byte a write, whose k-th write fails and all after it, says of no bytes and of five: whether each were written, and then
/// how often it failed.
fn told(alloc: Global, k: usize, kind: Option<ErrorKind>) -> Result<String, Fail> {
    let writes = Writes {
        most: 1,
        fails_in: k,
        kind,
        lasting: true,
    };
    let mut out = Sink::counted(alloc, writes);
    let nothing = out.put(b"").is_ok() && out.failures() == 0;
    let five = out.put(b"12345").is_ok();
    let failures = out.failures();
    Ok(format!(in alloc; "{nothing} {five} {failures}")?)
}

#[test]
fn counts_a_writer(rt: HostRuntime) -> Result<(), Fail> {
    let rows = [
        (6, None, "true true 0"),
        (5, None, "true false 1"),
        (5, Some(ErrorKind::Interrupted), "true false 1"),
        (1, Some(ErrorKind::BrokenPipe), "true false 1"),
    ];
    for (k, kind, wanted) in rows {
        let told = told(rt.alloc(), k, kind)?;
        assert!(rt; told.as_str() == wanted, "{k}: {told}");
    }
    Ok(())
}

#[test]
fn writes_into_memory_and_reads_to_the_end(rt: HostRuntime) -> Result<(), Fail> {
    let Streams {
        mut input,
        mut out,
        ..
    } = Streams::calm(rt.alloc(), Source::bytes(b"ab"));
    out.put(b"au ")?;
    out.put(b"[1]\n")?;
    assert_eq!(rt; out.write_once(b"!")?, 1);
    let taken = out.get_ref().taken.as_slice();
    assert!(rt; taken == b"au [1]\n!".as_slice() && out.failures() == 0);

    let mut buf = [0; 4];
    assert_eq!(rt; input.read_once(&mut buf)?, 2);
    assert!(rt; input.read_once(&mut buf)? == 0 && input.failures() == 0);
    Ok(())
}
