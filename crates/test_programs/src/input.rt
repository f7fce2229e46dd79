//! The input of a command, read to its end, to its first failure, or until it is too long.
use crate::questions::RowsOf;
use crate::streams::Source;
use dconf_cli::{Counted, read_input};
use std::alloc::{AllocError, Global};
use std::fmt::Write;
use std::io::ErrorKind;
use std::test::Fail;
use test_rows::table;

/// The input of so many `#`, of which a read fails: `4100 2 Interrupted`.
pub(crate) fn source_of(text: &str) -> Result<Source<'static>, Fail> {
    let (marks, read) = text.split_once(' ').unwrap_or((text, ""));
    let (fails_in, kind) = read.split_once(' ').unwrap_or((read, ""));
    let kind = match kind {
        "Interrupted" => ErrorKind::Interrupted,
        "OutOfMemory" => ErrorKind::OutOfMemory,
        _ => ErrorKind::Other,
    };
    Ok(Source::marks(marks.parse()?, fails_in.parse()?, kind))
}

/// Adds how many `#` an input has left, and how often it failed.
pub(crate) fn add_rest(input: &Counted<Source<'_>>, found: &mut String) -> Result<(), AllocError> {
    let (left, failures) = (input.get_ref().marks, input.failures());
    write!(found, ", {left} left, {failures} failed")
}

/// What comes of reading an input.
pub(crate) fn input_read(alloc: Global, asked: &str, found: &mut String) -> Result<(), Fail> {
    let mut input = Counted::new(source_of(asked)?);
    match read_input(alloc, &mut input) {
        Ok(bytes) => write!(found, "{}", bytes.len())?,
        Err(fault) => write!(found, "{fault}")?,
    }
    Ok(add_rest(&input, found)?)
}

/// How many `#` an input has, which of its reads fails, and how; then how many are read, or why none is. The first read gives 4,096 bytes,
/// the second of 4,100 gives 4, and the third is the end.
const INPUTS: &str = "
4097 0 Other | 4097, 0 left, 0 failed
16777216 0 Other | 16777216, 0 left, 0 failed
16777217 0 Other | 16777217, 0 left, 0 failed
18446744073709551615 0 Other | 16777217, 18446744073692774398 left, 0 failed
4100 1 Interrupted | Device input, 4100 left, 1 failed
4100 2 Interrupted | Device input, 4 left, 1 failed
4100 3 Interrupted | Device input, 0 left, 1 failed
4100 1 OutOfMemory | Device input, 4100 left, 1 failed
4100 2 OutOfMemory | Device input, 4 left, 1 failed
4100 3 OutOfMemory | Device input, 0 left, 1 failed
4100 1 Other | Device input, 4100 left, 1 failed
4100 2 Other | Device input, 4 left, 1 failed
4100 3 Other | Device input, 0 left, 1 failed
";

#[test]
fn reads_the_input_as_far_as_it_may(rt: HostRuntime) -> Result<(), Fail> {
    let alloc = rt.alloc();
    let mut words = Counted::new(Source::bytes(b"[/]\nk=5\n"));
    assert!(rt; read_input(alloc, &mut words)?.as_slice() == b"[/]\nk=5\n".as_slice());
    assert!(rt; read_input(alloc, &mut words)?.is_empty() && words.failures() == 0);
    table(alloc, &mut RowsOf::Input, INPUTS)
}
