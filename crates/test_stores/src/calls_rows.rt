//! Tables of the calls of the library for C: whether a value is stored, what is saved of a file and said of it, which lines of a profile are good, and the
//! text of a value.
use crate::calls::{OPENED, layer};
use crate::questions::BytesOf;
use dconfdb_calls::{
    BadProfile, Fate, GoodLines, Salvaged, Unprinted, good_lines, is_stored, keyless_file,
    open_layer, salvaged_file, value_text,
};
use gv_text::{PrintFault, PrintFlaw};
use std::alloc::{AllocError, Global};
use std::fmt::Write;
use std::test::Fail;
use test_rows::{sample, table};

/// Whether the layer of `/k`, worth 5, has at a path the value of a type and these bytes.
pub(crate) fn stored(
    alloc: Global,
    value: &[u8],
    asked: &str,
    found: &mut String,
) -> Result<(), Fail> {
    let (path, of) = asked.split_once(' ').unwrap_or((asked, ""));
    let layer = layer(sample("plain"))?;
    match is_stored(alloc, &layer, path.as_bytes(), value, of.as_bytes()) {
        Ok(is) => Ok(write!(found, "{is}")?),
        Err(fault) => Err(Fail::new(fault.text())),
    }
}

const STORED: &str = "
05 00 00 00; /k i | true
06 00 00 00; /k i | false
05 00 00 00; /k u | false
05 00 00 00; /j i | false
05 00 00 00; k i | false
05 00 00 00; /k ? | false
";

/// How many keys and locks are saved of a file, and whether what is made is sound; or the number of the fault.
pub(crate) fn saved(alloc: Global, file: &[u8], found: &mut String) -> Result<(), AllocError> {
    match salvaged_file(alloc, file) {
        Ok(saved) => {
            let is_sound = open_layer(&saved.file, true).is_ok();
            write!(found, "{} {} {is_sound}", saved.keys, saved.locks)
        }
        Err(fault) => write!(found, "{}", fault.number()),
    }
}

const SAVED: &str = "
%locked | 1 1 true
-- without its values
%locked :160 | 0 1 true
'GVariant' | 2
";

/// What is said of a bad database of so many keys and locks, by whether it is the first, and whether it was replaced.
pub(crate) fn fate(alloc: Global, of: &[u8], found: &mut String) -> Result<(), AllocError> {
    let fate = Fate {
        keys: number_at(of, 0),
        locks: number_at(of, 1),
        is_first: number_at(of, 2) == 1,
        is_aside: number_at(of, 3) == 1,
    };
    found.push_str(&fate.text(alloc)?)
}

fn number_at(of: &[u8], i: usize) -> usize {
    match of.get(i) {
        Some(n) => usize::from(*n),
        None => 0,
    }
}

const FATES: &str = "
02 01 00 00 | ; kept 2 keys, 1 locks of it
00 01 00 00 | ; kept 0 keys, 1 locks of it
00 00 00 00 | ; kept nothing of it
-- the locks of the first database don't count
00 01 01 00 | ; kept nothing of it
02 01 01 00 | ; kept 2 keys, 0 locks of it
-- after the name that the file has now
00 01 01 01 | , and a new file was begun
0a 00 01 01 | , and a new file has the 10 keys that could be read
";

/// The number and the line of a fault.
fn place(bad: &BadProfile) -> (u32, usize) {
    (bad.fault.number(), bad.line)
}

/// How many databases the good lines of a profile name, the last one's name, and the first bad line.
fn show_lines(lines: &GoodLines<'_>, found: &mut String) -> Result<(), AllocError> {
    let last = match lines.names.last() {
        Some(last) => str::from_utf8(last.name).unwrap_or("no text"),
        None => "none",
    };
    let bad = lines.fault.as_ref().map(place);
    write!(found, "{} {last} {bad:?}", lines.names.len())
}

pub(crate) fn names(alloc: Global, text: &[u8], found: &mut String) -> Result<(), Fail> {
    match good_lines(alloc, text) {
        Ok(lines) => Ok(show_lines(&lines, found)?),
        Err(fault) => Err(Fail::new(fault.text())),
    }
}

const NAMES: &str = r#"
'user-db:me' 20 '#' 20 'mine' | 1 me None
ff 0a 'user-db:me' 0a 'oops' 0a 'system-db:site' | 2 site Some((8, 1))
'user-db:me' 0a 0a 'service-db:s' 0a 'user-db:you' 0a | 1 me Some((10, 3))
'user-db:me' 0a 'user-db:you' 0a 'file-db:/x' | 2 /x Some((11, 2))
'file-db:a' 0a 'system-db:b/c' 0a | 1 a Some((9, 2))
"#;

/// The sound database of no key.
const EMPTY: &[u8] = b"GVariant\0\0\0\0\0\0\0\0\x18\0\0\0\x3c\0\0\0\
    \0\0\0\0\x01\0\0\0\0\0\0\0\xd4\xb5\x02\0\xff\xff\xff\xff\x3c\0\0\0\x01\0L\0\0\0\0\0\0\0\0\0/";

/// Whether a file is sound, and whether it stands for the database of no key; or the number of the fault.
pub(crate) fn keyless(alloc: Global, file: &[u8], found: &mut String) -> Result<(), AllocError> {
    let is_sound = open_layer(file, true).is_ok();
    match keyless_file(alloc, file) {
        Ok(made) => write!(found, "{is_sound} {}", made.as_slice() == EMPTY),
        Err(fault) => write!(found, "{is_sound} {}", fault.number()),
    }
}

/// Of the first rows `/` is of each kind, and has contents that start somewhere.
const KEYLESS: &str = "
%plain :60 20=60 44=60 56=0 '/' 52=0 50=76 | true true
%plain :60 20=60 44=60 56=0 '/' 52=0 50=0 | false true
%plain :60 20=60 44=60 56=0 '/' 52=9 50=118 | false true
%plain :60 20=60 44=60 56=0 '/' 52=60 50=72 | false true
%plain :60 20=60 44=60 56=0 '/' 52=255 50=255 | false true
%plain | true 7
%buckets | true 7
%locked | true 7
%plain :40 | false 7
";

/// The printed text of bytes at a type, or the number of the fault.
pub(crate) fn value_shown(
    alloc: Global,
    bytes: &[u8],
    of: &str,
    found: &mut String,
) -> Result<(), AllocError> {
    match value_text(alloc, of.as_bytes(), bytes) {
        Ok(text) => found.push_str(&text),
        Err(why) => write!(found, "{}", why.number()),
    }
}

const VALUES: &str = r#"
05 00 00 00; i | 5
01 00 00 00 02 00 00 00; au | [uint32 1, 2]
61 27 62 00; s | "a'b"
05 00 00 00 00 'i'; v | <5>
00 00 00 00 00 00 00 00; d | 19
; ? | 14
; ii | 14
"#;

#[test]
fn each_row_of_the_calls_is_so(rt: HostRuntime) -> Result<(), Fail> {
    for (mut of, rows) in [
        (BytesOf::Stored, STORED),
        (BytesOf::Saved, SAVED),
        (BytesOf::Fate, FATES),
        (BytesOf::Names, NAMES),
        (BytesOf::Keyless, KEYLESS),
        (BytesOf::Opened, OPENED),
        (BytesOf::Value, VALUES),
    ] {
        table(rt.alloc(), &mut of, rows)?;
    }
    let (memory, deep) = (PrintFault::Memory, PrintFault::Fault(PrintFlaw::TooLarge));
    assert!(rt;
        (
            Unprinted::Value(memory).number(),
            Unprinted::Value(deep).number()
        ) == (1, 17)
    );
    Ok(())
}
