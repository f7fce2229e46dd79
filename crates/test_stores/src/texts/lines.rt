//! Keyfiles and lock files that are read on after a fault, and what a text is.
use crate::questions::BytesOf;
use keyfile_lines::{Cursor, LineFault, Said, TextKind, ToldLine};
use std::alloc::{AllocError, Global};
use std::fmt::Write;
use std::test::Fail;
use test_rows::table;

fn shown(text: &[u8]) -> &str {
    str::from_utf8(text).unwrap_or("no text")
}

/// The number of a line, and what is said of it: `-` nothing, a path and its value's text, a path alone, `?` that it locks nothing, or a
/// fault.
fn show_said(
    alloc: Global,
    line: usize,
    said: Said<'_>,
    found: &mut String,
) -> Result<(), AllocError> {
    match said {
        Said::Nothing => write!(found, " {line}:-"),
        Said::Sets { path, text } => {
            let path = path.text(alloc)?;
            write!(found, " {line}:{}={}", shown(&path), shown(text))
        }
        Said::Locks(path) => write!(found, " {line}:{}", shown(path)),
        Said::LocksNothing => write!(found, " {line}:?"),
        Said::Fault(fault) => write!(found, " {line}:{fault:?}"),
    }
}

/// What is said of each line of a keyfile of 16 lines at most.
pub(crate) fn keyfile_shown(
    alloc: Global,
    text: &[u8],
    found: &mut String,
) -> Result<(), AllocError> {
    let mut cursor = Cursor::new(text);
    for _ in 0..16 {
        if let Some(said) = cursor.next_of_keyfile() {
            show_said(alloc, cursor.line, said, found)?;
        }
    }
    Ok(())
}

/// The same of a lock file.
pub(crate) fn locks_shown(
    alloc: Global,
    text: &[u8],
    found: &mut String,
) -> Result<(), AllocError> {
    let mut cursor = Cursor::new(text);
    for _ in 0..16 {
        if let Some(said) = cursor.next_of_locks() {
            show_said(alloc, cursor.line, said, found)?;
        }
    }
    Ok(())
}

pub(crate) fn kind_shown(text: &[u8], found: &mut String) -> Result<(), AllocError> {
    let kind = TextKind::of(text);
    write!(found, "{kind:?} {}", kind.number())
}

const KEYFILES: &str = "
'[a]' 0a 'k' 3d '1' 0a | 1:- 2:/a/k=1
'[/]' 0a 'k' 3d '1' 0a 0a 0a '[a/b]' 0a 'k' 3d | 1:- 2:/k=1 3:- 4:- 5:- 6:/a/b/k=
-- the last line needs no line feed, and there is none after it
'[a]' 0a 'k' 3d '1' | 1:- 2:/a/k=1
:0 |
0a | 1:-
-- blanks, and carriage returns at the ends of lines
'[a]' 0d 0a 'k' 3d '1' 0d 0a | 1:- 2:/a/k=1
20 09 '[a]' 20 0d 0a 09 'k' 20 3d 09 '1' 20 0a '#' 0a 20 '#k' 0a | 1:- 2:/a/k=1 3:- 4:-
-- each fault, and the lines after it
'k' 3d '1' 0a '[a]' 0a 'k' 3d '1' | 1:NoGroup 2:- 3:/a/k=1
'[a]' 0a 'k' 0a 'k' 3d '1' | 1:- 2:BadLine 3:/a/k=1
'[a]' 0a 'k' 3d 00 0a 'k' 3d '1' | 1:- 2:BadLine 3:/a/k=1
'[a]' 0a 3d '1' 0a 'k/' 3d '1' 0a 'k[' 3d '1' 0a 'k' 3d '1' | 1:- 2:BadKeyName 3:BadKeyName 4:BadKeyName 5:/a/k=1
'[a]' 0a ff 0a 'k' 3d c3 0a '#' e9 0a 'k' 3d '1' | 1:- 2:NotUtf8 3:NotUtf8 4:NotUtf8 5:/a/k=1
'[@{65530:a}]' 0a 'bcdef' 3d '1' 0a '[a]' 0a 'k' 3d '1' | 1:- 2:TooLong 3:- 4:/a/k=1
-- what stands below a line that names no group is left out, but for what is wrong with it
'[a]' 0a '[b//c]' 0a 'k' 3d '1' 0a 'k/' 3d '1' 0a 'k' 0a '[d' 0a 'k' 3d '1' | 1:- 2:BadGroup 3:- 4:BadKeyName 5:BadLine 6:BadGroup 7:-
'[]' 0a 'k' 3d '1' 0a '[a]' 0a 'k' 3d '1' | 1:BadGroup 2:- 3:- 4:/a/k=1
'[a' 00 ']' 0a 'k' 3d '1' 0a '[' e9 ']' 0a 'k' 3d '2' | 1:BadGroup 2:- 3:NotUtf8 4:-
";

const LOCK_FILES: &str = "
'/a/k' 0a '/a/' 0a '/' | 1:/a/k 2:/a/ 3:/
'#x' 0a 0a 20 0d 0a 20 '#' 0a '/a' 0a | 1:- 2:- 3:- 4:- 5:/a
-- a lock without its slash, or with a blank before it
'a' 0a 20 '/a' 0a '[a]' 0a '/a' | 1:? 2:? 3:? 4:/a
'//' 0a '/a//b' 0a '/a' 00 0a '/@{65535:a}' 0a '/a' | 1:LockNotKey 2:LockNotKey 3:LockNotKey 4:LockNotKey 5:/a
ff 0a '/' e9 0a '/a' | 1:NotUtf8 2:NotUtf8 3:/a
";

const KINDS: &str = "
'#' 0a 20 '[a]' | Keyfile 0
'x' 0a '[' 0a '/a' | Keyfile 0
ff 0a '[a]' | Keyfile 0
'#' 0a '/a' 0a '[a]' | Locks 1
20 '/a' 0a '/b' | Locks 1
'#' 0a 20 'user-db:me' 0a '[a]' | Profile 2
'system-db:a' | Profile 2
'file-db:a' | Profile 2
'service-db:a' | Profile 2
:0 | Empty 3
'#x' 0a 0a 20 0d | Empty 3
'x' 0a 'user-db:me' | Neither 4
ff 0a 'user-db:me' | Neither 4
'x' | Neither 4
'#' 00 0a '[a]' | Neither 4
";

/// Whether C is told this of what is said.
fn is_told(alloc: Global, said: Said<'_>, kind: u32, path: &str, text: &str) -> bool {
    let told = ToldLine::of(said);
    let is_path = match told.path.text(alloc) {
        Ok(it) => it.as_slice() == path.as_bytes(),
        Err(_) => false,
    };
    told.kind == kind && is_path && told.text == text.as_bytes()
}

#[test]
fn lines_are_read_on_after_a_fault(rt: HostRuntime) -> Result<(), Fail> {
    let alloc = rt.alloc();
    for (mut of, rows) in [
        (BytesOf::Keyfile, KEYFILES),
        (BytesOf::LockFile, LOCK_FILES),
        (BytesOf::TextKind, KINDS),
    ] {
        table(alloc, &mut of, rows)?;
    }
    assert!(rt; is_told(alloc, Said::Nothing, 0, "", ""));
    assert!(rt; is_told(alloc, Said::Locks(b"/a/"), 2, "/a/", ""));
    let idle = "the line locks nothing: it doesn't start with '/'";
    assert!(rt; is_told(alloc, Said::LocksNothing, 3, "", idle));
    let fault = "LockNotKey: the line starts with '/' and is not a path";
    assert!(rt; is_told(alloc, Said::Fault(LineFault::LockNotKey), 3, "", fault));
    Ok(())
}
