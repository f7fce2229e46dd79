//! What differs between two databases, in lines, as a keyfile and as JSON.
use dconf_compared::{Undumped, alone, changed, changes, difference, locks_of};
use dconf_compile::{Source, compile};
use dconf_json::difference_lines;
use dconf_layers::LentLayers;
use std::alloc::Global;
use std::test::Fail;
use test_rows::is_so;

const OLD: &str = "[a]\nkept=1\nnumber=1\ngone='x'\nlocked=true\n";

const NEW: &str = "[a]\nkept=1\nnumber=2\nlocked=true\nmore=[1, 2]\n";

const CHANGES: &str = "  /a/gone: 'x' -> unset
  /a/locked: true -> true, locked
  /a/more: unset -> [1, 2]
  /a/number: 1 -> 2
  lock /a/locked
";

const DIFFERENCE: &str = "# /a/gone: 'x' -> unset
# /a/locked: true -> true, locked
# /a/more: unset -> [1, 2]
# /a/number: 1 -> 2
# reset /a/gone
# lock /a/locked
[a]
more=[1, 2]
number=2
";

const LINES: &str =
    r#"{"path":"/a/gone","before":{"value":"'x'","locked":false},"after":{"value":null,"locked":false}}
{"path":"/a/locked","before":{"value":"true","locked":false},"after":{"value":"true","locked":true}}
{"path":"/a/more","before":{"value":null,"locked":false},"after":{"value":"[1, 2]","locked":false}}
{"path":"/a/number","before":{"value":"1","locked":false},"after":{"value":"2","locked":false}}
{"lock":"/a/locked","before":false,"after":true}
"#;

fn database(alloc: Global, keyfile: &str, locks: &str) -> Result<Vec<u8>, Fail> {
    let keyfile = Source {
        name: "keys",
        bytes: keyfile.as_bytes(),
    };
    let locks = Source {
        name: "locks",
        bytes: locks.as_bytes(),
    };
    Ok(compile(alloc, &[keyfile], &[locks])?)
}

/// What the two calls say of two databases.
fn compared(alloc: Global, old: &[u8], new: &[u8]) -> Result<(String, String), Fail> {
    let before = alone(alloc, Some(old))?;
    let after = alone(alloc, Some(new))?;
    let first = LentLayers::new(false, &before);
    let second = LentLayers::new(false, &after);
    let lines = changes(alloc, first, second)?;
    match difference(alloc, first, second) {
        Ok(keyfile) => Ok((lines, keyfile)),
        Err(Undumped::Path { .. }) => Err(Fail::new("a path is refused")),
        Err(Undumped::Memory) => Err(Fail::new("no memory")),
    }
}

#[test]
fn says_what_differs(rt: HostRuntime) -> Result<(), Fail> {
    let alloc = rt.alloc();
    let old = database(alloc, OLD, "")?;
    let new = database(alloc, NEW, "/a/locked\n")?;
    let (lines, keyfile) = compared(alloc, &old, &new)?;
    is_so(alloc, "changes", &lines, CHANGES)?;
    is_so(alloc, "difference", &keyfile, DIFFERENCE)?;
    let (lines, keyfile) = compared(alloc, &new, &new)?;
    is_so(alloc, "no changes", &lines, "")?;
    is_so(alloc, "no difference", &keyfile, "")
}

#[test]
fn says_what_differs_as_json(rt: HostRuntime) -> Result<(), Fail> {
    let alloc = rt.alloc();
    let old = database(alloc, OLD, "")?;
    let new = database(alloc, NEW, "/a/locked\n")?;
    let before = alone(alloc, Some(&old))?;
    let after = alone(alloc, Some(&new))?;
    let first = LentLayers::new(false, &before);
    let second = LentLayers::new(false, &after);
    is_so(
        alloc,
        "lines",
        &difference_lines(alloc, first, second)?,
        LINES,
    )?;
    is_so(alloc, "none", &difference_lines(alloc, first, first)?, "")?;
    let paths = changed(alloc, first, second)?;
    let locks = locks_of(alloc, second)?;
    let given = format!(in alloc; "{} {locks:?}", paths.len())?;
    is_so(alloc, "parts", &given, "4 [\"/a/locked\"]")
}
