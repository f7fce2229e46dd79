//! What a table has of a name and of an item's number, by each call, also where the file is unsound: the program reads no such file.
use crate::questions::BytesOf;
use gv_types::Steps;
use gv_view::View;
use gvdb_alike::{differing_items, differing_span, has_elsewhere, is_shaped_as};
use gvdb_read::{HashedName, Table, hash, hash_with};
use std::alloc::AllocError;
use std::fmt::Write;
use std::test::Fail;
use test_rows::{bytes_of, number, sample, table};

/// Whether each other call finds these bytes of a name too.
fn is_found_by_all(table: Table<'_>, name: &str, bytes: Option<&[u8]>) -> bool {
    table.find_hashed_bytes(HashedName::new(name.as_bytes())) == bytes
        && table.find(name).is_some() == bytes.is_some()
        && table.has(name) == bytes.is_some()
}

/// The names in the list of `/`, each with a blank before it; `none` where there is no list.
fn show_list(table: Table<'_>, found: &mut String) -> Result<(), AllocError> {
    let Some(names) = table.list("/") else {
        return write!(found, " none");
    };
    for name in names {
        write!(found, " {}", str::from_utf8(name).unwrap_or("no text"))?;
    }
    Ok(())
}

/// What a search for a name finds with its steps counted, whether it took so many at most, the bytes, and the names in the list of `/`.
fn show_search(
    table: Table<'_>,
    name: &str,
    most: u128,
    found: &mut String,
) -> Result<(), AllocError> {
    let mut steps = Steps::new();
    let counted = table.find_counted(name, &mut steps).and_then(View::as_i32);
    let bytes = table.find_bytes(name);
    let ended = steps.count() <= most && is_found_by_all(table, name, bytes);
    write!(found, " {counted:?} {bytes:?} {ended}")?;
    show_list(table, found)
}

/// What a search for a name finds in a file, in so many steps at most.
pub(crate) fn searched(file: &[u8], asked: &str, found: &mut String) -> Result<(), Fail> {
    let (name, most) = asked.split_once("; ").unwrap_or((asked, ""));
    let table = Table::open(file)?;
    Ok(show_search(table, name, u128::from(number(most)), found)?)
}

const SEARCHES: &str = "
%plain; /k; 6 | Some(5) Some([5, 0, 0, 0, 0, 105]) true k
%buckets; /k; 3 | Some(5) Some([5, 0, 0, 0, 0, 105]) true k
%locked; /k; 6 | Some(5) Some([5, 0, 0, 0, 0, 105]) true k
%buckets; /j; 0 | None None true k
%plain; /; 6 | None None true k
%plain; ; 6 | None None true k
%plain; k; 6 | None None true k
%plain; /k/; 6 | None None true k
%locked; .locks; 6 | None None true k
-- no bloom words, and a shift; no items either
%plain 27=40; /k; 6 | Some(5) Some([5, 0, 0, 0, 0, 105]) true k
%plain :32 27=40 20=32 28=0; /k; 0 | None None true none
-- each of the two items is the other's parent
%plain 40=1 41=0 42=0 43=0; /k; 6 | None None true none
-- a file that ends before its last value does, and another hash
%plain :101; /k; 6 | None None true k
%plain 60=190; /k; 6 | None None true k
-- a list of no item
%plain 88=2; /k; 6 | Some(5) Some([5, 0, 0, 0, 0, 105]) true
";

/// The full name of an item, or `none` where it has none that fits this room.
fn name_in<'a>(table: Table<'_>, i: u32, room: &'a mut [u8]) -> &'a str {
    let len = table.name_len(i, room.len()).unwrap_or(usize::MAX);
    let Some(name) = room.get_mut(..len) else {
        return "none";
    };
    if !table.write_name(i, name) {
        return "another";
    }
    str::from_utf8(name).unwrap_or("no text")
}

/// An item: its full name of six bytes at most, whether it is named so, its parent, key, kind and content, and how many items its
/// table has.
fn show_item(table: Table<'_>, i: u32, found: &mut String) -> Result<(), AllocError> {
    let mut room = [0; 6];
    let name = name_in(table, i, &mut room);
    let named = table.has_name(i, name) && !table.has_name(i, "/j");
    write!(found, " {name} {named}")?;
    if let Some(item) = table.item(i) {
        let (key, kind) = (item.key, char::from(item.kind));
        write!(found, " {:?} {key:?} {kind} {:?}", item.parent, item.bytes)?;
    }
    let items = table.table_at(i).map(Table::n_items);
    write!(found, " {items:?}")
}

/// An item of a file.
pub(crate) fn item_shown(file: &[u8], i: &str, found: &mut String) -> Result<(), Fail> {
    Ok(show_item(Table::open(file)?, number(i), found)?)
}

const ITEMS: &str = "
%plain; 0 | / true None Some([47]) L Some([1, 0, 0, 0]) None
%plain; 1 | /k true Some(0) Some([107]) v Some([5, 0, 0, 0, 0, 105]) None
%locked; 1 | / true None Some([47]) L Some([2, 0, 0, 0]) None
%locked; 2 | /k true Some(1) Some([107]) v Some([5, 0, 0, 0, 0, 105]) None
%locked; 3 | none false None
%locked; 4294967295 | none false None
%buckets; 1 | /k true Some(0) Some([107]) v Some([5, 0, 0, 0, 0, 105]) None
-- each is the other's parent
%plain 40=1 41=0 42=0 43=0; 0 | none false Some(1) Some([47]) L Some([1, 0, 0, 0]) None
%plain 40=1 41=0 42=0 43=0; 1 | none false Some(0) Some([107]) v Some([5, 0, 0, 0, 0, 105]) None
-- a key and a pointer that end past the file
%plain 68=102 76=97; 1 | none false Some(0) None v None None
";

/// Whether one is seen to be sound by the other; which items have other values, if their names are seen to be the same; and how many
/// of them the other one has anywhere.
fn show_tables(table: Table<'_>, other: Table<'_>, found: &mut String) -> Result<(), AllocError> {
    write!(found, " {} ", is_shaped_as(table, other))?;
    match differing_items(table, other) {
        Some(items) => write!(found, "{}..{}", items.first, items.end)?,
        None => found.push_str("none")?,
    }
    let mut there = 0u32;
    for i in 0..table.n_items() {
        there = there.saturating_add(u32::from(has_elsewhere(table, i, other)));
    }
    write!(found, " {there}")
}

/// Where two files differ, and what is seen of their tables.
pub(crate) fn alike(file: &[u8], other: &[u8], found: &mut String) -> Result<(), Fail> {
    match differing_span(file, other) {
        Some(span) => write!(found, "{}..={}", span.first, span.last)?,
        None => found.push_str("none")?,
    }
    Ok(show_tables(Table::open(file)?, Table::open(other)?, found)?)
}

const ALIKE: &str = "
%plain; %plain | none true 0..0 2
%plain 96=6; %plain | 96..=96 true 1..2 1
%plain; %buckets | 20..=109 true 0..0 2
%buckets; %plain | 20..=109 true 0..0 2
%plain :32 20=32 28=0; %plain :32 20=32 28=0 | none true 0..0 0
-- a table of locks is asked anew
%locked; %locked | none false 0..0 3
-- another hash, key, number in a list, kind, and bucket; a bloom word that rules the key out, and a value past the file
%plain 36=0; %plain | 36..=36 false 0..0 1
%plain 85=108; %plain | 85..=85 false none 1
%plain 88=0; %plain | 88..=88 false 0..0 2
%plain 88=0 96=6; %plain | 88..=96 false 1..2 1
%plain 74=76; %plain | 74..=74 false 1..2 1
%plain 32=1; %plain | 32..=32 false 0..0 2
%buckets 32=0 33=0 34=0 35=0; %buckets | 32..=35 false 0..0 2
%plain 80=103; %plain | 80..=80 false 1..2 1
-- the other's item is no list of numbers
%plain; %plain 56=89 | 56..=56 false 0..0 2
-- more and fewer items
%plain; %locked | 20..=170 false none 2
%plain :32 20=32 28=0; %plain | 20..=101 false none 0
";

/// Whether the item `.locks` is a table of one lock, `/k`, which has no text. A table of half an item is none.
fn has_its_lock(file: &[u8], half: &[u8]) -> Result<bool, Fail> {
    let (table, half) = (Table::open(file)?, Table::open(half)?);
    Ok(match (table.table(".locks"), table.table_at(0)) {
        (Some(locks), Some(at)) => {
            locks.n_items() == 1
                && locks.file() == file
                && locks.has("/k")
                && !locks.has("/j")
                && at.find("/k").and_then(View::as_str) == Some("")
                && !locks.has_directory_value()
                && half.table_at(0).is_none()
        }
        _ => false,
    })
}

/// Whether a table lies where its header says, and its last item's numbers are those of its record.
fn lies_there(file: &[u8]) -> Result<bool, Fail> {
    let table = Table::open(file)?;
    if table.n_items() != 2 {
        return Ok(false);
    }
    let item = table.raw.stored(1);
    Ok(
        table.raw.bounds() == (24, 84)
            && item.key_start == 85
            && item.key_size == 1
            && item.end == 102,
    )
}

/// Whether bytes are hashed as signed numbers, in one call and byte by byte.
fn are_hashed() -> bool {
    hash(b"") == 5381
        && hash(b"/") == 177_620
        && hash(b"/k") == 5_861_567
        && hash("\u{e9}".as_bytes()) == 5_857_809
        && hash_with(hash_with(hash(&[]), b'/'), b'k') == hash(b"/k")
}

#[test]
fn tables_are_searched_and_items_have_names(rt: HostRuntime) -> Result<(), Fail> {
    for (mut of, rows) in [
        (BytesOf::Searched, SEARCHES),
        (BytesOf::Item, ITEMS),
        (BytesOf::Alike, ALIKE),
    ] {
        table(rt.alloc(), &mut of, rows)?;
    }
    let half = bytes_of(rt.alloc(), "%locked 56=155")?;
    assert!(rt;
        has_its_lock(sample("locked"), &half)? && are_hashed() && lies_there(sample("plain"))?
    );
    Ok(())
}
