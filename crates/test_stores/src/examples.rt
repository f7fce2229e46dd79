//! The examples at the heads of the crates: `tools/guarantees --check` sees that the two are alike.
use dconf_compile::{Source, compile};
use dconf_disk::{Folder, MemoryFolder, replace};
use dconf_engine::Engine;
use dconf_files::{FileStamp, FileTime};
use dconf_layers::Layer;
use dconf_notes::{TurnLeaves, turn_read, turn_written};
use dconf_path::{KeyPath, LockPath, read_profile};
use dconf_store::{Change, value_after};
use dconf_times::{DconfdbTime as Time, is_overtaken, note_times};
use dconf_turn::{Answer, Outcome, Step, Turn};
use dconfdb_calls::{is_key_writable, open_layer, read};
use gv_tree::{Basic, Tree};
use gv_view::View;
use gvdb_alike::is_shaped_as;
use gvdb_read::Table;
use gvdb_write::{Map, write};
use keyfile_lines::{Cursor, LineFault, Said};
use std::alloc::Global;
use std::test::Fail;

fn of_dconf_path() -> Result<bool, Fail> {
    let name = KeyPath::parse("/org/desk/name")?;
    let lock = LockPath::parse("/org/desk/")?;
    Ok(lock.covers(name) && KeyPath::parse("org").is_err())
}

fn of_dconf_times(alloc: Global, noted: &[Time<'_>], set: &[Time<'_>]) -> Result<bool, Fail> {
    let kept = note_times(alloc, noted, set, 9, 1024)?;
    let is_older = is_overtaken(kept.as_slice(), b"/desk/size", 7, 9);
    Ok(is_older && !is_overtaken(kept.as_slice(), b"/desk/name", 7, 9))
}

fn of_keyfile_core(alloc: Global) -> Result<bool, Fail> {
    let rows = keyfile_core::read(alloc, b"[desk]\nsize=24\n")?;
    Ok(rows.iter().all(|row| row.line == 2 && row.group == "desk" && row.text == "24"))
}

fn of_keyfile_lines() -> bool {
    let mut cursor = Cursor::new(b"[desk]\nsize\nname='x'\n");
    let first = cursor.next_of_keyfile();
    let second = cursor.next_of_keyfile();
    let is_bad = matches!(second, Some(Said::Fault(LineFault::BadLine)));
    is_bad && matches!(first, Some(Said::Nothing))
}

fn of_gvdb_write(alloc: Global) -> Result<Vec<u8>, Fail> {
    let mut map = Map::new(alloc);
    map.insert(KeyPath::parse("/desk/size")?, &[24, 0, 0, 0, 0, b'i'])?;
    map.lock(LockPath::parse("/desk/")?)?;
    Ok(write(alloc, &map)?)
}

fn of_gvdb_read(file: &[u8]) -> Result<bool, Fail> {
    let table = Table::open(file)?;
    let size = table.find("/desk/size").and_then(View::as_i32);
    Ok(table.check().is_ok() && size == Some(24))
}

fn of_gvdb_alike(file: &[u8], before: &[u8]) -> Result<bool, Fail> {
    let (table, sound) = (Table::open(file)?, Table::open(before)?);
    Ok(is_shaped_as(table, sound) || table.check().is_ok())
}

fn of_dconf_compile(alloc: Global) -> Result<Vec<u8>, Fail> {
    let name = "site.keys";
    let bytes = b"[desk]\nsize=24\n";
    Ok(compile(alloc, &[Source { name, bytes }], &[])?)
}

fn of_dconf_engine(alloc: Global, site: &[u8]) -> Result<bool, Fail> {
    let layers = [Layer::open(None)?, Layer::open(Some(site))?];
    let mut engine = Engine::of_layers(alloc, true, &layers)?;
    let size = KeyPath::parse("/desk/size")?;
    engine.write(size, &Tree::basic(alloc, Basic::Int32(32))?)?;
    Ok(engine.read(size).and_then(View::as_i32) == Some(32) && engine.origin(size) == Some(0))
}

fn of_dconf_store(alloc: Global, user: &[u8], site: &[u8]) -> Result<bool, Fail> {
    let profile = read_profile(alloc, "user-db:me\nsystem-db:site\n")?;
    let (files, size) = ([Some(user), Some(site)], KeyPath::parse("/desk/size")?);
    if profile.databases().len() != files.len() {
        return Ok(false);
    }
    let value = value_after(alloc, &profile, &files, &[Change::Reset(size)], size)?;
    Ok(value.is_some())
}

fn of_dconfdb_calls(user: &[u8], site: &[u8]) -> Option<bool> {
    let layers = [open_layer(user, true).ok()?, open_layer(site, true).ok()?];
    let found = read(&layers, b"/desk/size")?;
    let is_own = found.origin == 0 && found.type_text == b"i".as_slice();
    Some(is_own && is_key_writable(&layers, true, b"/desk/size"))
}

fn of_dconf_disk(alloc: Global) -> Result<bool, Fail> {
    let mut folder = MemoryFolder::new(alloc);
    replace(alloc, &mut folder, "me.user", b"new")?;
    folder.crash(0)?;
    let bytes = folder.read(alloc, "me.user")?;
    Ok(bytes.is_some_and(|it| it.as_slice() == b"new".as_slice()))
}

/// Whether that is so of a reset of a directory, and of a later set.
fn of_times(alloc: Global) -> Result<bool, Fail> {
    let noted = Time {
        path: b"/desk/",
        when: 5,
        value: 0,
    };
    let set = Time {
        path: b"/desk/size",
        when: 8,
        value: 0,
    };
    of_dconf_times(alloc, &[noted], &[set])
}

fn of_dconf_notes(alloc: Global, turn: TurnLeaves<'_>, set: Time<'_>) -> Result<bool, Fail> {
    let mut room = vec![in alloc; 0; 1000]?;
    let len = turn_written(alloc, &[set], &turn, &mut room)?;
    let read = turn_read(alloc, &room[..len.min(1000)])?;
    Ok(read.set.len() == 1 && turn_read(alloc, b"dconfdb times 1")?.set.is_empty())
}

/// Whether that is so of a turn that leaves no file, and of one key that was set.
fn of_notes(alloc: Global) -> Result<bool, Fail> {
    let never = FileTime {
        seconds: 0,
        nanoseconds: 0,
    };
    let turn = TurnLeaves {
        moment: 7,
        time: 9,
        left: b"",
        name: b"user",
        file: FileStamp {
            device: 0,
            inode: 0,
            size: 0,
            written: never,
            touched: never,
            is_there: false,
        },
        is_synced: false,
    };
    let set = Time {
        path: b"/user/desk/size",
        when: 5,
        value: 3,
    };
    of_dconf_notes(alloc, turn, set)
}

fn of_dconf_turn() -> bool {
    let mut turn = Turn::begin();
    turn.answered(Answer::No(5));
    turn.next() == Step::Done(Outcome::Kept(5))
}

/// Whether those of the calls over two databases are so.
fn of_databases(alloc: Global, written: &[u8], compiled: &[u8]) -> Result<bool, Fail> {
    Ok(
        of_gvdb_read(written)?
            && of_gvdb_alike(written, compiled)?
            && of_gvdb_read(compiled)?
            && of_dconf_engine(alloc, compiled)?
            && of_dconf_store(alloc, written, compiled)?
            && of_dconfdb_calls(written, compiled) == Some(true),
    )
}

#[test]
fn each_example_is_so(rt: HostRuntime) -> Result<(), Fail> {
    let alloc = rt.alloc();
    let others = of_dconf_path()?
        && of_times(alloc)?
        && of_notes(alloc)?
        && of_keyfile_core(alloc)?
        && of_keyfile_lines()
        && of_dconf_disk(alloc)?
        && of_dconf_turn();
    let (written, compiled) = (of_gvdb_write(alloc)?, of_dconf_compile(alloc)?);
    assert!(rt; others && of_databases(alloc, &written, &compiled)?);
    Ok(())
}
