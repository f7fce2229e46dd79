//! Each call of an engine and of layers, where there is memory enough: over a user's database of one key, and a site's that locks it. What
//! is seen through layers is in tests/program.d.
use dconf_differences::{differing, differing_first, differs, show_same};
use dconf_engine::{ChangeFault, Engine};
use dconf_layers::{Layer, LentLayers};
use dconf_path::{DirPath, KeyPath, Profile, read_profile};
use gv_tree::{Basic, Tree};
use gv_types::TypeStr;
use gv_view::View;
use gvdb_write::WriteFault;
use std::alloc::{AllocError, Global};
use std::test::Fail;
use test_rows::sample;

/// The engine of a profile.
fn opened(alloc: Global, profile: &Profile<'_>) -> Result<Engine<'static>, Fail> {
    let files = [Some(sample("plain")), Some(sample("locked"))];
    if profile.databases().len() != files.len() {
        return Err(Fail::new("a profile has as many files as databases"));
    }
    Ok(Engine::open(alloc, profile, &files)?)
}

/// Whether a path has this value, of the database of this number, which locks it if it isn't the user's.
fn is_seen(
    engine: &Engine<'_>,
    path: KeyPath<'_>,
    value: Option<i32>,
    origin: Option<usize>,
) -> bool {
    engine.read(path).and_then(View::as_i32) == value
        && engine.origin(path) == origin
        && engine.is_locked(path) == (origin == Some(1))
}

/// Sets and resets the key of a row, and sets it at last. Whether that is seen each time.
fn is_changed(
    engine: &mut Engine<'_>,
    rows: &[(KeyPath<'_>, Tree)],
    directory: DirPath<'_>,
) -> Result<bool, ChangeFault> {
    let [(path, value)] = rows else {
        return Ok(false);
    };
    engine.write(*path, value)?;
    let is_set = is_seen(engine, *path, Some(7), Some(0));
    engine.reset(*path)?;
    let is_reset = is_seen(engine, *path, None, None);
    engine.load(rows, false)?;
    engine.reset_dir(directory)?;
    let is_reset_below = is_seen(engine, *path, None, None);
    engine.load(rows, false)?;
    Ok(is_set && is_reset && is_reset_below && is_seen(engine, *path, Some(7), Some(0)))
}

/// Whether rows that are set already, loaded once more, make the same file.
fn is_loaded(engine: &Engine<'_>, rows: &[(KeyPath<'_>, Tree)]) -> Result<bool, Fail> {
    let file = engine.loaded_values(rows, false)?.write()?;
    Ok(file.as_slice() == engine.save()?.as_slice())
}

/// Whether both databases have a value at a path, and the site locks it by its own.
fn is_explained(engine: &Engine<'_>, path: KeyPath<'_>) -> bool {
    engine.value_in(1, path).and_then(View::as_i32) == Some(5)
        && engine.lock_in(1, path) == Some(path.as_str())
        && engine.value_in(0, path).is_some()
        && engine.lock_in(0, path).is_none()
}

/// Whether the site's key is seen and locked, and the user may write.
fn is_open(engine: &Engine<'_>, path: KeyPath<'_>) -> bool {
    engine.is_writable()
        && is_seen(engine, path, Some(5), Some(1))
        && engine.read_default(path).and_then(View::as_i32) == Some(5)
        && is_explained(engine, path)
}

/// Whether the root has a directory, and a key that is locked.
fn is_listed(alloc: Global, engine: &Engine<'_>, root: DirPath<'_>) -> Result<bool, AllocError> {
    let names = engine.list(alloc, root)?;
    let locks = engine.locks(alloc, root)?;
    Ok(match (names.as_slice(), locks.as_slice()) {
        ([first, last], [lock]) => {
            first.as_str() == "a/" && last.as_str() == "k" && lock.as_str() == "/k"
        }
        _ => false,
    })
}

/// Whether both calls that save it give the same file, of two keys, which is opened unasked.
fn is_saved(engine: Engine<'_>) -> Result<bool, WriteFault> {
    let file = engine.save()?;
    let again = engine.into_saved()?;
    let layer = Layer::of_sound(file.as_slice());
    let is_opened = layer.get("/a/j").is_some() && layer.get("/a/k").is_none();
    Ok(again.as_slice() == file.as_slice() && file.len() == 182 && is_opened)
}

/// Whether an engine is changed and seen.
fn is_followed(alloc: Global, engine: &mut Engine<'_>) -> Result<bool, Fail> {
    let (path, locked) = (KeyPath::parse("/a/j")?, KeyPath::parse("/k")?);
    let (below, root) = (DirPath::parse("/a/")?, DirPath::parse("/")?);
    let rows = [(path, Tree::basic(alloc, Basic::Int32(7))?)];
    let is_changed = is_changed(engine, &rows, below)?;
    let is_seen = is_open(engine, locked) && is_listed(alloc, engine, root)?;
    Ok(is_changed && is_seen && is_loaded(engine, &rows)?)
}

/// Whether an engine is changed, seen and saved.
fn is_right(alloc: Global, mut engine: Engine<'_>) -> Result<bool, Fail> {
    let is_seen = is_followed(alloc, &mut engine)?;
    let is_saved = is_saved(engine)?;
    Ok(is_seen && is_saved)
}

/// Whether one key differs between this layer and none, and none between two that are alike.
fn are_told_apart(
    alloc: Global,
    layer: Layer<'_>,
    some: LentLayers<'_, '_>,
    none: LentLayers<'_, '_>,
) -> Result<bool, Fail> {
    let path = KeyPath::parse("/k")?;
    let apart = differing(alloc, some, none, 1)?.len();
    let after = differing_first(alloc, none, layer)?.len();
    Ok(
        apart == 1
            && after == 1
            && differs(alloc, some, none, path)?
            && !differs(alloc, some, some, path)?
            && differing(alloc, some, some.prefix(1), 1)?.is_empty(),
    )
}

/// Whether a layer lends its one value, which is seen to be in it and in what opens after it.
fn is_lent(layer: Layer<'_>, lent: LentLayers<'_, '_>) -> Result<bool, Fail> {
    let after = layer.open_after(Some(sample("plain")))?;
    let Some(entry) = after.entries().next() else {
        return Ok(false);
    };
    Ok(
        entry.is_in(layer)
            && after.table().n_items() == 2
            && lent.read(KeyPath::parse("/k")?).and_then(View::as_i32) == Some(5)
            && lent.place_of_bytes(b"/k").is_some()
            && lent.place_of_bytes(b"k").is_none(),
    )
}

/// Whether a value shows the same as itself, and another than a longer one.
fn shows_itself(alloc: Global) -> Result<bool, Fail> {
    let of = TypeStr::parse("s")?;
    let (first, second) = (View::new(of, b"a\0"), View::new(of, b"ab\0"));
    Ok(show_same(alloc, first, first)? && !show_same(alloc, first, second)?)
}

#[test]
fn an_engine_is_changed_seen_and_saved(rt: HostRuntime) -> Result<(), Fail> {
    let alloc = rt.alloc();
    let layer = Layer::open(Some(sample("plain")))?;
    let (some, none) = ([layer], [Layer::open(None)?]);
    let (some, none) = (LentLayers::new(true, &some), LentLayers::new(true, &none));
    assert!(rt; are_told_apart(alloc, layer, some, none)? && shows_itself(alloc)?);
    assert!(rt; is_lent(layer, some)?);
    let engine = opened(alloc, &read_profile(alloc, "user-db:me\nsystem-db:site")?)?;
    assert!(rt; is_right(alloc, engine)?);
    Ok(())
}
