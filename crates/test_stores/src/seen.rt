//! What is seen while edits wait, and who is told of what: over a first layer that has 5 at `/k`, and a second that has the same and locks it.
use crate::calls::layer;
use dconf_layers::{Layer, LentLayers};
use dconf_seen::{
    Found, Known, Own, Shown, Word, covers, found_by, found_number, may_be_made, meets, own_by,
    shown_as,
};
use dconf_texts::{
    PathKind, cause_number, finding_line, is_glibs, is_short, kind_at, kind_below, kind_of,
    line_behind, number_of_kind, refused_as, wanted_kind,
};
use dconf_told::{
    DconfdbFileSeen, DconfdbKeyAsked, DconfdbView, DconfdbWaits, are_seen_alike, is_changed,
    may_write, own_keys, own_texts, relocked, relocked_texts, remembered, remembered_texts, told,
    told_texts,
};
use std::alloc::{AllocError, Global};
use std::test::Fail;
use test_rows::sample;

const NONE: DconfdbWaits<'_> = DconfdbWaits {
    value: b"",
    type_text: b"",
    waits: false,
    sets: false,
};

/// An edit that sets a number.
fn sets(value: &[u8]) -> DconfdbWaits<'_> {
    DconfdbWaits {
        value,
        type_text: b"i",
        waits: true,
        sets: true,
    }
}

const FIVE: &[u8] = b"\x05\0\0\0";

const SIX: &[u8] = b"\x06\0\0\0";

/// Whether the list has just this text, or none.
fn are_these(list: Result<Vec<String>, AllocError>, text: &str) -> bool {
    match list {
        Ok(list) => {
            list.len() == usize::from(!text.is_empty()) && list.iter().all(|it| it.as_str() == text)
        }
        Err(_) => false,
    }
}

/// Whether the texts are these bytes.
fn are_bytes(texts: Result<Vec<u8>, AllocError>, wanted: &[u8]) -> bool {
    match texts {
        Ok(texts) => texts.as_slice() == wanted,
        Err(_) => false,
    }
}

/// What is asked of `/k`, beside an edit that waited, and one that waits.
fn asked<'a>(before: DconfdbWaits<'a>, after: DconfdbWaits<'a>) -> DconfdbKeyAsked<'a> {
    DconfdbKeyAsked {
        path: b"/k",
        type_text: b"",
        before,
        after,
    }
}

/// Whether `/k` is told, if it was set and is set to these.
fn is_told(
    alloc: Global,
    layers: &[Layer<'_>],
    before: DconfdbWaits<'_>,
    after: DconfdbWaits<'_>,
) -> bool {
    let lent = LentLayers::new(true, layers);
    are_these(told(alloc, lent, lent, true, &[asked(before, after)]), "/k")
}

/// Whether who listens is told of what is seen otherwise, and of nothing else.
fn are_told(alloc: Global, own: &[Layer<'_>], both: &[Layer<'_>]) -> bool {
    let (none, first) = (LentLayers::new(true, &[]), LentLayers::new(true, own));
    are_these(told(alloc, none, first, false, &[]), "/k")
        && are_these(told(alloc, first, first, false, &[]), "")
        && are_these(
            told(alloc, first, LentLayers::new(true, both), false, &[]),
            "",
        )
        && are_bytes(told_texts(alloc, none, first, false, &[]), b"/k\0")
        && is_told(alloc, own, sets(SIX), NONE)
        && is_told(alloc, own, sets(SIX), sets(FIVE))
        && !is_told(alloc, own, sets(FIVE), NONE)
        && !is_told(alloc, own, sets(SIX), sets(SIX))
        && !is_told(alloc, both, sets(SIX), NONE)
}

/// Whether who asks what may be written is told of what came to be locked, or is no longer.
fn are_relocked(alloc: Global, own: &[Layer<'_>], both: &[Layer<'_>]) -> bool {
    let (open, locked) = (LentLayers::new(true, own), LentLayers::new(true, both));
    let nobodys = LentLayers::new(false, own);
    are_these(relocked(alloc, open, locked, false), "/k")
        && are_these(relocked(alloc, locked, open, false), "/k")
        && are_these(relocked(alloc, locked, locked, false), "")
        && are_these(relocked(alloc, locked, open, true), "")
        && are_these(relocked(alloc, nobodys, locked, false), "/")
        && are_these(relocked(alloc, nobodys, open, true), "/")
        && are_these(relocked(alloc, nobodys, nobodys, false), "")
        && are_bytes(relocked_texts(alloc, open, locked, false), b"/k\0")
}

/// Whether a path may be written.
fn may(alloc: Global, writable: bool, layers: &[Layer<'_>], path: &[u8]) -> Option<bool> {
    may_write(alloc, LentLayers::new(writable, layers), path).ok()
}

fn may_be_written(alloc: Global, both: &[Layer<'_>]) -> bool {
    may(alloc, true, both, b"/k") == Some(false)
        && may(alloc, true, both, b"/j") == Some(true)
        && may(alloc, true, both, b"/") == Some(true)
        && may(alloc, true, both, b"/k/") == Some(true)
        && may(alloc, true, both, b"k") == Some(true)
        && may(alloc, false, both, b"/j") == Some(false)
}

/// A mapped file of which that part was made, with a fault or none (0).
fn file(part: usize, inode: u64, code: u32) -> DconfdbFileSeen {
    DconfdbFileSeen {
        part,
        device: 1,
        inode,
        line: 0,
        code,
        errnum: 0,
        is_mapped: true,
    }
}

/// Whether anything is otherwise, by what is seen, the files being the same ones.
fn changes(
    alloc: Global,
    before: LentLayers<'_, '_>,
    after: LentLayers<'_, '_>,
    same: bool,
) -> Option<bool> {
    is_changed(alloc, before, after, same, &[], &[]).ok()
}

/// The same by the files alone.
fn differ(alloc: Global, before: &[DconfdbFileSeen], after: &[DconfdbFileSeen]) -> Option<bool> {
    let none = LentLayers::new(false, &[]);
    is_changed(alloc, none, none, false, before, after).ok()
}

/// Whether each thing that is otherwise is told.
fn are_changed(alloc: Global, own: &[Layer<'_>], both: &[Layer<'_>]) -> bool {
    let (open, locked) = (LentLayers::new(true, own), LentLayers::new(true, both));
    let (none, nobodys) = (LentLayers::new(true, &[]), LentLayers::new(false, own));
    changes(alloc, open, open, false) == Some(false)
        && changes(alloc, open, open, true) == Some(false)
        && changes(alloc, none, open, false) == Some(true)
        && changes(alloc, open, locked, false) == Some(true)
        && changes(alloc, locked, open, true) == Some(false)
        && changes(alloc, open, nobodys, true) == Some(true)
        && differ(alloc, &[file(1, 7, 0)], &[file(1, 7, 0)]) == Some(false)
        && differ(alloc, &[file(1, 7, 0)], &[file(2, 8, 0)]) == Some(false)
        && differ(alloc, &[file(1, 7, 0)], &[file(2, 7, 0)]) == Some(true)
        && differ(alloc, &[file(1, 7, 0)], &[file(2, 8, 3)]) == Some(true)
        && differ(alloc, &[file(1, 7, 0)], &[]) == Some(true)
}

/// Whether what others changed in the user's file is remembered, and nothing else.
fn are_remembered(alloc: Global, own: &[Layer<'_>], both: &[Layer<'_>]) -> bool {
    let (open, none) = (LentLayers::new(true, own), LentLayers::new(true, &[]));
    let (locked, nobodys) = (LentLayers::new(true, both), LentLayers::new(false, own));
    are_these(remembered(alloc, none, open, false), "/k")
        && are_these(remembered(alloc, open, none, false), "/k")
        && are_these(remembered(alloc, none, open, true), "")
        && are_these(remembered(alloc, none, nobodys, false), "")
        && are_these(remembered(alloc, open, locked, false), "")
        && are_bytes(remembered_texts(alloc, none, open, false), b"/k\0")
}

/// Whether edits are of the keys that they name, and of those that the layers have below a directory, before or after.
fn are_own(alloc: Global, own: &[Layer<'_>]) -> bool {
    are_these(own_keys(alloc, own, &[], &[b"/"]), "/k")
        && are_these(own_keys(alloc, &[], own, &[b"/", b"/k"]), "/k")
        && are_these(own_keys(alloc, own, &[], &[b"/j"]), "/j")
        && are_these(own_keys(alloc, &[], own, &[b"/k/"]), "")
        && are_these(own_keys(alloc, own, &[], &[]), "")
        && are_bytes(own_texts(alloc, &[], own, &[b"/", b"/a/b"]), b"/a/b\0/k\0")
}

/// Whether the same is seen with such an edit as without, by who asks for a type.
fn is_alike(alloc: Global, layers: &[Layer<'_>], edit: DconfdbWaits<'_>, of: &[u8]) -> bool {
    let view = |edit| DconfdbView {
        layers,
        edit,
        writable: true,
    };
    matches!(
        are_seen_alike(alloc, view(NONE), view(edit), b"/k", of),
        Ok(true)
    )
}

fn are_seen(alloc: Global, own: &[Layer<'_>], both: &[Layer<'_>]) -> bool {
    is_alike(alloc, own, sets(FIVE), b"")
        && !is_alike(alloc, own, sets(SIX), b"i")
        && is_alike(alloc, own, sets(SIX), b"s")
        && is_alike(alloc, both, sets(SIX), b"")
}

/// Whether what is seen is found where it is, and the user's own.
fn are_found() -> bool {
    shown_as(Word::Silent, true, true, true) == Shown::Stored
        && shown_as(Word::Sets, true, true, false) == Shown::Edit
        && shown_as(Word::Sets, true, false, true) == Shown::Default
        && shown_as(Word::Sets, false, true, true) == Shown::Stored
        && shown_as(Word::Unset, true, true, true) == Shown::Default
        && shown_as(Word::Silent, true, true, false) == Shown::Default
        && own_by(Word::Silent, true) == Own::First
        && own_by(Word::Unset, true) == Own::Nothing
        && own_by(Word::Sets, true) == Own::Edited
        && own_by(Word::Sets, false) == Own::Nothing
}

/// Of a key of which an edit waits that sets a value, and that may be written or not.
fn known(may_write: bool) -> Known {
    Known {
        waits: true,
        sets: true,
        writable: true,
        may_write,
        edit_fits: true,
        stored_fits: true,
    }
}

/// Whether what is read is found by what is asked for.
fn are_read() -> bool {
    found_by(false, false, known(true)) == Found::InEdit
        && found_by(false, false, known(false)) == Found::InDatabases
        && found_by(true, false, known(false)) == Found::InEdit
        && found_by(false, true, known(true)) == Found::WithoutUser
        && found_by(true, true, known(true)) == Found::Nowhere
        && found_number(Found::InFirst) == 3
}

/// Whether a lock keeps all but the reset of a directory from being made, and a closed database all.
fn are_allowed() -> bool {
    may_be_made(b"/a/", false, true, false)
        && !may_be_made(b"/a", false, true, false)
        && !may_be_made(b"/a", true, true, false)
        && may_be_made(b"/a", true, true, true)
        && !may_be_made(b"/a/", false, false, true)
}

fn are_covered() -> bool {
    covers(b"/a/", b"/a/b")
        && covers(b"/a/b", b"/a/b")
        && !covers(b"/a", b"/a/b")
        && !covers(b"/a/b", b"/a/")
        && meets(b"/a/b", b"/a/")
        && !meets(b"/a/b", b"/a/c")
}

/// Whether a text is told by what it is as a path.
fn are_kinds() -> bool {
    kind_of(b"/a/b") == PathKind::Key
        && kind_of(b"/") == PathKind::Directory
        && kind_of(b"a//") == PathKind::NotAbsolute
        && kind_of(b"/a\0//") == PathKind::HasNul
        && kind_of(b"/a//") == PathKind::DoubleSlash
        && kind_below(b"") == PathKind::Directory
        && kind_below(b"a/b") == PathKind::Key
        && kind_below(b"/a") == PathKind::Absolute
        && number_of_kind(PathKind::DoubleSlash) == 4
        && is_short(b"/a")
        && kind_at(true, b"a/") == PathKind::Directory
        && kind_at(false, b"a/") == PathKind::NotAbsolute
        && wanted_kind(1, PathKind::Directory) == PathKind::NoKey
        && wanted_kind(2, PathKind::Key) == PathKind::NoDirectory
        && wanted_kind(0, PathKind::Key) == PathKind::Key
        && wanted_kind(1, PathKind::HasNul) == PathKind::HasNul
}

/// A character of three bytes whose last one is missing, a byte that begins none, and what must be escaped.
const NOT_ALL_UTF8: &[u8] = b"\xe2\x82\xff\xe2\x82\xac\"\n";

/// What is printed of a finding of kind 3 at line 7 of a file, without what is nearest, or with `n`.
fn is_printed(
    alloc: Global,
    is_json: bool,
    file: &[u8],
    text: &[u8],
    near: bool,
    wanted: &str,
) -> Result<bool, AllocError> {
    let line = finding_line(alloc, is_json, 3, file, 7, text, near, b"n")?;
    Ok(*line == *wanted.as_bytes())
}

#[test]
fn prints_findings(rt: HostRuntime) -> Result<(), Fail> {
    let alloc = rt.alloc();
    let object = "{\"file\":\"f\",\"line\":7,\"kind\":\"type\",\"text\":\"t\",\"nearest\":null}\n";
    let near =
        "{\"file\":\"f\",\"line\":7,\"kind\":\"type\",\"text\":\"t; the nearest is n\",\"nearest\":\"n\"}\n";
    let odd =
        "{\"file\":\"\u{fffd}\u{fffd}\u{fffd}\u{20ac}\\\"\\n\",\"line\":7,\"kind\":\"type\",\"text\":\"t\",\"nearest\":null,\"bytes\":\"e282ffe282ac220a\"}\n";
    assert!(rt; is_printed(alloc, true, b"f", b"t", false, object)?);
    assert!(rt; is_printed(alloc, true, b"f", b"t", true, near)?);
    assert!(rt; is_printed(alloc, true, NOT_ALL_UTF8, b"t", false, odd)?);
    assert!(rt;
        is_printed(
            alloc,
            false,
            b"f",
            b"t\x1b\x7f\n",
            false,
            "f:7: t\\033\\177\\012\n"
        )?
    );
    assert!(rt; is_printed(alloc, false, b"f", b"t", true, "f:7: t; the nearest is n\n")?);
    assert!(rt; are_lines_and_causes());
    Ok(())
}

fn are_lines_and_causes() -> bool {
    line_behind(b"") == 1
        && line_behind(b"a\nb\r\n") == 3
        && is_glibs(19)
        && !is_glibs(0)
        && !is_glibs(32)
        && cause_number(19, true) == 0
        && cause_number(32, false) == 1
        && cause_number(0, false) == 2
        && refused_as(b"/") == 0
        && refused_as(b"/a") == 0
        && refused_as(b"a//") == 1
        && refused_as(b"/\0//") == 2
        && refused_as(b"//") == 3
}

#[test]
fn who_listens_is_told(rt: HostRuntime) -> Result<(), Fail> {
    let alloc = rt.alloc();
    let (own, locks) = (layer(sample("plain"))?, layer(sample("locked"))?);
    let (own, both) = ([own], [own, locks]);
    assert!(rt; are_told(alloc, &own, &both) && are_relocked(alloc, &own, &both));
    assert!(rt; may_be_written(alloc, &both) && are_seen(alloc, &own, &both));
    assert!(rt; are_changed(alloc, &own, &both) && are_remembered(alloc, &own, &both));
    assert!(rt; are_own(alloc, &own));
    Ok(())
}

#[test]
fn what_is_seen_is_found(rt: HostRuntime) -> Result<(), Fail> {
    assert!(rt; are_found() && are_read() && are_allowed() && are_covered() && are_kinds());
    Ok(())
}
