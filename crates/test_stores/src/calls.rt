//! The calls of the library for C, answered and refused, over two layers by hand: both have 5 at
//! `/k`, and the second locks it.
use dconf_layers::Layer;
use dconfdb_calls::{
    DconfdbChange, DconfdbFound, Fault, differing_keys, directory_locks, directory_names,
    first_changed_since, hand_out, is_key_locked, is_key_writable, keys_differing_first,
    open_layer, open_layer_after, profile_databases, read, read_default, read_own, user_file,
};
use std::alloc::Global;
use std::fmt::Write;
use std::test::Fail;
use test_rows::sample;

/// The layer of a file that is a sound database.
pub(crate) fn layer(file: &[u8]) -> Result<Layer<'_>, Fail> {
    match open_layer(file, true) {
        Ok(layer) => Ok(layer),
        Err(bad) => Err(Fail::new(bad.fault.text())),
    }
}

/// Whether the 5 was found in that layer.
fn is_five(found: Option<DconfdbFound<'_>>, origin: usize) -> bool {
    match found {
        Some(found) => {
            found.origin == origin
                && found.value == b"\x05\0\0\0".as_slice()
                && found.type_text == b"i".as_slice()
        }
        None => false,
    }
}

/// Whether values are read: the effective one, the default, and the user's own.
fn are_read(user: Layer<'_>, site: Layer<'_>) -> bool {
    let (locked, open) = ([user, site], [user, user]);
    is_five(read(&locked, b"/k"), 1)
        && is_five(read_default(&open, true, b"/k"), 1)
        && is_five(read_own(&user, b"/k"), 0)
        && read(&locked, b"k").is_none()
        && read_default(&locked, true, b"/j").is_none()
        && read_own(&user, b"/j").is_none()
}

/// Whether it is told what is locked, and what may be written.
fn are_locked(user: Layer<'_>, site: Layer<'_>) -> bool {
    let (locked, open) = ([user, site], [user, user]);
    is_key_locked(&locked, b"/k")
        && !is_key_locked(&locked, b"k")
        && is_key_writable(&open, true, b"/k")
        && !is_key_writable(&locked, true, b"/k")
}

/// Whether names are these, or a path is refused.
fn are_names(answer: Result<Vec<u8>, Fault>, names: Option<&[u8]>) -> bool {
    match answer {
        Ok(found) => names == Some(found.as_slice()),
        Err(fault) => names.is_none() && fault == Fault::BadPath,
    }
}

/// Whether names, locks and differences are listed, or refused.
fn are_listed(alloc: Global, layers: &[Layer<'_>]) -> bool {
    are_names(directory_names(alloc, layers, b"/"), Some(b"k\0"))
        && are_names(directory_locks(alloc, layers, b"/"), Some(b"/k\0"))
        && are_names(differing_keys(alloc, layers, &[], 2), Some(b"/k\0"))
        && are_names(directory_names(alloc, layers, b"/k"), None)
        && are_names(directory_locks(alloc, layers, b"k/"), None)
}

/// Whether it is told what another first layer changes: nothing below a lock, and nothing if it has the same.
fn are_told_apart(alloc: Global, user: Layer<'_>, site: Layer<'_>) -> bool {
    let Ok(none) = open_layer(b"", false) else {
        return false;
    };
    are_names(keys_differing_first(alloc, &[user, site], &none), Some(b""))
        && are_names(keys_differing_first(alloc, &[user], &none), Some(b"/k\0"))
        && are_names(keys_differing_first(alloc, &[], &user), Some(b"/k\0"))
        && are_names(keys_differing_first(alloc, &[user], &user), Some(b""))
}

/// At which of two changes something else is seen, here by a lock; 7 stands for a fault.
fn changed_since(alloc: Global, layers: &[Layer<'_>], now: &[Layer<'_>]) -> Option<usize> {
    let changes = [change(b"/j", false), change(b"/k", false)];
    first_changed_since(alloc, layers, now, &changes).unwrap_or(Some(7))
}

/// Whether a file opens alike with the help of a layer and without, by what is wrong with it.
pub(crate) fn opened(file: &[u8], old: &str, found: &mut String) -> Result<(), Fail> {
    let old = layer(sample(old))?;
    let is_alike = match (open_layer(file, true), open_layer_after(&old, file, true)) {
        (Ok(_), Ok(_)) => true,
        (Err(one), Err(other)) => {
            one.fault == other.fault && one.unsound.rule == other.unsound.rule
        }
        _ => false,
    };
    Ok(write!(found, "{is_alike}")?)
}

pub(crate) const OPENED: &str = "
%plain; plain | true
%buckets; plain | true
%locked; plain | true
%locked; locked | true
%plain :101; plain | true
%plain :20; plain | true
";

/// Whether a room gets what fits.
fn is_handed_out() -> bool {
    let mut room = *b"1234";
    let short = hand_out(b"12345", &mut room);
    let fits = hand_out(b"ab", &mut room);
    short == 5 && fits == 2 && room == *b"ab34"
}

/// Whether a profile's last database is a site's, and a service is refused by its line.
fn are_profiles(alloc: Global) -> bool {
    let named = match profile_databases(alloc, b"user-db:me\nsystem-db:site") {
        Ok(names) => match names.as_slice() {
            [_, last] => last.kind == 1 && last.name == b"site".as_slice(),
            _ => false,
        },
        Err(_) => false,
    };
    let refused = match profile_databases(alloc, b"user-db:me\nservice-db:keyfile") {
        Ok(_) => false,
        Err(bad) => bad.fault.number() == 10 && bad.line == 2,
    };
    named && refused
}

/// Whether faults have their numbers and texts.
fn are_faults(user: Layer<'_>) -> bool {
    let short = match open_layer(b"GVariant", true) {
        Ok(_) => false,
        Err(bad) => bad.fault == Fault::Short,
    };
    let text = Fault::of_number(2).map(Fault::text);
    short
        && open_layer(b"", false).is_ok()
        && open_layer_after(&user, b"", false).is_ok()
        && text == Some("the file is shorter than a database's header")
        && Fault::of_number(19).is_none()
}

/// Sets a key to 5, or resets it.
fn change(path: &[u8], sets: bool) -> DconfdbChange<'_> {
    DconfdbChange {
        path,
        value: b"\x05\0\0\0",
        type_text: b"i",
        sets,
    }
}

/// Sets a key to the first three bytes of an `i`.
fn cut(path: &[u8]) -> DconfdbChange<'_> {
    DconfdbChange {
        value: b"\x05\0\0",
        ..change(path, true)
    }
}

/// The number of the refusal of these changes, and its index.
fn refusal(alloc: Global, layers: &[Layer<'_>], changes: &[DconfdbChange<'_>]) -> (u32, usize) {
    match user_file(alloc, layers, true, changes) {
        Ok(_) => (0, 0),
        Err(refused) => (refused.fault.number(), refused.at),
    }
}

/// The user's file that changes make of one, beside a site's.
fn changed(alloc: Global, file: &[u8], changes: &[DconfdbChange<'_>]) -> Option<Vec<u8>> {
    let layers = [
        open_layer(file, true).ok()?,
        open_layer(sample("locked"), true).ok()?,
    ];
    user_file(alloc, &layers, true, changes).ok()
}

/// Whether 5 is read at `/a/j` after these changes, each of them made in the file that came of the one before.
fn is_five_after(alloc: Global, changes: &[DconfdbChange<'_>]) -> Option<bool> {
    let mut file = sample("plain").to_vec(alloc).ok()?;
    for change in changes {
        file = changed(alloc, &file, &[*change])?;
    }
    let found = read(&[open_layer(&file, true).ok()?], b"/a/j");
    Some(found.map(|it| it.value) == Some(b"\x05\0\0\0".as_slice()))
}

/// Whether changes are made, and refused by the first that is at fault.
fn are_refused(alloc: Global, layers: &[Layer<'_>]) -> bool {
    let set = change(b"/a/j", true);
    refusal(alloc, layers, &[set]) == (0, 0)
        && refusal(alloc, layers, &[set, change(b"/k", false)]) == (16, 1)
        && refusal(alloc, layers, &[set, set, change(b"/a/", true)]) == (13, 2)
        && refusal(alloc, layers, &[set, cut(b"/k")]) == (20, 1)
}

/// Whether what is read after changes is what was set.
fn are_made(alloc: Global) -> bool {
    let (set, reset, below) = (
        change(b"/a/j", true),
        change(b"/a/j", false),
        change(b"/a/", false),
    );
    is_five_after(alloc, &[set, reset, set]) == Some(true)
        && is_five_after(alloc, &[set, reset]) == Some(false)
        && is_five_after(alloc, &[set, below]) == Some(false)
}

/// What is not as it should be.
fn first_wrong(alloc: Global, user: Layer<'_>, site: Layer<'_>) -> &'static str {
    let layers = [user, site];
    if !are_read(user, site) || !are_locked(user, site) {
        return "values or locks";
    }
    if !are_listed(alloc, &layers) || !are_told_apart(alloc, user, site) || !is_handed_out() {
        return "lists";
    }
    if !are_profiles(alloc)
        || !are_faults(user)
        || changed_since(alloc, &[user], &layers) != Some(1)
        || changed_since(alloc, &layers, &layers).is_some()
    {
        return "profiles or faults";
    }
    if !are_refused(alloc, &layers) || !are_made(alloc) {
        return "changes";
    }
    "nothing"
}

#[test]
fn each_call_answers_and_refuses(rt: HostRuntime) -> Result<(), Fail> {
    let (user, site) = (layer(sample("plain"))?, layer(sample("locked"))?);
    let wrong = first_wrong(rt.alloc(), user, site);
    assert!(rt; wrong == "nothing", "{wrong}");
    Ok(())
}
