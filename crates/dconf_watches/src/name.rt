//! What is watched of a name on the way to a file.
ghost use Rattle.std.specs.Prelude.{◌≡◌};
ghost use Rattle.dconf_watches.specs.Names.{has_flags, heard_as, is_busy, is_busy_in, is_dot, is_dots, is_lenient, is_missed, is_needed, keeps_profile, minds_much, unless, watch_at, watch_of, watches_store, way_at, way_of};

use crate::event::Heard;

/// What stands at a name.
#[derive(Clone, Copy)]
pub enum Found {
    /// Nothing.
    Missing,
    Link,
    Folder,
    /// A regular file that has no other name.
    File,
    /// All else: it has its content as soon as it has the name.
    Other,
    /// It can't be seen what does: anything may.
    Unseen,
}

/// What is watched of it.
#[derive(Clone, Copy)]
pub enum NameWatch {
    Nothing,
    /// The folder itself: that it is moved, or goes.
    Itself,
    /// A name on the way: what comes there, and that it goes.
    Passage,
    /// The file's own name, also how it is written and who may read it.
    Own,
    /// The same, and what is made there.
    Awaited,
}

/// Where the path goes on.
#[derive(Clone, Copy)]
pub enum Way {
    /// Nowhere.
    Ends,
    /// Where the link leads.
    Follows,
    /// In this folder.
    Enters,
    /// In the folder in which it was.
    Stays,
    /// In the one above that.
    Rises,
}

/// What is watched of a name, where that stands. `is_last`: it is the path's last one. Much may happen in the folder above, or in this
/// one, which is not minded then.
pub fn watch_of(found: Found, is_last: bool, is_busy_above: bool, is_busy: bool) -> NameWatch
    ensures { result ≡ watch_of found is_last is_busy_above is_busy }
{
    match (found, is_last) {
        (Found::Missing, true) => unless(is_busy_above, NameWatch::Awaited),
        (Found::Link, true) => NameWatch::Awaited,
        (Found::Unseen, true) => NameWatch::Awaited,
        (_, true) => NameWatch::Own,
        (Found::Link, false) => NameWatch::Passage,
        (Found::Folder, false) => unless(is_busy, NameWatch::Itself),
        (_, false) => unless(is_busy_above, NameWatch::Passage),
    }
}

fn unless(is_busy: bool, watch: NameWatch) -> NameWatch
    ensures { result ≡ unless is_busy watch }
{
    if is_busy { NameWatch::Nothing } else { watch }
}

/// Whether something would be missed without it. A folder above the files may be closed to us: then it isn't known when it is moved.
pub fn is_needed(watch: NameWatch) -> bool
    ensures { result ≡ is_needed watch }
{
    match watch {
        NameWatch::Nothing => false,
        NameWatch::Itself => false,
        _ => true,
    }
}

/// Whether something is missed, whatever is watched: what can't be seen may lead on to what nobody watches.
pub fn is_missed(found: Found) -> bool
    ensures { result ≡ is_missed found }
{
    match found {
        Found::Unseen => true,
        _ => false,
    }
}

/// Where the path goes on.
pub fn way_of(found: Found, is_last: bool) -> Way
    ensures { result ≡ way_of found is_last }
{
    match (found, is_last) {
        (Found::Link, _) => Way::Follows,
        (Found::Folder, false) => Way::Enters,
        _ => Way::Ends,
    }
}

/// What it means if something comes there: of a file's own name what the file is; but where nothing is all names are watched anew then, and a link, or what
/// may be one, and a name on the way, make another path.
pub fn heard_as(found: Found, is_last: bool, role: Heard) -> Heard
    ensures { result ≡ heard_as found is_last role }
{
    match (found, is_last) {
        (Found::Missing, true) => Heard::Path,
        (Found::Link, true) => Heard::Path,
        (Found::Unseen, true) => Heard::Path,
        (_, true) => role,
        (_, false) => Heard::Path,
    }
}

/// Whether who watches minds much that happens: 3 the command, and 4 the service, do, of which there are few; 0 the library's caller, 1 a program's
/// module, and 2 a client, don't.
pub fn minds_much(who: u32) -> bool
    ensures { result ≡ minds_much who }
{
    who == 3 || who == 4
}

/// Whether the profile of a store that is open counts as it was read, for who watches: of the same numbers, for a client alone, as dconf's has it.
pub fn keeps_profile(who: u32) -> bool
    ensures { result ≡ keeps_profile who }
{
    who == 2
}

/// Whether the files are watched that a store has which is open, and else those that the store at its place has now, by who watches, of the same numbers:
/// a store whose profile counts as it was read goes on having the same files, and the library's caller has no other store.
pub fn watches_store(who: u32, is_open: bool) -> bool
    ensures { result ≡ watches_store who is_open }
{
    is_open && (who == 0 || keeps_profile(who))
}

/// Whether a store is opened past its bad files, by who opens it: of the same numbers, for all but the library's caller, who asks for that (`is_asked`), or
/// for no more than the names of its files (`lists`).
pub fn is_lenient(who: u32, is_asked: bool, lists: bool) -> bool
    ensures { result ≡ is_lenient who is_asked lists }
{
    who != 0 || (is_asked || lists)
}

/// Whether much happens in a folder, beside the path's last name or one on the way, which is not minded: in /etc, and in that of the flags of dconf's
/// readers, `/run/user/UID/dconf`.
pub fn is_busy(minds: bool, is_last: bool, folder: &[u8]) -> bool
    ensures { result ≡ is_busy minds is_last folder.now }
{
    !minds
        && if is_last {
            has_flags(folder)
        } else {
            folder == "/etc".as_bytes()
        }
}

fn has_flags(folder: &[u8]) -> bool
    ensures { result ≡ has_flags folder.now }
{
    folder.starts_with(b"/run/user/") && folder.ends_with(b"/dconf")
}

/// The same of the folder of that name in another one, which may be /etc. The root's path is empty.
pub fn is_busy_in(minds: bool, folder: &[u8], name: &[u8]) -> bool
    ensures { result ≡ is_busy_in minds folder.now name.now }
{
    !minds && (folder.len() == 0 && name == "etc".as_bytes())
}

/// What is watched of a name, of which that would be: of `.` and `..` nothing.
pub fn watch_at(name: &[u8], watch: NameWatch) -> NameWatch
    ensures { result ≡ watch_at name.now watch }
{
    if is_dot(name) || is_dots(name) {
        NameWatch::Nothing
    } else {
        watch
    }
}

/// Where the path goes on, of which that would be so.
pub fn way_at(name: &[u8], way: Way) -> Way
    ensures { result ≡ way_at name.now way }
{
    if is_dot(name) {
        Way::Stays
    } else if is_dots(name) {
        Way::Rises
    } else {
        way
    }
}

fn is_dot(name: &[u8]) -> bool
    ensures { result ≡ is_dot name.now }
{
    name == ".".as_bytes()
}

fn is_dots(name: &[u8]) -> bool
    ensures { result ≡ is_dots name.now }
{
    name == "..".as_bytes()
}
