//! The same as plain numbers, for a caller that is not Rust.
ghost use Rattle.std.specs.Prelude.{◌≡◌};
ghost use Rattle.dconf_watches.specs.Events.{asked_anew, heard_if, louder, meaning};
ghost use Rattle.dconf_watches.specs.Inotify.{event_in, is_file_missed, seen_by};
ghost use Rattle.dconf_watches.specs.Names.{heard_as, way_at, way_of};
ghost use Rattle.dconf_watches.specs.Numbers.{IsWatchedName, heard_number, heard_of, name_watch_number, name_watch_of, of_what, role_of, watched_so, way_number, within};

use crate::event::{Heard, Of, asked_anew, heard_if, louder, meaning};
use crate::inotify::{asked_of, asked_of_file, event_in, is_file_missed, seen_by};
use crate::name::{
    Found, NameWatch, Way, heard_as, is_busy, is_busy_in, is_missed, is_needed, watch_at, watch_of,
    way_at, way_of,
};

/// What is watched of a name: 0 nothing, 1 the folder itself, 2 a name on the way, 3 the file's own, 4 that, and what is made there;
/// what inotify is asked for of the folder, and of what stands there itself; where the path goes on: 0 nowhere, 1 where the link leads, 2 in the folder, 3 where it was, 4 in the folder
/// above; what it means if something comes there: 0 the file may have changed, 1 other files may be the store's; whether
/// something would be missed without it; and whether something is, whatever is watched.
#[repr(C)]
#[derive(Clone, Copy)]
pub struct WatchedName {
    watch: u32,
    asked: u32,
    asked_of_file: u32,
    way: u32,
    comes: u32,
    is_needed: bool,
    is_missed: bool,
}

/// A name in that folder, which is no link; the root's path is empty. `is_last`: it is the path's last one. At it a file of that mode
/// stands, which has so many names: the mode is 0 where nothing does; unless it can't be seen, or not where a link leads. `minds` who minds much that happens. So many links were followed on the
/// way. `is_profile`: if the file changes other files may be the store's.
pub fn watched_name(
    minds: bool,
    folder: &[u8],
    name: &[u8],
    is_last: bool,
    is_unseen: bool,
    mode: u32,
    links: u64,
    followed: u64,
    is_profile: bool,
) -> WatchedName
    ensures { IsWatchedName result minds folder.now name.now is_last is_unseen mode links followed is_profile }
{
    let found = seen_by(is_unseen, mode, links);
    let watch = watched_so(minds, folder, name, is_last, found);
    WatchedName {
        watch: watch_number(watch),
        asked: asked_of(watch),
        asked_of_file: asked_of_file(watch, found),
        way: way_number(within(followed, way_at(name, way_of(found, is_last)))),
        comes: heard_number_of(heard_as(found, is_last, role_of(is_profile))),
        is_needed: is_needed(watch),
        is_missed: is_missed(found),
    }
}

/// So many links are followed on a way, as the system has it.
const MOST_LINKS: u64 = 40;

fn within(followed: u64, way: Way) -> Way
    ensures { result ≡ within followed way }
{
    match way {
        Way::Follows if followed < MOST_LINKS => Way::Follows,
        Way::Follows => Way::Ends,
        Way::Ends => Way::Ends,
        Way::Enters => Way::Enters,
        Way::Stays => Way::Stays,
        Way::Rises => Way::Rises,
    }
}

fn role_of(is_profile: bool) -> Heard
    ensures { result ≡ role_of is_profile }
{
    if is_profile { Heard::Path } else { Heard::File }
}

fn watched_so(minds: bool, folder: &[u8], name: &[u8], is_last: bool, found: Found) -> NameWatch
    ensures { result ≡ watched_so minds folder.now name.now is_last found }
{
    let watch = watch_of(
        found,
        is_last,
        is_busy(minds, is_last, folder),
        is_busy_in(minds, folder, name),
    );
    watch_at(name, watch)
}

/// As [`meaning`], and what was heard before, if that means more: 0 the file may have changed, 1 other files may be the store's, 2 nothing.
/// The mask says what happens: to the file itself, or in the folder, to a name if the event has one, which is the same as the watched one or not; and what
/// stands at that by now, as for [`watched_name`]. The file that has the name by now could be watched (`fault` 0), or needn't be, or not, by that errno.
pub fn heard_number(
    before: u32,
    watch: u32,
    comes: u32,
    mask: u32,
    of_file: bool,
    has_name: bool,
    is_same: bool,
    fault: u32,
    is_unseen: bool,
    mode: u32,
    links: u64,
) -> u32
    ensures { result ≡ heard_number (louder (heard_of before) (heard_if (is_file_missed fault) (meaning (name_watch_of watch) (heard_of comes) (event_in mask) (of_what of_file has_name is_same) (seen_by is_unseen mode links)))) }
{
    let told = meaning(
        watch_of_number(watch),
        heard_of(comes),
        event_in(mask),
        of_what(of_file, has_name, is_same),
        seen_by(is_unseen, mode, links),
    );
    let now = heard_if(is_file_missed(fault), told);
    heard_number_of(louder(heard_of(before), now))
}

/// As [`asked_anew`], of the same numbers.
pub fn asked_anew_number(
    watch: u32,
    mask: u32,
    of_file: bool,
    has_name: bool,
    is_same: bool,
    is_unseen: bool,
    mode: u32,
    links: u64,
) -> u32
    ensures { result ≡ asked_anew (name_watch_of watch) (event_in mask) (of_what of_file has_name is_same) (seen_by is_unseen mode links) }
{
    asked_anew(
        watch_of_number(watch),
        event_in(mask),
        of_what(of_file, has_name, is_same),
        seen_by(is_unseen, mode, links),
    )
}

fn of_what(of_file: bool, has_name: bool, is_same: bool) -> Of
    ensures { result ≡ of_what of_file has_name is_same }
{
    if of_file {
        Of::File
    } else if !has_name {
        Of::Folder
    } else if is_same {
        Of::Name
    } else {
        Of::AnotherName
    }
}

fn heard_of(number: u32) -> Heard
    ensures { result ≡ heard_of number }
{
    match number {
        0 => Heard::File,
        1 => Heard::Path,
        _ => Heard::Nothing,
    }
}

fn heard_number_of(heard: Heard) -> u32
    ensures { result ≡ heard_number heard }
{
    match heard {
        Heard::File => 0,
        Heard::Path => 1,
        Heard::Nothing => 2,
    }
}

fn watch_number(watch: NameWatch) -> u32
    ensures { result ≡ name_watch_number watch }
{
    match watch {
        NameWatch::Nothing => 0,
        NameWatch::Itself => 1,
        NameWatch::Passage => 2,
        NameWatch::Own => 3,
        NameWatch::Awaited => 4,
    }
}

fn watch_of_number(number: u32) -> NameWatch
    ensures { result ≡ name_watch_of number }
{
    match number {
        1 => NameWatch::Itself,
        2 => NameWatch::Passage,
        3 => NameWatch::Own,
        4 => NameWatch::Awaited,
        _ => NameWatch::Nothing,
    }
}

fn way_number(way: Way) -> u32
    ensures { result ≡ way_number way }
{
    match way {
        Way::Ends => 0,
        Way::Follows => 1,
        Way::Enters => 2,
        Way::Stays => 3,
        Way::Rises => 4,
    }
}
