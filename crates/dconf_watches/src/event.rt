//! What is heard of what happens in a folder.
ghost use Rattle.std.specs.Prelude.{◌≡◌};
ghost use Rattle.dconf_watches.specs.Events.{asked_anew, came, heard_if, heard_of_file, heard_of_folder, heard_of_name, louder, made, may_be_another, meaning};

use crate::inotify::asked_of_file;
use crate::name::{Found, NameWatch};

/// What happens.
#[derive(Clone, Copy)]
pub enum Event {
    /// Something is made.
    Made,
    /// Something is moved there.
    Came,
    /// It is moved away or deleted.
    Went,
    /// A file that was written is closed.
    Written,
    /// Who may do what with it changes.
    Access,
    /// The folder that is watched is moved or deleted.
    Gone,
    /// It isn't known what happened.
    Lost,
    /// Nothing that was asked for.
    Other,
}

/// Of what it is told.
#[derive(Clone, Copy)]
pub enum Of {
    Name,
    /// The folder that the name is in, or that is watched itself.
    Folder,
    /// The file itself, which has a watch of its own.
    File,
    AnotherName,
}

/// What it means.
#[derive(Clone, Copy)]
pub enum Heard {
    Nothing,
    /// The file may have changed.
    File,
    /// Other files may be the store's.
    Path,
}

/// What it means, of a name that is watched so, and at which that stands by now. Of what comes there it is `comes`, unless that is a
/// link.
pub fn meaning(watch: NameWatch, comes: Heard, event: Event, of: Of, found: Found) -> Heard
    ensures { result ≡ meaning watch comes event of found }
{
    match (event, of) {
        (Event::Lost, _) => Heard::Path,
        (Event::Other, _) => Heard::Nothing,
        (_, Of::AnotherName) => Heard::Nothing,
        (_, Of::Folder) => heard_of_folder(watch, event),
        (_, Of::File) => heard_of_file(watch, comes, event),
        (_, Of::Name) => heard_of_name(watch, comes, event, found),
    }
}

/// Of a folder that is watched itself only whether it is there; of that of the file's own name who may do what in it.
fn heard_of_folder(watch: NameWatch, event: Event) -> Heard
    ensures { result ≡ heard_of_folder watch event }
{
    match (watch, event) {
        (NameWatch::Itself, Event::Gone) => Heard::Path,
        (NameWatch::Own, Event::Access) => Heard::Path,
        (NameWatch::Awaited, Event::Access) => Heard::Path,
        _ => Heard::Nothing,
    }
}

fn heard_of_file(watch: NameWatch, comes: Heard, event: Event) -> Heard
    ensures { result ≡ heard_of_file watch comes event }
{
    match (watch, event) {
        (NameWatch::Own, Event::Written) => comes,
        _ => Heard::Nothing,
    }
}

fn heard_of_name(watch: NameWatch, comes: Heard, event: Event, found: Found) -> Heard
    ensures { result ≡ heard_of_name watch comes event found }
{
    match (watch, event) {
        (NameWatch::Nothing, _) => Heard::Nothing,
        (NameWatch::Itself, _) => Heard::Nothing,
        (_, Event::Gone) => Heard::Nothing,
        (_, Event::Went) => Heard::Path,
        (_, Event::Came) => came(comes, found),
        (NameWatch::Passage, Event::Made) => made(comes, found),
        (NameWatch::Awaited, Event::Made) => made(comes, found),
        (NameWatch::Own, Event::Made) => Heard::Nothing,
        (NameWatch::Own, Event::Written) => Heard::Nothing,
        (NameWatch::Passage, _) => Heard::Nothing,
        _ => comes,
    }
}

/// A new file is written after it is made: another event says when it has been. All else is whole at once.
fn made(comes: Heard, found: Found) -> Heard
    ensures { result ≡ made comes found }
{
    match found {
        Found::Missing => Heard::Nothing,
        Found::File => Heard::Nothing,
        _ => came(comes, found),
    }
}

/// A link leads to another path, and what can't be seen may be one.
fn came(comes: Heard, found: Found) -> Heard
    ensures { result ≡ came comes found }
{
    match found {
        Found::Link => Heard::Path,
        Found::Unseen => Heard::Path,
        _ => comes,
    }
}

/// The same, or that all names are to be watched anew, if the file that has the name can't be watched.
pub fn heard_if(is_missed: bool, heard: Heard) -> Heard
    ensures { result ≡ heard_if is_missed heard }
{
    if is_missed { Heard::Path } else { heard }
}

/// What inotify is asked for of the file itself that has the name by now, after an event: 0 is nothing. Its own watch goes with the file, and not with the
/// name: so another file gets one, and the same one where it may be read at last.
pub fn asked_anew(watch: NameWatch, event: Event, of: Of, found: Found) -> u32
    ensures { result ≡ asked_anew watch event of found }
{
    match of {
        Of::Name if may_be_another(event) => asked_of_file(watch, found),
        _ => 0,
    }
}

fn may_be_another(event: Event) -> bool
    ensures { result ≡ may_be_another event }
{
    match event {
        Event::Came => true,
        Event::Access => true,
        _ => false,
    }
}

/// The one that means more.
pub fn louder(one: Heard, other: Heard) -> Heard
    ensures { result ≡ louder one other }
{
    match (one, other) {
        (Heard::Path, _) => Heard::Path,
        (_, Heard::Nothing) => one,
        _ => other,
    }
}
