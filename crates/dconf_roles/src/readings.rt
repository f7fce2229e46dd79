//! As what a file is looked at, by its role and by what stands in it.
ghost use Rattle.std.specs.Prelude.{◌≡◌};
ghost use Rattle.dconf_roles.specs.Readings.{as_source, beside, by_its_text, is_database, kind_of, of_database, of_text, profile_or_none, reading, reading_of_part, text_beside, too_big, within_most};

use crate::roles::Role;
use crate::sites::Part;
use keyfile_lines::TextKind;

/// A text of more bytes is not read.
const MOST: u64 = 16_777_216;

/// As what a file is looked at, or why it isn't.
#[derive(Clone, Copy)]
pub enum ReadAs {
    Keyfile,
    Locks,
    Profile,
    Database,
    /// `update` leaves it out in silence.
    LeftOut,
    /// `update` doesn't read it.
    Unread,
    /// It is a database among sources.
    NoSource,
    TooBig,
    /// None of these.
    Neither,
    /// It lies beside the folders of sources of a site, and is none of its files.
    Stray,
}

/// As what a file of so many bytes is looked at, of which these are there: all that a text has, or the first of another file.
pub fn reading(role: Role, size: u64, text: &[u8]) -> ReadAs
    ensures { result ≡ reading role size text.now }
{
    if is_database(text) {
        of_database(role)
    } else if size > MOST {
        too_big(role)
    } else {
        of_text(role, text)
    }
}

/// The same of what is read of a site.
pub fn reading_of_part(part: Part, size: u64, text: &[u8]) -> ReadAs
    ensures { result ≡ reading_of_part part size text.now }
{
    match part {
        Part::Keyfile => reading(Role::Keyfile, size, text),
        Part::Locks => reading(Role::Locks, size, text),
        Part::Profile => within_most(size, ReadAs::Profile),
        Part::Database => ReadAs::Database,
        Part::Beside => beside(ReadAs::Database, size, text),
        Part::Made => beside(ReadAs::LeftOut, size, text),
        _ => ReadAs::LeftOut,
    }
}

fn within_most(size: u64, it: ReadAs) -> ReadAs
    ensures { result ≡ within_most size it }
{
    if size > MOST { ReadAs::TooBig } else { it }
}

fn beside(database: ReadAs, size: u64, text: &[u8]) -> ReadAs
    ensures { result ≡ beside database size text.now }
{
    if !is_database(text) {
        return text_beside(size, text);
    }
    database
}

fn text_beside(size: u64, text: &[u8]) -> ReadAs
    ensures { result ≡ text_beside size text.now }
{
    if size > MOST {
        return ReadAs::Stray;
    }
    profile_or_none(kind_of(text))
}

fn profile_or_none(kind: TextKind) -> ReadAs
    ensures { result ≡ profile_or_none kind }
{
    match kind {
        TextKind::Profile => ReadAs::Profile,
        _ => ReadAs::Stray,
    }
}

fn of_text(role: Role, text: &[u8]) -> ReadAs
    ensures { result ≡ of_text role text.now }
{
    match role {
        Role::ByItsText => by_its_text(kind_of(text)),
        Role::Keyfile => as_source(ReadAs::Keyfile, kind_of(text), text.contains(&0)),
        Role::Locks => as_source(ReadAs::Locks, kind_of(text), text.contains(&0)),
        Role::Hidden => ReadAs::LeftOut,
        Role::Unread => ReadAs::Unread,
    }
}

fn kind_of(text: &[u8]) -> TextKind
    ensures { result ≡ kind_of text.now }
{
    TextKind::of(text)
}

/// Comments alone are a keyfile without keys.
fn by_its_text(kind: TextKind) -> ReadAs
    ensures { result ≡ by_its_text kind }
{
    match kind {
        TextKind::Keyfile => ReadAs::Keyfile,
        TextKind::Locks => ReadAs::Locks,
        TextKind::Profile => ReadAs::Profile,
        TextKind::Empty => ReadAs::Keyfile,
        TextKind::Neither => ReadAs::Neither,
    }
}

/// `update` takes what is in its folders for keyfiles and locks, whatever stands there; but bytes that are no text at all are none.
fn as_source(it: ReadAs, kind: TextKind, is_binary: bool) -> ReadAs
    ensures { result ≡ as_source it kind is_binary }
{
    match kind {
        TextKind::Neither if is_binary => ReadAs::Neither,
        _ => it,
    }
}

fn of_database(role: Role) -> ReadAs
    ensures { result ≡ of_database role }
{
    match role {
        Role::ByItsText => ReadAs::Database,
        Role::Keyfile => ReadAs::NoSource,
        Role::Locks => ReadAs::NoSource,
        Role::Hidden => ReadAs::LeftOut,
        Role::Unread => ReadAs::Unread,
    }
}

fn too_big(role: Role) -> ReadAs
    ensures { result ≡ too_big role }
{
    match role {
        Role::Hidden => ReadAs::LeftOut,
        Role::Unread => ReadAs::Unread,
        _ => ReadAs::TooBig,
    }
}

fn is_database(text: &[u8]) -> bool
    ensures { result ≡ is_database text.now }
{
    text.starts_with(b"GVariant")
}
