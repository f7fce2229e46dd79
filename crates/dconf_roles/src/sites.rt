//! As what `update` takes what lies in the folder of a site, and what nobody reads there.
ghost use Rattle.std.specs.Prelude.{◌≡◌};
ghost use Rattle.std.specs.Str.{is_utf8};
ghost use Rattle.dconf_roles.specs.Sites.{by_its_name, file_of_site, folder_of_site, if_hidden, in_locks, in_profiles, in_site, in_sources, is_in_the_way, is_made_here, is_sources_name, kind_of, left_out, other_of_site, part_in, part_of, sources_of_site, stem_len, unless_hidden, unseen_of_site, within_of};

use crate::roles::is_shown;

/// In which folder of a site something lies.
#[derive(Clone, Copy)]
pub enum Within {
    /// The one that `update` is given.
    Site,
    /// NAME.d.
    Sources,
    /// NAME.d/locks.
    Locks,
    Profiles,
}

/// What has a name there: what a link leads to has it, too.
#[derive(Clone, Copy)]
pub enum Kind {
    File,
    Folder,
    /// A pipe, a socket or a device.
    Other,
    /// A link to what isn't there.
    Nowhere,
    /// It can't be looked at.
    Unseen,
}

/// As what it is taken.
#[derive(Clone, Copy)]
pub enum Part {
    Keyfile,
    Locks,
    Profile,
    /// A database, whatever its text is.
    Database,
    /// A profile or a database, if its text is one.
    Beside,
    /// The same, and as a database it is one that `update` makes.
    Made,
    /// Nobody reads it, and nobody is told.
    Silent,
    /// The folder NAME.d, its `locks`, or `profiles`.
    SourceFolder,
    LockFolder,
    ProfileFolder,
    /// A hidden NAME.d, or its `locks`: `update` lists its names, and leaves them out.
    HiddenFolder,
    HiddenLocks,
    /// Nobody reads it: it is a folder in one that is read,
    Nested,
    /// or no file,
    Odd,
    /// or lies beside the folders of sources.
    Stray,
    /// `update` can't list the folder.
    NotUtf8,
    /// It is in the way of a file that `update` writes.
    Barred,
}

/// Where something lies in a site, and what is known of it.
#[repr(C)]
#[derive(Clone, Copy)]
pub struct EntryKnown {
    /// 0 in none: it is a file that is asked for; 1 in the site's folder, 2 in NAME.d, 3 in NAME.d/locks, else in `profiles`.
    pub within: u32,
    /// 0 a file, 1 a folder, 2 something else, 3 a link that leads nowhere; else it can't be looked at.
    pub kind: u32,
    /// NAME.d is hidden.
    pub is_hidden: bool,
    pub is_link: bool,
    /// The database of that stem is one that `update` makes.
    pub is_made: bool,
    /// Of the files that are asked for `update` reads one of the same NAME.d.
    pub is_one_read: bool,
    /// Its text is known.
    pub is_read: bool,
    /// It is a folder with a profile: a store of its own.
    pub is_store: bool,
}

/// As what `update` takes what has that name.
pub fn part_of(known: &EntryKnown, name: &[u8]) -> Part
    ensures { result ≡ part_of known.now name.now }
{
    if_hidden(
        known.is_hidden,
        part_in(within_of(known.within), known, name),
    )
}

/// So much of the name of a file is that of the database that it has, or is to have; and of a folder NAME.d that of the one that is made of it.
pub fn stem_len(name: &[u8]) -> usize
    ensures { result ≡ stem_len name.now }
{
    if is_sources_name(name) {
        return name.len() - 2;
    }
    if name.ends_with(b".db") {
        return name.len() - 3;
    }
    if name.ends_with(b".db.new") {
        return name.len() - 7;
    }
    name.len()
}

/// NAME.d.
fn is_sources_name(name: &[u8]) -> bool
    ensures { result ≡ is_sources_name name.now }
{
    name.len() > 2 && name.ends_with(b".d")
}

fn within_of(number: u32) -> Within
    ensures { result ≡ within_of number }
{
    match number {
        1 => Within::Site,
        2 => Within::Sources,
        3 => Within::Locks,
        _ => Within::Profiles,
    }
}

fn kind_of(number: u32) -> Kind
    ensures { result ≡ kind_of number }
{
    match number {
        0 => Kind::File,
        1 => Kind::Folder,
        2 => Kind::Other,
        3 => Kind::Nowhere,
        _ => Kind::Unseen,
    }
}

fn part_in(within: Within, known: &EntryKnown, name: &[u8]) -> Part
    ensures { result ≡ part_in within known.now name.now }
{
    match within {
        Within::Profiles => in_profiles(kind_of(known.kind), name),
        _ if !is_utf8(name) => Part::NotUtf8,
        Within::Site => in_site(known, kind_of(known.kind), name),
        Within::Sources => in_sources(kind_of(known.kind), name),
        Within::Locks => in_locks(kind_of(known.kind), name),
    }
}

fn is_utf8(name: &[u8]) -> bool
    ensures { result ≡ is_utf8 name.now }
{
    match str::from_utf8(name) {
        Ok(_) => true,
        Err(_) => false,
    }
}

fn in_site(known: &EntryKnown, kind: Kind, name: &[u8]) -> Part
    ensures { result ≡ in_site known.now kind name.now }
{
    match kind {
        Kind::File => file_of_site(known, name),
        Kind::Folder => folder_of_site(known, name),
        Kind::Unseen => unseen_of_site(known, name),
        _ => other_of_site(name),
    }
}

fn file_of_site(known: &EntryKnown, name: &[u8]) -> Part
    ensures { result ≡ file_of_site known.now name.now }
{
    if name == ".lock".as_bytes() && known.is_link {
        return Part::Barred;
    }
    if name == "profile".as_bytes() {
        return Part::Profile;
    }
    if !known.is_made {
        return unless_hidden(name, by_its_name(name));
    }
    if stem_len(name) < name.len() {
        return Part::Silent;
    }
    Part::Made
}

/// Programs read NAME.db and NAME.user as databases; and `store` says which kind of store a machine has.
fn by_its_name(name: &[u8]) -> Part
    ensures { result ≡ by_its_name name.now }
{
    if name.ends_with(b".db") || name.ends_with(b".user") {
        return Part::Database;
    }
    if name == "store".as_bytes() {
        return Part::Silent;
    }
    Part::Beside
}

fn folder_of_site(known: &EntryKnown, name: &[u8]) -> Part
    ensures { result ≡ folder_of_site known.now name.now }
{
    if is_sources_name(name) {
        return sources_of_site(name);
    }
    if name == "profiles".as_bytes() {
        return Part::ProfileFolder;
    }
    if name == "profile".as_bytes() {
        return Part::Profile;
    }
    if name == ".lock".as_bytes() || is_in_the_way(known, name) {
        return Part::Barred;
    }
    if known.is_store {
        return Part::Silent;
    }
    unless_hidden(name, Part::Stray)
}

/// A link would give way to the file.
fn is_in_the_way(known: &EntryKnown, name: &[u8]) -> bool
    ensures { result ≡ is_in_the_way known.now name.now }
{
    !known.is_link && is_made_here(known, name)
}

/// The file that `update` makes has this name.
fn is_made_here(known: &EntryKnown, name: &[u8]) -> bool
    ensures { result ≡ is_made_here known.now name.now }
{
    known.is_made && name.ends_with(b".db")
}

/// What it can't look at `update` doesn't replace.
fn unseen_of_site(known: &EntryKnown, name: &[u8]) -> Part
    ensures { result ≡ unseen_of_site known.now name.now }
{
    if is_made_here(known, name) {
        return Part::Barred;
    }
    other_of_site(name)
}

fn sources_of_site(name: &[u8]) -> Part
    ensures { result ≡ sources_of_site name.now }
{
    if is_shown(name) {
        Part::SourceFolder
    } else {
        Part::HiddenFolder
    }
}

/// A profile that can't be read is said to be so.
fn other_of_site(name: &[u8]) -> Part
    ensures { result ≡ other_of_site name.now }
{
    if name == ".lock".as_bytes() {
        return Part::Barred;
    }
    if name == "profile".as_bytes() {
        return Part::Profile;
    }
    unless_hidden(name, Part::Stray)
}

/// Of what can't be looked at `compile` says what is wrong with it.
fn in_sources(kind: Kind, name: &[u8]) -> Part
    ensures { result ≡ in_sources kind name.now }
{
    match kind {
        Kind::Folder if name == "locks".as_bytes() => Part::LockFolder,
        Kind::Folder => unless_hidden(name, Part::Nested),
        Kind::Other => unless_hidden(name, Part::Odd),
        _ => unless_hidden(name, Part::Keyfile),
    }
}

fn in_locks(kind: Kind, name: &[u8]) -> Part
    ensures { result ≡ in_locks kind name.now }
{
    match kind {
        Kind::Folder => unless_hidden(name, Part::Nested),
        Kind::Other => unless_hidden(name, Part::Odd),
        _ => unless_hidden(name, Part::Locks),
    }
}

fn in_profiles(kind: Kind, name: &[u8]) -> Part
    ensures { result ≡ in_profiles kind name.now }
{
    match kind {
        Kind::Folder => unless_hidden(name, Part::Nested),
        Kind::Other => unless_hidden(name, Part::Odd),
        _ => unless_hidden(name, Part::Profile),
    }
}

fn unless_hidden(name: &[u8], part: Part) -> Part
    ensures { result ≡ unless_hidden name.now part }
{
    if is_shown(name) { part } else { Part::Silent }
}

fn if_hidden(is_hidden: bool, part: Part) -> Part
    ensures { result ≡ if_hidden is_hidden part }
{
    if is_hidden { left_out(part) } else { part }
}

/// What is in a hidden NAME.d is left out, but its names are listed.
fn left_out(part: Part) -> Part
    ensures { result ≡ left_out part }
{
    match part {
        Part::LockFolder => Part::HiddenLocks,
        Part::NotUtf8 => Part::NotUtf8,
        _ => Part::Silent,
    }
}
