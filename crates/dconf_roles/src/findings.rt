//! What is found wrong with a key that is set, and with a lock.
ghost use Rattle.std.specs.Prelude.{◌≡◌, map};
ghost use Rattle.std.specs.List.{list_any};
ghost use Rattle.dconf_roles.specs.Findings.{finding_for, finding_of, finding_number, is_key, is_value, may_be_there, may_have_file, missing, of_again, of_database, of_file, of_text, of_unset, of_value};
ghost use Rattle.dconf_roles.specs.Slips.{is_slip};

use crate::slips::{Name, has_slip};

// Why a file can't be read, by its errno:
/// nothing is there;
const ENOENT: u32 = 2;

/// it is no regular file;
const EINVAL: u32 = 22;

/// it has too many bytes.
const EOVERFLOW: u32 = 75;

/// What is found.
#[derive(Clone, Copy)]
pub enum Finding {
    Nothing,
    /// No schema has the key.
    NoKey,
    /// No schema has the locked key.
    NoLockedKey,
    /// No schema has a key below the locked directory.
    NoLockedDirectory,
    /// The value is of another type than the key.
    OtherType,
    /// The key doesn't take the value.
    NotTaken,
    /// There is no file of the database.
    NoDatabase,
    /// The key is set already.
    SetTwice,
    /// The key is locked, and nothing sets it.
    NotSet,
    /// The value has a double, which `update` refuses.
    Double,
    /// The text is no value, or none that a database holds.
    NoValue,
    /// There is no such file.
    NoFile,
    /// It is no regular file.
    OddFile,
    /// It is larger than any file that is read.
    LargeFile,
    /// It can't be read, by its errno.
    UnreadFile,
}

/// What is known of it.
#[repr(C)]
#[derive(Clone, Copy)]
pub struct FindingKnown {
    /// What it is: 0 a key that is set, 1 a lock of a key, 3 a database that a profile names, 4 a key that may be set already, 5 a lock whose key
    /// may not be set, 6 a text of a value, 7 a file or a folder that isn't read, else a lock of a directory.
    pub what: u32,
    /// The errno by which it can't be read, or 0: it isn't there.
    pub errnum: u32,
    /// A schema has the key, or one below the directory; or the database has its file; or an earlier line of the same
    /// database sets the key; or a keyfile of the site does; or the text is a value of ours.
    pub is_known: bool,
    /// A schema is at the key's directory.
    pub has_schemas: bool,
    /// A schema without a path has a key of that name; of a directory, there is such a schema.
    pub may_be_elsewhere: bool,
    /// It is set to a value; or GLib has one of the text.
    pub has_value: bool,
    /// One of the keys takes the value; or nothing else is wrong with the lock; or a database holds such a value.
    pub is_taken: bool,
    /// The value is of the first one's type.
    pub is_of_type: bool,
    /// The database is the system's; or the text is one of a source of `update`.
    pub is_system: bool,
    /// `update` makes the database's file.
    pub is_made: bool,
    /// That can't be looked at.
    pub is_unseen: bool,
    /// The profile is one of those in a folder `profiles`, which say nothing of the folder around it.
    pub is_among_profiles: bool,
    /// The text has a double, which is none of ours.
    pub has_double: bool,
}

/// What is found of a key that is set, or of a lock. What a schema without a path may have is passed over, unless it is a slip away from a
/// directory where a schema has such a key.
pub fn finding_of(known: &FindingKnown, directory: &[u8], others: &[Name<'_>]) -> Finding
    ensures { result ≡ finding_of known.now (list_any (λ other. is_slip directory.now other.text.now) others.now) }
{
    if known.is_known {
        return of_value(known);
    }
    if may_be_there(known, has_slip(directory, others)) {
        return Finding::Nothing;
    }
    missing(known.what)
}

/// The same, and of a database that a profile names, which is a file of that name; of what is set twice, or locked and not set; of texts; and of what can't
/// be read.
pub fn finding_for(known: &FindingKnown, name: &[u8], others: &[Name<'_>]) -> Finding
    ensures { result ≡ finding_for known.now name.now (list_any (λ other. is_slip name.now other.text.now) others.now) }
{
    match known.what {
        3 => of_database(known, name),
        4 => of_again(known),
        5 => of_unset(known, name),
        6 => of_text(known),
        7 => of_file(known.errnum),
        _ => finding_of(known, name, others),
    }
}

/// The same as a number: 0 nothing, 1 no schema has the key, 2 the locked key, 3 a key below the locked directory, 4 the value is of another
/// type, 5 the key doesn't take it, 6 the database has no file, 7 the key is set already, 8 it is locked and not set, 9 the value has a double,
/// 10 the text is no value; and 11 there is no file, 12 it is no regular one, 13 it is too large, 14 it can't be read.
pub fn finding_number(known: &FindingKnown, name: &[u8], others: &[Name<'_>]) -> u32
    ensures { result ≡ finding_number (finding_for known.now name.now (list_any (λ other. is_slip name.now other.text.now) others.now)) }
{
    match finding_for(known, name, others) {
        Finding::Nothing => 0,
        Finding::NoKey => 1,
        Finding::NoLockedKey => 2,
        Finding::NoLockedDirectory => 3,
        Finding::OtherType => 4,
        Finding::NotTaken => 5,
        Finding::NoDatabase => 6,
        Finding::SetTwice => 7,
        Finding::NotSet => 8,
        Finding::Double => 9,
        Finding::NoValue => 10,
        Finding::NoFile => 11,
        Finding::OddFile => 12,
        Finding::LargeFile => 13,
        Finding::UnreadFile => 14,
    }
}

/// Where a line of another profile leads nobody knows: it may be one of each user's store.
fn of_database(known: &FindingKnown, file: &[u8]) -> Finding
    ensures { result ≡ of_database known.now file.now }
{
    if may_have_file(known) || !(known.is_system && file == "profile".as_bytes()) {
        return Finding::Nothing;
    }
    Finding::NoDatabase
}

/// Whether the database has its file, or will have it, or nobody can say.
fn may_have_file(known: &FindingKnown) -> bool
    ensures { result ≡ may_have_file known.now }
{
    known.is_known || (known.is_made || (known.is_unseen || known.is_among_profiles))
}

fn of_again(known: &FindingKnown) -> Finding
    ensures { result ≡ of_again known.now }
{
    if known.is_known {
        return Finding::SetTwice;
    }
    Finding::Nothing
}

/// A lock of a directory is of whatever comes below it.
fn of_unset(known: &FindingKnown, path: &[u8]) -> Finding
    ensures { result ≡ of_unset known.now path.now }
{
    if !known.is_known && (known.is_taken && is_key(path)) {
        return Finding::NotSet;
    }
    Finding::Nothing
}

fn is_key(path: &[u8]) -> bool
    ensures { result ≡ is_key path.now }
{
    !path.ends_with(b"/")
}

/// What dconf's own command makes a database of may have doubles.
fn of_text(known: &FindingKnown) -> Finding
    ensures { result ≡ of_text known.now }
{
    if !is_value(known) {
        return Finding::NoValue;
    }
    if known.has_double && known.is_system {
        return Finding::Double;
    }
    Finding::Nothing
}

/// Ours reads no doubles: of a text with one GLib says whether it is a value.
fn is_value(known: &FindingKnown) -> bool
    ensures { result ≡ is_value known.now }
{
    if known.has_double {
        return known.has_value;
    }
    known.is_known && known.is_taken
}

/// A folder that went meanwhile has an errno.
fn of_file(errno: u32) -> Finding
    ensures { result ≡ of_file errno }
{
    match errno {
        0 | ENOENT => Finding::NoFile,
        EINVAL => Finding::OddFile,
        EOVERFLOW => Finding::LargeFile,
        _ => Finding::UnreadFile,
    }
}

fn may_be_there(known: &FindingKnown, is_slip: bool) -> bool
    ensures { result ≡ may_be_there known.now is_slip }
{
    !known.has_schemas && (known.may_be_elsewhere && !is_slip)
}

fn of_value(known: &FindingKnown) -> Finding
    ensures { result ≡ of_value known.now }
{
    if !known.has_value || known.is_taken {
        return Finding::Nothing;
    }
    if known.is_of_type {
        return Finding::NotTaken;
    }
    Finding::OtherType
}

fn missing(what: u32) -> Finding
    ensures { result ≡ missing what }
{
    match what {
        0 => Finding::NoKey,
        1 => Finding::NoLockedKey,
        _ => Finding::NoLockedDirectory,
    }
}
