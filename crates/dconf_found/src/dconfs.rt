//! A profile of dconf's kind of store, as a command reads it: its lines mean the files that they mean to the library.
ghost use Rattle.std.specs.Prelude.{◌≡◌, ◌++◌, ◌∷◌, [], ℕ, IfOk, List, OnOk, Option, map, option_map, vec_items};
ghost use Rattle.dconf_model.specs.Profiles.{kind_text};
ghost use Rattle.dconf_path.specs.Profiles.{kind_of};
ghost use Rattle.dconf_places.specs.Told.{text_of};
ghost use Rattle.dconf_homes.specs.Told.{home_of};
ghost use Rattle.dconfdb_calls.specs.GoodLines.{first_fault, good_names, line_fault};
ghost use Rattle.dconfdb_calls.specs.Named.{told};
ghost use Rattle.dconf_found.specs.DconfsLines.{line_in_place, shown_kind, shown_name, text_in_place, user_among};

use dconf_homes::Place;
use dconf_path::DatabaseKind;
use dconf_places::{PathParts, kind_of_number};
use dconfdb_calls::{BadProfile, DconfdbName, good_lines};
use std::alloc::{AllocError, Global};

/// What a profile says where dconf has its databases.
#[derive(Drop)]
pub struct InPlace {
    /// A profile of our own kind, which says that.
    pub text: Vec<u8>,
    /// The NAME of the user's database, if there is one.
    pub user: Option<Vec<u8>>,
    /// The first line that is passed over.
    pub fault: Option<BadProfile>,
}

/// What a profile's file says in a store of dconf's kind. A line at fault is passed over, as the library does for programs.
///
/// The only error is a failed allocation. It reads each line once.
pub fn profile_in_place(
    alloc: Global,
    place: &Place<'_>,
    profile: &[u8],
) -> Result<InPlace, AllocError>
    ensures text { IfOk result (λ it. vec_items it.text ≡ text_in_place (home_of place.now) (good_names profile.now)) }
    ensures user { IfOk result (λ it. option_map vec_items it.user ≡ user_among (good_names profile.now)) }
    ensures fault { IfOk result (λ it. option_map line_fault it.fault ≡ first_fault profile.now) }
{
    let Ok(lines) = good_lines(alloc, profile) else {
        return Err(AllocError);
    };
    let text = lines_of(alloc, place, &lines.names)?;
    let user = user_of(alloc, &lines.names)?;
    Ok(InPlace {
        text,
        user,
        fault: lines.fault,
    })
}

/// The name of the user's database, if it is the first.
fn user_of(alloc: Global, names: &[DconfdbName<'_>]) -> Result<Option<Vec<u8>>, AllocError>
    ensures { IfOk result (λ user. option_map vec_items user ≡ user_among (map told names.now)) }
{
    match names.first() {
        Some(first) if first.kind == 0 => Ok(Some(first.name.to_vec(alloc)?)),
        Some(_) => Ok(None),
        None => Ok(None),
    }
}

/// A line for each database.
fn lines_of(
    alloc: Global,
    place: &Place<'_>,
    names: &[DconfdbName<'_>],
) -> Result<Vec<u8>, AllocError>
    ensures { IfOk result (λ text. vec_items text ≡ text_in_place (home_of place.now) (map told names.now)) }
{
    let mut text = Vec::new(alloc);
    for name in names {
        push_line(&mut text, place, *name)?;
    }
    Ok(text)
}

/// Adds the line of a database.
fn push_line(
    text: &mut Vec<u8>,
    place: &Place<'_>,
    database: DconfdbName<'_>,
) -> Result<(), AllocError>
    ensures { OnOk result (vec_items text.new ≡ vec_items text.old ++ line_in_place (home_of place.now) (told database.entry)) }
{
    let kind = kind_of_number(database.kind);
    let path = shown_name(place, kind, database.name);
    text.extend_from_slice(word_of(kind))?;
    text.extend_from_slice(path.first)?;
    text.extend_from_slice(path.second)?;
    text.extend_from_slice(path.third)?;
    text.extend_from_slice(path.fourth)?;
    text.push(b'\n')?;
    Ok(())
}

/// What its line begins with: one of the system is a file by its path.
fn word_of(kind: DatabaseKind) -> &'static [u8]
    ensures { result.now ≡ kind_text (shown_kind (kind_of kind)) }
{
    match kind {
        DatabaseKind::User => b"user-db:",
        DatabaseKind::System => b"file-db:",
        DatabaseKind::File => b"file-db:",
    }
}

/// Its name there. The user's has its file under another name, and a file in the folder gets a path that no such name has.
fn shown_name<'a>(place: &Place<'a>, kind: DatabaseKind, name: &'a [u8]) -> PathParts<'a>
    ensures { text_of result ≡ shown_name (home_of place.now) (kind_of kind) name.entry.now }
{
    match kind {
        DatabaseKind::User => named(b"", name),
        DatabaseKind::System => place.file(b"", kind, name),
        DatabaseKind::File if name.starts_with(b"/") => place.file(b"", kind, name),
        DatabaseKind::File => named(b"./", name),
    }
}

fn named<'a>(start: &'a [u8], name: &'a [u8]) -> PathParts<'a>
    ensures { text_of result ≡ start.entry.now ++ name.entry.now }
{
    PathParts {
        first: b"",
        second: b"",
        third: start,
        fourth: name,
    }
}
