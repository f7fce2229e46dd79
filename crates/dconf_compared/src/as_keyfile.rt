//! What differs, as a keyfile with comments.
ghost use Rattle.std.specs.Prelude.{◌≡◌, IfErr, IfOk, Ok, codes, map, string_bytes};
ghost use Rattle.dconf_model.specs.Keyfiles.{dumped};
ghost use Rattle.dconf_model.specs.Outcomes.{path_at, setting_paths};
ghost use Rattle.keyfile_core.specs.DumpRows.{AreBelow, setting_of};
ghost use Rattle.dconf_layers.specs.LayerSettings.{seen_in};
ghost use Rattle.dconf_compared.specs.Compared.{IsDifference};
ghost use Rattle.dconf_compared.specs.Undumpable.{IsGiven, IsNoComment, IsNoRow, IsUndumpable, OfPath, has_line_feed};
ghost use Rattle.dconf_compared.specs.declared.as_keyfile.Undumped.TheVariants.{Memory};

use crate::key_lines::{changed, key_lines};
use crate::lock_lines::lock_lines;
use crate::rows::{Row, resets, rows};
use dconf_layers::LentLayers;
use dconf_path::DirPath;
use keyfile_core::{RowsCause, RowsFault, write_rows};
use std::alloc::{AllocError, Global};

/// Why there is no such keyfile.
#[derive(Drop)]
pub enum Undumped {
    /// No row can name this path, or no comment can.
    Path { cause: RowsCause, path: String },
    Memory,
}

impl From<AllocError> for Undumped {
    ghost from_gives = { λ _ e. e ≡ Memory };

    fn from(_: AllocError) -> Undumped {
        Undumped::Memory
    }
}

/// What differs between the first layers and the second, as a keyfile. Its rows are those of the keys whose value is another one, by their
/// second value. Comments say of each key what is seen before and after, and which keys are to be reset, and which locks differ.
///
/// A key whose path no row or comment can name is refused: of those that differ, the first that no comment can name, or else that of the first row
/// that could not be read again. `Memory` comes where a growth is refused.
pub fn difference(
    alloc: Global,
    first: LentLayers<'_, '_>,
    second: LentLayers<'_, '_>,
) -> Result<String, Undumped>
    ensures text { IfOk result (λ text. IsDifference (seen_in first.entry) (seen_in second.entry) (string_bytes text)) }
    ensures fault { IfErr result (OfPath (IsUndumpable (seen_in first.entry) (seen_in second.entry))) }
{
    let paths = changed(alloc, first, second)?;
    check_lines(alloc, &paths)?;
    let lines = key_lines(alloc, "# ", first, second, &paths)?;
    let resets = resets(alloc, first, second, &paths)?;
    let locked = lock_lines(alloc, "# lock ", second, first)?;
    let unlocked = lock_lines(alloc, "# unlock ", first, second)?;
    let rows = rows(alloc, first, second, &paths)?;
    let keyfile = written(alloc, &rows)?;
    Ok(format!(in alloc; "{lines}{resets}{locked}{unlocked}{keyfile}")?)
}

/// Refuses the first path that no comment can name.
fn check_lines(alloc: Global, paths: &[String]) -> Result<(), Undumped>
    ensures { IfErr result (OfPath (IsNoComment (map string_bytes paths.now))) }
{
    match paths.iter().find(|path| has_line_feed(path)) {
        Some(path) => Err(bad_path(alloc, RowsCause::BadKeyName, path.as_str())),
        None => Ok(()),
    }
}

fn has_line_feed(path: &String) -> bool
    ensures { result ≡ has_line_feed (string_bytes path.now) }
{
    path.as_bytes().contains(&b'\n')
}

fn bad_path(alloc: Global, cause: RowsCause, path: &str) -> Undumped
    ensures { OfPath (IsGiven cause path.now) result }
{
    match String::from_str(alloc, path) {
        Ok(path) => Undumped::Path { cause, path },
        Err(_) => Undumped::Memory,
    }
}

/// The text of rows, or the first of them that can't be read again.
fn written(alloc: Global, rows: &[Row<'_>]) -> Result<String, Undumped>
    requires { AreBelow (codes "/") rows.now }
    ensures text { IfOk result (λ text. dumped (codes "/") (map setting_of rows.entry.now) ≡ Ok (string_bytes text)) }
    ensures fault { IfErr result (OfPath (IsNoRow (map setting_of rows.entry.now))) }
{
    match write_rows(alloc, rows, DirPath::parse("/").unwrap()) {
        Ok(text) => Ok(text),
        Err(RowsFault::Fault(flaw)) => Err(bad_path(alloc, flaw.cause, path_of(rows, flaw.row))),
        Err(RowsFault::Memory) => Err(Undumped::Memory),
    }
}

/// The path of a row, or no text where there is none.
fn path_of<'p>(rows: &[Row<'p>], row: usize) -> &'p str
    ensures { result.now ≡ path_at (setting_paths (map setting_of rows.now)) row }
{
    match rows.get(row) {
        Some(row) => row.0.as_str(),
        None => "",
    }
}
