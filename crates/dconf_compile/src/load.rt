//! A keyfile whose rows are loaded below a directory: the path of each row, and the value that its text spells.
ghost use Rattle.std.specs.Prelude.{◌≡◌, Bool, Err, IfErr, IfOk, IfSome, Ok, map};
ghost use Rattle.std.specs.List.{All, AllByRecursion};
ghost use Rattle.dconf_model.specs.Lines.LineReading.{found, wrong};
ghost use Rattle.dconf_model.specs.Sources.{loaded};
ghost use Rattle.dconf_path.specs.Paths.{directory_text};
ghost use Rattle.keyfile_core.specs.Rows.{row_meant};
ghost use Rattle.dconf_compile.specs.Added.{IsReadRow};
ghost use Rattle.dconf_compile.specs.CompileFaults.{cause_of};
ghost use Rattle.dconf_compile.specs.LineStops.{line_fault_of};
ghost use Rattle.dconf_compile.specs.PathedRows.{IsPathed, assigned_of, at_path, pathed_meant, row_loaded};

use crate::fault::CompileCause;
use crate::line_stop::LineStop;
use crate::rows::path_of;
use crate::value::value_of_text;
use dconf_path::{DirPath, KeyPath};
use gv_tree::Tree;
use keyfile_core::{Row, read};
use std::alloc::{AllocError, Global};

/// A row of a keyfile by the path of its key.
#[derive(Drop)]
struct PathedRow<'a> {
    /// The number of its line.
    line: usize,
    path: String,
    text: &'a str,
}

/// What rows give.
#[derive(Drop)]
pub struct Loaded<'a> {
    /// The keys and their values, in the order of the rows.
    pub values: Vec<(KeyPath<'a>, Tree)>,
    /// The paths of the rows that are left out, in their order.
    pub left_out: Vec<&'a str>,
}

/// The rows of a keyfile by the paths of their keys below a directory. Their values are not read yet.
#[derive(Drop)]
pub struct RowsBelow<'a> {
    rows: Vec<PathedRow<'a>>,

    ghost are_pathed: { All IsPathed rows.items },
}

impl<'a> RowsBelow<'a> {
    ghost use Rattle.dconf_compile.specs.Loading.{loaded_of, rows_loaded};

    /// Reads the lines of a keyfile, and puts the path of each row's key below a directory.
    ///
    /// The refusals are those of [`read`], with their line. The texts of the rows are lent from the bytes; the paths are copied.
    pub fn read(
        alloc: Global,
        directory: DirPath<'_>,
        bytes: &'a [u8],
    ) -> Result<RowsBelow<'a>, LineStop>
        ensures found { IfOk result (λ rows. (skip : Bool) → loaded skip (directory_text directory.entry) bytes.entry.now ≡ rows_loaded skip rows) }
        ensures fault { IfErr result (λ stop. (skip : Bool) → IfSome (line_fault_of stop) (λ fault. loaded skip (directory_text directory.entry) bytes.entry.now ≡ Err fault)) }
    {
        let rows = read(alloc, bytes)?;
        let rows = with_paths(alloc, directory, &rows)?;
        Ok(RowsBelow { rows })
    }

    /// The key and the value of each row, in their order, or the first line at fault: its path is `TooLong`, or its text has no value.
    /// Where doubles are skipped, a row whose text is refused for one is left out.
    ///
    /// Each text is read once, as [`value_of_text`] does. All values are in memory then.
    pub fn values(&self, alloc: Global, skip_doubles: bool) -> Result<Loaded<'_>, LineStop>
        ensures found { IfOk result (λ loaded. rows_loaded skip_doubles self.now ≡ Ok (loaded_of loaded)) }
        ensures fault { IfErr result (λ stop. IfSome (line_fault_of stop) (λ fault. rows_loaded skip_doubles self.now ≡ Err fault)) }
    {
        let mut values = Vec::with_capacity(alloc, self.rows.len())?;
        let mut left_out = Vec::new(alloc);
        for row in &self.rows {
            match row.value(alloc) {
                Ok(value) => values.push(value)?,
                Err(cause) => {
                    if !(skip_doubles && cause.is_double()) {
                        return Err(LineStop {
                            line: row.line,
                            cause,
                        });
                    }
                    left_out.push(row.path.as_str())?;
                }
            }
        }
        Ok(Loaded { values, left_out })
    }
}

impl PathedRow<'_> {
    /// The key and the value of the row, or what is wrong with it.
    fn value(&self, alloc: Global) -> Result<(KeyPath<'_>, Tree), CompileCause>
        requires { IsPathed self.now }
        ensures found { IfOk result (λ value. row_loaded (pathed_meant self.now) ≡ found (assigned_of value)) }
        ensures fault { IfErr result (λ cause. IfSome (cause_of cause) (λ c. row_loaded (pathed_meant self.now) ≡ wrong c)) }
    {
        match KeyPath::parse(&self.path) {
            Ok(path) => Ok((path, value_of_text(alloc, self.text)?)),
            // The rules of keyfiles leave no other fault.
            Err(_) => Err(CompileCause::TooLong),
        }
    }
}

/// Rows by the paths of their keys below a directory.
fn with_paths<'a>(
    alloc: Global,
    directory: DirPath<'_>,
    rows: &[Row<'a>],
) -> Result<Vec<PathedRow<'a>>, AllocError>
    requires { AllByRecursion IsReadRow (map row_meant rows.now) }
    ensures rows { IfOk result (λ pathed. map pathed_meant pathed.items ≡ map (at_path (directory_text directory.entry)) (map row_meant rows.entry.now)) }
    ensures paths { IfOk result (λ pathed. All IsPathed pathed.items) }
{
    let mut pathed = Vec::with_capacity(alloc, rows.len())?;
    for row in rows {
        let path = path_of(alloc, directory.as_str(), row)?;
        pathed.push(PathedRow {
            line: row.line,
            path,
            text: row.text,
        })?;
    }
    Ok(pathed)
}
