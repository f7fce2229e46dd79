//! The order in which keyfiles are taken: the byte order of their names.
ghost use Rattle.std.specs.Prelude.{◌≡◌, IfOk, OnOk, Some, map};
ghost use Rattle.std.specs.List.{enumerate_from};
ghost use Rattle.dconf_model.specs.Order.{in_order};
ghost use Rattle.dconf_model.specs.Sources.{first_file, taken};
ghost use Rattle.dconf_compile.specs.CompileFaults.{file_of};
ghost use Rattle.dconf_compile.specs.Sources.{numbered, sources_of};

use crate::fault::FileRef;
use crate::source::Source;
use std::alloc::{AllocError, Global};

/// A file, and its number as it was handed in.
#[derive(Clone, Copy)]
pub(crate) struct Numbered<'a> {
    pub number: usize,
    pub source: Source<'a>,
}

/// Keyfiles in the byte order of their names, those of one name as they were handed in.
pub(crate) fn in_order<'a>(
    alloc: Global,
    files: &[Source<'a>],
) -> Result<Vec<Numbered<'a>>, AllocError>
    ensures { IfOk result (λ order. map numbered order.items ≡ taken (sources_of files.entry.now)) }
{
    let mut order = with_numbers(alloc, files)?;
    sort_by_name(&mut order)?;
    Ok(order)
}

/// Files with their numbers.
fn with_numbers<'a>(alloc: Global, files: &[Source<'a>]) -> Result<Vec<Numbered<'a>>, AllocError>
    ensures { IfOk result (λ all. map numbered all.items ≡ enumerate_from 0 (sources_of files.entry.now)) }
{
    let mut all = Vec::new(alloc);
    for (number, source) in files.iter().enumerate() {
        all.push(Numbered {
            number,
            source: *source,
        })?;
    }
    Ok(all)
}

/// Puts files in the byte order of their names. Those of one name keep their order.
fn sort_by_name(files: &mut Vec<Numbered<'_>>) -> Result<(), AllocError>
    ensures { OnOk result (map numbered files.new.items ≡ in_order (λ s. s.1.name) (map numbered files.old.items)) }
{
    files.sort_by_key(|file| file.source.name)?;
    Ok(())
}

/// The file that is taken first: a keyfile, or the first lock file where there is none.
pub(crate) fn first_file(order: &[Numbered<'_>]) -> FileRef
    ensures { file_of result ≡ Some (first_file (map numbered order.now)) }
{
    match order.first() {
        Some(file) => FileRef::Keyfile(file.number),
        None => FileRef::LockFile(0),
    }
}
