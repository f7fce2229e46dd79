//! The database that `dconf compile` makes of a folder.
ghost use Rattle.std.specs.Prelude.{◌≡◌, IfOk, map, string_bytes, vec_items};
ghost use Rattle.dconf_model.specs.Updates.{is_shown, sources_in};
ghost use Rattle.command_words.specs.Commands.{command_of};
ghost use Rattle.dconf_by_name.specs.Folders.{compile_of_folder};

use command_words::Command;
use std::alloc::{AllocError, Global};

/// The command that makes `out` of the keyfiles in a folder and the lock files in its folder `locks`, which have these names. Hidden files are
/// left out.
///
/// It looks at each name once. The only error is a failed allocation.
pub fn compile_of_folder(
    alloc: Global,
    out: &str,
    folder: &str,
    locks: &[String],
    keyfiles: &[String],
) -> Result<Command, AllocError>
    ensures { IfOk result (λ command. command_of command ≡ compile_of_folder out.now folder.now (map string_bytes locks.now) (map string_bytes keyfiles.now)) }
{
    let locks_start = format!(in alloc; "{folder}/locks/")?;
    let start = format!(in alloc; "{folder}/")?;
    Ok(Command::Compile {
        out: String::from_str(alloc, out)?,
        locks: sources_in(alloc, locks_start.as_str(), locks)?,
        keyfiles: sources_in(alloc, start.as_str(), keyfiles)?,
    })
}

/// The names of the files that are not hidden, each after this start.
fn sources_in(alloc: Global, start: &str, files: &[String]) -> Result<Vec<String>, AllocError>
    ensures { IfOk result (λ names. map string_bytes (vec_items names) ≡ sources_in start.now (map string_bytes files.now)) }
{
    let mut names = Vec::new(alloc);
    for file in files {
        if is_shown(file) {
            names.push(format!(in alloc; "{start}{file}")?)?;
        }
    }
    Ok(names)
}

/// Whether a name is not hidden.
fn is_shown(name: &str) -> bool
    ensures { result ≡ is_shown name.now }
{
    !name.as_bytes().starts_with(b".")
}
