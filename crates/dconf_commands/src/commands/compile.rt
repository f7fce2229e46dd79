//! `compile OUT [--locks FILE].. [KEYFILE..]`: the database of keyfiles and lock files, or their first fault.
ghost use Rattle.std.specs.Prelude.{◌≡◌, [], Err, IfOk, IfSome, map, string_bytes, vec_items};
ghost use Rattle.dconf_compile.specs.CompileFaults.{fault_of, no_memory};
ghost use Rattle.dconf_compile.specs.Sources.{sources_of};
ghost use Rattle.dconf_model.specs.Commands.Command.{compile as compile_of};
ghost use Rattle.dconf_model.specs.FaultTexts.{line_fault_text};
ghost use Rattle.dconf_model.specs.Outcomes.{Compiles, IsOutcome, changing, file_name, source_name};
ghost use Rattle.dconf_model.specs.Reads.{Input};
ghost use Rattle.dconf_streams.specs.Answers.{GivesOutcome, RefusesFor};
ghost use Rattle.dconf_streams.specs.Readings.{Decides, named_sources};
ghost use Rattle.refused.specs.declared.Refused.TheVariants.{Memory};

use dconf_compile::{CompileFault, FileRef, Source};
use dconf_folders::Folder;
use dconf_streams::{Answer, NamedFile, Refusal, files, refused_at};
use std::alloc::{AllocError, Global};

/// What `compile` answers. All files are read before any is looked at.
pub(crate) fn compile<F: Folder>(
    alloc: Global,
    out: &str,
    locks: &[String],
    keyfiles: &[String],
    folder: &mut F,
) -> Result<Answer, Refusal>
    ensures { (input : Input) → Decides F.Folder folder.old folder.new 0
        (λ reads. IsOutcome (compile_of out.now (map string_bytes locks.now) (map string_bytes keyfiles.now)) reads input) result }
{
    let keyfiles = files(alloc, folder, keyfiles)?;
    let locks = files(alloc, folder, locks)?;
    compiled(alloc, out, &keyfiles, &locks)
}

/// What `compile` answers for the bytes of the files.
fn compiled(
    alloc: Global,
    out: &str,
    keyfiles: &[NamedFile<'_>],
    locks: &[NamedFile<'_>],
) -> Result<Answer, Refusal>
    ensures { GivesOutcome result (Compiles out.now (named_sources keyfiles.entry.now) (named_sources locks.entry.now)) }
{
    let keyfile_sources = sources(alloc, keyfiles)?;
    let lock_sources = sources(alloc, locks)?;
    match dconf_compile::compile(alloc, &keyfile_sources, &lock_sources) {
        Ok(bytes) => changed(alloc, out, bytes),
        Err(fault) => Err(refusal(alloc, fault, keyfiles, locks)),
    }
}

/// The files as they are compiled.
fn sources<'a, 'b>(alloc: Global, files: &'b [NamedFile<'a>]) -> Result<Vec<Source<'b>>, AllocError>
    ensures { IfOk result (λ sources. sources_of (vec_items sources) ≡ named_sources files.entry.now) }
{
    let mut sources = Vec::new(alloc);
    for file in files {
        sources.push(Source {
            name: file.name,
            bytes: &file.bytes,
        })?;
    }
    Ok(sources)
}

/// The answer that puts the database into the place of `out`.
fn changed(alloc: Global, out: &str, bytes: Vec<u8>) -> Result<Answer, Refusal>
    ensures { GivesOutcome result (λ o. o ≡ changing out.now (vec_items bytes) []) }
{
    Ok(Answer::Changed {
        file: String::from_str(alloc, out)?,
        bytes,
        text: String::new(alloc),
    })
}

/// The refusal that says which file is at fault, at which line and why.
fn refusal(
    alloc: Global,
    fault: CompileFault,
    keyfiles: &[NamedFile<'_>],
    locks: &[NamedFile<'_>],
) -> Refusal
    ensures says { IfSome (fault_of fault) (λ f. RefusesFor (Err result)
        (line_fault_text (file_name (named_sources keyfiles.entry.now) (named_sources locks.entry.now) f.file) f.line f.cause)) }
    ensures memory { fault ≡ no_memory → result ≡ Memory }
{
    let name = match fault.file {
        FileRef::Keyfile(i) => name_of(keyfiles, i),
        FileRef::LockFile(i) => name_of(locks, i),
        FileRef::Whole => return Refusal::Memory,
    };
    refused_at(alloc, name, fault.line, fault.cause)
}

/// The name of the file of that number.
fn name_of<'a>(files: &[NamedFile<'a>], i: usize) -> &'a str
    ensures { result.now ≡ source_name (named_sources files.entry.now) i }
{
    match files.get(i) {
        Some(file) => file.name,
        None => "",
    }
}
