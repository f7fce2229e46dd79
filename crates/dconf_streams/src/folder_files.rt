//! Files that a command reads from the folder.
ghost use Rattle.std.specs.Prelude.{◌≡◌, ℕ, Err, IfOk, IfErr, map, option_map, string_bytes, vec_items};
ghost use Rattle.dconf_model.specs.Outcomes.{OrNoDatabase, WithFile, WithFiles};
ghost use Rattle.dconf_model.specs.Reads.FileRead.{holds};
ghost use Rattle.dconf_streams.specs.Readings.{Decides, HasRead, NoSources, Nothing, NothingIfAny, found_read, named_sources, one_read, reads_of};

use crate::refusal::{Refusal, device, refused};
use dconf_folders::{Folder, FolderFault};
use std::alloc::Global;

/// A file that was read, by its name.
#[derive(Drop)]
pub struct NamedFile<'a> {
    pub name: &'a str,
    pub bytes: Vec<u8>,
}

/// A file by its name, or the refusal of a command that needs it.
pub fn named_file<'a, F: Folder>(
    alloc: Global,
    folder: &mut F,
    name: &'a str,
) -> Result<NamedFile<'a>, Refusal>
    ensures name { IfOk result (λ file. file.name.now ≡ name.now) }
    ensures ok { IfOk result (λ file.
        HasRead F.Folder folder.old folder.new (one_read name.now (holds (vec_items file.bytes)))) }
    ensures err { IfErr result (λ refusal. (n : ℕ)
        → Decides F.Folder folder.old folder.new n (λ reads. WithFile reads n name.now Nothing) (Err refusal)) }
{
    let bytes = file(alloc, folder, name)?;
    Ok(NamedFile { name, bytes })
}

/// Several files, read in the order of their names, or the refusal of a command that needs them. After one that can't be read none
/// is read.
pub fn files<'a, F: Folder>(
    alloc: Global,
    folder: &mut F,
    names: &'a [String],
) -> Result<Vec<NamedFile<'a>>, Refusal>
    ensures names { IfOk result (λ files. map (λ s. s.name) (named_sources (vec_items files)) ≡ map string_bytes names.now) }
    ensures ok { IfOk result (λ files. HasRead F.Folder folder.old folder.new (reads_of (named_sources (vec_items files)))) }
    ensures err { IfErr result (λ refusal. (n : ℕ)
        → Decides F.Folder folder.old folder.new n (λ reads. WithFiles reads n (map string_bytes names.now) NoSources) (Err refusal)) }
{
    let mut files = Vec::new(alloc);
    for name in names {
        let name = name.as_str();
        let bytes = file(alloc, folder, name)?;
        files.push(NamedFile { name, bytes })?;
    }
    Ok(files)
}

/// The bytes of a file, or the refusal of a command that needs it.
pub fn file<F: Folder>(alloc: Global, folder: &mut F, name: &str) -> Result<Vec<u8>, Refusal>
    ensures ok { IfOk result (λ bytes.
        HasRead F.Folder folder.old folder.new (one_read name.now (holds (vec_items bytes)))) }
    ensures err { IfErr result (λ refusal. (n : ℕ)
        → Decides F.Folder folder.old folder.new n (λ reads. WithFile reads n name.now Nothing) (Err refusal)) }
{
    match file_if_any(alloc, folder, name)? {
        Some(bytes) => Ok(bytes),
        None => Err(refused(alloc, format_args!("NoFile {name}"))),
    }
}

/// The bytes of a file that may be missing, or the refusal where it can't be read.
pub fn file_if_any<F: Folder>(
    alloc: Global,
    folder: &mut F,
    name: &str,
) -> Result<Option<Vec<u8>>, Refusal>
    ensures ok { IfOk result (λ found.
        HasRead F.Folder folder.old folder.new (one_read name.now (found_read (option_map vec_items found)))) }
    ensures err { IfErr result (λ refusal. (n : ℕ)
        → Decides F.Folder folder.old folder.new n (λ reads. OrNoDatabase name.now (reads n name.now) NothingIfAny) (Err refusal)) }
{
    match folder.read(alloc, name) {
        Ok(found) => Ok(found),
        Err(FolderFault::Device) => Err(device(alloc, name)),
        Err(FolderFault::TooBig) => Err(refused(alloc, "TooBig")),
        Err(FolderFault::Memory) => Err(Refusal::Memory),
    }
}
