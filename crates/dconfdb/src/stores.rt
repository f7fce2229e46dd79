//! A store that was found, as it is read.
use dconf_commands::{databases, profile};
use dconf_disk::{Folder, StdFolder};
use dconf_engine::{EngineFault, is_of_user, open_layers};
use dconf_found::{FoundFolder, RenamedFolder};
use dconf_layers::Layer;
use dconf_places::file_name;
use dconf_streams::{Refusal, file_if_any, named_file, refused};
use dconf_surroundings::Found;
use std::alloc::{AllocError, Global};

/// The folder of a store, in which a bad database counts as what can be saved of it.
pub(crate) type StoreFolder<'a> = FoundFolder<RenamedFolder<StdFolder<&'a HostRuntime>>>;

pub(crate) fn found_folder<'a>(
    rt: &'a HostRuntime,
    folder: StdFolder<&'a HostRuntime>,
    found: &Found,
) -> Result<StoreFolder<'a>, AllocError> {
    let profile = String::from_str(rt.alloc(), found.profile.path.as_str())?;
    let made = match &found.profile.made {
        Some(text) => Some(text.as_slice().to_vec(rt.alloc())?),
        None => None,
    };
    Ok(FoundFolder::new(
        rt.alloc(),
        RenamedFolder::new(folder, found.names(rt)?),
        profile,
        made,
        found.is_everyones(),
        found.has_folder,
    ))
}

/// The databases that a profile names, in its order, and whether the first is the user's.
#[derive(Drop)]
pub(crate) struct Databases {
    pub(crate) files: Vec<Option<Vec<u8>>>,
    pub(crate) is_writable: bool,
}

/// Reads the databases that the profile of this name names.
pub(crate) fn databases_by<F: Folder>(
    alloc: Global,
    folder: &mut F,
    name: &str,
) -> Result<Databases, Refusal> {
    let file = named_file(alloc, folder, name)?;
    let named = profile(alloc, file.name, &file.bytes)?;
    Ok(Databases {
        files: databases(alloc, named.databases(), folder)?,
        is_writable: is_of_user(&named),
    })
}

/// Reads the user's database by the profile of this name.
pub(crate) fn users_own<F: Folder>(
    alloc: Global,
    folder: &mut F,
    name: &str,
) -> Result<Option<Vec<u8>>, Refusal> {
    let file = named_file(alloc, folder, name)?;
    let named = profile(alloc, file.name, &file.bytes)?;
    match named.databases().first() {
        Some(first) if is_of_user(&named) => {
            let name = file_name(alloc, *first)?;
            file_if_any(alloc, folder, name.as_str())
        }
        _ => Err(refused(alloc, "NotWritable")),
    }
}

/// Their layers, or the refusal for the first that is no sound database.
pub(crate) fn layers_of(alloc: Global, databases: &Databases) -> Result<Vec<Layer<'_>>, Refusal> {
    let mut files = Vec::new(alloc);
    for bytes in &databases.files {
        files.push(bytes.as_deref())?;
    }
    match open_layers(alloc, &files) {
        Ok(layers) => Ok(layers),
        Err(EngineFault::Fault(bad)) => Err(refused(alloc, bad)),
        Err(EngineFault::Memory) => Err(Refusal::Memory),
    }
}
