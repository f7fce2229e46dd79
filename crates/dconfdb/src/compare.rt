//! `diff OLD NEW`: two stores or databases.
use crate::explain::status_of;
use crate::messages::{REFUSED, refuse, refuse_device, refuse_for, refuse_memory, refuse_place};
use crate::runs::warn;
use crate::sources::is_folder;
use crate::stores::{Databases, databases_by, found_folder, layers_of};
use dconf_args::Place;
use dconf_compared::{Undumped, difference};
use dconf_disk::StdFolder;
use dconf_json::difference_lines;
use dconf_layers::{Layer, LentLayers};
use dconf_streams::{Refusal, file, refused};
use dconf_surroundings::enter;
use std::alloc::Global;
use std::env;

/// Prints what differs, and gives the status.
pub(crate) fn compare(rt: &HostRuntime, old: &str, new: &str, is_json: bool) -> u8 {
    let Ok(here) = env::current_dir(rt) else {
        return refuse_device(rt, ".");
    };
    let first = match side(rt, old) {
        Ok(side) => side,
        Err(status) => return status,
    };
    // A store is read in its folder.
    if env::set_current_dir(rt, here.as_str()).is_err() {
        return refuse_device(rt, here.as_str());
    }
    let second = match side(rt, new) {
        Ok(side) => side,
        Err(status) => return status,
    };
    match compared(rt.alloc(), &first, &second, is_json) {
        Ok(text) => status_of(print!(rt; "{}", text.as_str())),
        Err(refusal) => refuse_for(rt, &refusal),
    }
}

/// Those of the store in a folder.
fn store_side(rt: &HostRuntime, name: &str) -> Result<Databases, u8> {
    let Ok(folder) = String::from_str(rt.alloc(), name) else {
        return Err(refuse_memory(rt));
    };
    let place = Place {
        is_users: false,
        folder: Some(folder),
        profile: None,
        is_own: false,
    };
    let found = match enter(rt, place, false) {
        Ok(found) => found,
        Err(fault) => return Err(refuse_place(rt, fault)),
    };
    let Ok(mut folder) = found_folder(rt, StdFolder::read_only(rt), &found) else {
        return Err(refuse_memory(rt));
    };
    match databases_by(rt.alloc(), &mut folder, found.profile.path.as_str()) {
        Ok(databases) => match warn(rt, folder.bad(), &found) {
            Ok(()) => Ok(databases),
            Err(_) => Err(REFUSED),
        },
        Err(refusal) => Err(refuse_for(rt, &refusal)),
    }
}

/// The databases of a store or a file; or else the status of the refusal, which is said. That in a file is behind one without keys, so that its
/// locks count.
fn side(rt: &HostRuntime, name: &str) -> Result<Databases, u8> {
    if is_folder(rt, name) {
        return store_side(rt, name);
    }
    let bytes = match file(rt.alloc(), &mut StdFolder::read_only(rt), name) {
        Ok(bytes) => bytes,
        Err(refusal) => return Err(refuse_for(rt, &refusal)),
    };
    if let Err(fault) = Layer::open(Some(&bytes)) {
        refuse(rt, format_args!("BadDatabase {name}: {fault}"));
        return Err(REFUSED);
    }
    match vec![in rt.alloc(); None, Some(bytes)] {
        Ok(files) => Ok(Databases {
            files,
            is_writable: false,
        }),
        Err(_) => Err(refuse_memory(rt)),
    }
}

/// What differs, as a keyfile, or, where `is_json`, as JSON.
fn compared(
    alloc: Global,
    first: &Databases,
    second: &Databases,
    is_json: bool,
) -> Result<String, Refusal> {
    let before = layers_of(alloc, first)?;
    let after = layers_of(alloc, second)?;
    let before = LentLayers::new(first.is_writable, &before);
    let after = LentLayers::new(second.is_writable, &after);
    if is_json {
        return Ok(difference_lines(alloc, before, after)?);
    }
    match difference(alloc, before, after) {
        Ok(text) => Ok(text),
        Err(Undumped::Path { cause, path }) => Err(refused(alloc, format_args!("{cause} {path}"))),
        Err(Undumped::Memory) => Err(Refusal::Memory),
    }
}
