//! The marks by which dconf's programs that have a database of the system mapped know that another one has its name.
use std::fs::{self, File, OpenOptions};
use std::os::unix::fs::FileExt;

/// A database of the system that is about to be replaced, if there is one.
pub(crate) fn opened(rt: &HostRuntime, name: &str) -> Option<File> {
    match fs::symlink_metadata(rt, name) {
        Ok(found) if found.is_file() => {}
        _ => return None,
    }
    let mut options = OpenOptions::new();
    options.read(true).write(true);
    options.open(rt, name).ok()
}

/// Takes the header of a database of the system away that another one has replaced. A fault of it is none of the change.
pub(crate) fn set_invalid(replaced: &File) {
    let _ = replaced.write_at(&[0; 8], 0);
}
