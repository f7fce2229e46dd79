//! The flag by which dconf's programs that read a database in place know that another one has its name.
use std::fs::OpenOptions;
use std::io::{Seek, SeekFrom, Write};
use std::rt::Files;
use std::{fs, io};

/// Sets it, if anybody has made it. A fault of it is none of the change.
pub(crate) fn set_flag<R: Files>(rt: &R, flag: &str) {
    match fs::symlink_metadata(rt, flag) {
        Ok(found) if found.is_file() => {}
        _ => return,
    }
    let mut options = OpenOptions::new();
    options.read(true).write(true);
    if let Ok(mut file) = options.open(rt, flag) {
        // Who has it mapped sees it; who comes later makes another. What can't be set keeps its name, and is set by the next change.
        if let Ok(true) = fill(&mut file) {
            let _ = fs::remove_file(rt, flag);
        }
    }
}

/// Whether it is set. The file is made longer first, since a reader may have made it a moment ago, and mapped nothing yet.
fn fill<F: Write + Seek>(file: &mut F) -> io::Result<bool> {
    file.seek(SeekFrom::Start(1))?;
    if file.write(&[0])? != 1 {
        return Ok(false);
    }
    file.seek(SeekFrom::Start(0))?;
    Ok(file.write(&[1])? == 1)
}
