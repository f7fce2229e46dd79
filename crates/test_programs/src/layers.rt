//! A folder whose profile has a database of the user's and one of the site's, for runs that change settings.
use crate::script::{folder_of, put, runs};
use dconf_folders::{Folder, MemoryFolder};
use std::alloc::Global;
use std::test::Fail;
use test_rows::bytes_of;

const MADE: &str = "
$ compile me.user u => 0
$ compile --locks l site.db s => 0
";

/// A folder whose profile names the user's database `me`, with 1 at `/a/k`, and `site`, with 2 there. `own` names `me` alone; `late`
/// names a database that is cut off before `site`.
pub(crate) fn two_layers(alloc: Global, locks: &str) -> Result<MemoryFolder, Fail> {
    let files = [
        ("u", "[a]\nk=1\n"),
        ("s", "[a]\nk=2\n"),
        ("l", locks),
        ("profile", "user-db:me\nsystem-db:site\n"),
        ("own", "user-db:me\n"),
        ("late", "system-db:bad\nsystem-db:site\n"),
    ];
    let mut folder = folder_of(alloc, &files)?;
    put(
        alloc,
        &mut folder,
        "bad.db",
        &bytes_of(alloc, "%plain :23")?,
    )?;
    runs(alloc, MADE, &mut folder)?;
    settle(&mut folder, &files)?;
    settle(&mut folder, &[("bad.db", "")])?;
    Ok(folder)
}

/// Syncs these files and the folder, so that a crash leaves them.
pub(crate) fn settle(folder: &mut MemoryFolder, files: &[(&str, &str)]) -> Result<(), Fail> {
    for (name, _) in files {
        folder.sync(name, None)?;
    }
    folder.sync_folder()?;
    Ok(())
}
