//! What is brought to the disk, one after the other.
ghost use Rattle.std.specs.Prelude.{◌≡◌};
ghost use Rattle.dconf_verdicts.specs.Brought.{begins_with, bring_after, bring_number};

// What is to be there:
/// a folder that is missing;
const MADE_FOLDER: u32 = 0;
/// or, else, a file that has its name; and here the name of its folder, too.
const FOLDER_TOO: u32 = 2;

// What was done last; at first nothing was.
const BEGINS: u32 = 0;

const NAME: u32 = 1;

const MADE: u32 = 2;

const FILE: u32 = 3;

const FOLDER: u32 = 4;

/// What is done next.
#[derive(Clone, Copy)]
pub enum Bring {
    /// The name of the folder is brought to the disk, by the folder above it.
    Name,
    /// What is missing is made in it.
    Make,
    /// The bytes of the file are brought to the disk.
    File,
    /// The names in the folder are.
    Folder,
    /// Nothing: it is over, by the fault of what was done last, if that had one.
    Over,
}

/// What is done next for a folder that is to be made in another one (`what` is 0), for a file in a folder (1), or for both (2), once the task
/// `done` was done, with that errno. A file is brought to the disk itself only if there is one that can be read (`has_file`).
pub fn bring_after(what: u32, done: u32, errno: u32, has_file: bool) -> Bring
    ensures { result ≡ bring_after what done errno has_file }
{
    if errno != 0 {
        return Bring::Over;
    }
    match done {
        BEGINS => begins_with(what, has_file),
        NAME if what == MADE_FOLDER => Bring::Make,
        MADE | FILE => Bring::Folder,
        FOLDER if what == FOLDER_TOO => Bring::Name,
        _ => Bring::Over,
    }
}

/// The same as a number: 1 name, 2 make, 3 file, 4 folder, 5 over.
pub fn bring_number(what: u32, done: u32, errno: u32, has_file: bool) -> u32
    ensures { result ≡ bring_number (bring_after what done errno has_file) }
{
    match bring_after(what, done, errno, has_file) {
        Bring::Name => 1,
        Bring::Make => 2,
        Bring::File => 3,
        Bring::Folder => 4,
        Bring::Over => 5,
    }
}

/// Who made the folder above may have been killed before its name was on the disk.
fn begins_with(what: u32, has_file: bool) -> Bring
    ensures { result ≡ begins_with what has_file }
{
    if what == MADE_FOLDER {
        return Bring::Name;
    }
    if has_file { Bring::File } else { Bring::Folder }
}
