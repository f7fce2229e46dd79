//! Where the service has files of its own; and which file it keeps open.
ghost use Rattle.std.specs.Prelude.{◌≡◌};
ghost use Rattle.dconf_served.specs.Folders.{folder_for, folder_number, is_kept_open};

/// Linux's numbers of file systems, those of ext2 to ext4 and of tmpfs.
const EXT: u64 = 0xEF53;

const TMPFS: u64 = 0x0102_1994;

/// In which folder the profiles are of databases by themselves.
#[derive(Clone, Copy)]
pub enum Folder {
    /// The runtime folder of the store's place.
    Places,
    /// The runtime folder that the system's library names.
    Runtime,
    /// The user's cache.
    Cache,
}

/// The first whose path is absolute, of the place's and the runtime folder; else the cache, which the library has in any case.
pub fn folder_for(is_places: bool, is_runtime: bool) -> Folder
    ensures { result ≡ folder_for is_places is_runtime }
{
    if is_places {
        return Folder::Places;
    }
    if is_runtime {
        return Folder::Runtime;
    }
    Folder::Cache
}

/// The same as a number: 0 the place's, 1 the runtime folder, 2 the cache.
pub fn folder_number(is_places: bool, is_runtime: bool) -> u32
    ensures { result ≡ folder_number (folder_for is_places is_runtime) }
{
    match folder_for(is_places, is_runtime) {
        Folder::Places => 0,
        Folder::Runtime => 1,
        Folder::Cache => 2,
    }
}

/// Whether a file that was replaced is kept open for a while, by the number of its file system. On ext4 it takes a while to free it. On any other file system
/// but tmpfs somebody else may serve it, as NFS does: it would get another name first, and for a moment the database would have none.
pub fn is_kept_open(system: u64) -> bool
    ensures { result ≡ is_kept_open system }
{
    system == EXT || system == TMPFS
}
