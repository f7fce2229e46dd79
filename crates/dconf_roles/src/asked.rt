//! The files that are asked for, one beside the other.
ghost use Rattle.std.specs.Prelude.{◌≡◌};
ghost use Rattle.dconf_roles.specs.Asked.{begins_sources, beside, beside_number, reads_on};

/// What a file is beside the one before it, in the order of their paths.
#[derive(Clone, Copy)]
pub enum FileBeside {
    /// The same file: it is looked at once.
    Again,
    /// One more of the same folder, and so of its database.
    Next,
    /// The first one of its folder: what others set counts for nothing there.
    First,
}

/// What it is, by whether it has the path of that one, or the folder.
fn beside(is_same: bool, is_of_folder: bool) -> FileBeside
    ensures { result ≡ beside is_same is_of_folder }
{
    if is_same {
        return FileBeside::Again;
    }
    if is_of_folder {
        return FileBeside::Next;
    }
    FileBeside::First
}

/// The same as a number: 0 again, 1 next, 2 first.
pub fn beside_number(is_same: bool, is_of_folder: bool) -> u32
    ensures { result ≡ beside_number (beside is_same is_of_folder) }
{
    match beside(is_same, is_of_folder) {
        FileBeside::Again => 0,
        FileBeside::Next => 1,
        FileBeside::First => 2,
    }
}

/// Whether, below a folder of a site, the keys of another database are set than before: in NAME.d (2), but not in its `locks`, nor elsewhere.
pub fn begins_sources(within: u32) -> bool
    ensures { result ≡ begins_sources within }
{
    within == 2
}

/// Whether a file that failed to be read as a text, by that errno, is read as a database: it has more bytes than a text may have.
pub fn reads_on(errno: u32) -> bool
    ensures { result ≡ reads_on errno }
{
    errno == 75
}
