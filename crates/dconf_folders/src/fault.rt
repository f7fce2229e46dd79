//! Why a call of a folder failed.
ghost use Rattle.std.specs.Prelude.{◌≡◌, Some};

use std::alloc::AllocError;
use std::error::Error;
use std::fmt;

/// Why a call of a folder failed. It is printed as its name.
#[derive(Clone, Copy, Debug, PartialEq, Eq)]
pub enum FolderFault {
    /// The device failed, or a call that needs a file found none. The folder has counted it. Any call may answer it.
    Device,
    /// The file has more than `LARGEST_FILE` bytes. Only `read` answers it.
    TooBig,
    /// Out of memory. Only `read`, `crash` and `replace` answer it.
    Memory,
}

impl fmt::Display for FolderFault {
    ghost use Rattle.dconf_folders.specs.Failures.{folder_fault_text};

    ghost output = { λ fault. Some (folder_fault_text fault) };

    fn fmt<W: fmt::Write>(&self, f: &mut fmt::Formatter<W>) -> fmt::Result {
        f.write_str(match self {
            FolderFault::Device => "Device",
            FolderFault::TooBig => "TooBig",
            FolderFault::Memory => "Memory",
        })
    }
}

impl Error for FolderFault {}

impl From<AllocError> for FolderFault {
    ghost use Rattle.dconf_folders.specs.declared.fault.FolderFault.TheVariants.{Memory};

    ghost from_gives = { λ _ fault. fault ≡ Memory };

    fn from(_error: AllocError) -> Self {
        FolderFault::Memory
    }
}
