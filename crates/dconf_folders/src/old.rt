//! What has a name that a new file is to take.

/// What has a name that a new file is to take, by the permission bits that this gets.
#[derive(Clone, Copy)]
pub enum Old {
    /// No file. The new one has the bits that the process's umask leaves.
    Absent,
    /// No file, or one that goes. The new one has these bits.
    Bits(u32),
    /// A file that is to be set aside. The new one has these bits.
    SetAside(u32),
}
