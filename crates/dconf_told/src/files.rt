//! Whether the files of databases are others than before, or something else is wrong with one.
ghost use Rattle.std.specs.Prelude.{◌≡◌};
ghost use Rattle.dconf_told.specs.Files.{are_other_files};

/// What is known of a database's file, and of what was made of it.
#[repr(C)]
#[derive(Clone, Copy)]
pub struct DconfdbFileSeen {
    /// Which part was made of it: of one that was read anew another one.
    pub part: usize,
    pub device: u64,
    pub inode: u64,
    /// What is wrong with it: zeros, if nothing is.
    pub line: usize,
    pub code: u32,
    pub errnum: u32,
    pub is_mapped: bool,
}

impl DconfdbFileSeen {
    ghost use Rattle.dconf_told.specs.Files.{has_same_fault, is_other_file, is_written_over};

    /// Whether something else is wrong with it, or it was written over in its place.
    fn is_other(self, after: DconfdbFileSeen) -> bool
        ensures { result ≡ is_other_file self after }
    {
        !self.has_same_fault(after) || self.is_written_over(after)
    }

    /// Whether the same is wrong with both, or nothing.
    fn has_same_fault(self, after: DconfdbFileSeen) -> bool
        ensures { result ≡ has_same_fault self after }
    {
        self.code == after.code && self.errnum == after.errnum && self.line == after.line
    }

    /// Whether a file that was mapped was read anew, though it is the same to the system: nobody has the old bytes.
    fn is_written_over(self, after: DconfdbFileSeen) -> bool
        ensures { result ≡ is_written_over self after }
    {
        self.is_mapped
            && self.part != after.part
            && self.device == after.device
            && self.inode == after.inode
    }
}

/// Whether one of the files is, each in its place, or there are more or fewer.
pub(crate) fn are_other_files(before: &[DconfdbFileSeen], after: &[DconfdbFileSeen]) -> bool
    ensures { result ≡ are_other_files before.now after.now }
{
    match (before.split_first(), after.split_first()) {
        (Some((one, before)), Some((other, after))) => {
            one.is_other(*other) || are_other_files(before, after)
        }
        (None, None) => false,
        (Some(_), None) | (None, Some(_)) => true,
    }
}
