//! The numbers of the items that a list names.
ghost use Rattle.std.specs.Prelude.{◌≡◌, ◌+◌, ◌*◌, ◌<◌, ◌≤◌, length};
ghost use Rattle.dconf_model.specs.Bytes.{u32_at};

use gvdb_format::{NUMBER_LEN, read_u32};

/// A list, in the file where a search found it: the numbers of the items that it names.
#[derive(Clone, Copy, Debug)]
pub struct ItemList<'a> {
    pub(crate) file: &'a [u8],
    pub(crate) at: usize,
    pub(crate) len: usize,
    ghost inside: { at + 4 * len ≤ length file.now },
}

impl ItemList<'_> {
    /// How many numbers it has.
    #[inline(always)]
    pub fn len(self) -> usize
        ensures { result ≡ self.entry.len }
    {
        self.len
    }

    /// The number at a place.
    #[inline(always)]
    pub fn number(self, i: usize) -> u32
        requires { i < self.len }
        ensures { result ≡ u32_at self.entry.file.now (self.entry.at + 4 * i) }
    {
        read_u32(self.file, self.at + NUMBER_LEN * i)
    }
}
