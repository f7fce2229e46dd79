//! Items, as a caller sees them.

/// An item of a table, as it shows itself.
#[derive(Clone, Copy, Debug, PartialEq, Eq)]
pub struct Item<'a> {
    /// The hash that is stored for its full name.
    pub hash: u32,
    /// The number of its parent, which may be no item's.
    pub parent: Option<u32>,
    /// Its key, where the key's bytes lie in the file.
    pub key: Option<&'a [u8]>,
    /// `v`, `L`, `H`, or any other byte.
    pub kind: u8,
    /// What it points to, where the pointer is valid.
    pub bytes: Option<&'a [u8]>,
}
