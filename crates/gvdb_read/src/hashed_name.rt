//! A name with its hash: it is hashed once, and may then be looked up in several tables.
ghost use Rattle.std.specs.Prelude.{◌≡◌};
ghost use Rattle.dconf_model.specs.Bytes.{hash_of};

use gvdb_format::hash;

/// A name, lent, and its hash.
#[derive(Clone, Copy, Debug)]
pub struct HashedName<'n> {
    pub(crate) bytes: &'n [u8],
    pub(crate) hash: u32,
    ghost is_hashed: { hash ≡ hash_of bytes.now },
}

impl<'n> HashedName<'n> {
    ghost use Rattle.gvdb_read.specs.Lookups.{name_text};

    /// Hashes the bytes of a name. It looks at each byte once.
    #[inline(always)]
    pub fn new(bytes: &'n [u8]) -> HashedName<'n>
        ensures { name_text result ≡ bytes.entry.now }
    {
        HashedName {
            bytes,
            hash: hash(bytes),
        }
    }
}
