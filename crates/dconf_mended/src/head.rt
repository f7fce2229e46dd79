//! The first bytes of a file.
ghost use Rattle.std.specs.Prelude.{◌↔◌, IsTrue};
ghost use Rattle.dconf_mended.specs.Heads.{IsHead};

use gvdb_read::{OpenFault, Table};

/// Whether a file that begins so may be a database: the signature and the version are a database's, as far as they are there.
pub fn may_be_database(head: &[u8]) -> bool
    ensures { IsTrue result ↔ IsHead head.now }
{
    match Table::open(head) {
        Err(OpenFault::BadSignature) => false,
        Err(OpenFault::BadVersion) => false,
        _ => true,
    }
}
