//! What a database's file counts as that isn't sound.
ghost use Rattle.std.specs.Prelude.{◌≡◌, ◌≢◌, ◌↔◌, IsTrue};
ghost use Rattle.dconf_mended.specs.Heads.{IsHead};
ghost use Rattle.dconf_mended.specs.Mending.{IsMendedTold};

use dconf_mended::{is_told, may_be_database, mended_file, standing_number};
use dconfdb_calls::hand_out;
use std::alloc::Global;

/// What a file counts as that isn't sound: 0, the sound database that it stands for, since dconf made it of no key; 1, what the
/// command `repair` keeps, which has so many values and locks; 2, nothing. `told` says whether what is wrong with it is told. The bytes are handed out as `dconfdb_list` does. Else the
/// number of a fault, and nothing changes.
#[unsafe(no_mangle)]
pub extern "C" fn dconfdb_mend(
    alloc: Global,
    file: &[u8],
    room: &mut [u8],
    len: &mut usize,
    standing: &mut u32,
    told: &mut bool,
    keys: &mut usize,
    locks: &mut usize,
) -> u32
    ensures done { result ≡ 0 → IsMendedTold file.now room.old room.new len.new standing.new keys.new locks.new told.new }
    ensures refused { result ≢ 0 → result ≡ 1 }
    ensures kept { result ≢ 0 → (room.new ≡ room.old) × (len.new ≡ len.old) × (standing.new ≡ standing.old) × (told.new ≡ told.old) × (keys.new ≡ keys.old) × (locks.new ≡ locks.old) }
{
    match mended_file(alloc, file) {
        Ok(mended) => {
            *len = hand_out(mended.file.as_slice(), room);
            *standing = standing_number(mended.standing);
            *told = is_told(mended.standing);
            *keys = mended.keys;
            *locks = mended.locks;
            0
        }
        Err(fault) => fault.number(),
    }
}

/// Whether a file that begins so may be a database: the signature and the version are a database's, as far as they are there.
#[unsafe(no_mangle)]
pub extern "C" fn dconfdb_is_database_head(head: &[u8]) -> bool
    ensures { IsTrue result ↔ IsHead head.now }
{
    may_be_database(head)
}
