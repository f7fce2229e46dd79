//! What the D-Bus service answers, and what it does before.
ghost use Rattle.std.specs.Prelude.{◌≡◌};
ghost use Rattle.dconf_served.specs.Begins.{begins_after, begins_number};
ghost use Rattle.dconf_served.specs.Calls.{changed_database};
ghost use Rattle.dconf_served.specs.Folders.{folder_for, folder_number, is_kept_open};
ghost use Rattle.dconf_served.specs.Served.{served_after, served_number};

use dconf_served::{
    ServedKnown, begins_number, changed_database, folder_number, is_kept_open, served_number,
};

/// What becomes of a call that changes settings, once it came (`done` is 0), or came in another thread than the main one (14), once it is read (1), after each try to write it (2), when it is told
/// (3), and whether that is in the turn to write (21); whether it is read where it came (16), when it is answered (19), at the service's end (4), when others are taken to be written (5), and once the stores were
/// opened that may have its database (6, 18), for one of which the file was read that is to be the profile of that alone (15); of its bytes, as the library
/// takes them (17); of a path in it, once that is read (9), and behind those before it (10); of an edit, when it was tried (12), and beside others of its change (13); and
/// of the service, at its end (7), when it hasn't its name (8), when it tells of a database (11), and when it is called (20): 0 it goes on, 1 it is acknowledged, 2 it
/// failed, 3 nobody with these rights may write there, 4 it is odd, 5 too large, 6 too much waits, 7 too many databases are in use, 8 the service
/// ends, 9 it is for later, or for another thread, 10 the profile's store has it, 11 a store of its own has it, or an edit stands alone, 12 the service ends in
/// peace, 13 another one has the name, 14 it is passed over, 15 left out, 16 it takes the place of the one before it, or what is made anew of it counts, 17 no such database is served.
#[unsafe(no_mangle)]
pub extern "C" fn dconfdb_served_after(done: u32, known: &ServedKnown) -> u32
    ensures { result ≡ served_number (served_after done known.now) }
{
    served_number(done, known)
}

/// What the service does before it serves, once the first `done` tasks were done, or were not due: 1 makes the store's folder, where it is of dconf's kind, 2
/// that of flags, if the user's runtime folder has a path, of so many bytes; 3 opens the database `user`; 4 it serves.
#[unsafe(no_mangle)]
pub extern "C" fn dconfdb_served_begins(done: u32, is_dconfs: bool, runtime: usize) -> u32
    ensures { result ≡ begins_number (begins_after done is_dconfs runtime) }
{
    begins_number(done, is_dconfs, runtime)
}

/// In which folder the service has the profiles of databases by themselves, by whether the runtime folder of its store's place has an absolute path, and
/// that which the system's library names: 0 in that, 1 in this one, 2 in the user's cache.
#[unsafe(no_mangle)]
pub extern "C" fn dconfdb_served_folder(is_places: bool, is_runtime: bool) -> u32
    ensures { result ≡ folder_number (folder_for is_places is_runtime) }
{
    folder_number(is_places, is_runtime)
}

/// Whether a file that was replaced is kept open for a while, by the number of its file system.
#[unsafe(no_mangle)]
pub extern "C" fn dconfdb_is_kept_open(system: u64) -> bool
    ensures { result ≡ is_kept_open system }
{
    is_kept_open(system)
}

/// Where the name of the database begins in the path of a message's object, if it is a call of `Change` of such an object; else 0. `is_call` says that it is a call of
/// a method.
#[unsafe(no_mangle)]
pub extern "C" fn dconfdb_changed_database(
    is_call: bool,
    object: &[u8],
    interface: &[u8],
    member: &[u8],
    signature: &[u8],
) -> usize
    ensures { result ≡ changed_database is_call object.now interface.now member.now signature.now }
{
    changed_database(is_call, object, interface, member, signature)
}
