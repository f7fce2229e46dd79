//! As what the files of a site are looked at, and what is found there.
ghost use Rattle.std.specs.Prelude.{◌≡◌, ◌≢◌, ◌≤◌, false, if◌then◌else◌, map, true};
ghost use Rattle.std.specs.List.{list_any};
ghost use Rattle.dconf_roles.specs.Asked.{begins_sources, beside, beside_number, reads_on};
ghost use Rattle.dconf_roles.specs.Folders.{is_read, looked_within, role_of, sources_in, within_number};
ghost use Rattle.dconf_roles.specs.Findings.{finding_for, finding_number};
ghost use Rattle.dconf_roles.specs.Machines.{machines_folder};
ghost use Rattle.dconf_roles.specs.Nearness.{is_nearer, nearing_after};
ghost use Rattle.dconf_roles.specs.Numbers.{entry_number, reading_number};
ghost use Rattle.dconf_roles.specs.Places.{is_over, next_place};
ghost use Rattle.dconf_roles.specs.Readings.{reading};
ghost use Rattle.dconf_roles.specs.Roles.{role_among};
ghost use Rattle.dconf_roles.specs.Sites.{stem_len};
ghost use Rattle.dconf_roles.specs.Slips.{is_slip};

use crate::open::DconfdbText;
use dconf_roles::{
    EntryKnown, FindingKnown, Name, Nearing, begins_sources, beside_number, entry_number,
    finding_number, is_nearer, is_over, is_read, machines_folder, next_place, reading_number,
    reads_on, role_of, sources_in, stem_len, within_number,
};
use std::alloc::Global;

/// As what a file of so many bytes is looked at, of which these are there: 0 a keyfile, 1 locks, 2 a profile, 3 a database; or not at
/// all: 4 it is left out in silence, 5 it is not read, 6 it is a database among sources, 7 it is too big, 8 it is none of these. It has that
/// name in the last of these folders, the first of which is in the root. `sources` is how many of the folders there are up to the last NAME.d,
/// or 0, and `is_source` whether `update` reads the file. In a site, the numbers of [`entry_number`]; and `stem` is how much of the name is that
/// of its database, or of the one that is made of a NAME.d.
#[unsafe(no_mangle)]
pub extern "C" fn dconfdb_read_as(
    entry: &EntryKnown,
    folders: &[Name<'_>],
    name: &[u8],
    size: u64,
    text: &[u8],
    sources: &mut usize,
    stem: &mut usize,
    is_source: &mut bool,
) -> u32
    ensures reading { entry.now.within ≡ 0 → result ≡ reading_number (reading (role_among (role_of (map (λ f. f.text.now) folders.now) name.now) entry.now.is_one_read) size text.now) }
    ensures site { entry.now.within ≢ 0 → result ≡ entry_number entry.now name.now size text.now }
    ensures stem { stem.new ≡ stem_len name.now }
    ensures sources { sources.new ≡ sources_in (map (λ f. f.text.now) folders.now) }
    ensures is_source { is_source.new ≡ is_read (role_of (map (λ f. f.text.now) folders.now) name.now) }
{
    let role = role_of(folders, name);
    *sources = sources_in(folders);
    *stem = stem_len(name);
    *is_source = is_read(role);
    if entry.within != 0 {
        return entry_number(entry, name, size, text);
    }
    reading_number(role, entry.is_one_read, size, text)
}

/// Within what of a site what is in the last of these folders is looked at, the first of which is in the root: 1 in all of it, unless `update` reads the
/// folder; 2 in NAME.d, 3 in its `locks`.
#[unsafe(no_mangle)]
pub extern "C" fn dconfdb_within(folders: &[Name<'_>]) -> u32
    ensures { result ≡ within_number (looked_within (map (λ f. f.text.now) folders.now)) }
{
    within_number(folders)
}

/// What a file that is asked for is beside the one before it, in the order of their paths: 0 the same, 1 one more of the same folder, 2 the first of its
/// own.
#[unsafe(no_mangle)]
pub extern "C" fn dconfdb_file_after(is_same: bool, is_of_folder: bool) -> u32
    ensures { result ≡ beside_number (beside is_same is_of_folder) }
{
    beside_number(is_same, is_of_folder)
}

/// Whether, below a folder of a site, the keys of another database are set than before.
#[unsafe(no_mangle)]
pub extern "C" fn dconfdb_begins_sources(within: u32) -> bool
    ensures { result ≡ begins_sources within }
{
    begins_sources(within)
}

/// Whether a file that failed to be read as a text, by that errno, is read as a database.
#[unsafe(no_mangle)]
pub extern "C" fn dconfdb_reads_on(errno: u32) -> bool
    ensures { result ≡ reads_on errno }
{
    reads_on(errno)
}

/// The folder of the sources and databases that `update` takes if none is named, by the kind of store that the machine has.
#[unsafe(no_mangle)]
pub extern "C" fn dconfdb_machines_folder(is_dconfs: bool, folder: &mut DconfdbText<'_>)
    ensures { folder.new.text.now ≡ machines_folder is_dconfs }
{
    *folder = DconfdbText {
        text: machines_folder(is_dconfs),
    };
}

/// What is found of a key that is set, or of a lock, by what the schemas have: 0 nothing, 1 no schema has the key, 2 the locked key, 3 a key
/// below the locked directory, 4 the value is of another type, 5 the key doesn't take it. Beside these other directories its own may be a slip. Of a
/// database that a profile of that name names 6: it has no file. Of a key that is set 7: an earlier line sets it, too; of a lock of that path 8:
/// nothing sets the key; and of a text of a value 9: it has a double, and is one of a source; 10: it is no value. Of a file or a folder that isn't read 11:
/// it isn't there; 12: it is no regular file; 13: it is too large; 14: it has what the system says of the errno.
#[unsafe(no_mangle)]
pub extern "C" fn dconfdb_finding(known: &FindingKnown, name: &[u8], others: &[Name<'_>]) -> u32
    ensures { result ≡ finding_number (finding_for known.now name.now (list_any (λ other. is_slip name.now other.text.now) others.now)) }
{
    finding_number(known, name, others)
}

/// Whether another name is near to one that is missing, and nearer than those before: 0 it isn't, 1 it is, 2 no memory is left. `is_end`: all names
/// of a place were compared; then the next place follows, if there is one (1), or none (0).
#[unsafe(no_mangle)]
pub extern "C" fn dconfdb_is_nearer(
    alloc: Global,
    nearing: &mut Nearing,
    is_end: bool,
    name: &[u8],
    other: &[u8],
) -> u32
    ensures next { is_end ≡ true → nearing.new ≡ next_place nearing.old }
    ensures last { is_end ≡ true → result ≡ (if is_over (next_place nearing.old) then 0 else 1) }
    ensures no { is_end ≡ false → result ≡ 0 → is_nearer nearing.old name.now other.now ≡ false }
    ensures yes { is_end ≡ false → result ≡ 1 → is_nearer nearing.old name.now other.now ≡ true }
    ensures after { is_end ≡ false → result ≢ 2 → nearing.new ≡ nearing_after nearing.old name.now other.now }
    ensures kept { result ≡ 2 → nearing.new ≡ nearing.old }
    ensures within { result ≤ 2 }
{
    if is_end {
        *nearing = next_place(nearing);
        return u32::from(!is_over(nearing));
    }
    nearer(alloc, nearing, name, other)
}

fn nearer(alloc: Global, nearing: &mut Nearing, name: &[u8], other: &[u8]) -> u32
    ensures no { result ≡ 0 → is_nearer nearing.old name.now other.now ≡ false }
    ensures yes { result ≡ 1 → is_nearer nearing.old name.now other.now ≡ true }
    ensures after { result ≢ 2 → nearing.new ≡ nearing_after nearing.old name.now other.now }
    ensures kept { result ≡ 2 → nearing.new ≡ nearing.old }
    ensures within { result ≤ 2 }
{
    match is_nearer(alloc, nearing, name, other) {
        Ok(is) => u32::from(is),
        Err(_) => 2,
    }
}
