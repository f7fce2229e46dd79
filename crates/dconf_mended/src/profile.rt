//! What is read of a profile that was found, and as what a fault of a file is told.
ghost use Rattle.std.specs.Prelude.{◌≡◌, ◌≢◌, [], IfErr, IfOk};
ghost use Rattle.dconfdb_calls.specs.GoodLines.{first_fault, line_fault};
ghost use Rattle.dconfdb_calls.specs.Numbers.{number_of};
ghost use Rattle.dconfdb_calls.specs.declared.fault.Fault.TheVariants.{Memory};
ghost use Rattle.dconf_mended.specs.Profiles.{IsRead, IsReadLeniently, IsReadStrictly, bad_in, or_not_text, said_by, telling_of};

use dconf_places::{Telling, USERS_PROFILE};
use dconfdb_calls::{BadProfile, DconfdbName, Fault, good_lines, profile_databases};
use std::alloc::Global;

/// The databases that are taken, and the first bad line, if there is one.
#[derive(Drop)]
pub struct ProfileRead<'a> {
    pub names: Vec<DconfdbName<'a>>,
    pub bad: Option<BadProfile>,
}

/// What the profile says that the looks came to, by the number of that step (3 the line `user-db:user`, 4 the file's text); of others
/// nothing.
pub fn said_by<'a>(step: u32, text: &'a [u8]) -> &'a [u8]
    ensures { result.now ≡ said_by step text.entry.now }
{
    match step {
        3 => USERS_PROFILE.as_bytes(),
        4 => text,
        _ => b"",
    }
}

/// The databases that a profile's text names, at most 64: those of its good lines to who is lenient, and else none if a line is bad. The only error is
/// `Memory`, if an allocation fails. It reads each line once, and of a text that isn't UTF-8 once more.
pub fn read_lines<'a>(
    alloc: Global,
    text: &'a [u8],
    is_lenient: bool,
) -> Result<ProfileRead<'a>, Fault>
    ensures read { IfOk result (λ it. IsRead is_lenient text.entry.now it.names.items (bad_in it)) }
    ensures memory { IfErr result (λ e. e ≡ Memory) }
{
    if is_lenient {
        leniently(alloc, text)
    } else {
        strictly(alloc, text)
    }
}

fn leniently<'a>(alloc: Global, text: &'a [u8]) -> Result<ProfileRead<'a>, Fault>
    ensures read { IfOk result (λ it. IsReadLeniently text.entry.now it.names.items (bad_in it)) }
    ensures memory { IfErr result (λ e. e ≡ Memory) }
{
    let lines = good_lines(alloc, text)?;
    Ok(ProfileRead {
        names: lines.names,
        bad: lines.fault,
    })
}

fn strictly<'a>(alloc: Global, text: &'a [u8]) -> Result<ProfileRead<'a>, Fault>
    ensures read { IfOk result (λ it. IsReadStrictly text.entry.now it.names.items (bad_in it)) }
    ensures memory { IfErr result (λ e. e ≡ Memory) }
{
    if str::from_utf8(text).is_err() {
        return Ok(ProfileRead {
            names: Vec::new(alloc),
            bad: Some(first_bad(alloc, text)?),
        });
    }
    match profile_databases(alloc, text) {
        Ok(names) => Ok(ProfileRead { names, bad: None }),
        Err(bad) => refused(alloc, bad),
    }
}

/// The first line at fault of what is no text.
fn first_bad(alloc: Global, text: &[u8]) -> Result<BadProfile, Fault>
    ensures bad { IfOk result (λ it. line_fault it ≡ or_not_text (first_fault text.now)) }
    ensures memory { IfErr result (λ e. e ≡ Memory) }
{
    let lines = good_lines(alloc, text)?;
    Ok(
        lines.fault.unwrap_or(BadProfile {
            fault: Fault::NotText,
            line: 0,
        }),
    )
}

/// No database is taken of a profile with a bad line.
fn refused<'a>(alloc: Global, bad: BadProfile) -> Result<ProfileRead<'a>, Fault>
    ensures bad { IfOk result (λ it. (it.names.items ≡ []) × (bad_in it ≡ line_fault bad) × (number_of bad.fault ≢ 1)) }
    ensures memory { IfErr result (λ e. e ≡ Memory) }
{
    match bad.fault {
        Fault::Memory => Err(Fault::Memory),
        _ => Ok(ProfileRead {
            names: Vec::new(alloc),
            bad: Some(bad),
        }),
    }
}

/// As what a fault is told, by its number: 0 there is none, 1 memory is lacking. The first is kept by who is lenient.
pub fn telling_of(fault: u32, is_lenient: bool, has_kept: bool) -> Telling
    ensures { result ≡ telling_of fault is_lenient has_kept }
{
    if fault == 0 {
        Telling::Nothing
    } else if fault == 1 || !is_lenient {
        Telling::Refuses
    } else if has_kept {
        Telling::Nothing
    } else {
        Telling::Kept
    }
}
