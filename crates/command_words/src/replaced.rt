//! Which file a command replaces, so that programs take turns at it.
ghost use Rattle.std.specs.Prelude.{◌≡◌, IfOk, map, option_map, string_bytes};
ghost use Rattle.dconf_path.specs.Profiles.{database_of};
ghost use Rattle.command_words.specs.Commands.{command_of};
ghost use Rattle.command_words.specs.Replaced.{file_of_first, replaced_by, target_of, user_file_by};

use crate::commands::Command;
use dconf_path::{Database, DatabaseKind, ProfileFault, read_profile, settings_text};
use dconf_places::file_name;
use std::alloc::{AllocError, Global};

/// The file that a command replaces.
#[derive(Clone, Copy, Debug)]
pub enum Replaced<'a> {
    /// The one of this name.
    File(&'a str),
    /// The user's database, in the current folder, by the profile in the file of this name.
    UserOf(&'a str),
}

impl Command {
    /// The file that the command replaces, or None where it only reads. It takes no memory.
    pub fn replaced(&self) -> Option<Replaced<'_>>
        ensures { option_map target_of result ≡ replaced_by (command_of self.entry.now) }
    {
        match self {
            Command::Compile { out, .. } => Some(Replaced::File(out.as_str())),
            Command::Repair { out, .. } => Some(Replaced::File(out.as_str())),
            Command::Write { profile, .. } => Some(Replaced::UserOf(profile.as_str())),
            Command::Reset { profile, .. } => Some(Replaced::UserOf(profile.as_str())),
            Command::Load { profile, .. } => Some(Replaced::UserOf(profile.as_str())),
            Command::Show { .. } => None,
            Command::Read { .. } => None,
            Command::Origin { .. } => None,
            Command::Explain { .. } => None,
            Command::List { .. } => None,
            Command::ListLocks { .. } => None,
            Command::Dump { .. } => None,
            Command::Check { .. } => None,
        }
    }
}

/// The name of the user's database by a profile: its file's name and its bytes. Where they name no user's database, or are no
/// profile, it is the name of the profile's file.
///
/// Its cost is that of reading the profile. The error is want of memory.
pub fn user_file(alloc: Global, profile: &str, bytes: &[u8]) -> Result<String, AllocError>
    ensures { IfOk result (λ name. string_bytes name ≡ user_file_by profile.now bytes.now) }
{
    let Ok(text) = settings_text(bytes) else {
        return String::from_str(alloc, profile);
    };
    match read_profile(alloc, text) {
        Ok(read) => name_of_first(alloc, profile, read.databases()),
        Err(ProfileFault::Fault(_)) => String::from_str(alloc, profile),
        Err(ProfileFault::Memory) => Err(AllocError),
    }
}

/// The name of the first database's file where it is the user's, else the profile's.
fn name_of_first(
    alloc: Global,
    profile: &str,
    databases: &[Database<'_>],
) -> Result<String, AllocError>
    ensures { IfOk result (λ name. string_bytes name ≡ file_of_first profile.now (map database_of databases.now)) }
{
    match databases.first() {
        Some(first) if first.kind == DatabaseKind::User => file_name(alloc, *first),
        _ => String::from_str(alloc, profile),
    }
}
