//! The role of a file by the folders that it is in.
ghost use Rattle.std.specs.Prelude.{◌≡◌, ◌<◌, ◌≤◌, ◌^◌, length, map};
ghost use Rattle.dconf_roles.specs.Folders.{is_read, looked_within, role_in, role_of, sources_in, up_to, within_number};
ghost use Rattle.dconf_roles.specs.Roles.{as_file, in_folder, is_sources};

use crate::roles::{Role, as_file, in_folder, is_sources};
use crate::sites::Within;
use crate::slips::Name;

/// The role of the file of that name behind these folders, the first of which is in the root.
pub fn role_of(folders: &[Name<'_>], name: &[u8]) -> Role
    ensures { result ≡ role_of (map (λ f. f.text.now) folders.now) name.now }
{
    as_file(role_in(folders, Role::ByItsText), name)
}

fn role_in(folders: &[Name<'_>], role: Role) -> Role
    ensures { result ≡ role_in (map (λ f. f.text.now) folders.now) role }
{
    match folders.split_first() {
        Some((folder, others)) => role_in(others, in_folder(role, folder.text)),
        None => role,
    }
}

/// How many of these folders there are up to the last NAME.d, with that; 0: there is none.
pub fn sources_in(folders: &[Name<'_>]) -> usize
    ensures value { result ≡ sources_in (map (λ f. f.text.now) folders.now) }
    ensures within { result ≤ length folders.now }
{
    match folders.split_first() {
        Some((folder, others)) => up_to(folder.text, sources_in(others)),
        None => 0,
    }
}

fn up_to(name: &[u8], behind: usize) -> usize
    requires { behind < 2 ^ 63 }
    ensures { result ≡ up_to name.now behind }
{
    if behind > 0 {
        return behind + 1;
    }
    if is_sources(name) {
        return 1;
    }
    0
}

/// Whether `update` reads a file of that role.
pub fn is_read(role: Role) -> bool
    ensures { result ≡ is_read role }
{
    match role {
        Role::Keyfile => true,
        Role::Locks => true,
        _ => false,
    }
}

/// Within what of a site what is in the last of these folders is looked at: 1 in all of it, unless `update` reads the folder; 2 in NAME.d, 3 in its
/// `locks`.
pub fn within_number(folders: &[Name<'_>]) -> u32
    ensures { result ≡ within_number (looked_within (map (λ f. f.text.now) folders.now)) }
{
    match looked_within(folders) {
        Within::Site => 1,
        Within::Sources => 2,
        Within::Locks => 3,
        Within::Profiles => 4,
    }
}

fn looked_within(folders: &[Name<'_>]) -> Within
    ensures { result ≡ looked_within (map (λ f. f.text.now) folders.now) }
{
    match role_in(folders, Role::ByItsText) {
        Role::Keyfile => Within::Sources,
        Role::Locks => Within::Locks,
        _ => Within::Site,
    }
}
