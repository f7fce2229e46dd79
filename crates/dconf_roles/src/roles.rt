//! As what `update` takes a file, by the folders that it is in.
ghost use Rattle.std.specs.Prelude.{◌≡◌};
ghost use Rattle.dconf_model.specs.Updates.{is_shown};
ghost use Rattle.dconf_roles.specs.Roles.{as_file, below, in_folder, is_sources, role_among, unless_hidden};

/// As what `update` takes a file, or those of a folder.
#[derive(Clone, Copy)]
pub enum Role {
    /// As what its text says: it lies in no folder of sources.
    ByItsText,
    Keyfile,
    Locks,
    /// It leaves it out in silence.
    Hidden,
    /// It doesn't read it: it lies in another folder below NAME.d.
    Unread,
}

/// The role of a file among those that are asked for: `update` reads one of its folder or not.
pub fn role_among(role: Role, is_one_read: bool) -> Role
    ensures { result ≡ role_among role is_one_read }
{
    if is_one_read { role } else { Role::ByItsText }
}

/// The role of the files of a folder that has that name in one of that role.
pub(crate) fn in_folder(role: Role, name: &[u8]) -> Role
    ensures { result ≡ in_folder role name.now }
{
    if is_sources(name) {
        Role::Keyfile
    } else {
        below(role, name)
    }
}

fn below(role: Role, name: &[u8]) -> Role
    ensures { result ≡ below role name.now }
{
    match role {
        Role::ByItsText => Role::ByItsText,
        Role::Keyfile if name == "locks".as_bytes() => unless_hidden(name, Role::Locks),
        Role::Keyfile => unless_hidden(name, Role::Unread),
        Role::Locks => unless_hidden(name, Role::Unread),
        Role::Unread => unless_hidden(name, Role::Unread),
        Role::Hidden => Role::Hidden,
    }
}

/// The role of a file that has that name in a folder of that role.
pub(crate) fn as_file(role: Role, name: &[u8]) -> Role
    ensures { result ≡ as_file role name.now }
{
    match role {
        Role::ByItsText => Role::ByItsText,
        _ => unless_hidden(name, role),
    }
}

fn unless_hidden(name: &[u8], role: Role) -> Role
    ensures { result ≡ unless_hidden name.now role }
{
    if is_shown(name) { role } else { Role::Hidden }
}

/// A folder NAME.d that isn't hidden.
pub(crate) fn is_sources(name: &[u8]) -> bool
    ensures { result ≡ is_sources name.now }
{
    is_shown(name) && (name.len() > 2 && name.ends_with(b".d"))
}

pub(crate) fn is_shown(name: &[u8]) -> bool
    ensures { result ≡ is_shown name.now }
{
    !name.starts_with(b".")
}
