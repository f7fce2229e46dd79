//! Which database a message asks to be changed.
ghost use Rattle.std.specs.Prelude.{◌≡◌};
ghost use Rattle.dconf_served.specs.Calls.{changed_database, is_change, is_one_name};

/// Where the name of the database begins in the object's path, if the message is a call of the method `Change` of such an object; else 0. `is_call` says that
/// it is a call of a method.
pub fn changed_database(
    is_call: bool,
    object: &[u8],
    interface: &[u8],
    member: &[u8],
    signature: &[u8],
) -> usize
    ensures { result ≡ changed_database is_call object.now interface.now member.now signature.now }
{
    if is_call && is_change(interface, member, signature) && is_one_name(object) {
        return 23;
    }
    0
}

/// Such a call has one array of bytes.
fn is_change(interface: &[u8], member: &[u8], signature: &[u8]) -> bool
    ensures { result ≡ is_change interface.now member.now signature.now }
{
    interface == "ca.desrt.dconf.Writer".as_bytes()
        && member == "Change".as_bytes()
        && signature == "ay".as_bytes()
}

/// Objects have one name below that path.
fn is_one_name(object: &[u8]) -> bool
    ensures { result ≡ is_one_name object.now }
{
    match object.strip_prefix(b"/ca/desrt/dconf/Writer/") {
        Some(name) => !name.contains(&b'/'),
        None => false,
    }
}
