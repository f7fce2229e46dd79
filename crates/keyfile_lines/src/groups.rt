//! Groups of a keyfile: `/`, or the parts of a directory's path with a slash between, without brackets and control characters.
ghost use Rattle.std.specs.Prelude.{◌≡◌, ◌∷◌, ◌&&◌, ◌||◌, ◌==◌, not, option_map};
ghost use Rattle.dconf_model.specs.Paths.{has_two_slashes};
ghost use Rattle.dconf_model.specs.Keyfiles.{group_in, has_slash_end, is_control, is_group, is_plain};

/// The group that a line in brackets names, from what follows its first bracket.
pub(crate) fn group_in(rest: &str) -> Option<&str>
    ensures { option_map (λ group. group.now) result ≡ group_in (91 ∷ rest.now) }
{
    let group = rest.strip_suffix("]")?;
    if is_group(group) { Some(group) } else { None }
}

/// Whether a text is a group.
fn is_group(text: &str) -> bool
    ensures { result ≡ is_group text.now }
{
    text == "/" || !text.is_empty() && are_parts(text) && is_plain(text)
}

/// Whether no part of a text is empty.
fn are_parts(text: &str) -> bool
    ensures { result ≡ (not (has_slash_end text.now) && not (has_two_slashes text.now)) }
{
    !(text.starts_with("/") || text.ends_with("/")) && !text.contains("//")
}

/// Whether a text has neither a bracket nor a control character.
pub(crate) fn is_plain(text: &str) -> bool
    ensures { result ≡ is_plain text.now }
{
    !text.as_bytes().iter().any(|byte| is_special(*byte))
}

/// Whether a byte is a bracket or a control character.
fn is_special(byte: u8) -> bool
    ensures { result ≡ (byte == 91 || (byte == 93 || is_control byte)) }
{
    byte == b'[' || byte == b']' || byte.is_ascii_control()
}
