//! Object paths (D-Bus Specification, "Valid Object Paths").
ghost use Rattle.std.specs.Prelude.{◌≡◌, true};
ghost use Rattle.gv_model.specs.Texts.{are_parts, is_object_path};
ghost use Rattle.gv_types.specs.Paths.{may_follow};

/// Whether the text is an object path: `/`, or parts of `[A-Za-z0-9_]`, each not empty and after a `/`.
///
/// It looks at each byte once.
pub fn is_object_path(text: &str) -> bool
    ensures { result ≡ is_object_path text.now }
{
    match text.as_bytes() {
        [b'/'] => true,
        [b'/', parts @ ..] => are_parts(parts),
        _ => false,
    }
}

/// Whether these are parts that are not empty, with a slash between them.
fn are_parts(parts: &[u8]) -> bool
    ensures { result ≡ are_parts true parts.now }
{
    let mut at_slash = true;
    for byte in parts {
        if !may_follow(at_slash, *byte) {
            return false;
        }
        at_slash = *byte == b'/';
    }
    !at_slash
}

/// Whether the byte may occur in an object path after a slash or, where `at_slash` is false, in a part.
fn may_follow(at_slash: bool, byte: u8) -> bool
    ensures { result ≡ may_follow at_slash byte }
{
    match byte {
        b'/' => !at_slash,
        _ => byte.is_ascii_alphanumeric() || byte == b'_',
    }
}
