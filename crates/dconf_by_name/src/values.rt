//! What dconf says and gives where `write` refuses.
ghost use Rattle.std.specs.Prelude.{◌≡◌};
ghost use Rattle.dconf_by_name.specs.Values.{dconfs_sentence, is_wrong_value};

/// Whether `write` was refused for the text of its value, by the line that it wrote to err.
pub fn is_wrong_value(line: &[u8]) -> bool
    ensures { result ≡ is_wrong_value line.now }
{
    line.starts_with(b"error: BadToken")
        || line.starts_with(b"error: Unclosed")
        || line.starts_with(b"error: BadEscape")
        || line.starts_with(b"error: Unexpected")
        || line.starts_with(b"error: TooDeep")
        || line.starts_with(b"error: NoCommonType")
        || line.starts_with(b"error: Ambiguous")
        || line.starts_with(b"error: OutOfRange")
        || line.starts_with(b"error: BadObjectPath")
        || line.starts_with(b"error: BadSignature")
}

/// What dconf says of a locked key, for who looks for that text; nothing of another refusal.
pub fn dconfs_sentence(line: &[u8]) -> &'static str
    ensures { result.now ≡ dconfs_sentence line.now }
{
    if line.starts_with(b"error: Locked") {
        "The operation attempted to modify one or more non-writable keys\n"
    } else {
        ""
    }
}
