//! Framing offsets: the numbers at the end of a container that say where its children end (GVariant
//! Specification, "Framing Offsets").
ghost use Rattle.std.specs.Prelude.{◌≡◌, ◌≤◌, ◌*◌, length};
ghost use Rattle.gv_model.specs.BasicValue.{number_in};
ghost use Rattle.gv_model.specs.Children.{framing_offset};

/// The number in at most eight bytes, the lowest byte first.
///
/// Numbers of one, two and four bytes are read at once, any other byte by byte.
#[inline]
pub fn number(bytes: &[u8]) -> usize
    requires { length bytes.now ≤ 8 }
    ensures { result ≡ number_in bytes.now }
{
    match bytes {
        [a] => usize::from(*a),
        [a, b] => usize::from(*a) + 256 * usize::from(*b),
        [a, b, c, d] => {
            let high = usize::from(*c) + 256 * usize::from(*d);
            usize::from(*a) + 256 * usize::from(*b) + 65_536 * high
        }
        _ => number_by_bytes(bytes),
    }
}

/// The same, byte by byte.
fn number_by_bytes(bytes: &[u8]) -> usize
    requires { length bytes.now ≤ 8 }
    ensures { result ≡ number_in bytes.now }
{
    match bytes {
        [] => 0,
        [low, rest @ ..] => usize::from(*low) + 256 * number_by_bytes(rest),
    }
}

/// Offset `k` from the end, where it lies whole within the bytes; those after it do.
pub(crate) fn framing_offset(width: usize, bytes: &[u8], k: usize) -> Option<usize>
    requires narrow { width ≤ 8 }
    requires after { width * k ≤ length bytes.now }
    ensures { result ≡ framing_offset width bytes.now k }
{
    let end = bytes.len() - width * k;
    if width == 0 || end < width {
        return None;
    }
    Some(number(&bytes[end - width..end]))
}
