//! Numbers in the bytes of basic types (GVariant Specification, "Double Precision Floating Point").
ghost use Rattle.std.specs.Prelude.{◌≡◌, length};

/// The eight bytes as they are.
pub(crate) fn double_bits(bytes: &[u8]) -> [u8; 8]
    requires { length bytes.now ≡ 8 }
    ensures { result ≡ bytes.now }
{
    let mut bits = [0; 8];
    bits.copy_from_slice(bytes);
    bits
}
