//! Truth values in bytes (GVariant Specification, "Booleans").
ghost use Rattle.std.specs.Prelude.{◌≡◌, length};
ghost use Rattle.gv_model.specs.BasicValue.{number_in, truth, truth_bits};

/// Whether the one byte is not 0.
pub fn is_true(bytes: &[u8]) -> bool
    requires { length bytes.now ≡ 1 }
    ensures { truth_bits result ≡ truth (number_in bytes.now) }
{
    bytes[0] != 0
}
