//! Values behind one another, and the zero bytes between them.
ghost use Rattle.std.specs.Prelude.{◌≡◌, ◌++◌, ◌-◌, ◌≤◌, length, OnOk, replicate};
ghost use Rattle.gv_model.specs.Limits.{limit};
ghost use Rattle.dconf_model.specs.Plans.{values_end};
ghost use Rattle.gvdb_values.specs.WrittenValues.{bytes_of_each, with_values};

use std::alloc::AllocError;

/// Appends values, each at a multiple of 8.
pub fn write_values(values: &[&[u8]], out: &mut Vec<u8>) -> Result<(), AllocError>
    requires { values_end (length out.old.items) (bytes_of_each values.now) ≤ limit }
    ensures bytes { OnOk result (out.new.items ≡ with_values out.old.items (bytes_of_each values.now)) }
{
    for value in values {
        pad(out.len().next_multiple_of(8), out)?;
        out.extend_from_slice(value)?;
    }
    Ok(())
}

/// Appends zero bytes up to a place.
pub fn pad(to: usize, out: &mut Vec<u8>) -> Result<(), AllocError>
    ensures bytes { OnOk result (out.new.items ≡ out.old.items ++ replicate (to - length out.old.items) 0) }
{
    if out.len() < to {
        out.resize(to, 0)?;
    }
    Ok(())
}
