//! The types that come before values (GLib, "GVariant Text Format": "Type Annotations").
ghost use Rattle.std.specs.Prelude.{◌≡◌, ◌++◌, OnOk, string_bytes};
ghost use Rattle.gv_model.specs.Printed.{type_mark};
ghost use Rattle.gv_types.specs.TypeStr.{ty};

use gv_types::TypeStr;
use std::alloc::AllocError;

/// Writes the type after an `@`, and a space.
pub(super) fn push_type_mark(to: &mut String, of: TypeStr<'_>) -> Result<(), AllocError>
    ensures { OnOk result (string_bytes to.new ≡ string_bytes to.old ++ type_mark (ty of.entry)) }
{
    to.push('@')?;
    to.push_str(of.as_str())?;
    to.push(' ')
}
