//! Whether bytes are normal, by reading their value and writing it anew.
ghost use Rattle.std.specs.Prelude.{◌≤◌, ◌↔◌, IsTrue, IfOk, length};
ghost use Rattle.gv_model.specs.Normal.{IsNormal};
ghost use Rattle.gv_view.specs.Views.{view_ty, view_bytes};

use gv_build::{BuildFault, normal_form};
use gv_view::View;
use std::alloc::{AllocError, Global};

/// Whether the bytes are the ones that are written for their value, and the value has no more than 128 levels.
///
/// It fails only where a growth is refused. It copies the value and writes it.
pub fn is_normal_plain(alloc: Global, view: View<'_>) -> Result<bool, AllocError>
    requires { length (view_bytes view) ≤ 4294967295 }
    ensures normal { IfOk result (λ b. IsTrue b ↔ IsNormal (view_ty view.entry) (view_bytes view.entry)) }
{
    match normal_form(alloc, view) {
        Ok(written) => Ok(view.bytes() == written.as_slice()),
        Err(BuildFault::Fault(_)) => Ok(false),
        Err(BuildFault::Memory) => Err(AllocError),
    }
}
