//! The other names of what is set aside.
ghost use Rattle.std.specs.Prelude.{IfOk, string_bytes};
ghost use Rattle.dconf_turn.specs.Jobs.{IsAside};

use std::alloc::{AllocError, Global};

/// The n-th other name of what is set aside: `NAME~n`.
pub fn aside_name(alloc: Global, name: &str, n: u32) -> Result<String, AllocError>
    ensures { IfOk result (λ aside. IsAside name.now (string_bytes aside)) }
{
    format!(in alloc; "{name}~{n}")
}
