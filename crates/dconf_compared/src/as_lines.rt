//! What a database changes that takes the place of another.
ghost use Rattle.std.specs.Prelude.{IfOk, string_bytes};
ghost use Rattle.dconf_layers.specs.LayerSettings.{seen_in};
ghost use Rattle.dconf_compared.specs.Compared.{AreChanges};

use crate::key_lines::{changed, key_lines};
use crate::lock_lines::lock_lines;
use dconf_layers::LentLayers;
use std::alloc::{AllocError, Global};

/// A line for each key that is seen otherwise through the second layers than through the first, and for each lock that one of them has alone.
pub fn changes(
    alloc: Global,
    first: LentLayers<'_, '_>,
    second: LentLayers<'_, '_>,
) -> Result<String, AllocError>
    ensures { IfOk result (λ text. AreChanges (seen_in first.entry) (seen_in second.entry) (string_bytes text)) }
{
    let paths = changed(alloc, first, second)?;
    let lines = key_lines(alloc, "  ", first, second, &paths)?;
    let locked = lock_lines(alloc, "  lock ", second, first)?;
    let unlocked = lock_lines(alloc, "  unlock ", first, second)?;
    format!(in alloc; "{lines}{locked}{unlocked}")
}
