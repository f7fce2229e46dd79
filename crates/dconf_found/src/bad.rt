//! The databases that were bad when they were read.
ghost use Rattle.std.specs.Prelude.{◌≡◌, ◌∷◌, ◌++◌, [], OnErr, OnOk};
ghost use Rattle.dconf_found.specs.FoundFolders.{losses};

use crate::bad_databases::Loss;
use std::alloc::{AllocError, Global};

/// A database that was bad when it was read.
#[derive(Drop)]
pub struct BadDatabase {
    pub name: String,
    pub loss: Loss,
}

/// Adds a bad database.
pub(crate) fn note(
    alloc: Global,
    bad: &mut Vec<BadDatabase>,
    name: &str,
    loss: Loss,
) -> Result<(), AllocError>
    ensures added { OnOk result (losses bad.new.items ≡ losses bad.old.items ++ (name.now, loss) ∷ []) }
    ensures fault { OnErr result (bad.new.items ≡ bad.old.items) }
{
    let name = String::from_str(alloc, name)?;
    bad.push(BadDatabase { name, loss })?;
    Ok(())
}
