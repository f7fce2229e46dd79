//! A database alone, as layers.
ghost use Rattle.std.specs.Prelude.{◌∷◌, [], IfOk, None, map};
ghost use Rattle.dconf_model.specs.Databases.{AreLayers};
ghost use Rattle.dconf_layers.specs.LayerSettings.{settings_of};
ghost use Rattle.dconf_layers.specs.Verdicts.{bytes_of_file};

use dconf_engine::{EngineFault, open_layers};
use dconf_layers::Layer;
use std::alloc::Global;

/// The layers of a database alone. It is behind one without keys, since the locks of the first don't count.
pub fn alone<'a>(alloc: Global, file: Option<&'a [u8]>) -> Result<Vec<Layer<'a>>, EngineFault>
    ensures { IfOk result (λ layers. AreLayers (None ∷ bytes_of_file file.entry ∷ []) (map settings_of layers.items)) }
{
    let files = [None, file];
    open_layers(alloc, &files)
}
