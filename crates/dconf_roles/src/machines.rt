//! Where a machine has what is everybody's.
ghost use Rattle.std.specs.Prelude.{◌≡◌};
ghost use Rattle.dconf_roles.specs.Machines.{machines_folder};

use dconf_homes::DATABASES_FOLDER;
use dconf_places::EVERYONES_FOLDER;

/// The folder of the sources and databases that `update` takes if none is named: dconf's, where the machine has dconf's kind of store, and else our own.
pub fn machines_folder(is_dconfs: bool) -> &'static [u8]
    ensures { result.now ≡ machines_folder is_dconfs }
{
    if is_dconfs {
        DATABASES_FOLDER.as_bytes()
    } else {
        EVERYONES_FOLDER.as_bytes()
    }
}
