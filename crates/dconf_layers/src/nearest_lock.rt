//! The lock of a layer that covers a key: its own, or that of the nearest directory.
ghost use Rattle.std.specs.Prelude.{◌≡◌, option_map};
ghost use Rattle.dconf_model.specs.Explains.{lock_of};
ghost use Rattle.dconf_path.specs.Paths.{key_text};

use crate::layer::Layer;
use dconf_path::KeyPath;

impl Layer<'_> {
    ghost use Rattle.dconf_layers.specs.LayerSettings.{settings_of};

    /// The lock that covers a key: its own path where that is locked, else the nearest directory that is.
    pub fn lock_of<'p>(self, path: KeyPath<'p>) -> Option<&'p str>
        ensures { option_map (λ lock. lock.now) result ≡ lock_of (key_text path.entry) (settings_of self.entry) }
    {
        let path = path.as_str();
        let n = self.locks()?.nearest_cover(path)?;
        Some(&path[..n])
    }
}
