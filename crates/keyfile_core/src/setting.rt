//! Settings that are written as a keyfile.
ghost use Rattle.std.specs.Prelude.{◌≡◌};
ghost use Rattle.dconf_model.specs.Keyfiles.{Setting};

use dconf_path::KeyPath;

/// A setting that may be written: the path of a key, and the text of its value.
pub trait AsSetting {
    ghost setting: { Self → Setting };

    /// The path.
    fn path(&self) -> &str
        ensures { result.now ≡ (setting self.now).path };

    /// The text of the value.
    fn text(&self) -> &str
        ensures { result.now ≡ (setting self.now).text };
}

impl AsSetting for (KeyPath<'_>, String) {
    ghost use Rattle.keyfile_core.specs.DumpRows.{setting_of};

    ghost setting = { setting_of };

    fn path(&self) -> &str {
        self.0.as_str()
    }

    fn text(&self) -> &str {
        self.1.as_str()
    }
}
