//! A setting with the text of its value.
ghost use Rattle.std.specs.Prelude.{◌≡◌, IfOk, string_bytes};
ghost use Rattle.std.specs.Str.{IsCharBoundary};

use keyfile_core::AsSetting;
use std::alloc::AllocError;

/// A setting in one text: its path, and behind it the text of its value.
#[derive(Drop)]
pub(crate) struct PrintedSetting {
    line: String,
    path_len: usize,
    ghost seam: { IsCharBoundary (string_bytes line) path_len },
}

impl PrintedSetting {
    ghost use Rattle.dconf_commands.specs.Dumps.{setting_of};

    /// The setting of a path and a text. A path mostly has room for it.
    pub(crate) fn new(path: String, text: &str) -> Result<PrintedSetting, AllocError>
        ensures { IfOk result (λ setting. setting_of setting ≡ record { path = string_bytes path; text = text.now }) }
    {
        let path_len = path.len();
        let mut line = path;
        line.push_str(text)?;
        Ok(PrintedSetting { line, path_len })
    }
}

impl AsSetting for PrintedSetting {
    ghost use Rattle.dconf_commands.specs.Dumps.{setting_of};

    ghost setting = { setting_of };

    fn path(&self) -> &str {
        &self.line[..self.path_len]
    }

    fn text(&self) -> &str {
        &self.line[self.path_len..]
    }
}
