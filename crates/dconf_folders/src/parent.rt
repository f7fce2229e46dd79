//! The folder that a name stands in.
ghost use Rattle.std.specs.Prelude.{◌≡◌};
ghost use Rattle.dconf_folders.specs.SystemCalls.{folder_of};

use std::path::Path;

/// The folder that a name stands in, lent from the name: `a` of `a/x`, `/` of `/x`, and `.` of `x` (POSIX, `dirname`).
pub fn folder_of(name: &str) -> &str
    ensures { result.now ≡ folder_of name.now }
{
    match Path::new(name).parent() {
        Some(folder) if !folder.as_os_str().is_empty() => folder.as_os_str(),
        _ => ".",
    }
}
