//! The paths of keys, of directories and of locks. Which keys a lock covers is in tests/program.d.
use dconf_path::{DirPath, KeyPath, LockPath};
use std::alloc::AllocError;
use std::fmt::Write;

/// Whether bytes are a key's path, which is this text.
fn is_key(bytes: &[u8], text: &str) -> bool {
    match KeyPath::of_bytes(bytes) {
        Some(path) => path.as_str() == text,
        None => false,
    }
}

/// Why a text is no path of a key, of a directory and of a lock, and whether its bytes are a key's.
pub(crate) fn path_read(asked: &str, found: &mut String) -> Result<(), AllocError> {
    let (key, directory) = (KeyPath::parse(asked).err(), DirPath::parse(asked).err());
    let lock = LockPath::parse(asked).err();
    let by_bytes = is_key(asked.as_bytes(), asked);
    write!(found, " {key:?} {directory:?} {lock:?} {by_bytes}")
}

pub(super) const PATHS: &str = "
/k | None Some(NoEndSlash) None true
/a | None Some(NoEndSlash) None true
/a/k | None Some(NoEndSlash) None true
/org/gnome/desktop/cursor-size | None Some(NoEndSlash) None true
/a b/ü | None Some(NoEndSlash) None true
/./.. | None Some(NoEndSlash) None true
/ | Some(EndsInSlash) None None false
/a/ | Some(EndsInSlash) None None false
/org/gnome/ | Some(EndsInSlash) None None false
 | Some(NotAbsolute) Some(NotAbsolute) Some(NotAbsolute) false
a/ | Some(NotAbsolute) Some(NotAbsolute) Some(NotAbsolute) false
a/k | Some(NotAbsolute) Some(NotAbsolute) Some(NotAbsolute) false
a//\0/ | Some(NotAbsolute) Some(NotAbsolute) Some(NotAbsolute) false
/a//k\0 | Some(HasNul) Some(HasNul) Some(HasNul) false
/\0a//k | Some(HasNul) Some(HasNul) Some(HasNul) false
/a\0// | Some(HasNul) Some(HasNul) Some(HasNul) false
/a//k | Some(DoubleSlash) Some(DoubleSlash) Some(DoubleSlash) false
// | Some(DoubleSlash) Some(DoubleSlash) Some(DoubleSlash) false
/a// | Some(DoubleSlash) Some(DoubleSlash) Some(DoubleSlash) false
/org/gnome/desktop/settings/ | Some(EndsInSlash) None None false
/org/gnome/desktop/ü | None Some(NoEndSlash) None true
/org/gnome/desktop/cursor-sizeü | None Some(NoEndSlash) None true
/org/gnome/desktop/k\0 | Some(HasNul) Some(HasNul) Some(HasNul) false
/org/gnome/desktop/cursor-size\0 | Some(HasNul) Some(HasNul) Some(HasNul) false
/org/gnome/desktop/cursor-size/ | Some(EndsInSlash) None None false
/org/gnome/desktop//cursor-size | Some(DoubleSlash) Some(DoubleSlash) Some(DoubleSlash) false
org/gnome/desktop/cursor-size | Some(NotAbsolute) Some(NotAbsolute) Some(NotAbsolute) false
/45678901234567//k | Some(DoubleSlash) Some(DoubleSlash) Some(DoubleSlash) false
/456789012345678//k | Some(DoubleSlash) Some(DoubleSlash) Some(DoubleSlash) false
/4567890123456789/k/ | Some(EndsInSlash) None None false
";
