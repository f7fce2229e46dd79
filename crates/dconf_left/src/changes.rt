//! When a file was changed that nobody noted.
ghost use Rattle.std.specs.Prelude.{◌≡◌};
ghost use Rattle.dconf_left.specs.Changes.{changed_at, nanoseconds, said_at, who_says};

use dconf_files::{FileStamp, FileTime};
use dconf_times::time_of_file;

/// The nanoseconds of a second.
const SECOND: u64 = 1_000_000_000;

/// The time that stands for when a file was changed: when it was written, or got its name, or, where it is gone, when its folder was.
pub fn changed_at(file: &FileStamp, folder: &FileStamp) -> u64
    ensures { result ≡ changed_at file.now folder.now }
{
    said_at(who_says(file, folder))
}

fn who_says<'a>(file: &'a FileStamp, folder: &'a FileStamp) -> &'a FileStamp
    ensures { result.now ≡ who_says file.now folder.now }
{
    if file.is_there { file } else { folder }
}

fn said_at(stamp: &FileStamp) -> u64
    ensures { result ≡ said_at stamp.now }
{
    time_of_file(nanoseconds(stamp.written), nanoseconds(stamp.touched))
}

/// The nanoseconds of a time since the beginning of its clock, 1970 say, as far as they can be noted.
pub fn nanoseconds(time: FileTime) -> u64
    ensures { result ≡ nanoseconds time }
{
    if time.seconds > i64::MAX as u64 {
        return 0;
    }
    time.seconds
        .saturating_mul(SECOND)
        .saturating_add(time.nanoseconds)
}
