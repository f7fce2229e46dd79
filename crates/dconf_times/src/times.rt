//! When paths were set.
ghost use Rattle.std.specs.Prelude.{◌≡◌, map};
ghost use Rattle.dconf_model.specs.Locks.{covers};
ghost use Rattle.dconf_times.specs.Times.{is_overtaken, latest_of, note_of, time_told};

/// A path that was set, and when: the path of a key, or that of a directory of which all keys were
/// reset, nanoseconds since 1970, and a number of the caller's for what was set.
#[repr(C)]
#[derive(Clone, Copy)]
pub struct DconfdbTime<'a> {
    pub path: &'a [u8],
    pub when: u64,
    pub value: u64,
}

impl DconfdbTime<'_> {
    /// The time, if it says something of a path, and is not of the future; else 0.
    fn told_of(&self, path: &[u8], now: u64) -> u64
        ensures { result ≡ time_told now path.now (note_of self.now) }
    {
        if self.when <= now && covers(self.path, path) {
            self.when
        } else {
            0
        }
    }
}

/// Whether a path is the same as another, or that of a directory above it.
pub(crate) fn covers(above: &[u8], path: &[u8]) -> bool
    ensures { result ≡ covers above.now path.now }
{
    above == path || (above.ends_with(b"/") && path.starts_with(above))
}

/// Whether an edit of that time is overtaken: its path, or a directory above it, was set later, as
/// the notes say. One that is later than `now` counts for nothing. It looks at each note once.
pub fn is_overtaken(times: &[DconfdbTime<'_>], path: &[u8], when: u64, now: u64) -> bool
    ensures { result ≡ is_overtaken now path.now when (map note_of times.now) }
{
    for time in times {
        if time.told_of(path, now) > when {
            return true;
        }
    }
    false
}

/// The latest of these times; 0: there are none.
pub fn latest_of(times: &[DconfdbTime<'_>]) -> u64
    ensures { result ≡ latest_of (map note_of times.now) }
{
    let mut latest = 0;
    for time in times {
        latest = time.when.max(latest);
    }
    latest
}
