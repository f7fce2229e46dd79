//! Which paths a lock, or a path that is watched, stands for.
ghost use Rattle.std.specs.Prelude.{◌≡◌};
ghost use Rattle.dconf_model.specs.Locks.{covers};
ghost use Rattle.dconf_seen.specs.Covering.{meets};

/// Whether a path covers another: it is the same, or a directory above it. So a lock covers what it locks, and a path that is watched
/// what is told of.
pub fn covers(path: &[u8], other: &[u8]) -> bool
    ensures { result ≡ covers path.now other.now }
{
    path == other || (path.ends_with(b"/") && other.starts_with(path))
}

/// Whether one of two paths covers the other.
pub fn meets(one: &[u8], other: &[u8]) -> bool
    ensures { result ≡ meets one.now other.now }
{
    covers(one, other) || covers(other, one)
}
